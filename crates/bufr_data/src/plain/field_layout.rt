//! Decides when to lay out the fields of a template.

ghost use Rattle.std.specs.Prelude.{IfOk, IfSome};
ghost use Rattle.bufr_data.specs.Plain.Layouts.{IsLaid, IsFieldLayout};

use crate::plain::layout::Layout;
use bufr_base::OutOfMemory;
use bufr_expand::Template;
use std::alloc::Global;
use std::rc::Rc;

/// The fewest subsets of a template's first message that pay for a layout. A layout costs about two
/// walks.
const MANY_SUBSETS: u16 = 8;

/// A template's layout, if it pays. Many templates serve one message only, so a first message of
/// few subsets gets none.
#[derive(Drop)]
pub(crate) enum FieldLayout {
    Unserved,
    Served,
    Laid(Rc<Layout>),
    Unlaid,
}

impl FieldLayout {
    /// Notes a message of `count` subsets and returns the layout, if there is one. A new one has the
    /// places of the descriptors asked for.
    pub(crate) fn serve(
        &mut self,
        alloc: Global,
        template: &Template,
        asked: &[u16],
        count: u16,
    ) -> Result<Option<Rc<Layout>>, OutOfMemory>
        requires { IsFieldLayout template.now self.old }
        ensures found { IfOk result (λ found. IfSome found (λ layout.
            IsLaid template.now layout.value)) }
        ensures kept { IsFieldLayout template.now self.new }
    {
        match self {
            FieldLayout::Unserved if count < MANY_SUBSETS => {
                *self = FieldLayout::Served;
                Ok(None)
            }
            FieldLayout::Unserved | FieldLayout::Served => self.lay_out(alloc, template, asked),
            FieldLayout::Laid(layout) => Ok(Some(layout.clone()?)),
            FieldLayout::Unlaid => Ok(None),
        }
    }

    /// Makes and keeps the layout, or keeps that there is none.
    fn lay_out(
        &mut self,
        alloc: Global,
        template: &Template,
        asked: &[u16],
    ) -> Result<Option<Rc<Layout>>, OutOfMemory>
        requires { IsFieldLayout template.now self.old }
        ensures found { IfOk result (λ found. IfSome found (λ layout.
            IsLaid template.now layout.value)) }
        ensures kept { IsFieldLayout template.now self.new }
    {
        match Layout::of(alloc, template, asked)? {
            None => {
                *self = FieldLayout::Unlaid;
                Ok(None)
            }
            Some(layout) => {
                let layout = Rc::new(alloc, layout)?;
                let shared = layout.clone()?;
                *self = FieldLayout::Laid(layout);
                Ok(Some(shared))
            }
        }
    }
}
