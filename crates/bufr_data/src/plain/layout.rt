//! Lays out the fields that plain subsets share: those before the first count.

ghost use Rattle.std.specs.Prelude.{◌≡◌, ◌+◌, ◌≤◌, IfOk, IfSome};
ghost use Rattle.std.specs.Bool.{OnTrue};
ghost use Rattle.bufr_expand.specs.Limits.{most_items};
ghost use Rattle.bufr_data.specs.Plain.Layouts.{HasPlaces, IsLaid, TellsNext};
ghost use Rattle.bufr_fields.specs.Steady.{IsReady};

use crate::chosen::Listed;
use crate::plain::places::{ChosenPlace, place_fields};
use bufr_base::{Items, OutOfMemory};
use bufr_expand::laws::courses_are_unrollings;
use bufr_expand::{Asks, CommonField, MOST_ITEMS, Step, Template, Walk};
use std::alloc::Global;

/// The most fields of a layout.
const MOST_LAID_FIELDS: usize = 4096;

/// A layout: the first fields of every subset in order, the number of their items, and the places
/// of the fields asked for. No field asked for comes later.
#[derive(Drop)]
pub(crate) struct Layout {
    pub(crate) fields: Items<CommonField>,
    /// Whether these are all fields of a subset.
    pub(crate) is_whole: bool,
    pub(crate) items: u64,
    pub(crate) asked: Items<u16>,
    pub(crate) places: Items<ChosenPlace>,
}

impl Layout {
    /// Walks the template, and places the fields of the descriptors asked for. It lays out all
    /// fields if it can, else those up to the last one asked for. `None` if a count, a field
    /// without a spec, or too many fields or bits come before that.
    pub(crate) fn of(
        alloc: Global,
        template: &Template,
        asked: &[u16],
    ) -> Result<Option<Layout>, OutOfMemory>
        ensures { IfOk result (λ found. IfSome found (IsLaid template.now)) }
    {
        courses_are_unrollings();
        let mut walk = Walk::start(alloc, template, 0)?;
        let mut fields = Vec::new(alloc);
        loop {
            match next_laid(&mut walk) {
                Ok(Some(field)) if fields.len() < MOST_LAID_FIELDS => fields.push(field)?,
                Ok(None) => {
                    let items = walk.items();
                    return laid_out(alloc, asked, fields, true, items);
                }
                _ => return Layout::up_to_last(alloc, template, asked),
            }
        }
    }

    /// Lays out the fields up to the last that is asked for.
    fn up_to_last(
        alloc: Global,
        template: &Template,
        asked: &[u16],
    ) -> Result<Option<Layout>, OutOfMemory>
        ensures { IfOk result (λ found. IfSome found (IsLaid template.now)) }
    {
        let listed = Listed { list: asked };
        let mut walk = Walk::start(alloc, template, 0)?;
        let mut fields = Vec::new(alloc);
        while let Ok(Some(field)) = next_laid(&mut walk) {
            if fields.len() == MOST_LAID_FIELDS {
                return Ok(None);
            }
            let fxy = field.fxy;
            fields.push(field)?;
            if listed.asks(fxy) && walk.has_no_more(&listed) {
                let items = walk.items();
                return laid_out(alloc, asked, fields, false, items);
            }
        }
        Ok(None)
    }

    /// Returns whether the message has room for one more subset.
    pub(crate) fn has_room(&self, used: u64) -> bool
        ensures { OnTrue result (used + self.now.items ≤ most_items) }
    {
        used <= MOST_ITEMS && self.items <= MOST_ITEMS - used
    }
}

/// Makes the layout of these fields and items, if 64 bits can count the bits between its places.
fn laid_out(
    alloc: Global,
    asked: &[u16],
    fields: Vec<CommonField>,
    is_whole: bool,
    items: u64,
) -> Result<Option<Layout>, OutOfMemory>
    ensures { IfOk result (λ found. IfSome found
        (HasPlaces asked.now fields.items is_whole items)) }
{
    let Some(places) = place_fields(alloc, asked, &fields)? else {
        return Ok(None);
    };
    let asked = Vec::from_slice(alloc, asked)?;
    Ok(Some(Layout {
        fields: Items::from_vec(fields),
        is_whole,
        items,
        asked: Items::from_vec(asked),
        places: Items::from_vec(places),
    }))
}

/// Returns the next field of a walk, `None` at its end, or an error at a count or fault.
fn next_laid(walk: &mut Walk) -> Result<Option<CommonField>, ()>
    requires { IsReady walk.old }
    ensures { IfOk result (λ next. TellsNext walk.old next walk.new) }
{
    let step = match walk.next() {
        Err(_) => return Err(()),
        Ok(step) => step,
    };
    match step {
        Step::End => Ok(None),
        Step::Field(fxy, spec) => Ok(Some(CommonField { fxy, spec })),
        Step::Count(_, _) => Err(()),
    }
}
