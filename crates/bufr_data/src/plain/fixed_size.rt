//! Finds the common size of plain subsets: if the template has no count, all have equal bits and
//! items.

ghost use Rattle.std.specs.Prelude.{IfOk, IfSome};
ghost use Rattle.bufr_data.specs.Plain.Alike.{IsAlike, IsKnown};

use crate::plain::pass::bits_of;
use bufr_base::OutOfMemory;
use bufr_bits::BitReader;
use bufr_expand::{Step, Template, Walk};
use std::alloc::Global;

/// A size that all plain subsets have.
#[derive(Clone, Copy, PartialEq)]
pub(crate) struct Alike {
    pub(crate) bits: u64,
    pub(crate) items: u64,
}

// The size moves as two words, without padding.
const _: () = prove!(size_of::<Alike>() == 16);

/// A common size, if known. `Unasked`: not looked for, or the bits were too few. `Varied`: there is
/// none.
#[derive(Clone, Copy, PartialEq)]
pub(crate) enum FixedSize {
    Unasked,
    Same(Alike),
    Varied,
}

impl FixedSize {
    /// Walks the template once to find the common size, if the reader has that many bits left.
    fn within(
        alloc: Global,
        template: &Template,
        reader: &BitReader,
    ) -> Result<FixedSize, OutOfMemory>
        ensures { IfOk result (IsKnown template.now) }
    {
        let most = reader.left().min(u64::MAX as u128) as u64;
        let mut walk = Walk::start(alloc, template, 0)?;
        let mut bits = 0;
        loop {
            if let Some(run) = walk.pass_turns((most - bits) as u128) {
                bits += run.bits as u64;
                continue;
            }
            match walk.next() {
                Ok(Step::Field(_, spec)) => match bits_of(spec) {
                    Some(more) if more <= most - bits => bits += more,
                    Some(_) => return Ok(FixedSize::Unasked),
                    None => return Ok(FixedSize::Varied),
                },
                Ok(Step::End) => {
                    let items = walk.items();
                    return Ok(FixedSize::Same(Alike { bits, items }));
                }
                Ok(Step::Count(_, _)) | Err(_) => return Ok(FixedSize::Varied),
            }
        }
    }

    /// Returns the common size, and finds it on the first call.
    pub(crate) fn find_once(
        &mut self,
        alloc: Global,
        template: &Template,
        reader: &BitReader,
    ) -> Result<Option<Alike>, OutOfMemory>
        requires { IsKnown template.now self.old }
        ensures found { IfOk result (λ found. IfSome found (IsAlike template.now)) }
        ensures kept { IsKnown template.now self.new }
    {
        if let FixedSize::Unasked = self {
            *self = FixedSize::within(alloc, template, reader)?;
        }
        match self {
            FixedSize::Same(each) => Ok(Some(*each)),
            FixedSize::Unasked | FixedSize::Varied => Ok(None),
        }
    }
}
