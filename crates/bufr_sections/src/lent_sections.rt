//! Sections 1 to 3 of a message, lent.

ghost use Rattle.std.specs.Prelude.{◌≡◌};
ghost use Rattle.bufr_sections.specs.SectionsRead.{message_lent};

use crate::message::{Head, Message};
use bufr_base::Items;
use bufr_tables::Fxy;

/// A loan of sections 1 to 3 from a message, a view or a report. Lacks the number of subsets.
#[derive(Clone, Copy, Debug)]
pub struct LentSections<'a> {
    /// Section 1.
    pub head: &'a Head,
    /// The octets for local use of section 2, if there is one.
    pub section2: &'a Option<Items<u8>>,
    /// The flag for observed data.
    pub observed: bool,
    /// The flag for compressed data.
    pub compressed: bool,
    /// The descriptors of section 3.
    pub descriptors: &'a [Fxy],
}

impl<'a> LentSections<'a> {
    /// Lends the sections of a message.
    pub fn of_message(message: &'a Message) -> LentSections<'a>
        ensures { message_lent result message.now.subsets ≡ message.now }
    {
        LentSections {
            head: &message.head,
            section2: &message.section2,
            observed: message.observed,
            compressed: message.compressed,
            descriptors: message.descriptors.as_slice(),
        }
    }
}
