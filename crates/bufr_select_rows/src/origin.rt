ghost use Rattle.std.specs.Prelude.{◌≡◌};
ghost use Rattle.bufr_select_rows.specs.Rows.{origin, told_number};

use crate::fact::Fact;
use bufr_sections::Head;

/// A subset of a message, with what sections 1 and 3 say of it. Numbers count from 1.
#[derive(Clone, Copy)]
pub struct Origin<'a> {
    /// The number of the input.
    pub input: u128,
    /// The number of the frame in its input.
    pub message: u128,
    /// The place of the frame in its input.
    pub place: u64,
    /// The number of the subset in its message.
    pub subset: u64,
    /// Section 1.
    pub head: &'a Head,
    pub observed: bool,
    pub compressed: bool,
}

impl<'a> Origin<'a> {
    /// Returns the number of a fact.
    #[inline(always)]
    #[tactic(auto, unfolding(crate::specs::Rows::told_number))]
    pub(crate) fn number(&self, fact: Fact) -> u128
        ensures { result ≡ told_number fact (origin self.now) }
    {
        let number = match fact {
            Fact::Input => return self.input,
            Fact::Message => return self.message,
            Fact::Place => return u128::from(self.place),
            Fact::Subset => return u128::from(self.subset),
            Fact::Centre => self.head.centre,
            Fact::SubCentre => self.head.sub_centre,
            Fact::Update => u16::from(self.head.update),
            Fact::Category => u16::from(self.head.category),
            Fact::International => u16::from(self.head.international),
            Fact::LocalCategory => u16::from(self.head.local_category),
            Fact::MasterVersion => u16::from(self.head.master_version),
            Fact::LocalVersion => u16::from(self.head.local_version),
            Fact::Year => self.head.year,
            Fact::Month => u16::from(self.head.month),
            Fact::Day => u16::from(self.head.day),
            Fact::Hour => u16::from(self.head.hour),
            Fact::Minute => u16::from(self.head.minute),
            Fact::Second => u16::from(self.head.second),
            Fact::Observed => u16::from(self.observed),
            Fact::Compressed => u16::from(self.compressed),
        };
        u128::from(number)
    }
}
