//! Facts about a subset as a whole, and their words.

ghost use Rattle.std.specs.Prelude.{◌≡◌, IfSome};
ghost use Rattle.std.specs.Option.{IfNone};
ghost use Rattle.bufr_select_rows.specs.Columns.{IsNoToldWord, all_told, told_word};

/// A fact about a subset: where it comes from, or what sections 1 and 3 say. Numbers count from 1.
#[derive(Clone, Copy, Debug, Drop, PartialEq, Eq)]
pub enum Fact {
    /// The number of the input.
    Input,
    /// The number of the frame in its input.
    Message,
    /// The place of the frame in its input.
    Place,
    /// The number of the subset in its message.
    Subset,
    Centre,
    SubCentre,
    /// The update sequence number.
    Update,
    /// The data category.
    Category,
    /// The international data sub-category.
    International,
    /// The local data sub-category.
    LocalCategory,
    /// The version of the master tables.
    MasterVersion,
    /// The version of the local tables.
    LocalVersion,
    Year,
    Month,
    Day,
    Hour,
    Minute,
    Second,
    /// 1 for observed data, else 0.
    Observed,
    /// 1 for compressed data, else 0.
    Compressed,
}

static ALL_TOLD: [Fact; 20] = [
    Fact::Input,
    Fact::Message,
    Fact::Place,
    Fact::Subset,
    Fact::Centre,
    Fact::SubCentre,
    Fact::Update,
    Fact::Category,
    Fact::International,
    Fact::LocalCategory,
    Fact::MasterVersion,
    Fact::LocalVersion,
    Fact::Year,
    Fact::Month,
    Fact::Day,
    Fact::Hour,
    Fact::Minute,
    Fact::Second,
    Fact::Observed,
    Fact::Compressed,
];

impl Fact {
    #[tactic(auto, unfolding(crate::specs::Columns::told_word))]
    pub fn word(self) -> &'static str
        ensures { result.now ≡ told_word self }
    {
        match self {
            Fact::Input => "input",
            Fact::Message => "message",
            Fact::Place => "place",
            Fact::Subset => "subset",
            Fact::Centre => "centre",
            Fact::SubCentre => "sub_centre",
            Fact::Update => "update",
            Fact::Category => "category",
            Fact::International => "international",
            Fact::LocalCategory => "local_category",
            Fact::MasterVersion => "master_version",
            Fact::LocalVersion => "local_version",
            Fact::Year => "year",
            Fact::Month => "month",
            Fact::Day => "day",
            Fact::Hour => "hour",
            Fact::Minute => "minute",
            Fact::Second => "second",
            Fact::Observed => "observed",
            Fact::Compressed => "compressed",
        }
    }

    /// Returns all facts, in their order.
    #[tactic(auto, unfolding(crate::specs::Columns::all_told))]
    pub fn all() -> &'static [Fact]
        ensures { result.now ≡ all_told }
    {
        &ALL_TOLD
    }

    pub fn from_word(text: &str) -> Option<Fact>
        ensures named { IfSome result (λ fact. told_word fact ≡ text.now) }
        ensures none { IfNone result (IsNoToldWord text.now) }
    {
        let facts = Fact::all();
        for fact in facts {
            if fact.word() == text {
                return Some(*fact);
            }
        }
        None
    }
}
