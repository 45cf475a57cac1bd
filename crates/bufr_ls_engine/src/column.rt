//! The columns of a row, and their words.

ghost use Rattle.std.specs.Prelude.{◌≡◌, IfSome};
ghost use Rattle.std.specs.Option.{IfNone};
ghost use Rattle.bufr_ls_engine.specs.Columns.{IsNoColumn, all_columns, word};
ghost use Rattle.bufr_ls_engine.specs.Rows.{is_short};

/// A column of a row.
#[derive(Clone, Copy, Debug, Drop, PartialEq, Eq)]
pub enum Column {
    /// The number of the input, counted from 1.
    Input,
    /// The number of the frame in its input, counted from 1.
    Message,
    /// The place of the frame in its input.
    Place,
    /// The number of octets of the frame.
    Length,
    /// The edition.
    Edition,
    /// The originating centre.
    Centre,
    /// The originating sub-centre.
    SubCentre,
    /// The update sequence number.
    Update,
    /// The data category.
    Category,
    /// The international data sub-category.
    International,
    /// The local data sub-category.
    LocalCategory,
    /// The master table.
    MasterTable,
    /// The version of the master tables.
    MasterVersion,
    /// The version of the local tables.
    LocalVersion,
    /// The year.
    Year,
    /// The month.
    Month,
    /// The day of the month.
    Day,
    /// The hour.
    Hour,
    /// The minute.
    Minute,
    /// The second.
    Second,
    /// The number of subsets.
    Subsets,
    /// 1 for observed data, else 0.
    Observed,
    /// 1 for compressed data, else 0.
    Compressed,
    /// The descriptors of section 3.
    Descriptors,
    /// The refusal of the frame.
    Reason,
}

/// All columns, in their order.
pub(crate) static ALL_COLUMNS: [Column; 25] = [
    Column::Input,
    Column::Message,
    Column::Place,
    Column::Length,
    Column::Edition,
    Column::Centre,
    Column::SubCentre,
    Column::Update,
    Column::Category,
    Column::International,
    Column::LocalCategory,
    Column::MasterTable,
    Column::MasterVersion,
    Column::LocalVersion,
    Column::Year,
    Column::Month,
    Column::Day,
    Column::Hour,
    Column::Minute,
    Column::Second,
    Column::Subsets,
    Column::Observed,
    Column::Compressed,
    Column::Descriptors,
    Column::Reason,
];

impl Column {
    /// Returns the word of the column in the header line.
    #[tactic(auto, unfolding(crate::specs::Columns::word))]
    pub fn word(self) -> &'static str
        ensures { result.now ≡ word self }
    {
        match self {
            Column::Input => "input",
            Column::Message => "message",
            Column::Place => "place",
            Column::Length => "length",
            Column::Edition => "edition",
            Column::Centre => "centre",
            Column::SubCentre => "sub_centre",
            Column::Update => "update",
            Column::Category => "category",
            Column::International => "international",
            Column::LocalCategory => "local_category",
            Column::MasterTable => "master_table",
            Column::MasterVersion => "master_version",
            Column::LocalVersion => "local_version",
            Column::Year => "year",
            Column::Month => "month",
            Column::Day => "day",
            Column::Hour => "hour",
            Column::Minute => "minute",
            Column::Second => "second",
            Column::Subsets => "subsets",
            Column::Observed => "observed",
            Column::Compressed => "compressed",
            Column::Descriptors => "descriptors",
            Column::Reason => "reason",
        }
    }

    /// Returns whether the field of a message is short: in every column but the descriptors.
    #[inline(always)]
    pub(crate) fn is_short(self) -> bool
        ensures { result ≡ is_short self }
    {
        !matches!(self, Column::Descriptors)
    }

    /// Returns all columns, in their order.
    #[tactic(auto, unfolding(crate::specs::Columns::all_columns))]
    pub fn all() -> &'static [Column]
        ensures { result.now ≡ all_columns }
    {
        &ALL_COLUMNS
    }

    /// Returns the column of a word.
    pub fn from_word(text: &str) -> Option<Column>
        ensures named { IfSome result (λ column. word column ≡ text.now) }
        ensures none { IfNone result (IsNoColumn text.now) }
    {
        let columns = Column::all();
        for column in columns {
            if column.word() == text {
                return Some(*column);
            }
        }
        None
    }
}
