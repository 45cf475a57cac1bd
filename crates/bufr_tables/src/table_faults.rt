ghost use Rattle.std.specs.Prelude.{◌≡◌, Some};
ghost use Rattle.bufr_tables.specs.Titles.{title};

use crate::fxy::Fxy;
use std::fmt;
use thiserror::Error;

/// A column that a table file needs.
#[derive(Clone, Copy, Debug, PartialEq, Eq)]
pub enum Column {
    /// The descriptor of an element.
    Fxy,
    /// Its unit.
    Unit,
    /// Its scale.
    Scale,
    /// Its reference value.
    ReferenceValue,
    /// Its data width in bits.
    DataWidth,
    /// The descriptor of a sequence.
    Fxy1,
    /// A descriptor in the sequence.
    Fxy2,
}

impl Column {
    pub(crate) fn title(self) -> &'static str
        ensures { result.now ≡ title self }
    {
        match self {
            Column::Fxy => "FXY",
            Column::Unit => "BUFR_Unit",
            Column::Scale => "BUFR_Scale",
            Column::ReferenceValue => "BUFR_ReferenceValue",
            Column::DataWidth => "BUFR_DataWidth_Bits",
            Column::Fxy1 => "FXY1",
            Column::Fxy2 => "FXY2",
        }
    }
}

/// Prints the title.
impl fmt::Display for Column {
    ghost output = { λ c. Some (title c) };

    fn fmt<W: fmt::Write>(&self, f: &mut fmt::Formatter<W>) -> fmt::Result {
        f.write_str(self.title())
    }
}

/// A fault of a table file, the first. Records count from 1, the header included.
#[derive(Clone, Copy, Debug, Drop, PartialEq, Eq, Error)]
pub enum TableFault {
    /// The header lacks a column.
    #[error("B1 NoColumn {0}")]
    NoColumn(Column),
    /// A record and the header differ in length.
    #[error("B2 NotCsv {0}")]
    NotCsv(u64),
    /// A field of the record does not fit its column.
    #[error("B3 BadRow {0}")]
    BadRow(u64),
    /// Two rows of one element differ.
    #[error("B4 Conflict {0}")]
    Conflict(Fxy),
    /// Other rows come between those of a sequence.
    #[error("B5 SplitSequence {0}")]
    SplitSequence(Fxy),
}
