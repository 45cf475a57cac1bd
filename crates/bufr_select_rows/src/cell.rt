//! The cells of a row.

ghost use Rattle.std.specs.Prelude.{◌≡◌, true, OnOk, if◌then◌else◌};
ghost use Rattle.bufr_fields.specs.Values.{as_field};
ghost use Rattle.bufr_select_rows.specs.Cells.{begun, counted, fresh, is_settled, noted, opened};
ghost use Rattle.bufr_select_rows.specs.Cells.{put_before, shown, waits_for};
ghost use Rattle.bufr_select_rows.specs.Rows.{origin};
ghost use Rattle.bufr_select_rows.specs.ShortCells.{counted_short, noted_short};
ghost use Rattle.bufr_select_rows.specs.TextCells.{counted_text, noted_text};

use crate::column::Column;
use crate::origin::Origin;
use crate::text::Text;
use bufr_base::OutOfMemory;
use bufr_data::ShortNumber;
use bufr_fields::{Field, NumberField};
use bufr_tables::Fxy;
use std::alloc::Global;

/// A column, and what the fields up to now gave it.
#[derive(Drop)]
pub struct Cell {
    pub column: Column,
    /// The number of the column's fields up to the one to show; 0 after it.
    pub ahead: u64,
    /// The text if the span has no such field.
    pub before: Text,
    /// The text of that field.
    pub here: Text,
}

impl Cell {
    pub(crate) fn new(alloc: Global, column: Column) -> Cell
        ensures { result ≡ fresh column }
    {
        Cell {
            column,
            ahead: 0,
            before: Text::new(alloc),
            here: Text::new(alloc),
        }
    }

    /// Begins a subset.
    pub(crate) fn begin(&mut self, from: &Origin<'_>) -> Result<(), OutOfMemory>
        ensures { OnOk result (self.new ≡ begun (origin from.now) self.old.column) }
    {
        self.open();
        let column = self.column;
        match column {
            Column::Fact(fact) => self.before.put_number(from.number(fact)),
            Column::First(_) | Column::Nth(_, _) => {
                self.before.clear();
                Ok(())
            }
        }
    }

    /// Opens a span.
    pub(crate) fn open(&mut self)
        ensures { self.new ≡ opened self.old }
    {
        self.here.clear();
        let column = self.column;
        self.ahead = match column {
            Column::Fact(_) | Column::First(_) => 1,
            Column::Nth(_, number) => number,
        };
    }

    /// Notes a field of a span, or one before all spans.
    #[inline(always)]
    pub(crate) fn note(&mut self, in_span: bool, field: &Field) -> Result<(), OutOfMemory>
        ensures { OnOk result (self.new ≡ noted in_span field.now self.old) }
    {
        let column = self.column;
        match column {
            Column::Fact(_) => Ok(()),
            Column::First(fxy) => {
                if in_span {
                    self.count_if(field.fxy == fxy, field)
                } else {
                    self.put_if(field.fxy == fxy, field)
                }
            }
            Column::Nth(fxy, _) => {
                if in_span {
                    self.count_if(field.fxy == fxy, field)
                } else {
                    Ok(())
                }
            }
        }
    }

    /// Notes a field with a number of a span.
    #[inline(always)]
    pub(crate) fn note_number(&mut self, number: NumberField)
        ensures { self.new ≡ noted true (as_field number) self.old }
    {
        let column = self.column;
        match column {
            Column::Fact(_) => {}
            Column::First(fxy) => self.count_number_if(number.fxy == fxy, number),
            Column::Nth(fxy, _) => self.count_number_if(number.fxy == fxy, number),
        }
    }

    /// Notes a field with a short number in a span.
    #[inline(always)]
    pub(crate) fn note_short(&mut self, short: ShortNumber)
        ensures { self.new ≡ noted_short short self.old }
    {
        let column = self.column;
        match column {
            Column::Fact(_) => {}
            Column::First(fxy) => self.count_short_if(short.fxy == fxy, short),
            Column::Nth(fxy, _) => self.count_short_if(short.fxy == fxy, short),
        }
    }

    /// Counts a field with a short number if `is`, and shows it if it is the one to show.
    #[inline(always)]
    fn count_short_if(&mut self, is: bool, short: ShortNumber)
        ensures { self.new ≡ (if is then counted_short short self.old else self.old) }
    {
        if is {
            self.count_short(short);
        }
    }

    #[inline(always)]
    fn count_short(&mut self, short: ShortNumber)
        ensures { self.new ≡ counted_short short self.old }
    {
        if self.ahead == 0 {
            return;
        }
        self.ahead -= 1;
        if self.ahead > 0 {
            return;
        }
        self.here.keep_short(short);
    }

    /// Notes a field with the octets of a text in a span.
    pub(crate) fn note_text(&mut self, fxy: Fxy, octets: &[u8]) -> Result<(), OutOfMemory>
        ensures { OnOk result (self.new ≡ noted_text fxy octets.now self.old) }
    {
        let column = self.column;
        match column {
            Column::Fact(_) => Ok(()),
            Column::First(asked) => self.count_text_if(fxy == asked, octets),
            Column::Nth(asked, _) => self.count_text_if(fxy == asked, octets),
        }
    }

    /// Counts a text if `is`, and shows it if it is the one to show.
    fn count_text_if(&mut self, is: bool, octets: &[u8]) -> Result<(), OutOfMemory>
        ensures { OnOk result (self.new
            ≡ (if is then counted_text octets.now self.old else self.old)) }
    {
        if !is || self.ahead == 0 {
            return Ok(());
        }
        self.ahead -= 1;
        if self.ahead > 0 {
            return Ok(());
        }
        self.here.put_text(octets)
    }

    /// Counts a field with a number in a span if `is`, and shows it if it is the one to show.
    #[inline(always)]
    fn count_number_if(&mut self, is: bool, number: NumberField)
        ensures { self.new ≡ (if is then counted (as_field number) self.old else self.old) }
    {
        if is {
            self.count_number(number);
        }
    }

    #[inline(always)]
    fn count_number(&mut self, number: NumberField)
        ensures { self.new ≡ counted (as_field number) self.old }
    {
        if self.ahead == 0 {
            return;
        }
        self.ahead -= 1;
        if self.ahead > 0 {
            return;
        }
        self.here.keep(number);
    }

    /// Counts a field in a span if `is`.
    #[inline(always)]
    fn count_if(&mut self, is: bool, field: &Field) -> Result<(), OutOfMemory>
        ensures { OnOk result (self.new ≡ (if is then counted field.now self.old else self.old)) }
    {
        if is { self.count(field) } else { Ok(()) }
    }

    /// Puts the value of a field before all spans if `is`.
    #[inline(always)]
    fn put_if(&mut self, is: bool, field: &Field) -> Result<(), OutOfMemory>
        ensures { OnOk result (self.new ≡ (if is then put_before field.now self.old
            else self.old)) }
    {
        if is {
            self.before.put_octets(field)
        } else {
            Ok(())
        }
    }

    /// Counts a field of the column, and shows it if it is the one to show.
    fn count(&mut self, field: &Field) -> Result<(), OutOfMemory>
        ensures { OnOk result (self.new ≡ counted field.now self.old) }
    {
        if self.ahead == 0 {
            return Ok(());
        }
        self.ahead -= 1;
        if self.ahead > 0 {
            return Ok(());
        }
        self.here.put_value(field)
    }

    /// Returns whether no later field of the span changes the text.
    #[inline(always)]
    pub(crate) fn is_settled(&self) -> bool
        ensures { result ≡ is_settled self.now }
    {
        if self.ahead == 0 {
            return true;
        }
        let column = self.column;
        match column {
            Column::Fact(_) => true,
            Column::First(_) | Column::Nth(_, _) => false,
        }
    }

    /// Returns whether a field with a descriptor may change the text.
    #[inline(always)]
    pub(crate) fn waits_for(&self, fxy: Fxy) -> bool
        ensures { result ≡ waits_for fxy self.now }
    {
        let column = self.column;
        match column {
            Column::Fact(_) => false,
            Column::First(asked) | Column::Nth(asked, _) => self.ahead > 0 && fxy == asked,
        }
    }

    /// Returns the text of the cell.
    #[inline(always)]
    pub(crate) fn shown(&self) -> &Text
        ensures { result.now ≡ shown self.now }
    {
        if self.ahead == 0 {
            &self.here
        } else {
            &self.before
        }
    }
}
