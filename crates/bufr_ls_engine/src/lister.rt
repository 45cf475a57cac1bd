//! The writer of rows.

ghost use Rattle.std.specs.Prelude.{◌≡◌, ◌<◌, ◌+◌, ◌^◌, false, [], OnErr, OnOk};
ghost use Rattle.bufr_io.specs.Engines.{WritesAfter};
ghost use Rattle.bufr_io.specs.Taking.{frame_at};
ghost use Rattle.bufr_ls_engine.specs.Listers.{HoldsRow, IsUnchanged, Keeps, Stops, WritesHeader};

use crate::column::Column;
use crate::column_list::ColumnList;
use crate::last_fields::LastFields;
use crate::last_version::LastVersion;
use crate::numbers::push_octet_line;
use crate::row::{Numbered, hold_row, push_header};
use bufr_base::OutOfMemory;
use bufr_bits::Sink;
use bufr_io::{HeldRows, ToolFault, write_out};
use std::alloc::Global;

/// A writer of rows, which holds the rows of a piece and writes them together.
#[derive(Drop)]
pub(crate) struct Lister<'c> {
    /// The columns of the rows.
    pub(crate) columns: ColumnList<'c>,
    /// The number of the input, counted from 1.
    pub(crate) input: u128,
    /// The count of frames of the input.
    pub(crate) frames: u128,
    /// The count of refused frames of the input.
    pub(crate) refused: u128,
    pub(crate) rows: HeldRows,
    /// The fields of the last row, if the rows have all columns.
    pub(crate) last: LastFields,
    /// The version of the last message, if the rows have it alone.
    pub(crate) version: LastVersion,
}

impl<'c> Lister<'c> {
    pub(crate) fn new(alloc: Global, columns: &'c [Column]) -> Lister<'c>
        ensures columns { result.columns.now ≡ columns.now }
        ensures written { result.rows.written ≡ 0 }
        ensures held { result.rows.held.items ≡ [] }
    {
        Lister {
            columns: ColumnList::new(columns),
            input: 0,
            frames: 0,
            refused: 0,
            rows: HeldRows::new(alloc),
            last: LastFields::new(alloc),
            version: LastVersion::new(),
        }
    }

    pub(crate) fn begin(&mut self, input: u128)
        ensures { self.new ≡ record self.old { input = input; frames = 0; refused = 0 } }
    {
        self.input = input;
        self.frames = 0;
        self.refused = 0;
    }

    pub(crate) fn write_header<W: Sink>(&mut self, writer: &mut W) -> Result<(), ToolFault>
        requires works { (W.writing writer.old).failed ≡ false }
        requires none { self.old.rows.held.items ≡ [] }
        ensures writes { WritesHeader self.old self.new (W.writing writer.old)
            (W.writing writer.new) result }
        ensures keeps { Keeps self.old self.new }
    {
        push_header(&mut self.rows.held, self.columns.as_slice())?;
        self.rows.write(writer)
    }

    pub(crate) fn hand_on<W: Sink>(&self, writer: &mut W) -> Result<(), ToolFault>
        requires works { (W.writing writer.old).failed ≡ false }
        ensures { WritesAfter self.now.rows.written [] (W.writing writer.old) (W.writing writer.new) result }
    {
        write_out(writer, self.rows.written, b"")
    }

    /// Holds the row of the frame of octets at a place, and counts the frame.
    #[inline(always)]
    pub(crate) fn hold_frame(
        &mut self,
        alloc: Global,
        place: u64,
        octets: &[u8],
    ) -> Result<(), OutOfMemory>
        requires frames { self.old.frames + 1 < 2 ^ 128 }
        requires refused { self.old.refused + 1 < 2 ^ 128 }
        ensures ok { OnOk result (HoldsRow self.old self.new (frame_at place octets.now)) }
        ensures err { OnErr result (IsUnchanged self.old self.new) }
    {
        if self.columns.is_master_version() {
            if let Some(version) = self.version.version_of(octets) {
                push_octet_line(&mut self.rows.held, version)?;
                self.frames += 1;
                return Ok(());
            }
        }
        self.hold_any_frame(alloc, place, octets)
    }

    /// Does what `hold_frame` does, for any frame and any columns.
    #[inline(never)]
    fn hold_any_frame(
        &mut self,
        alloc: Global,
        place: u64,
        octets: &[u8],
    ) -> Result<(), OutOfMemory>
        requires frames { self.old.frames + 1 < 2 ^ 128 }
        requires refused { self.old.refused + 1 < 2 ^ 128 }
        ensures ok { OnOk result (HoldsRow self.old self.new (frame_at place octets.now)) }
        ensures err { OnErr result (IsUnchanged self.old self.new) }
    {
        let frame = Numbered {
            input: self.input,
            message: self.frames + 1,
            place,
            octets,
        };
        let rows = &mut self.rows.held;
        let refused = hold_row(alloc, rows, &self.columns, &mut self.last, &frame)?;
        self.frames += 1;
        self.refused += u128::from(refused);
        Ok(())
    }

    /// Writes the rows that wait when memory ran out, and returns the fault, perhaps the writer's.
    pub(crate) fn stop<W: Sink>(&mut self, writer: &mut W) -> ToolFault
        requires works { (W.writing writer.old).failed ≡ false }
        ensures { Stops self.old (W.writing writer.old) (W.writing writer.new) result }
    {
        match self.rows.write(writer) {
            Ok(()) => ToolFault::OutOfMemory,
            Err(fault) => fault,
        }
    }
}
