//! Rows that wait to be written.

ghost use Rattle.std.specs.Prelude.{◌≡◌, ◌<◌, ◌+◌, ◌^◌, false, [], OnOk};
ghost use Rattle.bufr_io.specs.Lines.{AreWholeLines};
ghost use Rattle.bufr_io.specs.HeldTexts.{PutsOrStops, WritesHeld};

use crate::fault::ToolFault;
use crate::output::write_after;
use bufr_bits::Sink;
use std::alloc::Global;

/// The length at which `put` writes rows.
const LONGEST_HELD: usize = 65_536;

/// A text of rows that wait to be written together.
#[derive(Drop)]
pub struct HeldRows {
    /// The number of octets that the writer took.
    pub written: u128,
    /// The rows that wait.
    pub held: Vec<u8>,
}

impl HeldRows {
    pub fn new(alloc: Global) -> HeldRows
        ensures written { result.written ≡ 0 }
        ensures held { result.held.items ≡ [] }
    {
        HeldRows {
            written: 0,
            held: Vec::new(alloc),
        }
    }

    /// Holds a row, and writes all rows if they are long.
    pub fn put<W: Sink>(&mut self, row: &[u8], writer: &mut W) -> Result<(), ToolFault>
        requires works { (W.writing writer.old).failed ≡ false }
        requires whole { AreWholeLines row.now }
        ensures puts { PutsOrStops row.now self.old (W.writing writer.old) self.new
            (W.writing writer.new) result }
        ensures works { OnOk result ((W.writing writer.new).failed ≡ false) }
    {
        self.held.extend_from_slice(row)?;
        if self.held.len() < LONGEST_HELD {
            return Ok(());
        }
        self.write(writer)
    }

    /// Writes all rows. Returns `OutOfMemory` if it can't count the octets.
    pub fn write<W: Sink>(&mut self, writer: &mut W) -> Result<(), ToolFault>
        requires works { (W.writing writer.old).failed ≡ false }
        ensures writes { WritesHeld self.old self.new (W.writing writer.old) (W.writing writer.new)
            result }
        ensures works { OnOk result ((W.writing writer.new).failed ≡ false) }
    {
        if self.held.is_empty() {
            return Ok(());
        }
        let Some(written) = self.written.checked_add(self.held.len() as u128) else {
            return Err(ToolFault::OutOfMemory);
        };
        write_after(writer, self.written, &self.held)?;
        self.written = written;
        self.held.clear();
        Ok(())
    }
}
