//! Outputs, written whole.

ghost use Rattle.std.specs.Prelude.{◌≡◌, ◌+◌, ◌<◌, ◌^◌, false, length};
ghost use Rattle.bufr_io.specs.Engines.{WritesAfter};

use crate::fault::ToolFault;
use bufr_bits::Sink;
use bufr_bits::device::write_all;

/// Writes all of a text after `before` octets of the output.
pub fn write_after<W: Sink>(writer: &mut W, before: u128, text: &[u8]) -> Result<(), ToolFault>
    requires works { (W.writing writer.old).failed ≡ false }
    requires fits { before + length text.now < 2 ^ 128 }
    ensures { WritesAfter before text.now (W.writing writer.old) (W.writing writer.new) result }
{
    match write_all(writer, text) {
        Ok(()) => Ok(()),
        Err(fault) => Err(ToolFault::WriteFailed {
            written: before + fault.written as u128,
        }),
    }
}

/// Writes all of a text after `before` octets of the output, and flushes the writer.
pub fn write_out<W: Sink>(writer: &mut W, before: u128, text: &[u8]) -> Result<(), ToolFault>
    requires works { (W.writing writer.old).failed ≡ false }
    requires fits { before + length text.now < 2 ^ 128 }
    ensures { WritesAfter before text.now (W.writing writer.old) (W.writing writer.new) result }
{
    write_after(writer, before, text)?;
    match writer.flush() {
        Ok(()) => Ok(()),
        Err(_) => Err(ToolFault::WriteFailed {
            written: before + text.len() as u128,
        }),
    }
}
