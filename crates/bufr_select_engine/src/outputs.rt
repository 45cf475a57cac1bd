//! Where rows and refusals go.

ghost use Rattle.std.specs.Prelude.{◌≡◌};
ghost use Rattle.bufr_select_engine.specs.Tells.{Tells};

use bufr_bits::Sink;
use bufr_bits::device::write_all;

/// A writer of rows, and one of refusals.
#[derive(Drop)]
pub struct Outputs<W, E> {
    /// The writer of rows.
    pub rows: W,
    /// The writer of the lines of refused frames.
    pub refusals: E,
}

/// Writes a line, unless the writer failed before, and returns whether it failed.
pub(crate) fn tell<E: Sink>(unheard: bool, line: &[u8], writer: &mut E) -> bool
    requires heard { (E.writing writer.old).failed ≡ unheard }
    ensures tells { Tells line.now unheard (E.writing writer.old) result (E.writing writer.new) }
    ensures heard { (E.writing writer.new).failed ≡ result }
{
    if unheard {
        return true;
    }
    match write_all(writer, line) {
        Ok(()) => false,
        Err(_) => true,
    }
}
