//! Writes a listing to a device.

ghost use Rattle.std.specs.Prelude.{◌≡◌, ◌≤◌, ℕ, true, false, length, take, OnOk, Err};
ghost use Rattle.bufr_bits.specs.Devices.{Writes};
ghost use Rattle.bufr_listing.specs.Listings.{listing};

use crate::text::text_of;
use bufr_bits::Sink;
use bufr_bits::device::write_all;
use bufr_sections::Message;
use std::alloc::Global;
use thiserror::Error;

/// A fault of writing a listing.
#[derive(Clone, Copy, Debug, Drop, PartialEq, Eq, Error)]
pub enum ListingWriteFault {
    /// The writer failed after `written` octets of the listing.
    #[error("write failed after {written} octets")]
    WriteFailed { written: u128 },
    /// Memory ran out before the first octet.
    #[error("out of memory")]
    OutOfMemory,
}

/// Writes the listing of a message. A writer that fails has taken as many octets as the fault
/// counts.
pub fn write<W: Sink>(
    alloc: Global,
    message: &Message,
    writer: &mut W,
) -> Result<(), ListingWriteFault>
    requires { (W.writing writer.old).failed ≡ false }
    ensures ok { OnOk result
        (Writes (W.writing writer.old) (W.writing writer.new) (listing message.now)) }
    ensures works { OnOk result ((W.writing writer.new).failed ≡ false) }
    ensures within { (n : ℕ) → result ≡ Err (ListingWriteFault.WriteFailed n)
        → n ≤ length (listing message.now) }
    ensures front { (n : ℕ) → result ≡ Err (ListingWriteFault.WriteFailed n)
        → Writes (W.writing writer.old) (W.writing writer.new) (take n (listing message.now)) }
    ensures failed { (n : ℕ) → result ≡ Err (ListingWriteFault.WriteFailed n)
        → (W.writing writer.new).failed ≡ true }
    ensures nothing { result ≡ Err ListingWriteFault.OutOfMemory
        → W.writing writer.new ≡ W.writing writer.old }
{
    let Ok(text) = text_of(alloc, message) else {
        return Err(ListingWriteFault::OutOfMemory);
    };
    match write_all(writer, &text) {
        Ok(()) => Ok(()),
        Err(fault) => Err(ListingWriteFault::WriteFailed {
            written: fault.written as u128,
        }),
    }
}
