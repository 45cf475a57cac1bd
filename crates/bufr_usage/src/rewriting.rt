//! Rewriting a message.
ghost use Rattle.std.specs.Prelude.{IfOk, IfErr};
ghost use Rattle.bufr_usage.specs.Callers.{IsRewritten, IsNotRewritten};

use bufr_message::{EncodeFault, Failure, Refused, Tables, decode, encode};
use std::alloc::Global;

/// A fault of octets that were not rewritten.
#[derive(Debug, Drop)]
pub enum RewriteFault {
    /// The octets spell no message.
    Refused(Refused),
    /// The message has no encoding.
    Unwritable(EncodeFault),
    /// Memory ran out.
    OutOfMemory,
}

/// Rewrites a message: in edition 4, with free octets and bits left empty, and compressed columns
/// of the least width.
pub fn rewritten(alloc: Global, tables: &Tables, octets: &[u8]) -> Result<Vec<u8>, RewriteFault>
    ensures rewritten { IfOk result (λ v. IsRewritten tables.now octets.now v.items) }
    ensures refused { IfErr result (IsNotRewritten tables.now octets.now) }
{
    let message = match decode(alloc, tables, octets) {
        Ok(decoded) => decoded.message,
        Err(Failure::Fault(why)) => return Err(RewriteFault::Refused(why)),
        Err(Failure::OutOfMemory) => return Err(RewriteFault::OutOfMemory),
    };
    match encode(alloc, tables, &message) {
        Ok(written) => Ok(written),
        Err(Failure::Fault(why)) => Err(RewriteFault::Unwritable(why)),
        Err(Failure::OutOfMemory) => Err(RewriteFault::OutOfMemory),
    }
}
