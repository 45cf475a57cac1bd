//! Counting the reports of a message.
ghost use Rattle.std.specs.Prelude.{IfOk, IfErr};
ghost use Rattle.bufr_message.specs.Answers.{Fails};
ghost use Rattle.bufr_message.specs.Messages.{message_of};
ghost use Rattle.bufr_usage.specs.Callers.{HasSoManyReports};

use bufr_message::{Failure, Refused, Tables, decode};
use std::alloc::Global;

/// Counts the reports of a message.
pub fn count(alloc: Global, tables: &Tables, octets: &[u8]) -> Result<usize, Failure<Refused>>
    ensures counted { IfOk result (HasSoManyReports tables.now octets.now) }
    ensures refused { IfErr result (λ why. Fails why (message_of tables.now octets.now)) }
{
    let decoded = decode(alloc, tables, octets)?;
    Ok(decoded.message.subsets.len())
}
