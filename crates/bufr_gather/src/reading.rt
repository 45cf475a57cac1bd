//! An archive's text, read from the left.
ghost use Rattle.std.specs.Prelude.{◌≡◌, IfOk};
ghost use Rattle.std.specs.Option.{option_map};
ghost use Rattle.bufr_gather.specs.MergedOctets.{first_octets, octets_after_first};
ghost use Rattle.bufr_gather.specs.Texts.{right_entry};
ghost use Rattle.bufr_gather.specs.Reading.{read};
ghost use Rattle.bufr_gather.specs.ReportEntries.{entry_in};

use crate::laws::reports_are_entries;
use crate::report_entry::entry_in;
use bufr_base::OutOfMemory;
use bufr_entries::PackedSlot;
use bufr_message::MessageReader;
use std::alloc::Global;
use thiserror::Error;

/// A fault of a text that is wrong from an entry on.
#[derive(Clone, Copy, Debug, Drop, Error, PartialEq, Eq)]
#[error("N1 NotAnArchive {place}")]
pub struct NotAnArchive {
    /// The number of octets before it.
    pub place: u64,
}

/// An entry in the octets of a text.
#[derive(Drop)]
pub struct ReadEntry<'a> {
    /// The key, if it has one, and the update number.
    pub mark: PackedSlot,
    /// The octets, in the text.
    pub bytes: &'a [u8],
}

/// Splits octets after the message that begins here, at the total length that it announces.
pub(crate) fn split_first(octets: &[u8]) -> (&[u8], &[u8])
    ensures first { result.0.now ≡ first_octets octets.now }
    ensures behind { result.1.now ≡ octets_after_first octets.now }
{
    let [_, _, _, _, a, b, c, ..] = octets else {
        return (&octets[..0], octets);
    };
    let length = 65536 * *a as usize + 256 * *b as usize + *c as usize;
    if length > octets.len() {
        return (octets, &octets[octets.len()..]);
    }
    (&octets[..length], &octets[length..])
}

/// Finds the right entry that begins here, if there is one.
pub fn right_entry<'a>(
    alloc: Global,
    message_reader: &mut MessageReader<'_>,
    before: &Option<ReadEntry>,
    octets: &'a [u8],
) -> Result<Option<ReadEntry<'a>>, OutOfMemory>
    ensures same { message_reader.new ≡ message_reader.old }
    ensures is { IfOk result (λ found. option_map read found
        ≡ right_entry (entry_in message_reader.old) (option_map read before.now) octets.now) }
{
    reports_are_entries();
    let (front, _) = split_first(octets);
    let Some(entry) = entry_in(alloc, message_reader, front)? else {
        return Ok(None);
    };
    let Some(before) = before else {
        return Ok(Some(entry));
    };
    let order = before
        .mark
        .slot_order(before.bytes, &entry.mark, entry.bytes);
    if order.is_lt() {
        Ok(Some(entry))
    } else {
        Ok(None)
    }
}
