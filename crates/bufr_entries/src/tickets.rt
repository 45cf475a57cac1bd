//! Tickets: a number for each waiting entry, in the order of the packed keys.
//!
//! Numbers sort in less time than entries do. A ticket has the bits in which the keys differ, and
//! the place of its entry.
ghost use Rattle.std.specs.List.Sorted.{IsPermutation};

use crate::packed_key::WmoWords;
use crate::waiting::WaitingEntry;
use std::alloc::Global;

/// The fewest entries that get tickets.
const FEWEST_ENTRIES: usize = 64;

/// The places of the octets of a word, the highest first.
const PLACES: [u32; 8] = [56, 48, 40, 32, 24, 16, 8, 0];

/// A part of a word: some bits, from a place on.
#[derive(Clone, Copy, Drop)]
struct BitRange {
    from: u32,
    width: u32,
    mask: u64,
}

/// Returns a mask of the lowest `width` bits.
fn lowest(width: u32) -> u64 {
    1u64.wrapping_shl(width).wrapping_sub(1)
}

/// Returns the bits in which packed keys differ, if all entries have one.
fn differing(entries: &[WaitingEntry]) -> Option<WmoWords> {
    let first = entries.first()?.mark.words()?;
    let mut differ = WmoWords { high: 0, low: 0 };
    for entry in entries {
        let words = entry.mark.words()?;
        differ.high |= words.high ^ first.high;
        differ.low |= words.low ^ first.low;
    }
    Some(differ)
}

/// Lists the differing parts of a word while bits are left for them, and returns the bits left.
fn parts_of(alloc: Global, differ: u64, room: u32) -> Option<(Vec<BitRange>, u32)> {
    let mut parts = Vec::new(alloc);
    let mut left = room;
    for from in PLACES {
        let octet = (differ.wrapping_shr(from) % 256) as u8;
        let width = 8u32.saturating_sub(octet.leading_zeros());
        if width > left {
            return Some((parts, 0));
        }
        if width > 0 {
            let mask = lowest(width);
            parts.push(BitRange { from, width, mask }).ok()?;
            left -= width;
        }
    }
    Some((parts, left))
}

/// Puts the parts of a word after the bits of a ticket.
#[inline(always)]
fn append(ticket: u64, word: u64, parts: &[BitRange]) -> u64 {
    let mut longer = ticket;
    for part in parts {
        let bits = word.wrapping_shr(part.from) & part.mask;
        longer = longer.wrapping_shl(part.width) | bits;
    }
    longer
}

/// Makes the tickets of entries with packed keys, the greatest key first.
fn tickets_of(alloc: Global, entries: &[WaitingEntry], place_width: u32) -> Option<Vec<u64>> {
    let differ = differing(entries)?;
    let (high, left) = parts_of(alloc, differ.high, 64u32.saturating_sub(place_width))?;
    let (low, _) = parts_of(alloc, differ.low, left)?;
    let mut tickets = Vec::with_capacity(alloc, entries.len()).ok()?;
    for (place, entry) in entries.iter().enumerate() {
        let words = entry.mark.words()?;
        let ticket = append(append(0, !words.high, &high), !words.low, &low);
        tickets
            .push(ticket.wrapping_shl(place_width) | place as u64)
            .ok()?;
    }
    tickets.sort_unstable();
    Some(tickets)
}

/// Moves the entries to the places of their tickets. Each step fills a place or ends a cycle of
/// places.
fn follow(entries: &mut [WaitingEntry], tickets: &mut [u64], place_width: u32)
    ensures { IsPermutation entries.old entries.new }
{
    let mask = lowest(place_width);
    let mut start: usize = 0;
    let mut place: usize = 0;
    for _ in 0..entries.len().saturating_mul(2) {
        let Some(ticket) = tickets.get_mut(place) else {
            return;
        };
        let from = (*ticket & mask) as usize;
        *ticket = place as u64;
        if from == start {
            start = start.wrapping_add(1);
            place = start;
        } else if place < entries.len() && from < entries.len() {
            entries.swap(place, from);
            place = from;
        } else {
            return;
        }
    }
}

/// Puts entries in order, greatest packed key first, if all have one and memory suffices. Entries
/// that tickets do not tell apart stay in any order.
pub(crate) fn follow_tickets(alloc: Global, entries: &mut Vec<WaitingEntry>)
    ensures permutation { IsPermutation entries.old.items entries.new.items }
{
    if entries.len() < FEWEST_ENTRIES {
        return;
    }
    let place_width = usize::BITS - entries.len().leading_zeros();
    if let Some(mut tickets) = tickets_of(alloc, entries, place_width) {
        follow(entries, &mut tickets, place_width);
    }
}
