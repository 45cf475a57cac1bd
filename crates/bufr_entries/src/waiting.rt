//! Waiting entries in any order, with their octets in one vector.
ghost use Rattle.std.specs.Prelude.{◌≡◌, ◌+◌, ◌*◌, ◌<◌, ◌++◌, ◌∷◌, [], true, false, take, drop, length, map, reverse, OnOk, OnErr, IfSome, MatchOption};
ghost use Rattle.std.specs.Bool.{OnTrue, OnFalse};
ghost use Rattle.std.specs.Option.{option_map, option_to_list};
ghost use Rattle.std.specs.List.Sorted.{IsPermutation};
ghost use Rattle.bufr_entries.specs.Entries.{slot_cmp};
ghost use Rattle.bufr_entries.specs.Keeping.{first_of};
ghost use Rattle.bufr_entries.specs.Pages.{marked, mark_of, seen, waits_in, octets_waiting, AreLast, AreRising};

use crate::entry_octets::EntryOctets;
use crate::giving_back::take_last;
use crate::lent_entry::LentEntry;
use crate::packed_slot::PackedSlot;
use crate::tickets::follow_tickets;
use bufr_base::OutOfMemory;
use std::alloc::Global;
use std::cmp::Ordering;
use std::marker::Model;

/// The least size of a batch, unless its octets are many.
const SMALLEST_BATCH: usize = 64;

/// The most entries that wait beyond the number of sorted ones.
const LARGEST_BATCH: usize = 65_536;

/// The octets that make a batch of any size.
const LONG_BATCH: u64 = 33_554_432;

/// The octets that may wait beyond `LONG_BATCH`, for each sorted entry.
const OCTETS_AN_ENTRY: u64 = 64;

/// The most entries that one call reads ahead.
const MOST_AT_ONCE: usize = 64;

/// The most octets that one call reads ahead.
const MOST_OCTETS_AT_ONCE: usize = 32_768;

/// The average length of runs from which merging replaces sorting.
const LONG_RUN: usize = 16;

/// A waiting entry: its mark, and the start and length of its octets.
#[derive(Drop)]
pub(crate) struct WaitingEntry {
    pub(crate) mark: PackedSlot,
    pub(crate) from: usize,
    pub(crate) len: usize,
}

const _: () = prove!(size_of::<WaitingEntry>() == 40);

fn part(octets: &[u8], from: usize, len: usize) -> &[u8]
    ensures { result.now ≡ take len (drop from octets.now) }
{
    let Some(rest) = octets.get(from..) else {
        return &[];
    };
    rest.get(..len).unwrap_or(rest)
}

impl WaitingEntry {
    pub(crate) fn look<'a>(&'a self, octets: &'a [u8]) -> LentEntry<'a>
        ensures { seen result ≡ waits_in octets.now self.now }
    {
        LentEntry {
            mark: &self.mark,
            octets: part(octets, self.from, self.len),
        }
    }

    /// Compares the slots of two entries. It reads their octets only if neither has a key.
    #[inline(always)]
    pub(crate) fn slot_cmp(&self, other: &WaitingEntry, octets: &[u8]) -> Ordering
        ensures { result ≡ slot_cmp (waits_in octets.now self.now) (waits_in octets.now other.now) }
    {
        match self.mark.keyed_order(&other.mark) {
            Some(order) => order,
            None => self.look(octets).octets.cmp(other.look(octets).octets),
        }
    }
}

fn drop_other(entries: &mut Vec<WaitingEntry>)
    ensures { reverse entries.new.items
        ≡ take 1 (reverse entries.old.items) ++ drop 2 (reverse entries.old.items) }
{
    let Some(last) = entries.pop() else {
        return;
    };
    let _other = entries.pop();
    entries.push_reserved(last);
}

/// Returns whether the octets of the entry before the last one follow those of the last one.
fn lie_together(entries: &[WaitingEntry]) -> bool {
    let Some((last, others)) = entries.split_last() else {
        return false;
    };
    let Some((other, _)) = others.split_last() else {
        return false;
    };
    other.from.wrapping_sub(last.from) == last.len
}

/// Copies the octets of the last entries into `ahead`, unless they lie together. If they lie far
/// apart, reading them in one pass waits less for memory.
#[inline(never)]
fn read_last(octets: &[u8], entries: &[WaitingEntry], ahead: &mut Vec<u8>)
    ensures { AreLast octets.now entries.now ahead.new.items }
{
    if lie_together(entries) {
        ahead.clear();
        return;
    }
    let mut first = entries.len();
    let mut room = MOST_OCTETS_AT_ONCE;
    while first > 0 && entries.len() - first < MOST_AT_ONCE && entries[first - 1].len <= room {
        first -= 1;
        room -= entries[first].len;
    }
    ahead.clear();
    let (_, last) = entries.split_at(first);
    for entry in last {
        if ahead
            .extend_from_slice(part(octets, entry.from, entry.len))
            .is_err()
        {
            ahead.clear();
            return;
        }
    }
}

/// Sorts entries by merging their runs, greatest slot first, if the runs are long and memory
/// suffices.
fn merge_runs(entries: &mut Vec<WaitingEntry>, octets: &[u8]) -> bool
    ensures permutation { IsPermutation entries.old.items entries.new.items }
    ensures len { length entries.new.items ≡ length entries.old.items }
    ensures rising { OnTrue result
        (AreRising (reverse (map (waits_in octets.now) entries.new.items))) }
    ensures same { OnFalse result (entries.new.items ≡ entries.old.items) }
{
    let most = entries.len() / LONG_RUN;
    let mut ends: usize = 0;
    for index in 1..entries.len() {
        if entries[index].slot_cmp(&entries[index - 1], octets).is_lt() {
            if ends >= most {
                return false;
            }
            ends += 1;
        }
    }
    let Ok(()) = entries.sort_by(|waits, other| other.slot_cmp(waits, octets)) else {
        return false;
    };
    true
}

/// A batch of entries in any order.
#[derive(Drop)]
pub(crate) struct Waiting {
    pub(crate) entries: Vec<WaitingEntry>,
    // The octets of all entries, and of dropped ones until none waits.
    pub(crate) octets: Vec<u8>,
    // A copy of the octets of the last entries, in reverse.
    pub(crate) ahead: Vec<u8>,
}

impl Model for Waiting {
    ghost use Rattle.std.specs.Prelude.{List, map};
    ghost use Rattle.bufr_entries.specs.declared.entry.Entry.{Entry as AnEntry};
    ghost use Rattle.bufr_entries.specs.Pages.{waits_in, AreLast, HaveParts};

    ghost Value = { List AnEntry };

    ghost view = { λ a. map (waits_in a.octets.items) a.entries.items };

    ghost invariant = { λ a. HaveParts a.octets.items a.entries.items
        × AreLast a.octets.items a.entries.items a.ahead.items };
}

impl Waiting {
    /// Whether the batch is large enough to sort it into `settled` entries.
    pub(crate) fn are_many(&self, settled: usize) -> bool
        ensures { (result ≡ false) → length self.now < 64 + 2 * settled }
    {
        let waiting = self.entries.len();
        let room = (settled as u64).saturating_mul(OCTETS_AN_ENTRY);
        let are_long = self.octets.len() as u64 >= room.saturating_add(LONG_BATCH);
        let are_most = waiting >= settled.saturating_add(LARGEST_BATCH);
        are_long || are_most || waiting >= SMALLEST_BATCH && waiting / 2 >= settled
    }

    pub(crate) fn push<O: EntryOctets>(
        &mut self,
        alloc: Global,
        mark: PackedSlot,
        entry: &O,
    ) -> Result<(), OutOfMemory>
        ensures ok { OnOk result (self.new ≡ self.old
            ++ option_to_list (option_map (marked mark) (O.octets entry.now))) }
        ensures err { OnErr result (self.new ≡ self.old) }
    {
        let from = self.octets.len();
        self.ahead.clear();
        self.entries.reserve(1)?;
        let stands = entry.append_to(alloc, &mut self.octets)?;
        let len = self.octets.len() - from;
        if !stands {
            return Ok(());
        }
        self.entries.push_reserved(WaitingEntry { mark, from, len });
        Ok(())
    }

    pub(crate) fn last(&self) -> Option<LentEntry>
        ensures last { option_map seen result ≡ first_of (reverse self.now) }
        ensures some { MatchOption result (length self.now ≡ 0) (λ _. 0 < length self.now) }
    {
        let (last, _) = self.entries.split_last()?;
        let octets = match self.ahead.len().checked_sub(last.len) {
            Some(from) => &self.ahead[from..],
            None => part(&self.octets, last.from, last.len),
        };
        Some(LentEntry {
            mark: &last.mark,
            octets,
        })
    }

    /// Returns the last two entries, and all octets.
    pub(crate) fn last_two(&self) -> Option<(&WaitingEntry, &WaitingEntry, &[u8])>
        ensures two { IfSome result (λ two. reverse self.now
            ≡ waits_in two.2.now two.0.now ∷ waits_in two.2.now two.1.now
            ∷ drop 2 (reverse self.now)) }
        ensures some { MatchOption result (length self.now < 2) (λ _. 1 < length self.now) }
    {
        let before = self.entries.len().checked_sub(2)?;
        let (last, other) = (self.entries.last()?, self.entries.get(before)?);
        Some((last, other, self.octets.as_slice()))
    }

    /// Takes the last entry, returns its mark, and gives free memory back.
    #[inline(always)]
    pub(crate) fn take_last(&mut self) -> Option<PackedSlot>
        ensures mark { result ≡ option_map mark_of (first_of (reverse self.old)) }
        ensures rest { reverse self.new ≡ drop 1 (reverse self.old) }
        ensures cases { MatchOption result ((length self.old ≡ 0) × (length self.new ≡ 0))
            (λ _. length self.new + 1 ≡ length self.old) }
    {
        let WaitingEntry { mark, len, .. } = take_last(&mut self.entries)?;
        match self.ahead.len().checked_sub(len) {
            Some(left) if left > 0 => self.ahead.truncate(left),
            _ => read_last(&self.octets, &self.entries, &mut self.ahead),
        }
        Some(mark)
    }

    pub(crate) fn drop_other(&mut self)
        ensures { reverse self.new ≡ take 1 (reverse self.old) ++ drop 2 (reverse self.old) }
    {
        self.ahead.clear();
        drop_other(&mut self.entries);
    }

    pub(crate) fn sort(&mut self, alloc: Global)
        ensures permutation { IsPermutation self.old self.new }
        ensures rising { AreRising (reverse self.new) }
        ensures len { length self.new ≡ length self.old }
    {
        self.ahead.clear();
        if merge_runs(&mut self.entries, &self.octets) {
            return;
        }
        follow_tickets(alloc, &mut self.entries);
        let octets = self.octets.as_slice();
        self.entries
            .sort_unstable_by(|waits, other| other.slot_cmp(waits, octets));
    }

    pub(crate) fn give_back(&mut self)
        ensures { self.new ≡ self.old }
    {
        if self.entries.is_empty() {
            self.entries.shrink_to_fit();
            self.octets.clear();
            self.octets.shrink_to_fit();
            self.ahead.clear();
            self.ahead.shrink_to_fit();
        }
    }
}
