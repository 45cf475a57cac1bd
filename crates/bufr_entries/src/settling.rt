//! Settling: waiting entries go into the sorted pages.
ghost use Rattle.std.specs.Prelude.{◌≡◌, ◌+◌, ◌<◌, ◌≤◌, ◌++◌, [], true, false, length, reverse, IfSome, MatchOption, OnOk};
ghost use Rattle.std.specs.List.Sorted.{IsStrictlySortedBy};
ghost use Rattle.std.specs.Ordering.{is_gt};
ghost use Rattle.std.specs.declared.cmp.Ordering.TheVariants.{Equal};
ghost use Rattle.bufr_entries.specs.Entries.{slot_cmp, rank_cmp, kept};
ghost use Rattle.bufr_entries.specs.Keeping.{first_of};
ghost use Rattle.bufr_entries.specs.Merging.{heads_order};
ghost use Rattle.bufr_entries.specs.Pages.{flat, AreRising, LeadsAlone};

use crate::page::{MOST_ENTRIES, Page, PageRoom, ROOM_FOR_OCTETS};
use crate::pages_left::PagesLeft;
use crate::waiting::Waiting;
use bufr_base::OutOfMemory;
use std::alloc::Global;
use std::cmp::Ordering;

/// Merges the waiting entries into the settled pages, and keeps the one of greatest rank of each
/// slot. If memory runs out, some may have moved, but the three together keep the same. It makes a
/// new page before it frees the old one.
pub(crate) fn settle(
    alloc: Global,
    settled: &mut Vec<Page>,
    left: &mut PagesLeft,
    waiting: &mut Waiting,
) -> Result<(), OutOfMemory>
    requires { IsStrictlySortedBy slot_cmp (flat settled.old.items ++ left.old) }
    ensures sorted { IsStrictlySortedBy slot_cmp (flat settled.new.items ++ left.new) }
    ensures all { kept (flat settled.new.items ++ (left.new ++ waiting.new))
        ≡ kept (flat settled.old.items ++ (left.old ++ waiting.old)) }
    ensures fewer { length waiting.new ≤ length waiting.old }
    ensures done { OnOk result ((left.new ≡ []) × (waiting.new ≡ [])) }
{
    left.take_back(settled)?;
    waiting.sort(alloc);
    while order_of_heads(left, waiting).is_some() {
        settle_page(alloc, settled, left, waiting)?;
    }
    waiting.give_back();
    Ok(())
}

/// Appends a page to the settled ones: the next one whole, if it ends before the waiting entries,
/// or else a new one.
fn settle_page(
    alloc: Global,
    settled: &mut Vec<Page>,
    left: &mut PagesLeft,
    waiting: &mut Waiting,
) -> Result<(), OutOfMemory>
    requires sorted { IsStrictlySortedBy slot_cmp left.old }
    requires rising { AreRising (reverse waiting.old) }
    requires some { 0 < length left.old + length waiting.old }
    ensures sorted { IsStrictlySortedBy slot_cmp left.new }
    ensures rising { AreRising (reverse waiting.new) }
    ensures all { flat settled.new.items ++ kept (left.new ++ reverse waiting.new)
        ≡ flat settled.old.items ++ kept (left.old ++ reverse waiting.old) }
    ensures fewer { length waiting.new ≤ length waiting.old }
    ensures less { OnOk result
        (length left.new + length waiting.new < length left.old + length waiting.old) }
{
    settled.reserve(1)?;
    if let Some(page) = left.take_page(alloc, waiting.last()) {
        settled.push_reserved(page);
        return Ok(());
    }
    let entries = Vec::with_capacity(alloc, MOST_ENTRIES)?;
    let octets = Vec::with_capacity(alloc, ROOM_FOR_OCTETS)?;
    let mut room = PageRoom { entries, octets };
    let filled = fill(&mut room, left, waiting);
    settled.push_reserved(room.into_page());
    filled
}

/// Fills a page: moves the smaller head, and drops the lower rank of two equal slots. It moves or
/// drops at least one entry.
fn fill(room: &mut PageRoom, left: &mut PagesLeft, waiting: &mut Waiting) -> Result<(), OutOfMemory>
    requires sorted { IsStrictlySortedBy slot_cmp left.old }
    requires rising { AreRising (reverse waiting.old) }
    requires some { 0 < length left.old + length waiting.old }
    ensures sorted { IsStrictlySortedBy slot_cmp left.new }
    ensures rising { AreRising (reverse waiting.new) }
    ensures all { room.new ++ kept (left.new ++ reverse waiting.new)
        ≡ room.old ++ kept (left.old ++ reverse waiting.old) }
    ensures fewer { length waiting.new ≤ length waiting.old }
    ensures less { OnOk result
        (length left.new + length waiting.new < length left.old + length waiting.old) }
{
    while let Some(order) = order_of_heads(left, waiting) {
        match order {
            Ordering::Less => room.push_left(left)?,
            Ordering::Equal => drop_lesser(left, waiting),
            Ordering::Greater => {
                if !drop_tied(waiting) {
                    room.push_last(waiting)?;
                }
            }
        }
        if room.is_full() {
            return Ok(());
        }
    }
    Ok(())
}

/// Compares the slots of the first entry left and the last waiting one. A missing one counts as
/// greater.
#[inline(always)]
fn order_of_heads(left: &PagesLeft, waiting: &Waiting) -> Option<Ordering>
    ensures order { IfSome result (λ order.
        order ≡ heads_order slot_cmp left.now (reverse waiting.now)) }
    ensures some { MatchOption result ((left.now ≡ []) × (waiting.now ≡ []))
        (λ _. 0 < length left.now + length waiting.now) }
{
    match (left.first(), waiting.last()) {
        (None, None) => None,
        (_, None) => Some(Ordering::Less),
        (None, _) => Some(Ordering::Greater),
        (Some(first), Some(last)) => Some(first.slot_cmp(last)),
    }
}

/// Drops the head of lesser rank; both heads have one slot.
fn drop_lesser(left: &mut PagesLeft, waiting: &mut Waiting)
    requires sorted { IsStrictlySortedBy slot_cmp left.old }
    requires rising { AreRising (reverse waiting.old) }
    requires tied { heads_order slot_cmp left.old (reverse waiting.old) ≡ Equal }
    ensures sorted { IsStrictlySortedBy slot_cmp left.new }
    ensures rising { AreRising (reverse waiting.new) }
    ensures kept { kept (left.new ++ reverse waiting.new)
        ≡ kept (left.old ++ reverse waiting.old) }
    ensures fewer { length waiting.new ≤ length waiting.old }
    ensures less { length left.new + length waiting.new < length left.old + length waiting.old }
{
    let (Some(first), Some(last)) = (left.first(), waiting.last()) else {
        return;
    };
    if last.rank_cmp(first).is_gt() {
        left.drop_first();
    } else {
        let _mark = waiting.take_last();
    }
}

/// Drops the lower rank of the last two waiting entries if they have one slot.
fn drop_tied(waiting: &mut Waiting) -> bool
    requires { AreRising (reverse waiting.old) }
    ensures rising { AreRising (reverse waiting.new) }
    ensures kept { kept (reverse waiting.new) ≡ kept (reverse waiting.old) }
    ensures tied { result ≡ true → length waiting.new < length waiting.old }
    ensures apart { result ≡ false
        → (waiting.new ≡ waiting.old) × LeadsAlone (reverse waiting.new) }
{
    let Some((last, other, octets)) = waiting.last_two() else {
        return false;
    };
    if !last.slot_cmp(other, octets).is_eq() {
        return false;
    }
    let own = last.look(octets);
    let its = other.look(octets);
    if own.rank_cmp(its).is_gt() {
        waiting.drop_other();
    } else {
        let _mark = waiting.take_last();
    }
    true
}
