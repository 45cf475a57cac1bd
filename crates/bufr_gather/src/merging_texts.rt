//! The merge of two texts from the left, by their marks and octets.
ghost use Rattle.std.specs.Prelude.{◌≡◌, List};
ghost use Rattle.std.specs.Option.{option_map};
ghost use Rattle.bufr_tables.specs.Entries.{Entries};
ghost use Rattle.bufr_entries.specs.declared.entry.Entry.{Entry as AnEntry};
ghost use Rattle.bufr_gather.specs.ArchiveTexts.{AreInOrder, AreLeft, TakesFirst, known, greater_of};
ghost use Rattle.bufr_gather.specs.Texts.{text, marks_of};

use crate::laws::reports_are_entries;
use crate::merged_octets::EntrySource;
use crate::reading::split_first;
use bufr_entries::PackedSlot;
use std::cmp::Ordering;

/// An entry with a known mark.
#[derive(Clone, Copy, Drop)]
pub(crate) struct KnownEntry<'a> {
    mark: &'a PackedSlot,
    bytes: &'a [u8],
}

/// A rest of a text: its first entry, and the marks and octets after it.
#[derive(Clone, Copy, Drop)]
pub(crate) struct Unmerged<'a> {
    first: Option<KnownEntry<'a>>,
    marks: &'a [PackedSlot],
    behind: &'a [u8],
}

impl<'a> Unmerged<'a> {
    pub(crate) fn of_text(marks: &'a [PackedSlot], octets: &'a [u8]) -> Unmerged<'a>
        ensures { (tables : Entries) (es : List AnEntry) → AreInOrder tables es
            → marks.now ≡ marks_of es → octets.now ≡ text es → AreLeft tables es result }
    {
        reports_are_entries();
        let Some((mark, others)) = marks.split_first() else {
            return Unmerged {
                first: None,
                marks,
                behind: octets,
            };
        };
        let (bytes, behind) = split_first(octets);
        Unmerged {
            first: Some(KnownEntry { mark, bytes }),
            marks: others,
            behind,
        }
    }
}

/// Finds which of the two first entries has the greater rank; both have one slot.
fn greater_of(left: &Unmerged, right: &Unmerged) -> EntrySource
    ensures { result ≡ greater_of (option_map known left.now.first)
        (option_map known right.now.first) }
{
    let Some(other) = &right.first else {
        return EntrySource::LeftOfBoth;
    };
    let Some(entry) = &left.first else {
        return EntrySource::RightOfBoth;
    };
    let order = entry.mark.update().cmp(&other.mark.update());
    if order.then(entry.bytes.cmp(other.bytes)).is_gt() {
        EntrySource::LeftOfBoth
    } else {
        EntrySource::RightOfBoth
    }
}

/// Takes the next kept entry of two texts, and returns its origin. Of two entries of one slot it
/// takes the one of greater rank and skips the other.
pub(crate) fn take_first<'a>(
    left: &mut Unmerged<'a>,
    right: &mut Unmerged<'a>,
) -> Option<EntrySource>
    ensures { (tables : Entries) (es fs : List AnEntry)
        → AreLeft tables es left.old → AreLeft tables fs right.old
        → TakesFirst tables es fs left.new right.new result }
{
    // A finished text counts as greater.
    let order = match (&left.first, &right.first) {
        (_, None) => Ordering::Less,
        (None, Some(_)) => Ordering::Greater,
        (Some(one), Some(two)) => one.mark.slot_order(one.bytes, two.mark, two.bytes),
    };
    match order {
        Ordering::Less => {
            let Some(_entry) = &left.first else {
                return None;
            };
            *left = Unmerged::of_text(left.marks, left.behind);
            Some(EntrySource::Left)
        }
        Ordering::Greater => {
            *right = Unmerged::of_text(right.marks, right.behind);
            Some(EntrySource::Right)
        }
        Ordering::Equal => {
            let origin = greater_of(left, right);
            *left = Unmerged::of_text(left.marks, left.behind);
            *right = Unmerged::of_text(right.marks, right.behind);
            Some(origin)
        }
    }
}
