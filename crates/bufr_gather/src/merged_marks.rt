//! The marks of two merged texts.
ghost use Rattle.std.specs.Prelude.{◌≡◌, ◌≤◌, ◌++◌, ◌∷◌, [], List, length, reverse};
ghost use Rattle.std.specs.Option.{option_to_list};
ghost use Rattle.std.specs.Vec.{vec_capacity};
ghost use Rattle.bufr_gather.specs.declared.merged_octets.EntrySource.{EntrySource as AnOrigin};
ghost use Rattle.bufr_gather.specs.MergedOctets.{marks_out};

use crate::merged_octets::EntrySource;
use bufr_entries::PackedSlot;

/// Takes the mark of the next entry from the ends of two reversed lists, and drops the mark of the
/// entry that it beats.
fn take_mark(
    origin: EntrySource,
    left: &mut Vec<PackedSlot>,
    right: &mut Vec<PackedSlot>,
) -> Option<PackedSlot>
    ensures { (more : List AnOrigin)
        → marks_out (origin ∷ more) (reverse left.old.items) (reverse right.old.items)
        ≡ option_to_list result
        ++ marks_out more (reverse left.new.items) (reverse right.new.items) }
{
    match origin {
        EntrySource::Left => left.pop(),
        EntrySource::Right => right.pop(),
        EntrySource::LeftOfBoth => {
            let _other = right.pop();
            left.pop()
        }
        EntrySource::RightOfBoth => {
            let _other = left.pop();
            right.pop()
        }
    }
}

/// Moves the marks of the entries with these origins into `room`.
pub(crate) fn merged_marks(
    origins: &[EntrySource],
    mut left: Vec<PackedSlot>,
    mut right: Vec<PackedSlot>,
    mut room: Vec<PackedSlot>,
) -> Vec<PackedSlot>
    requires empty { room.items ≡ [] }
    requires room { length origins.now ≤ vec_capacity room }
    ensures { result.items ≡ marks_out origins.now left.items right.items }
{
    left.reverse();
    right.reverse();
    for origin in origins {
        if let Some(mark) = take_mark(*origin, &mut left, &mut right) {
            room.push_reserved(mark);
        }
    }
    room
}
