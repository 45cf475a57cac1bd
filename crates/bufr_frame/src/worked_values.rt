//! Worked values, typed from FM 94 BUFR, sections 0 and 5.
ghost use Rattle.std.specs.Prelude.{◌≡◌, ◌∷◌, ◌++◌, ◌+◌, [], Some, None, length, map};
ghost use Rattle.std.specs.Prelude.{IfOk, OnOk};
ghost use Rattle.std.specs.List.{flat_map};
ghost use Rattle.bufr_frame.specs.declared.places.TheConstants.{SHORTEST, LONGEST};
ghost use Rattle.bufr_frame.specs.WorkedFrames.{shortest, shortest_with, open_for_long};
ghost use Rattle.bufr_frame.specs.Framings.{AreKept};
ghost use Rattle.bufr_frame.specs.Starts.{announced, start_of};
ghost use Rattle.bufr_frame.specs.Streams.{cut, sure, rest_from};

use crate::framers::Framer;
use crate::frames::Found;
use crate::looks::Look;
use crate::pieces::frames_of_pieces;
use crate::places::Start;
use bufr_base::OutOfMemory;
use std::alloc::Global;

/// The mark, the length and the end of a frame, on both sides of each threshold.
pub fn starts()
    ensures shortest { start_of (66 ∷ 85 ∷ 70 ∷ 82 ∷ 0 ∷ 0 ∷ 12 ∷ 4 ∷ 55 ∷ 55 ∷ 55 ∷ 55 ∷ [])
        ≡ Start.Frame 12 }
    ensures too_short { start_of (66 ∷ 85 ∷ 70 ∷ 82 ∷ 0 ∷ 0 ∷ 11 ∷ 4 ∷ 55 ∷ 55 ∷ 55 ∷ 55 ∷ [])
        ≡ Start.Other }
    ensures one_octet_less { start_of (66 ∷ 85 ∷ 70 ∷ 82 ∷ 0 ∷ 0 ∷ 12 ∷ 4 ∷ 55 ∷ 55 ∷ 55 ∷ [])
        ≡ Start.Open }
    ensures one_octet_more { start_of (shortest ++ 0 ∷ []) ≡ Start.Frame 12 }
    ensures other_mark { start_of (66 ∷ 85 ∷ 70 ∷ 83 ∷ []) ≡ Start.Other }
    ensures half_a_mark { start_of (66 ∷ 85 ∷ []) ≡ Start.Open }
    ensures tail_of_six { start_of (66 ∷ 85 ∷ 70 ∷ 82 ∷ 0 ∷ 0 ∷ []) ≡ Start.Open }
    ensures seven { start_of (66 ∷ 85 ∷ 70 ∷ 82 ∷ 0 ∷ 0 ∷ 11 ∷ []) ≡ Start.Other }
    ensures one_seven { start_of (66 ∷ 85 ∷ 70 ∷ 82 ∷ 0 ∷ 0 ∷ 13 ∷ 4 ∷ 0 ∷ 55 ∷ [])
        ≡ Start.Open }
    ensures other_end { start_of (66 ∷ 85 ∷ 70 ∷ 82 ∷ 0 ∷ 0 ∷ 13 ∷ 4 ∷ 0 ∷ 56 ∷ [])
        ≡ Start.Other }
{}

/// Each octet of the mark and the end, also cut short, and the free eighth octet.
pub fn marks_and_ends()
    ensures marks_so_far { map start_of
        ([] ∷ (66 ∷ []) ∷ (66 ∷ 85 ∷ []) ∷ (66 ∷ 85 ∷ 70 ∷ []) ∷ (66 ∷ 85 ∷ 70 ∷ 82 ∷ [])
        ∷ (66 ∷ 85 ∷ 70 ∷ 82 ∷ 0 ∷ []) ∷ [])
        ≡ Start.Open ∷ Start.Open ∷ Start.Open ∷ Start.Open ∷ Start.Open ∷ Start.Open ∷ [] }
    ensures other_marks_so_far { map start_of
        ((67 ∷ []) ∷ (66 ∷ 86 ∷ []) ∷ (66 ∷ 85 ∷ 71 ∷ []) ∷ (98 ∷ 117 ∷ 102 ∷ 114 ∷ []) ∷ [])
        ≡ Start.Other ∷ Start.Other ∷ Start.Other ∷ Start.Other ∷ [] }
    ensures other_marks { map start_of
        ((67 ∷ 85 ∷ 70 ∷ 82 ∷ 0 ∷ 0 ∷ 12 ∷ 4 ∷ 55 ∷ 55 ∷ 55 ∷ 55 ∷ [])
        ∷ (66 ∷ 84 ∷ 70 ∷ 82 ∷ 0 ∷ 0 ∷ 12 ∷ 4 ∷ 55 ∷ 55 ∷ 55 ∷ 55 ∷ [])
        ∷ (66 ∷ 85 ∷ 71 ∷ 82 ∷ 0 ∷ 0 ∷ 12 ∷ 4 ∷ 55 ∷ 55 ∷ 55 ∷ 55 ∷ [])
        ∷ (66 ∷ 85 ∷ 70 ∷ 81 ∷ 0 ∷ 0 ∷ 12 ∷ 4 ∷ 55 ∷ 55 ∷ 55 ∷ 55 ∷ []) ∷ [])
        ≡ Start.Other ∷ Start.Other ∷ Start.Other ∷ Start.Other ∷ [] }
    ensures ends_so_far { map (shortest_with 4)
        ([] ∷ (55 ∷ []) ∷ (55 ∷ 55 ∷ []) ∷ (55 ∷ 55 ∷ 55 ∷ []) ∷ (55 ∷ 55 ∷ 55 ∷ 55 ∷ []) ∷ [])
        ≡ Start.Open ∷ Start.Open ∷ Start.Open ∷ Start.Open ∷ Start.Frame 12 ∷ [] }
    ensures other_ends { map (shortest_with 4)
        ((54 ∷ []) ∷ (55 ∷ 56 ∷ []) ∷ (55 ∷ 55 ∷ 56 ∷ []) ∷ (56 ∷ 55 ∷ 55 ∷ 55 ∷ [])
        ∷ (55 ∷ 54 ∷ 55 ∷ 55 ∷ []) ∷ (55 ∷ 55 ∷ 54 ∷ 55 ∷ []) ∷ (55 ∷ 55 ∷ 55 ∷ 56 ∷ []) ∷ [])
        ≡ Start.Other ∷ Start.Other ∷ Start.Other ∷ Start.Other ∷ Start.Other ∷ Start.Other
        ∷ Start.Other ∷ [] }
    ensures each_edition { map (λ edition. shortest_with edition (55 ∷ 55 ∷ 55 ∷ 55 ∷ []))
        (0 ∷ 2 ∷ 3 ∷ 4 ∷ 5 ∷ 255 ∷ [])
        ≡ Start.Frame 12 ∷ Start.Frame 12 ∷ Start.Frame 12 ∷ Start.Frame 12 ∷ Start.Frame 12
        ∷ Start.Frame 12 ∷ [] }
{}

/// The three octets of the length, and its limits.
pub fn lengths()
    ensures each { announced (66 ∷ 85 ∷ 70 ∷ 82 ∷ 1 ∷ 2 ∷ 3 ∷ []) ≡ Some 66051 }
    ensures six_octets { announced (66 ∷ 85 ∷ 70 ∷ 82 ∷ 1 ∷ 2 ∷ []) ≡ None }
    ensures greatest { announced (66 ∷ 85 ∷ 70 ∷ 82 ∷ 255 ∷ 255 ∷ 255 ∷ []) ≡ Some LONGEST }
    ensures longest { LONGEST ≡ 16777215 }
    ensures least { SHORTEST ≡ 12 }
    ensures too_short { map (λ l. start_of (66 ∷ 85 ∷ 70 ∷ 82 ∷ 0 ∷ 0 ∷ l ∷ []))
        (0 ∷ 1 ∷ 4 ∷ 7 ∷ 8 ∷ 11 ∷ [])
        ≡ Start.Other ∷ Start.Other ∷ Start.Other ∷ Start.Other ∷ Start.Other ∷ Start.Other
        ∷ [] }
    ensures long_enough { map start_of
        ((66 ∷ 85 ∷ 70 ∷ 82 ∷ 0 ∷ 0 ∷ 12 ∷ []) ∷ (66 ∷ 85 ∷ 70 ∷ 82 ∷ 0 ∷ 0 ∷ 13 ∷ [])
        ∷ (66 ∷ 85 ∷ 70 ∷ 82 ∷ 0 ∷ 0 ∷ 255 ∷ []) ∷ (66 ∷ 85 ∷ 70 ∷ 82 ∷ 0 ∷ 1 ∷ 0 ∷ [])
        ∷ (66 ∷ 85 ∷ 70 ∷ 82 ∷ 1 ∷ 0 ∷ 0 ∷ []) ∷ (66 ∷ 85 ∷ 70 ∷ 82 ∷ 255 ∷ 255 ∷ 255 ∷ [])
        ∷ [])
        ≡ Start.Open ∷ Start.Open ∷ Start.Open ∷ Start.Open ∷ Start.Open ∷ Start.Open ∷ [] }
{}

/// The frames of streams, which of them are sure, and what a framer holds.
pub fn streams()
    ensures none { cut [] ≡ [] }
    ensures at_once { map (λ f. f.place) (cut (shortest ++ shortest)) ≡ 0 ∷ 12 ∷ [] }
    ensures sure_at_once { map (λ f. f.place) (sure (shortest ++ shortest)) ≡ 0 ∷ 12 ∷ [] }
    ensures octets { map (λ f. f.bytes) (sure (0 ∷ shortest ++ 0 ∷ shortest))
        ≡ shortest ∷ shortest ∷ [] }
    ensures octets_between { map (λ f. f.place) (sure (0 ∷ shortest ++ 0 ∷ shortest))
        ≡ 1 ∷ 14 ∷ [] }
    ensures behind_an_open_place { map (λ f. f.place) (cut (open_for_long ++ shortest))
        ≡ 7 ∷ [] }
    ensures not_sure { sure (open_for_long ++ shortest) ≡ [] }
    ensures held { rest_from 0 0 (0 ∷ open_for_long ++ shortest) ≡ open_for_long ++ shortest }
    ensures before_an_open_place { map (λ f. f.place) (sure (shortest ++ open_for_long))
        ≡ 0 ∷ [] }
    ensures held_behind { rest_from 1 0 (shortest ++ 0 ∷ open_for_long) ≡ open_for_long }
    ensures held_at_once { rest_from 1 0 (shortest ++ open_for_long) ≡ open_for_long }
    ensures held_not_out { rest_from 0 0 (0 ∷ shortest ++ open_for_long)
        ≡ shortest ++ open_for_long }
    ensures held_mark { rest_from 1 0 (shortest ++ 66 ∷ 66 ∷ 85 ∷ []) ≡ 66 ∷ 85 ∷ [] }
    ensures nothing_held { rest_from 1 0 (shortest ++ 66 ∷ 85 ∷ 0 ∷ []) ≡ [] }
    ensures open_within { map (λ f. f.place) (sure (66 ∷ 85 ∷ 70 ∷ 82 ∷ 0 ∷ 0 ∷ 19 ∷ 4
        ∷ open_for_long ++ 55 ∷ 55 ∷ 55 ∷ 55 ∷ shortest)) ≡ 0 ∷ 19 ∷ [] }
    ensures overlapping { map (λ f. f.place) (cut (66 ∷ 85 ∷ 70 ∷ 82 ∷ 0 ∷ 0 ∷ 19 ∷ 4
        ∷ 66 ∷ 85 ∷ 70 ∷ 82 ∷ 0 ∷ 0 ∷ 16 ∷ 55 ∷ 55 ∷ 55 ∷ 55 ∷ 0 ∷ 55 ∷ 55 ∷ 55 ∷ 55
        ∷ shortest)) ≡ 0 ∷ 24 ∷ [] }
{}

/// A framer keeps no more octets before those held than it holds.
pub fn kept()
    ensures as_many { AreKept (0 ∷ 0 ∷ []) 1 1 }
    ensures more { AreKept (0 ∷ 0 ∷ 0 ∷ []) 2 3 → ⊥ }
    ensures not_taken { AreKept (0 ∷ 0 ∷ []) 0 1 → ⊥ }
{}

/// Looks at the last octet that a framer can count, and below feeds and takes it.
pub fn last_octet_looked_at(framer: &Framer, piece: &[u8]) -> Result<Look, OutOfMemory>
    requires { framer.now.fed + length piece.now ≡ 18446744073709551615 }
    ensures { IfOk result (λ look. look.next.fed ≡ 18446744073709551615) }
{
    framer.look(piece)
}

pub fn last_octet_fed(framer: &mut Framer, piece: &[u8]) -> Result<Vec<Found>, OutOfMemory>
    requires { framer.old.fed + length piece.now ≡ 18446744073709551615 }
    ensures { OnOk result (framer.new.fed ≡ 18446744073709551615) }
{
    framer.feed(piece)
}

pub fn last_octet_taken(framer: &mut Framer, piece: &[u8]) -> Result<bool, OutOfMemory>
    requires { framer.old.fed + length piece.now ≡ 18446744073709551615 }
{
    Ok(framer.take_next(piece)?.found.is_some())
}

pub fn last_octet_of_pieces(alloc: Global, pieces: &[&[u8]]) -> Result<Vec<Found>, OutOfMemory>
    requires { length (flat_map (λ piece. piece.now) pieces.now) ≡ 18446744073709551615 }
{
    frames_of_pieces(alloc, pieces)
}
