//! Laws of what shelves keep, and of joins.
ghost use Rattle.std.specs.Prelude.{◌≡◌, ℕ, List};
ghost use Rattle.bufr_entries.specs.Laws.{KeptIsTheBest, OnlyKeptIsTheBest, SameEntriesSameKept, KeptEarly, JoinCommutes, JoinAssociates, JoinIsIdempotent, ChangesTells, NoTies, InOneOrder, SortedAreKept, CoarselyKeptAreKept, CoarselyKeptIsTheBest};
ghost use Rattle.bufr_entries.specs.KeyOrders.{station_cmp, moment_cmp, key_cmp};
ghost use Rattle.bufr_entries.specs.declared.key.Key.{Key as AKey};
ghost use Rattle.bufr_entries.specs.declared.key.Station.{Station as AStation};
ghost use Rattle.bufr_entries.specs.declared.key.Moment.{Moment as AMoment};

use crate::key::{Key, Moment, Station};

/// Keys, stations and moments are in the order of their parts.
pub fn keys_in_order()
    ensures keys { (a b : AKey) → ⟦<Key as Ord>⟧.cmp a b ≡ key_cmp a b }
    ensures stations { (a b : AStation) → ⟦<Station as Ord>⟧.cmp a b ≡ station_cmp a b }
    ensures moments { (a b : AMoment) → ⟦<Moment as Ord>⟧.cmp a b ≡ moment_cmp a b }
{}

/// `kept` is the only list in order of slots with exactly the best entry of each slot; `changes`
/// says if one more entry changes it.
pub fn kept_is_the_best()
    ensures best { KeptIsTheBest }
    ensures only { OnlyKeptIsTheBest }
    ensures tells { ChangesTells }
{}

/// Joins are commutative, associative and idempotent; order, repeats and entries dropped before do
/// not matter.
pub fn joins_agree()
    ensures same { SameEntriesSameKept }
    ensures early { KeptEarly }
    ensures commutes { JoinCommutes }
    ensures associates { JoinAssociates }
    ensures idempotent { JoinIsIdempotent }
{}

/// A shelf keeps all of a sorted list with no slot twice, and so all that an archive kept while
/// keys had no sub-centre.
pub fn sorted_are_kept()
    ensures sorted { SortedAreKept }
    ensures from_before { CoarselyKeptAreKept }
    ensures before { CoarselyKeptIsTheBest }
{}

/// Different entries never tie.
pub fn entries_never_tie()
    ensures ties { NoTies }
    ensures orders { InOneOrder }
{}
