//! The merge of two sorted vectors.
ghost use Rattle.std.specs.Prelude.{◌≡◌, ◌+◌, ◌≤◌, ◌<◌, ◌++◌, [], IfOk, OnSome, IfNone, MatchOption, length, vec_len, reverse};
ghost use Rattle.std.specs.Vec.{vec_capacity};
ghost use Rattle.std.specs.Option.{option_to_list};
ghost use Rattle.std.specs.List.Sorted.{IsStrictlySortedBy};
ghost use Rattle.std.specs.Map.{keys_of};
ghost use Rattle.bufr_entries.specs.Keeping.{put_all};
ghost use Rattle.bufr_entries.specs.Merging.{merged, heads_order, greater_of};
ghost use Rattle.bufr_shelves.specs.Pairs.{by_key, by_value};

use crate::rank::Exact;
use crate::sorted_shelf::pair::Pair;
use bufr_base::OutOfMemory;
use bufr_entries::take_last;
use std::alloc::Global;
use std::cmp::Ordering;

pub(crate) fn room_for<K, V>(
    alloc: Global,
    left: &Vec<Pair<K, V>>,
    right: &Vec<Pair<K, V>>,
) -> Result<Vec<Pair<K, V>>, OutOfMemory>
    ensures empty { IfOk result (λ room. room.items ≡ []) }
    ensures room { IfOk result (λ room. vec_len left.now + vec_len right.now ≤ vec_capacity room) }
{
    Vec::with_capacity(alloc, left.len() + right.len())
}

/// Merges `right` into `left`, and keeps the greater value of each key. The pairs move into `room`,
/// which becomes `left`.
pub(crate) fn merge<K: Exact, V: Exact>(
    left: &mut Vec<Pair<K, V>>,
    mut right: Vec<Pair<K, V>>,
    mut room: Vec<Pair<K, V>>,
)
    requires sorted { IsStrictlySortedBy K.cmp (keys_of right.items) }
    requires empty { room.items ≡ [] }
    requires room { vec_len left.old + vec_len right ≤ vec_capacity room }
    ensures { left.new.items ≡ put_all (by_key K.cmp) (by_value V.cmp) left.old.items right.items }
{
    left.reverse();
    right.reverse();
    while let Some(pair) = take_lesser(left, &mut right) {
        room.push_reserved(pair);
    }
    *left = room;
}

/// Takes the pair with the lesser key from the ends of two falling vectors; if the keys tie, takes
/// both and returns the one with the greater value.
fn take_lesser<K: Exact, V: Exact>(
    left: &mut Vec<Pair<K, V>>,
    right: &mut Vec<Pair<K, V>>,
) -> Option<Pair<K, V>>
    ensures taken { merged (by_key K.cmp) (by_value V.cmp)
        (reverse left.old.items) (reverse right.old.items)
        ≡ option_to_list result ++ merged (by_key K.cmp) (by_value V.cmp)
        (reverse left.new.items) (reverse right.new.items) }
    ensures fewer { OnSome result
        (vec_len left.new + vec_len right.new < vec_len left.old + vec_len right.old) }
    ensures done { IfNone result ((left.new.items ≡ []) × (right.new.items ≡ [])) }
{
    match order_of_ends(left, right) {
        Ordering::Less => take_last(left),
        Ordering::Greater => take_last(right),
        Ordering::Equal => {
            let pair = take_last(left);
            greater_of(pair, take_last(right))
        }
    }
}

/// Compares the keys at the ends of two vectors; an empty vector counts as greater.
fn order_of_ends<K: Exact, V: Exact>(left: &Vec<Pair<K, V>>, right: &Vec<Pair<K, V>>) -> Ordering
    ensures { result
        ≡ heads_order (by_key K.cmp) (reverse left.now.items) (reverse right.now.items) }
{
    let Some(next) = right.last() else {
        return Ordering::Less;
    };
    let Some(pair) = left.last() else {
        return Ordering::Greater;
    };
    pair.order(next)
}

/// Returns the pair with the greater value, the left one if they tie.
fn greater_of<K: Exact, V: Exact>(
    left: Option<Pair<K, V>>,
    right: Option<Pair<K, V>>,
) -> Option<Pair<K, V>>
    ensures { result ≡ greater_of (by_value V.cmp) left right }
{
    let Some(pair) = left else {
        return right;
    };
    let Some(other) = right else {
        return Some(pair);
    };
    let greater = other.value().cmp(pair.value()).is_gt();
    if greater { Some(other) } else { Some(pair) }
}
