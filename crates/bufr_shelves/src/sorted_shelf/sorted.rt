//! Vectors of pairs in order of keys, with the greatest value of each key.
ghost use Rattle.std.specs.Prelude.{◌≡◌, ◌<◌, ◌≤◌, IfOk, OnOk, OnErr, MatchResult, find, slice_get, vec_len};
ghost use Rattle.std.specs.Option.{option_map};
ghost use Rattle.std.specs.Ordering.{is_eq, is_lt};
ghost use Rattle.std.specs.Vec.{vec_capacity};
ghost use Rattle.std.specs.List.Sorted.{IsStrictlySortedBy};
ghost use Rattle.std.specs.Map.{keys_of};
ghost use Rattle.std.specs.Map.Iter.{deref_pair};
ghost use Rattle.bufr_entries.specs.Keeping.{put_by, changes_by, first_of};
ghost use Rattle.bufr_shelves.specs.Pairs.{by_key, by_value, place_of};

use crate::rank::Exact;
use crate::sorted_shelf::pair::Pair;
use bufr_base::OutOfMemory;
use std::alloc::Global;
use std::cmp::Ordering;

/// Searches a key by halves. Returns its index, or the index to insert it at.
pub(crate) fn place<K: Exact, V>(pairs: &Vec<Pair<K, V>>, key: &K) -> Result<usize, usize>
    requires { IsStrictlySortedBy K.cmp (keys_of pairs.now.items) }
    ensures place { result ≡ place_of (K.cmp key.now) pairs.now.items }
    ensures within { MatchResult result (λ i. i < vec_len pairs.now) (λ i. i ≤ vec_len pairs.now) }
{
    let mut low = 0;
    let mut high = pairs.len();
    while low < high {
        let middle = low + (high - low) / 2;
        match key.cmp(pairs[middle].key()) {
            Ordering::Less => high = middle,
            Ordering::Equal => return Ok(middle),
            Ordering::Greater => low = middle + 1,
        }
    }
    Err(low)
}

/// Searches a key, first at the end: for keys that come nearly in order.
pub(crate) fn place_from_end<K: Exact, V>(pairs: &Vec<Pair<K, V>>, key: &K) -> Result<usize, usize>
    requires { IsStrictlySortedBy K.cmp (keys_of pairs.now.items) }
    ensures place { result ≡ place_of (K.cmp key.now) pairs.now.items }
    ensures within { MatchResult result (λ i. i < vec_len pairs.now) (λ i. i ≤ vec_len pairs.now) }
{
    let count = pairs.len();
    if count == 0 {
        return Err(0);
    }
    match key.cmp(pairs[count - 1].key()) {
        Ordering::Greater => Err(count),
        _ => place(pairs, key),
    }
}

/// Puts a value at a key if it is greater than the one there, and returns whether it is.
pub(crate) fn raise<K: Exact, V: Exact>(
    alloc: Global,
    pairs: &mut Vec<Pair<K, V>>,
    key: K,
    value: V,
) -> Result<bool, OutOfMemory>
    requires { IsStrictlySortedBy K.cmp (keys_of pairs.old.items) }
    ensures changed { IfOk result (λ b.
        b ≡ changes_by (by_key K.cmp) (by_value V.cmp) pairs.old.items (key, value)) }
    ensures ok { OnOk result
        (pairs.new.items ≡ put_by (by_key K.cmp) (by_value V.cmp) (key, value) pairs.old.items) }
    ensures err { OnErr result (pairs.new.items ≡ pairs.old.items) }
{
    match place_from_end(pairs, &key) {
        Ok(index) => {
            let greater = value.cmp(pairs[index].value()).is_gt();
            if !greater {
                return Ok(false);
            }
            pairs[index].replace(key, value);
            Ok(true)
        }
        Err(index) => {
            pairs.insert(index, Pair::new(alloc, key, value)?)?;
            Ok(true)
        }
    }
}

pub(crate) fn copied<K: Exact, V: Exact>(
    alloc: Global,
    pairs: &Vec<Pair<K, V>>,
) -> Result<Vec<Pair<K, V>>, OutOfMemory>
    ensures { IfOk result (λ copy. copy.items ≡ pairs.now.items) }
{
    let mut copy = Vec::with_capacity(alloc, pairs.len())?;
    for pair in pairs {
        let key = pair.key().clone()?;
        let value = pair.value().clone()?;
        copy.push(Pair::new(alloc, key, value)?)?;
    }
    Ok(copy)
}

pub(crate) fn at_key<'a, K: Exact, V: Drop>(
    pairs: &'a Vec<Pair<K, V>>,
    key: &K,
) -> Option<(&'a K, &'a V)>
    requires { IsStrictlySortedBy K.cmp (keys_of pairs.now.items) }
    ensures { option_map deref_pair result ≡ find (λ p. is_eq (K.cmp key.now p.0)) pairs.now.items }
{
    match place(pairs, key) {
        Ok(index) => pair_at(pairs, index),
        Err(_) => None,
    }
}

fn pair_at<K: Drop, V: Drop>(pairs: &Vec<Pair<K, V>>, index: usize) -> Option<(&K, &V)>
    ensures { option_map deref_pair result ≡ slice_get pairs.now.items index }
{
    let pair = pairs.get(index)?;
    Some((pair.key(), pair.value()))
}

pub(crate) fn first_pair<K: Drop, V: Drop>(pairs: &Vec<Pair<K, V>>) -> Option<(&K, &V)>
    ensures { option_map deref_pair result ≡ first_of pairs.now.items }
{
    pair_at(pairs, 0)
}

pub(crate) fn next_after<'a, K: Exact, V: Drop>(
    pairs: &'a Vec<Pair<K, V>>,
    key: &K,
) -> Option<(&'a K, &'a V)>
    requires { IsStrictlySortedBy K.cmp (keys_of pairs.now.items) }
    ensures { option_map deref_pair result ≡ find (λ p. is_lt (K.cmp key.now p.0)) pairs.now.items }
{
    match place(pairs, key) {
        Ok(index) => pair_at(pairs, index + 1),
        Err(index) => pair_at(pairs, index),
    }
}
