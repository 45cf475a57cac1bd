//! Ordered maps that keep the greatest value at each key.
ghost use Rattle.std.specs.Prelude.{◌≡◌, IfOk, OnOk, OnErr, find};
ghost use Rattle.std.specs.Option.{option_map};
ghost use Rattle.std.specs.Ordering.{is_eq, is_lt};
ghost use Rattle.std.specs.Map.Iter.{deref_pair};
ghost use Rattle.bufr_entries.specs.Keeping.{put_by, put_all, changes_by, first_of};
ghost use Rattle.bufr_shelves.specs.Pairs.{by_key, by_value};

use crate::rank::Exact;
use bufr_base::OutOfMemory;
use std::collections::BTreeMap;
use std::ops::Bound;

/// Puts a value at a key if it is greater than the one there, and returns whether it is.
pub(crate) fn raise<K: Exact, V: Exact>(
    map: &mut BTreeMap<K, V>,
    key: K,
    value: V,
) -> Result<bool, OutOfMemory>
    ensures changed { IfOk result (λ b.
        b ≡ changes_by (by_key K.cmp) (by_value V.cmp) map.old.entries (key, value)) }
    ensures ok { OnOk result
        (map.new.entries ≡ put_by (by_key K.cmp) (by_value V.cmp) (key, value) map.old.entries) }
    ensures err { OnErr result (map.new.entries ≡ map.old.entries) }
{
    // `len` ensures that the keys are in order.
    let _size = map.len();
    if let Some(old) = map.get(&key) {
        let greater = value.cmp(old).is_gt();
        if !greater {
            return Ok(false);
        }
    }
    map.insert(key, value)?;
    Ok(true)
}

/// Raises the map by all pairs of another; if memory runs out, by some.
pub(crate) fn raise_all<K: Exact, V: Exact>(
    map: &mut BTreeMap<K, V>,
    more: &BTreeMap<K, V>,
) -> Result<(), OutOfMemory>
    ensures { OnOk result (map.new.entries
        ≡ put_all (by_key K.cmp) (by_value V.cmp) map.old.entries more.now.entries) }
{
    for (key, value) in more {
        let key = key.clone()?;
        let value = value.clone()?;
        raise(map, key, value)?;
    }
    Ok(())
}

pub(crate) fn copied<K: Exact, V: Exact>(
    map: &BTreeMap<K, V>,
) -> Result<BTreeMap<K, V>, OutOfMemory>
    ensures { IfOk result (λ m. m.entries ≡ map.now.entries) }
{
    map.clone()
}

pub(crate) fn at_key<'a, K: Exact, V>(map: &'a BTreeMap<K, V>, key: &K) -> Option<(&'a K, &'a V)>
    ensures { option_map deref_pair result ≡ find (λ p. is_eq (K.cmp key.now p.0)) map.now.entries }
{
    map.get_key_value(key)
}

pub(crate) fn first_pair<K: Exact, V>(map: &BTreeMap<K, V>) -> Option<(&K, &V)>
    ensures { option_map deref_pair result ≡ first_of map.now.entries }
{
    map.first_key_value()
}

pub(crate) fn next_after<'a, K: Exact, V>(
    map: &'a BTreeMap<K, V>,
    key: &K,
) -> Option<(&'a K, &'a V)>
    ensures { option_map deref_pair result ≡ find (λ p. is_lt (K.cmp key.now p.0)) map.now.entries }
{
    map.range((Bound::Excluded(key), Bound::Unbounded)).next()
}
