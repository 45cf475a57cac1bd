//! Lent entries, and the order of slots.
ghost use Rattle.std.specs.Prelude.{◌≡◌};
ghost use Rattle.std.specs.Option.{option_map, option_copied};
ghost use Rattle.std.specs.Map.Iter.{deref_pair};
ghost use Rattle.bufr_entries.specs.KeyOrders.{octets_cmp};
ghost use Rattle.bufr_entries.specs.Entries.{slot_by, slot_cmp};
ghost use Rattle.bufr_shelves.specs.Pairs.{with_key, without_key};
ghost use Rattle.bufr_shelves.specs.Shelves.{lent};

use crate::rank::Rank;
use bufr_base::Items;
use bufr_entries::Key;
use std::cmp::Ordering;

/// An entry that a shelf lends.
#[derive(Clone, Copy, Debug, Drop)]
pub struct Held<'a> {
    /// The key, if it has one.
    pub key: Option<&'a Key>,
    /// The update sequence number.
    pub update: u8,
    /// The canonical message.
    pub bytes: &'a Items<u8>,
}

/// Compares two slots, each a key or octets: those with a key by key, and after them those without
/// by octets.
#[tactic(auto, using(bufr_entries::specs::DerivedOrders::keys_are))]
pub fn slot_order(
    key: Option<&Key>,
    bytes: &[u8],
    other_key: Option<&Key>,
    other_bytes: &[u8],
) -> Ordering
    ensures { let by_octets = octets_cmp bytes.now other_bytes.now in
        result ≡ slot_by (option_copied key.entry) (option_copied other_key.entry) by_octets }
{
    match (key, other_key) {
        (Some(key), Some(other)) => key.cmp(other),
        (Some(_), None) => Ordering::Less,
        (None, Some(_)) => Ordering::Greater,
        (None, None) => bytes.cmp(other_bytes),
    }
}

impl Held<'_> {
    /// Compares the slots of two entries.
    pub fn slot_cmp(self, other: Held) -> Ordering
        ensures { result ≡ slot_cmp (lent self.entry) (lent other.entry) }
    {
        slot_order(
            self.key,
            self.bytes.as_slice(),
            other.key,
            other.bytes.as_slice(),
        )
    }
}

pub(crate) fn held_with_key<'a>(found: Option<(&'a Key, &'a Rank)>) -> Option<Held<'a>>
    ensures { option_map lent result ≡ option_map with_key (option_map deref_pair found.entry) }
{
    let (key, rank) = found?;
    Some(Held {
        key: Some(key),
        update: rank.update,
        bytes: &rank.bytes,
    })
}

/// Lends octets and their update number as an entry without a key.
pub(crate) fn held_without_key<'a>(found: Option<(&'a Items<u8>, &'a u8)>) -> Option<Held<'a>>
    ensures { option_map lent result ≡ option_map without_key (option_map deref_pair found.entry) }
{
    let (bytes, update) = found?;
    Some(Held {
        key: None,
        update: *update,
        bytes,
    })
}
