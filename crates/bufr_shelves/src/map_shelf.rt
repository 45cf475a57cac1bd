ghost use Rattle.std.specs.Prelude.{◌≡◌, ◌++◌, List, IfOk, OnOk, OnErr};
ghost use Rattle.std.proofs.Common.{◌∙◌};
ghost use Rattle.bufr_entries.specs.Entries.{kept};
ghost use Rattle.bufr_entries.specs.Orders.{kept-early, kept-swap, kept-join, kept-twice, kept-kept};
ghost use Rattle.bufr_entries.specs.declared.entry.Entry.{Entry};

use crate::held::{Held, held_with_key, held_without_key};
use crate::rank::Rank;
use crate::shelf::{JoinFault, Shelf};
use bufr_base::{Items, OutOfMemory};
use bufr_entries::Key;
use raise::{at_key, copied, first_pair, next_after, raise, raise_all};
use std::alloc::Global;
use std::collections::BTreeMap;
use std::marker::Model;

mod raise;

/// A shelf on two ordered maps: from keys to ranks, and from the octets of entries without a key to
/// update numbers. `put` takes logarithmic time.
#[derive(Drop)]
pub struct MapShelf {
    keyed: BTreeMap<Key, Rank>,
    unkeyed: BTreeMap<Items<u8>, u8>,
}

impl Model for MapShelf {
    ghost use Rattle.std.specs.Prelude.{List};
    ghost use Rattle.bufr_shelves.specs.Shelves.{IsShelved};
    ghost use Rattle.bufr_shelves.specs.Pairs.{shelved};
    ghost use Rattle.bufr_entries.specs.declared.entry.Entry.{Entry};

    ghost Value = { List Entry };

    ghost view = { λ a. shelved a.keyed.entries a.unkeyed.entries };

    ghost invariant = { λ a. IsShelved a.keyed.entries a.unkeyed.entries };
}

impl Shelf for MapShelf {
    ghost entries = { λ s. kept s };

    ghost in_order = { kept-kept };

    ghost kept_first = { λ s more. kept-early (kept s) more };

    ghost join_commutes = { λ a b. kept-swap (kept a) (kept b) };

    ghost join_associates = { λ a b c. kept-join (kept a) (kept b) (kept c) };

    ghost join_is_idempotent = { λ s. kept-twice (kept s) ∙ kept-kept s };

    fn new(alloc: Global) -> Self {
        MapShelf {
            keyed: BTreeMap::new(alloc),
            unkeyed: BTreeMap::new(alloc),
        }
    }

    fn put(&mut self, key: Option<Key>, update: u8, bytes: Items<u8>) -> Result<bool, OutOfMemory> {
        match key {
            Some(key) => raise(&mut self.keyed, key, Rank { update, bytes }),
            None => raise(&mut self.unkeyed, bytes, update),
        }
    }

    fn join(&mut self, other: &Self) -> Result<(), JoinFault> {
        let mut keyed = copied(&self.keyed)?;
        let mut unkeyed = copied(&self.unkeyed)?;
        raise_all(&mut keyed, &other.keyed)?;
        raise_all(&mut unkeyed, &other.unkeyed)?;
        self.keyed = keyed;
        self.unkeyed = unkeyed;
        Ok(())
    }

    fn copy(&self) -> Result<Self, OutOfMemory> {
        Ok(MapShelf {
            keyed: copied(&self.keyed)?,
            unkeyed: copied(&self.unkeyed)?,
        })
    }

    fn len(&self) -> usize {
        self.keyed.len() + self.unkeyed.len()
    }

    fn get(&self, key: &Key) -> Option<Held> {
        held_with_key(at_key(&self.keyed, key))
    }

    fn first(&self) -> Option<Held> {
        match held_with_key(first_pair(&self.keyed)) {
            Some(held) => Some(held),
            None => held_without_key(first_pair(&self.unkeyed)),
        }
    }

    fn after(&self, held: Held) -> Option<Held> {
        let Some(key) = held.key else {
            return held_without_key(next_after(&self.unkeyed, held.bytes));
        };
        match held_with_key(next_after(&self.keyed, key)) {
            Some(next) => Some(next),
            None => held_without_key(first_pair(&self.unkeyed)),
        }
    }
}
