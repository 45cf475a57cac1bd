ghost use Rattle.std.specs.Prelude.{◌≡◌, ◌++◌, List, IfOk, OnOk, OnErr};
ghost use Rattle.std.proofs.Common.{◌∙◌};
ghost use Rattle.bufr_entries.specs.Entries.{kept};
ghost use Rattle.bufr_entries.specs.Orders.{kept-early, kept-swap, kept-join, kept-twice, kept-kept};
ghost use Rattle.bufr_entries.specs.declared.entry.Entry.{Entry};

use crate::held::{Held, held_with_key, held_without_key};
use crate::rank::Rank;
use crate::shelf::{JoinFault, Shelf};
use bufr_base::{Items, OutOfMemory};
use bufr_entries::Key;
use merge::{merge, room_for};
use pair::Pair;
use sorted::{at_key, copied, first_pair, next_after, raise};
use std::alloc::Global;
use std::marker::Model;

mod gathered;
mod joined;
mod merge;
mod pair;
mod sorted;

/// A shelf on two sorted vectors, for joins and for entries nearly in order. `put` moves eight
/// octets for each later entry; `join` goes once over both shelves.
#[derive(Drop)]
pub struct SortedShelf {
    alloc: Global,
    keyed: Vec<Pair<Key, Rank>>,
    unkeyed: Vec<Pair<Items<u8>, u8>>,
}

impl Model for SortedShelf {
    ghost use Rattle.std.specs.Prelude.{List};
    ghost use Rattle.bufr_shelves.specs.Shelves.{IsShelved};
    ghost use Rattle.bufr_shelves.specs.Pairs.{shelved};
    ghost use Rattle.bufr_entries.specs.declared.entry.Entry.{Entry};

    ghost Value = { List Entry };

    ghost view = { λ a. shelved a.keyed.items a.unkeyed.items };

    ghost invariant = { λ a. IsShelved a.keyed.items a.unkeyed.items };
}

impl Shelf for SortedShelf {
    ghost entries = { λ s. kept s };

    ghost in_order = { kept-kept };

    ghost kept_first = { λ s more. kept-early (kept s) more };

    ghost join_commutes = { λ a b. kept-swap (kept a) (kept b) };

    ghost join_associates = { λ a b c. kept-join (kept a) (kept b) (kept c) };

    ghost join_is_idempotent = { λ s. kept-twice (kept s) ∙ kept-kept s };

    fn new(alloc: Global) -> Self {
        SortedShelf {
            alloc,
            keyed: Vec::new(alloc),
            unkeyed: Vec::new(alloc),
        }
    }

    fn put(&mut self, key: Option<Key>, update: u8, bytes: Items<u8>) -> Result<bool, OutOfMemory> {
        match key {
            Some(key) => raise(self.alloc, &mut self.keyed, key, Rank { update, bytes }),
            None => raise(self.alloc, &mut self.unkeyed, bytes, update),
        }
    }

    fn join(&mut self, other: &Self) -> Result<(), JoinFault> {
        let keyed = copied(self.alloc, &other.keyed)?;
        let unkeyed = copied(self.alloc, &other.unkeyed)?;
        let keyed_room = room_for(self.alloc, &self.keyed, &keyed)?;
        let unkeyed_room = room_for(self.alloc, &self.unkeyed, &unkeyed)?;
        merge(&mut self.keyed, keyed, keyed_room);
        merge(&mut self.unkeyed, unkeyed, unkeyed_room);
        Ok(())
    }

    fn copy(&self) -> Result<Self, OutOfMemory> {
        Ok(SortedShelf {
            alloc: self.alloc,
            keyed: copied(self.alloc, &self.keyed)?,
            unkeyed: copied(self.alloc, &self.unkeyed)?,
        })
    }

    fn len(&self) -> usize {
        self.keyed.len() + self.unkeyed.len()
    }

    fn get(&self, key: &Key) -> Option<Held> {
        held_with_key(at_key(&self.keyed, key))
    }

    fn first(&self) -> Option<Held> {
        match held_with_key(first_pair(&self.keyed)) {
            Some(held) => Some(held),
            None => held_without_key(first_pair(&self.unkeyed)),
        }
    }

    fn after(&self, held: Held) -> Option<Held> {
        let Some(key) = held.key else {
            return held_without_key(next_after(&self.unkeyed, held.bytes));
        };
        match held_with_key(next_after(&self.keyed, key)) {
            Some(next) => Some(next),
            None => held_without_key(first_pair(&self.unkeyed)),
        }
    }
}
