ghost use Rattle.std.specs.Prelude.{◌≡◌, ◌++◌, ◌∷◌, [], List, length, IfOk, OnOk, OnErr};
ghost use Rattle.std.specs.Option.{option_map};
ghost use Rattle.bufr_entries.specs.Entries.{kept, changes, entry_at, entry_after};
ghost use Rattle.bufr_entries.specs.Keeping.{first_of};
ghost use Rattle.bufr_shelves.specs.Shelves.{lent};
ghost use Rattle.bufr_entries.specs.declared.entry.Entry.{Entry};

use crate::held::Held;
use bufr_base::{Items, OutOfMemory};
use bufr_entries::Key;
use std::alloc::Global;
use thiserror::Error;

/// A fault of a shelf that joined nothing.
#[derive(Clone, Copy, Debug, Drop, Error)]
pub enum JoinFault {
    /// Memory ran out.
    #[error("out of memory")]
    OutOfMemory,
}

impl From<OutOfMemory> for JoinFault {
    ghost use Rattle.std.specs.Prelude.{◌≡◌};
    ghost use Rattle.bufr_shelves.specs.declared.shelf.JoinFault.TheVariants.{OutOfMemory as NothingJoined};

    ghost from_gives = { λ _ fault. fault ≡ NothingJoined };

    fn from(_: OutOfMemory) -> JoinFault {
        JoinFault::OutOfMemory
    }
}

/// A shelf: it keeps the entry of greatest rank of each slot, in order of slots.
pub trait Shelf: Drop {
    /// The entries, in order of slots.
    ghost entries: { Self → List Entry };

    /// Makes an empty shelf.
    fn new(alloc: Global) -> Self
        ensures { entries result ≡ [] };

    /// Puts an entry in: a key or none, an update number and octets. Returns whether the shelf
    /// changed.
    fn put(&mut self, key: Option<Key>, update: u8, bytes: Items<u8>) -> Result<bool, OutOfMemory>
        ensures changed { IfOk result (λ b. b ≡ changes (entries self.old)
            (record { key = key; update = update; bytes = bytes })) }
        ensures ok { OnOk result (entries self.new ≡ kept (entries self.old
            ++ record { key = key; update = update; bytes = bytes } ∷ [])) }
        ensures err { OnErr result (entries self.new ≡ entries self.old) };

    /// Takes in all entries of another shelf, or none if memory runs out.
    fn join(&mut self, other: &Self) -> Result<(), JoinFault>
        ensures ok { OnOk result (entries self.new ≡ kept (entries self.old ++ entries other.now)) }
        ensures err { OnErr result (entries self.new ≡ entries self.old) };

    /// Copies the shelf.
    fn copy(&self) -> Result<Self, OutOfMemory>
        ensures { IfOk result (λ copied. entries copied ≡ entries self.now) };

    /// Counts the entries.
    fn len(&self) -> usize
        ensures { result ≡ length (entries self.now) };

    /// Finds the entry of a key.
    fn get(&self, key: &Key) -> Option<Held>
        ensures { option_map lent result ≡ entry_at (entries self.now) key.now };

    /// Returns the first entry.
    fn first(&self) -> Option<Held>
        ensures { option_map lent result ≡ first_of (entries self.now) };

    /// Finds the first entry with a later slot than `held`, which need not be on this shelf.
    fn after(&self, held: Held) -> Option<Held>
        ensures { option_map lent result ≡ entry_after (entries self.now) (lent held.entry) };

    /// The entries are in order, one of each slot.
    ghost in_order: { (shelf : Self) → kept (entries shelf) ≡ entries shelf };

    /// Entries dropped before change nothing.
    ghost kept_first: { (shelf : Self) (more : List Entry)
        → kept (kept (entries shelf) ++ more) ≡ kept (entries shelf ++ more) };

    /// Either of two shelves may take in the other.
    ghost join_commutes: { (a b : Self)
        → kept (entries a ++ entries b) ≡ kept (entries b ++ entries a) };

    /// Three shelves may join in any grouping.
    ghost join_associates: { (a b c : Self)
        → kept (kept (entries a ++ entries b) ++ entries c)
        ≡ kept (entries a ++ kept (entries b ++ entries c)) };

    /// A shelf joined to itself stays as it is.
    ghost join_is_idempotent: { (shelf : Self)
        → kept (entries shelf ++ entries shelf) ≡ entries shelf };
}
