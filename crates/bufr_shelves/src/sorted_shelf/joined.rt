//! The octets of a sorted shelf, joined.
ghost use Rattle.std.specs.Prelude.{◌≡◌, ◌++◌, IfOk, OnOk};
ghost use Rattle.std.specs.List.{flat_map};
ghost use Rattle.bufr_entries.specs.Entries.{kept};

use crate::rank::Rank;
use crate::sorted_shelf::SortedShelf;
use crate::sorted_shelf::pair::Pair;
use bufr_base::{Items, OutOfMemory};
use bufr_entries::Key;

/// Appends the octets of the entries with a key, and frees each entry.
fn push_keyed(out: &mut Vec<u8>, pairs: Vec<Pair<Key, Rank>>) -> Result<(), OutOfMemory>
    ensures { OnOk result
        (out.new.items ≡ out.old.items ++ flat_map (λ p. p.1.bytes) pairs.items) }
{
    for pair in pairs {
        out.extend_from_slice(pair.value().bytes.as_slice())?;
    }
    Ok(())
}

/// Appends the octets of the entries without a key, and frees each entry.
fn push_unkeyed(out: &mut Vec<u8>, pairs: Vec<Pair<Items<u8>, u8>>) -> Result<(), OutOfMemory>
    ensures { OnOk result
        (out.new.items ≡ out.old.items ++ flat_map (λ p. p.0) pairs.items) }
{
    for pair in pairs {
        out.extend_from_slice(pair.key().as_slice())?;
    }
    Ok(())
}

impl SortedShelf {
    /// Joins the octets of all entries, in order of slots.
    pub fn into_octets(self) -> Result<Vec<u8>, OutOfMemory>
        ensures { IfOk result (λ out. out.items ≡ flat_map (λ e. e.bytes) (kept self)) }
    {
        let SortedShelf {
            alloc,
            keyed,
            unkeyed,
        } = self;
        let mut out = Vec::new(alloc);
        push_keyed(&mut out, keyed)?;
        push_unkeyed(&mut out, unkeyed)?;
        Ok(out)
    }
}
