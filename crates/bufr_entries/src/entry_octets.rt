ghost use Rattle.std.specs.Prelude.{◌≡◌, ℕ, List, Option, IfOk, OnErr};
ghost use Rattle.bufr_entries.specs.Octets.{PutsBehind};

use bufr_base::{Items, OutOfMemory};
use std::alloc::Global;

/// A source of an entry's octets, which may have none.
pub trait EntryOctets {
    /// The octets, if there are any.
    ghost octets: { Self → Option (List ℕ) };

    /// Appends the octets to `out`, and returns whether there are any.
    fn append_to(&self, alloc: Global, out: &mut Vec<u8>) -> Result<bool, OutOfMemory>
        ensures put { IfOk result (λ b.
            PutsBehind (octets self.now) b out.old.items out.new.items) }
        ensures err { OnErr result (out.new.items ≡ out.old.items) };
}

/// A list is its own octets.
impl EntryOctets for Items<u8> {
    ghost use Rattle.std.specs.Prelude.{Some};

    ghost octets = { λ a. Some a };

    fn append_to(&self, _: Global, out: &mut Vec<u8>) -> Result<bool, OutOfMemory> {
        out.extend_from_slice(self.as_slice())?;
        Ok(true)
    }
}
