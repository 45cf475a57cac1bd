//! Lists of descriptors, in the caller's form.

ghost use Rattle.std.specs.Prelude.{◌≡◌, ℕ, List, IfOk};
ghost use Rattle.std.specs.Bool.{OnTrue};

use bufr_base::{Items, OutOfMemory};
use bufr_tables::Fxy;
use std::alloc::Global;

/// A list of descriptors, in some form.
pub trait DescriptorList {
    /// The descriptors.
    ghost listed: { Self → List ℕ };

    /// Whether the descriptors are these.
    fn is(&self, descriptors: &[Fxy]) -> bool
        ensures { OnTrue result (listed self.now ≡ descriptors.now) };

    /// Copies the descriptors into a list of their own.
    fn to_items(&self, alloc: Global) -> Result<Items<Fxy>, OutOfMemory>
        ensures { IfOk result (λ list. list ≡ listed self.now) };
}

impl DescriptorList for &[Fxy] {
    ghost listed = { λ list. list.now };

    fn is(&self, descriptors: &[Fxy]) -> bool {
        *self == descriptors
    }

    fn to_items(&self, alloc: Global) -> Result<Items<Fxy>, OutOfMemory> {
        let copied = Vec::from_slice(alloc, self)?;
        Ok(Items::from_vec(copied))
    }
}
