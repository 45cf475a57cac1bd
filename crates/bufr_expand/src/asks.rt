//! Picks fields by descriptor.

ghost use Rattle.std.specs.Prelude.{◌≡◌, ℕ, Bool};

use bufr_tables::Fxy;

/// A choice of descriptors.
pub trait Asks {
    /// The chosen descriptors.
    ghost is_asked: { Self → ℕ → Bool };

    /// Returns whether a descriptor is chosen.
    fn asks(&self, fxy: Fxy) -> bool
        ensures { result ≡ is_asked self.now fxy };
}
