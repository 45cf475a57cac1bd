//! The digits of descriptors.

ghost use Rattle.std.specs.Prelude.{◌≡◌, ◌∷◌, ◌++◌, []};
ghost use Rattle.bufr_tables.specs.Descriptors.{six_digits};

use bufr_tables::Fxy;

/// Returns the six digits of a descriptor and a space.
pub fn descriptor_and_space(fxy: Fxy) -> [u8; 7]
    ensures { result ≡ six_digits fxy ++ 32 ∷ [] }
{
    let digits = fxy.digits();
    [
        digits[0], digits[1], digits[2], digits[3], digits[4], digits[5], b' ',
    ]
}
