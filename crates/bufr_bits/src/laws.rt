//! Laws of bits: what is put is what is taken.

ghost use Rattle.std.specs.Prelude.{◌≡◌, ℕ, ◌^◌, ◌<◌, ◌++◌, Bool, List, Some, All, length};
ghost use Rattle.std.specs.List.{flat_map};
ghost use Rattle.bufr_bits.specs.Bits.{bin, bits, number, number_at, numbers_at, octets_at};

/// Only one field of `width` bits spells a number.
pub fn field_of_a_number()
    ensures width { (width number : ℕ) → length (bin width number) ≡ width }
    ensures spells { (width n : ℕ) → n < 2 ^ width → number (bin width n) ≡ n }
    ensures only { (field : List Bool) → bin (length field) (number field) ≡ field }
{}

/// A reader takes the number that a sink put, whatever follows.
pub fn number_put_is_taken()
    ensures { (width number : ℕ) (rest : List Bool) → number < 2 ^ width
        → number_at width (bin width number ++ rest) ≡ Some (number, rest) }
{}

/// A number that is taken fits its width, and its field begins the bits.
pub fn number_taken_was_put()
    ensures { (width number : ℕ) (text rest : List Bool)
        → number_at width text ≡ Some (number, rest)
        → (text ≡ bin width number ++ rest) × (number < 2 ^ width) }
{}

/// Numbers of one width that were put are taken again.
pub fn numbers_put_are_taken()
    ensures { (width : ℕ) (numbers : List ℕ) (rest : List Bool)
        → All (λ number. number < 2 ^ width) numbers
        → numbers_at (length numbers) width (flat_map (bin width) numbers ++ rest)
        ≡ Some (numbers, rest) }
{}

/// Numbers that are taken fit their width, and their fields begin the bits.
pub fn numbers_taken_were_put()
    ensures { (n width : ℕ) (numbers : List ℕ) (text rest : List Bool)
        → numbers_at n width text ≡ Some (numbers, rest)
        → (text ≡ flat_map (bin width) numbers ++ rest) × (length numbers ≡ n)
        × All (λ number. number < 2 ^ width) numbers }
{}

/// Octets that were put are taken again.
pub fn octets_put_are_taken()
    ensures { (octets : List ℕ) (rest : List Bool) → All (λ octet. octet < 256) octets
        → octets_at (length octets) (bits octets ++ rest) ≡ Some (octets, rest) }
{}

/// Octets that are taken begin the bits.
pub fn octets_taken_were_put()
    ensures { (n : ℕ) (octets : List ℕ) (text rest : List Bool)
        → octets_at n text ≡ Some (octets, rest)
        → (text ≡ bits octets ++ rest) × (length octets ≡ n)
        × All (λ octet. octet < 256) octets }
{}

/// Octets with equal bits are equal.
pub fn octets_with_these_bits()
    ensures { (octets others : List ℕ)
        → All (λ octet. octet < 256) octets → All (λ octet. octet < 256) others
        → bits octets ≡ bits others → octets ≡ others }
{}
