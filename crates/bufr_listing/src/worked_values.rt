ghost use Rattle.std.specs.Prelude.{◌≡◌, ◌++◌, ◌∷◌, [], codes};
ghost use Rattle.bufr_tables.specs.Descriptors.{descriptor};
ghost use Rattle.bufr_listing.specs.Listings.{quoted};
ghost use Rattle.bufr_listing.specs.Reasons.{listing_reason};

use super::{Cause, ListingFault};
use bufr_expand::{TemplateFault, WalkFault};

/// Octets between quotes, at each border of those that appear as themselves.
#[tactic(auto, unfolding(crate::proofs::OnLiterals::listings_on_literals))]
pub fn quotes()
    ensures plain { quoted (32 ∷ 33 ∷ 35 ∷ 91 ∷ 93 ∷ 126 ∷ [])
        ≡ 34 ∷ 32 ∷ 33 ∷ 35 ∷ 91 ∷ 93 ∷ 126 ∷ 34 ∷ [] }
    ensures below { quoted (0 ∷ 31 ∷ []) ≡ 34 ∷ 92 ∷ codes "00" ++ 92 ∷ codes "1f" ++ 34 ∷ [] }
    ensures above { quoted (127 ∷ 128 ∷ 255 ∷ [])
        ≡ 34 ∷ 92 ∷ codes "7f" ++ 92 ∷ codes "80" ++ 92 ∷ codes "ff" ++ 34 ∷ [] }
    ensures own { quoted (34 ∷ 92 ∷ []) ≡ 34 ∷ 92 ∷ codes "22" ++ 92 ∷ codes "5c" ++ 34 ∷ [] }
{}

/// Texts of faults.
#[tactic(auto, unfolding(crate::proofs::OnLiterals::listings_on_literals))]
pub fn reasons_of_listings()
    ensures line { listing_reason (ListingFault.BadLine 3) ≡ codes "L1 BadLine 3" }
    ensures value { listing_reason (ListingFault.BadValue 14) ≡ codes "L2 BadValue 14" }
    ensures template { listing_reason (ListingFault.Refused 5
        (Cause.Template (TemplateFault.UnknownElement (descriptor 0 1 250))))
        ≡ codes "L3 Refused 5 X1 UnknownElement 001250" }
    ensures range { listing_reason (ListingFault.Refused 8
        (Cause.Walk (WalkFault.EffectiveRange (descriptor 0 12 101))))
        ≡ codes "L3 Refused 8 V1 EffectiveRange 012101" }
    ensures large { listing_reason (ListingFault.Refused 10 (Cause.Walk WalkFault.TooLarge))
        ≡ codes "L3 Refused 10 V6 TooLarge" }
{}
