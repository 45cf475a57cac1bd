//! Laws on the parts of listings.

ghost use Rattle.bufr_listing.specs.Laws.{ListingsAreJoinedParts, SubsetsAreJoinedLines};

/// A listing joins the lines before its first subset, those of each subset, and the last line.
#[tactic(auto, using(crate::proofs::ListingFacts::listing_in_parts))]
pub fn listings_are_joined_parts()
    ensures { ListingsAreJoinedParts }
{}

/// The lines of a subset join its first line and those of its fields, before any place and from it
/// on.
#[tactic(auto, using(crate::proofs::ListingFacts::subset_in_lines))]
pub fn subsets_are_joined_lines()
    ensures { SubsetsAreJoinedLines }
{}
