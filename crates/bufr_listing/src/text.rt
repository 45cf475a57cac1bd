//! Writes a listing, whole or in parts.

ghost use Rattle.std.specs.Prelude.{◌≡◌, IfOk};
ghost use Rattle.bufr_listing.specs.Listings.{line, joined, subset_lines, end_line, listing};

use crate::fields::push_subset;
use crate::heading::push_heading;
use bufr_base::OutOfMemory;
use bufr_fields::Subset;
use bufr_sections::{LentSections, Message};
use std::alloc::Global;

/// The first capacity of a listing, in octets.
const HEADING_ROOM: usize = 512;

/// The last line of a listing.
const END_LINE: &str = "end\n";

/// Returns the listing of a message.
#[tactic(auto, using(crate::proofs::ListingFacts::listing_in_parts))]
pub fn text_of(alloc: Global, message: &Message) -> Result<Vec<u8>, OutOfMemory>
    ensures { IfOk result (λ text. text.items ≡ listing message.now) }
{
    let mut text = Vec::with_capacity(alloc, HEADING_ROOM)?;
    push_heading(alloc, &mut text, &LentSections::of_message(message))?;
    for subset in message.subsets.as_slice() {
        push_subset(&mut text, subset)?;
    }
    text.extend_from_slice(end_text())?;
    Ok(text)
}

/// Returns the lines of one subset.
pub fn subset_text(alloc: Global, subset: &Subset) -> Result<Vec<u8>, OutOfMemory>
    ensures { IfOk result (λ text. text.items ≡ joined (subset_lines subset.now)) }
{
    let mut text = Vec::new(alloc);
    push_subset(&mut text, subset)?;
    Ok(text)
}

/// Returns the last line of a listing.
pub fn end_text() -> &'static [u8]
    ensures { result.now ≡ line end_line }
{
    END_LINE.as_bytes()
}
