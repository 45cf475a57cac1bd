//! Laws: rows show what listings show.

ghost use Rattle.bufr_select_engine.specs.Listed.{ListingsDetermineRows};
ghost use Rattle.bufr_select_engine.specs.Listed.{ListingsOfFramesDetermineRows};

use bufr_message::laws::messages_are_spelt;
use bufr_select_rows::laws::lines_determine_rows;

/// Messages with the same listing have the same rows.
pub fn listings_determine_rows()
    ensures { ListingsDetermineRows }
{
    lines_determine_rows();
}

/// Frames whose messages have the same listing have the same rows, without a premise on descriptors.
pub fn listings_of_frames_determine_rows()
    ensures { ListingsOfFramesDetermineRows }
{
    lines_determine_rows();
    messages_are_spelt();
}
