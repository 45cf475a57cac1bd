//! Laws on listings.

ghost use Rattle.bufr_listing_reader.specs.Laws.{MessagesReadAreListed};
ghost use Rattle.bufr_listing_reader.specs.Laws.{MessagesListedAreRead, ListingsAreReadBack};
ghost use Rattle.bufr_listing_reader.specs.Laws.{FaultsReadAreFirst, FirstFaultsAreRead};

use bufr_expand::laws::{
    courses_are_steady, courses_are_unrollings, courses_begin_unrollings, templates_are_trees,
};
use bufr_fields::laws::counted_subsets_fit;
use bufr_tables::laws::descriptor_texts;

/// Reading returns exactly the messages that a text lists.
pub fn listings_list_messages()
    ensures read { MessagesReadAreListed }
    ensures listed { MessagesListedAreRead }
{
    descriptor_texts();
    courses_are_steady();
    templates_are_trees();
    counted_subsets_fit();
}

/// Reading the joined listings of messages returns these messages.
pub fn listings_are_read_back()
    ensures read { ListingsAreReadBack }
{
    descriptor_texts();
    courses_are_steady();
    templates_are_trees();
    counted_subsets_fit();
}

/// Reading returns a fault exactly if it is the first of the text: a listing can begin with the
/// lines before it, and cannot go on with the next. So a text has at most one first fault, and has
/// it exactly if it lists no messages.
pub fn faults_of_listings_are_the_first()
    ensures given { FaultsReadAreFirst }
    ensures answered { FirstFaultsAreRead }
{
    descriptor_texts();
    courses_are_steady();
    templates_are_trees();
    counted_subsets_fit();
    courses_are_unrollings();
    courses_begin_unrollings();
}
