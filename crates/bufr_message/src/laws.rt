//! Laws on messages and their octets.

ghost use Rattle.bufr_message.specs.Below.{Below};
ghost use Rattle.bufr_message.specs.OwnBits.{CanonicalIsOwn};
ghost use Rattle.bufr_message.specs.Reports.{CanonicalTellsApart, CanonicalIsRead};
ghost use Rattle.bufr_message.specs.Reports.{CanonicalIsAsLong, ReportsSpeltAreUnder};
ghost use Rattle.bufr_message.specs.Laws.{MessagesReadAreSpelt, MessagesSpeltAreRead};
ghost use Rattle.bufr_message.specs.Laws.{RefusedForFirstFault, FirstFaultIsAnswered};
ghost use Rattle.bufr_message.specs.Laws.{MessagesWrittenAreBare, BareAreWritten};
ghost use Rattle.bufr_message.specs.Laws.{MessagesWrittenAreRead, UnwrittenForFirstFault};
ghost use Rattle.bufr_message.specs.Laws.{FirstEncodeFaultIsAnswered, PlainSpeltAreWritten};
ghost use Rattle.bufr_message.specs.Laws.{PackableSpeltAreWritten, Edition4AsksNoMore};
ghost use Rattle.bufr_message.specs.SmallSubsets.{SubsetsAreSmall};

use bufr_data::laws::data_hold_subsets;
use bufr_expand::laws::{courses_are_steady, courses_are_unrollings, templates_are_trees};
use bufr_sections::laws::bare_spellings_are_shortest;
pub use bufr_sections::laws::{refusals_of_sections_are_the_first, sections_are_spelt};

/// Collects the laws of the crates below.
fn laws_below()
    ensures { Below }
{
    sections_are_spelt();
    refusals_of_sections_are_the_first();
    bare_spellings_are_shortest();
    templates_are_trees();
    data_hold_subsets();
}

/// Reading returns exactly the message that octets spell, and there is only one.
pub fn messages_are_spelt()
    ensures read { MessagesReadAreSpelt }
    ensures spelt { MessagesSpeltAreRead }
{
    laws_below();
}

/// Reading refuses octets exactly for their first fault: of the sections, the descriptors, the
/// data.
pub fn refusals_of_octets_are_the_first()
    ensures given { RefusedForFirstFault }
    ensures answered { FirstFaultIsAnswered }
{
    laws_below();
}

/// Writing returns exactly the octets that spell a message with zeros in all that readers ignore,
/// and reading them returns the message. Writing takes each plain message that octets of edition 4
/// spell, and each compressed one that its columns can hold, unless it is too long.
pub fn written_messages_are_spelt()
    ensures bare { MessagesWrittenAreBare }
    ensures only { BareAreWritten }
    ensures read { MessagesWrittenAreRead }
    ensures plain { PlainSpeltAreWritten }
    ensures packable { PackableSpeltAreWritten }
{
    laws_below();
}

/// Writing refuses messages exactly for their first fault: no descriptor, the descriptors, the
/// subsets, the limits.
pub fn refusals_of_messages_are_the_first()
    ensures given { UnwrittenForFirstFault }
    ensures answered { FirstEncodeFaultIsAnswered }
{
    laws_below();
}

/// Two reports with one canonical message, under the same tables, are one. Reading it returns the
/// report alone. It has 45 octets, two for each descriptor, and those of the subset's bits.
pub fn canonical_messages_are_reports()
    ensures apart { CanonicalTellsApart }
    ensures read { CanonicalIsRead }
    ensures long { CanonicalIsAsLong }
{
    laws_below();
}

/// The canonical message of a report is what its own fields spell, whatever the tables.
pub fn canonical_messages_are_own()
    ensures { CanonicalIsOwn }
{
    laws_below();
}

/// Each report of a message that octets spell, plain or compressed, has a canonical message.
pub fn reports_have_canonical_messages()
    ensures { ReportsSpeltAreUnder }
{
    laws_below();
}

/// In edition 4 octets spell a message if they are its sections, its descriptors and its data. Each
/// report then has a canonical message, so `Spells` asks for no more.
pub fn edition_4_asks_no_more()
    ensures { Edition4AsksNoMore }
{
    laws_below();
}

/// A message that octets spell has fewer than 2 to the 16th subsets, each of at most 16,777,216
/// fields, each of at most 8,191 octets or 64 bits.
pub fn subsets_are_small()
    ensures { SubsetsAreSmall }
{
    courses_are_steady();
    courses_are_unrollings();
}
