//! Laws on reading and writing the sections of messages.

ghost use Rattle.bufr_sections.specs.SectionLaws.{SectionsReadAreSpelt, SectionsSpeltAreRead};
ghost use Rattle.bufr_sections.specs.SectionLaws.{SectionsRefusedGiveFirst, FirstGivenIsAnswered};
ghost use Rattle.bufr_sections.specs.SectionLaws.{SectionsRefusedForTheirs};
ghost use Rattle.bufr_sections.specs.SectionLaws.{BareSpellingsAreShortest};

/// Reading returns exactly the sections that the octets spell.
pub fn sections_are_spelt()
    ensures read { SectionsReadAreSpelt }
    ensures spelt { SectionsSpeltAreRead }
{}

/// Reading refuses sections exactly for the first of the causes M1 to M9 in the octets.
pub fn refusals_of_sections_are_the_first()
    ensures given { SectionsRefusedGiveFirst }
    ensures answered { FirstGivenIsAnswered }
    ensures theirs { SectionsRefusedForTheirs }
{}

/// No spelling of sections in edition 4 is shorter than what `spell` writes for them, or for
/// sections with no longer parts.
pub fn bare_spellings_are_shortest()
    ensures { BareSpellingsAreShortest }
{}
