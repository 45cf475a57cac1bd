//! Compares octets with what `spell` writes for their sections.

ghost use Rattle.std.specs.Prelude.{◌≡◌, ◌≢◌, ℕ, Ok, None, []};
ghost use Rattle.std.specs.Bool.{OnTrue, OnFalse};
ghost use Rattle.bufr_sections.specs.Sections.{envelope_of};
ghost use Rattle.bufr_sections.specs.SectionsRead.{envelope_lent};
ghost use Rattle.bufr_sections.specs.Spelt.{spelt_or};

use crate::lent_sections::LentSections;

/// Whether `spell` writes exactly `octets` for the sections read from them. False if the message
/// has a section 2, or octets for local use in section 1.
pub fn are_bare(octets: &[u8], sections: &LentSections<'_>, contents: &[u8]) -> bool
    ensures spelt { (count : ℕ)
        → envelope_of octets.now ≡ Ok (envelope_lent sections.now count contents.now)
        → OnTrue result
        (spelt_or (envelope_lent sections.now count contents.now) ≡ Ok octets.now) }
    ensures others { (count : ℕ) → OnFalse result (sections.now.section2.now ≡ None
        → sections.now.head.now.local ≡ []
        → spelt_or (envelope_lent sections.now count contents.now) ≢ Ok octets.now) }
    ensures no_section2 { OnTrue result (sections.now.section2.now ≡ None) }
    ensures no_local { OnTrue result (sections.now.head.now.local ≡ []) }
{
    if sections.section2.is_some() || !sections.head.local.is_empty() {
        return false;
    }
    // Sections 0 and 1 have 30 octets, section 3 has 7 and its descriptors. Edition 3 and an odd
    // octet change the length.
    let place4 = 37 + 2 * sections.descriptors.len();
    if octets.len() <= place4 || octets.len() - place4 != contents.len() + 8 {
        return false;
    }
    if octets[17] != 0 || octets[33] != 0 || octets[36] % 64 != 0 {
        return false;
    }
    octets[place4 + 3] == 0
}
