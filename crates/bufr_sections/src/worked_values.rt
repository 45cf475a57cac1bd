ghost use Rattle.std.specs.Prelude.{◌≡◌, ◌++◌, Ok, Err, IsOk, Some, None, true, false, [], ◌∷◌};
ghost use Rattle.std.specs.Prelude.{take, codes, map};
ghost use Rattle.bufr_fields.specs.declared.fault.MisfitFault.TheVariants.{TooLarge};
ghost use Rattle.bufr_sections.specs.Sections.{three, two, layout_of, year_of_century, envelope_of};
ghost use Rattle.bufr_sections.specs.Sections.{descriptors_of};
ghost use Rattle.bufr_sections.specs.Spelt.{bare, spelt_or, longest};
ghost use Rattle.bufr_sections.specs.Samples.{hex, said4, octets4, octets4_filled, said3, octets3};
ghost use Rattle.bufr_sections.specs.Samples.{octets3_with_section2, many_subsets, framed, usual1};
ghost use Rattle.bufr_sections.specs.Samples.{plain1, announcing1, short_section3, flag_pairs};
ghost use Rattle.bufr_sections.specs.Samples.{each_pair, said_by, says_each, said4_without};
ghost use Rattle.bufr_sections.specs.Samples.{octets4_without, said3_with, octets3_plain};
ghost use Rattle.bufr_sections.specs.Samples.{octets3_local};

use crate::fault::Refused;

/// Numbers of two and of three octets (94.1).
#[tactic(auto, unfolding(crate::specs::Sections::descriptors_of))]
pub fn numbers()
    ensures of_three { three 1 2 3 ≡ 66051 }
    ensures of_two { two 1 2 ≡ 258 }
    ensures descriptors { descriptors_of (1 ∷ 2 ∷ 3 ∷ 4 ∷ 5 ∷ []) ≡ 258 ∷ 772 ∷ [] }
    ensures longest { longest ≡ three 255 255 255 }
{}

/// Reads edition 4: each place, each flag, and what readers ignore.
#[tactic(auto, unfolding(crate::proofs::OnLiterals::sections_on_literals))]
pub fn sections_read()
    ensures observed { envelope_of (octets4 (codes "80")) ≡ Ok (said4 true false) }
    ensures compressed { envelope_of (octets4 (codes "40")) ≡ Ok (said4 false true) }
    ensures neither { envelope_of (octets4 (codes "3F")) ≡ Ok (said4 false false) }
    ensures both { envelope_of (octets4 (codes "FF")) ≡ Ok (said4 true true) }
    ensures ignored { envelope_of octets4_filled ≡ Ok (said4 true false) }
{}

/// Writes edition 4.
#[tactic(auto, unfolding(crate::proofs::OnLiterals::sections_on_literals))]
pub fn sections_written()
    ensures observed { bare (said4 true false) ≡ octets4 (codes "80") }
    ensures compressed { bare (said4 false true) ≡ octets4 (codes "40") }
    ensures few { spelt_or (many_subsets 65535) ≡ Ok (bare (many_subsets 65535)) }
    ensures many { spelt_or (many_subsets 65536) ≡ Err TooLarge }
{}

/// Reads edition 3, and years of the century.
#[tactic(auto, unfolding(crate::proofs::OnLiterals::sections_on_literals))]
pub fn edition_3_read()
    ensures read { envelope_of octets3 ≡ Ok (said3 None) }
    ensures section2 { envelope_of octets3_with_section2 ≡ Ok (said3 (Some (20 ∷ []))) }
    ensures year_69 { year_of_century 69 ≡ 2069 }
    ensures year_70 { year_of_century 70 ≡ 1970 }
    ensures year_99 { year_of_century 99 ≡ 1999 }
    ensures year_100 { year_of_century 100 ≡ 2000 }
    ensures year_101 { year_of_century 101 ≡ 2001 }
    ensures year_255 { year_of_century 255 ≡ 2155 }
    ensures edition_2 { layout_of 2 ≡ None }
    ensures edition_5 { layout_of 5 ≡ None }
{}

/// Each edition with and without section 2, and with each pair of flags.
#[tactic(auto, unfolding(crate::proofs::OnLiterals::sections_on_literals))]
pub fn editions_and_flags()
    ensures edition_4 { said_by octets4 ≡ says_each said4 }
    ensures without_section_2 { said_by (octets4_without (codes "7F")) ≡ says_each said4_without }
    ensures edition_3 { said_by octets3_plain ≡ says_each (said3_with None) }
    ensures edition_3_section_2 { said_by octets3_local ≡ says_each (said3_with (Some (20 ∷ []))) }
    ensures ignored { envelope_of (octets4_without (codes "7F") (codes "7F"))
        ≡ Ok (said4_without false true) }
    ensures written { each_pair (λ o c. bare (said4 o c)) ≡ map octets4 flag_pairs }
    ensures written_without { each_pair (λ o c. bare (said4_without o c))
        ≡ map (octets4_without (codes "00")) flag_pairs }
{}

/// Of two causes, reading returns the first.
#[tactic(auto, unfolding(crate::proofs::OnLiterals::sections_on_literals))]
pub fn order_of_refusals()
    ensures start_before_edition { envelope_of (hex (codes "42554653 00000C 05 37373737"))
        ≡ Err Refused.NotBufr }
    ensures edition_before_total { envelope_of (hex (codes "42554652 00000D 05 37373737"))
        ≡ Err (Refused.Edition 5) }
    ensures total_before_end { envelope_of (hex (codes "42554652 00000D 04 37373738"))
        ≡ Err Refused.TotalLength }
    ensures end_before_section_1 { envelope_of (hex (codes "42554652 00000C 04 37373738"))
        ≡ Err Refused.NoEnd }
    ensures section_1_before_table { envelope_of (framed (codes "000021 04")
        (take 21 (usual1 (codes "000015 0A") (codes "00"))))
        ≡ Err Refused.Section1Length }
    ensures long_section_1_before_table { envelope_of (framed (codes "000022 04")
        (usual1 (codes "000017 0A") (codes "00")))
        ≡ Err Refused.Section1Length }
    ensures section_1_before_table_3 { envelope_of (framed (codes "00001C 03")
        (hex (codes "000010 0A 00 62 00 00 00 02 25 00 18 01 0F 0C")))
        ≡ Err Refused.Section1Length }
    ensures table_before_section_2 { envelope_of (framed (codes "000025 04")
        (usual1 (codes "000016 0A") (codes "80") ++ hex (codes "000003")))
        ≡ Err (Refused.MasterTable 10) }
    ensures table_before_section_2_3 { envelope_of (framed (codes "000020 03")
        (hex (codes "000011 0A 00 62 00 80 00 02 25 00 18 01 0F 0C 00 000003")))
        ≡ Err (Refused.MasterTable 10) }
    ensures section_2_before_section_3 { envelope_of (framed (codes "00002D 04")
        (announcing1 ++ hex (codes "000003 000008 00 0001 80 00")))
        ≡ Err Refused.Section2Length }
    ensures section_3_before_section_4 { envelope_of (framed (codes "00002D 04")
        (plain1 ++ hex (codes "000008 00 0001 80 00 000003")))
        ≡ Err Refused.Section3Length }
{}

/// Refusals of section 0 and the end.
#[tactic(auto, unfolding(crate::proofs::OnLiterals::sections_on_literals))]
pub fn starts_refused()
    ensures seven_octets { envelope_of (hex (codes "42554652 000007")) ≡ Err Refused.NotBufr }
    ensures bufs { envelope_of (hex (codes "42554653 00000C 04 37373737")) ≡ Err Refused.NotBufr }
    ensures edition_5 { envelope_of (hex (codes "42554652 000008 05")) ≡ Err (Refused.Edition 5) }
    ensures eight_octets { envelope_of (hex (codes "42554652 000008 04")) ≡ Err Refused.NoEnd }
    ensures total { envelope_of (hex (codes "42554652 00000D 04 37373737"))
        ≡ Err Refused.TotalLength }
    ensures eleven { envelope_of (hex (codes "42554652 00000B 04 373737")) ≡ Err Refused.NoEnd }
    ensures end { envelope_of (hex (codes "42554652 00000C 04 37373738")) ≡ Err Refused.NoEnd }
    ensures twelve { envelope_of (hex (codes "42554652 00000C 04 37373737"))
        ≡ Err Refused.Section1Length }
{}

/// Refusals of section 1: its length, and another master table.
#[tactic(auto, unfolding(crate::proofs::OnLiterals::sections_on_literals))]
pub fn sections_1_refused()
    ensures short { envelope_of (framed (codes "000021 04")
        (take 21 (usual1 (codes "000015 00") (codes "00"))))
        ≡ Err Refused.Section1Length }
    ensures long { envelope_of (framed (codes "000022 04")
        (usual1 (codes "000017 00") (codes "00")))
        ≡ Err Refused.Section1Length }
    ensures passed { envelope_of (framed (codes "000022 04") plain1) ≡ Err Refused.Section3Length }
    ensures short3 { envelope_of (framed (codes "00001C 03")
        (hex (codes "000010 00 00 62 00 00 00 02 25 00 18 01 0F 0C")))
        ≡ Err Refused.Section1Length }
    ensures passed3 { envelope_of (framed (codes "00001D 03")
        (hex (codes "000011 00 00 62 00 00 00 02 25 00 18 01 0F 0C 00")))
        ≡ Err Refused.Section3Length }
    ensures table { envelope_of (framed (codes "000022 04")
        (usual1 (codes "000016 0A") (codes "00")))
        ≡ Err (Refused.MasterTable 10) }
{}

/// Refusals of sections 2, 3 and 4: one octet too few, and one after the last.
#[tactic(auto, unfolding(crate::proofs::OnLiterals::sections_on_literals))]
pub fn later_sections_refused()
    ensures short2 { envelope_of (framed (codes "000025 04") (announcing1 ++ hex (codes "000003")))
        ≡ Err Refused.Section2Length }
    ensures passed2 { envelope_of (framed (codes "000026 04")
        (announcing1 ++ hex (codes "000004 00")))
        ≡ Err Refused.Section3Length }
    ensures short3 { envelope_of (framed (codes "00002A 04")
        (plain1 ++ hex (codes "000008 00 0001 80 00")))
        ≡ Err Refused.Section3Length }
    ensures short4 { envelope_of (framed (codes "00002E 04")
        (plain1 ++ short_section3 ++ hex (codes "000003")))
        ≡ Err Refused.Section4Length }
    ensures passed4 { IsOk (envelope_of (framed (codes "00002F 04")
        (plain1 ++ short_section3 ++ hex (codes "000004 00")))) }
    ensures room { envelope_of (framed (codes "000030 04")
        (plain1 ++ short_section3 ++ hex (codes "000004 00 14")))
        ≡ Err Refused.Section4Length }
{}
