//! Worked values of lines, typed from the octets of frames.

ghost use Rattle.std.specs.Prelude.{◌≡◌, ◌++◌, ◌∷◌, [], codes};
ghost use Rattle.bufr_sections.specs.Samples.{octets3, octets4};
ghost use Rattle.bufr_ls_engine.specs.Columns.{all_columns};
ghost use Rattle.bufr_ls_engine.specs.Rows.{header, listed_heads, row};
ghost use Rattle.bufr_ls_engine.specs.Samples.{full_row, line_of, long_section1, other_table};
ghost use Rattle.bufr_ls_engine.specs.Samples.{short_description, short_section2, short_section4};
ghost use Rattle.bufr_ls_engine.specs.Samples.{shortest_of, some_columns};
ghost use Rattle.bufr_ls_engine.specs.declared.column.Column.TheVariants.{Category, Centre, Message, Input, Place};

/// The words of all columns, and of some in another order.
#[tactic(auto, unfolding(crate::proofs::OnLiterals::rows_on_literals))]
pub fn words_of_columns()
    ensures all { header all_columns ≡ line_of (codes "input,message,place,length,edition,centre,"
        ++ codes "sub_centre,update,category,international,local_category,master_table,"
        ++ codes "master_version,local_version,year,month,day,hour,minute,second,subsets,observed,"
        ++ codes "compressed,descriptors,reason") }
    ensures some { header (Category ∷ Centre ∷ []) ≡ line_of (codes "category,centre") }
    ensures none { header [] ≡ line_of [] }
{}

/// The rows of messages of both editions.
#[tactic(auto, unfolding(crate::proofs::OnLiterals::rows_on_literals))]
pub fn rows_of_messages()
    ensures edition_4 { full_row (octets4 (codes "80")) ≡ line_of (codes "3,7,1840,59,4,258,772,5,6,"
        ++ codes "7,8,0,9,10,2828,13,14,15,16,17,5398,1,0,023024 025026,") }
    ensures compressed { full_row (octets4 (codes "40")) ≡ line_of (codes "3,7,1840,59,4,258,772,5,"
        ++ codes "6,7,8,0,9,10,2828,13,14,15,16,17,5398,0,1,023024 025026,") }
    ensures edition_3 { full_row octets3 ≡ line_of (codes "3,7,1840,43,3,2,1,3,4,255,5,0,6,7,2008,9,"
        ++ codes "10,11,12,0,1,1,0,023024,") }
    ensures some { row (Category ∷ Centre ∷ []) 3 7 (record { place = 1840; bytes = octets3 })
        ≡ line_of (codes "4,2") }
{}

/// The rows of refused frames.
#[tactic(auto, unfolding(crate::proofs::OnLiterals::rows_on_literals))]
pub fn rows_of_refused_frames()
    ensures edition { full_row (shortest_of (codes "05"))
        ≡ line_of (codes "3,7,1840,12,5,,,,,,,,,,,,,,,,,,,,M2 Edition 5") }
    ensures section_1 { full_row long_section1
        ≡ line_of (codes "3,7,1840,34,4,,,,,,,,,,,,,,,,,,,,M5 Section1Length") }
    ensures master_table { full_row other_table
        ≡ line_of (codes "3,7,1840,34,4,,,,,,,10,,,,,,,,,,,,,M6 MasterTable 10") }
    ensures section_2 { full_row short_section2
        ≡ line_of (codes "3,7,1840,37,4,,,,,,,,,,,,,,,,,,,,M7 Section2Length") }
    ensures section_3 { full_row short_description
        ≡ line_of (codes "3,7,1840,42,4,,,,,,,,,,,,,,,,,,,,M8 Section3Length") }
    ensures section_4 { full_row short_section4
        ≡ line_of (codes "3,7,1840,46,4,,,,,,,,,,,,,,,,,,,,M9 Section4Length") }
    ensures some { row some_columns 3 7 (record { place = 1840; bytes = other_table })
        ≡ line_of (codes "M6 MasterTable 10,10,4,34,1840,7,3") }
{}

/// The lines of inputs.
#[tactic(auto, unfolding(crate::proofs::OnLiterals::rows_on_literals))]
pub fn rows_of_inputs()
    ensures none { listed_heads (Input ∷ []) [] ≡ line_of (codes "input") }
    ensures two { listed_heads (Input ∷ Message ∷ Place ∷ [])
        ((shortest_of (codes "05") ++ 0 ∷ shortest_of (codes "05")) ∷ []
        ∷ shortest_of (codes "05") ∷ [])
        ≡ line_of (codes "input,message,place") ++ line_of (codes "1,1,0")
        ++ line_of (codes "1,2,13") ++ line_of (codes "3,1,0") }
{}
