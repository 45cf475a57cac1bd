ghost use Rattle.std.specs.Prelude.{◌≡◌, ◌∷◌, ◌++◌, [], Some, None, Ok, Err, true, false, pos};
ghost use Rattle.std.specs.Prelude.{negsuc, codes, map, is_some};
ghost use Rattle.std.specs.List.{list_all};
ghost use Rattle.bufr_tables.specs.declared.element.Kind.TheVariants as kinds;
ghost use Rattle.bufr_tables.specs.declared.table_faults.Column.TheVariants as columns;
ghost use Rattle.bufr_tables.specs.declared.table_faults.TableFault.TheVariants as faults;
ghost use Rattle.bufr_tables.specs.Elements.{same_kind};
ghost use Rattle.bufr_tables.specs.Fields.{used_fields};
ghost use Rattle.bufr_tables.specs.Numbers.{signed_of, unsigned_of, descriptor_of};
ghost use Rattle.bufr_tables.specs.Rows.{kind_of, element_row, member_row};
ghost use Rattle.bufr_tables.specs.Samples.{file_b, header_b, temperature, row_b, kelvins};
ghost use Rattle.bufr_tables.specs.Samples.{named, file_d, header_d, member, titles_b, titles_d};
ghost use Rattle.bufr_tables.specs.TableFiles.{columns_at, columns_b, columns_d};

/// Numbers in fields, and both ends of their ranges.
#[tactic(auto, unfolding(crate::specs::Descriptors::of_text))]
pub fn numbers_in_fields()
    ensures plain { signed_of 32 (codes "16") ≡ Some (pos 16) }
    ensures plus { signed_of 32 (codes "+2") ≡ Some (pos 2) }
    ensures minus { signed_of 32 (codes "-1024") ≡ Some (negsuc 1023) }
    ensures zeros { signed_of 32 (codes "-0007") ≡ Some (negsuc 6) }
    ensures none { signed_of 32 [] ≡ None }
    ensures sign_alone { signed_of 32 (codes "+") ≡ None }
    ensures two_signs { signed_of 32 (codes "+-1") ≡ None }
    ensures other { signed_of 32 (codes "1:") ≡ None }
    ensures least_scale { signed_of 32 (codes "-2147483648") ≡ Some (negsuc 2147483647) }
    ensures below_scale { signed_of 32 (codes "-2147483649") ≡ None }
    ensures greatest_scale { signed_of 32 (codes "2147483647") ≡ Some (pos 2147483647) }
    ensures above_scale { signed_of 32 (codes "2147483648") ≡ None }
    ensures least_reference { signed_of 64 (codes "-9223372036854775808")
        ≡ Some (negsuc 9223372036854775807) }
    ensures below_reference { signed_of 64 (codes "-9223372036854775809") ≡ None }
    ensures greatest_reference { signed_of 64 (codes "9223372036854775807")
        ≡ Some (pos 9223372036854775807) }
    ensures above_reference { signed_of 64 (codes "9223372036854775808") ≡ None }
    ensures greatest_width { unsigned_of 32 (codes "4294967295") ≡ Some 4294967295 }
    ensures above_width { unsigned_of 32 (codes "4294967296") ≡ None }
    ensures width_with_plus { unsigned_of 32 (codes "+16") ≡ Some 16 }
    ensures width_with_minus { unsigned_of 32 (codes "-0") ≡ None }
    ensures element { descriptor_of 0 (codes "012101") ≡ Some 0x0C65 }
    ensures no_element { descriptor_of 0 (codes "112101") ≡ None }
    ensures each_f { map (descriptor_of 2)
        (codes "008004" ∷ codes "108004" ∷ codes "208004" ∷ codes "308004" ∷ [])
        ≡ None ∷ None ∷ Some 0x8804 ∷ None ∷ [] }
    ensures noughts { map (signed_of 32) (codes "0" ∷ codes "-0" ∷ codes "+0" ∷ codes "000" ∷ [])
        ≡ Some (pos 0) ∷ Some (pos 0) ∷ Some (pos 0) ∷ Some (pos 0) ∷ [] }
    ensures digits { map (signed_of 32) (codes "1234567890" ∷ codes "-1234567890" ∷ [])
        ≡ Some (pos 1234567890) ∷ Some (negsuc 1234567889) ∷ [] }
    ensures no_numbers { map (λ text. is_some (signed_of 64 text))
        (codes "-" ∷ codes "--1" ∷ codes "-+1" ∷ codes "++1" ∷ codes "1-" ∷ codes "1+"
        ∷ codes "/1" ∷ codes "1/" ∷ codes ":" ∷ codes "1 2" ∷ codes "1.0" ∷ codes "1e1" ∷ [])
        ≡ false ∷ false ∷ false ∷ false ∷ false ∷ false ∷ false ∷ false ∷ false ∷ false ∷ false
        ∷ false ∷ [] }
    ensures widths { map (unsigned_of 32) (codes "0" ∷ codes "+0" ∷ codes "00016" ∷ [])
        ≡ Some 0 ∷ Some 0 ∷ Some 16 ∷ [] }
    ensures no_widths { map (λ text. is_some (unsigned_of 32 text))
        ([] ∷ codes "+" ∷ codes "++1" ∷ codes "+-1" ∷ codes "-1" ∷ codes "1/" ∷ codes "1:"
        ∷ codes "1.0" ∷ [])
        ≡ false ∷ false ∷ false ∷ false ∷ false ∷ false ∷ false ∷ false ∷ [] }
{}

/// Units, in either case. Any name may follow the words of a common code table.
pub fn kinds_of_units()
    ensures text { kind_of (codes "CCITT IA5") ≡ kinds.Text }
    ensures text_in_lower { kind_of (codes "ccitt ia5") ≡ kinds.Text }
    ensures longer_than_text { kind_of (codes "CCITT IA5 x") ≡ kinds.Quantity }
    ensures shorter_than_text { kind_of (codes "CCITT IA") ≡ kinds.Quantity }
    ensures code { kind_of (codes "Code Table") ≡ kinds.Code }
    ensures longer_than_code { kind_of (codes "Code table 5") ≡ kinds.Quantity }
    ensures flag { kind_of (codes "FLAG TABLE") ≡ kinds.Flag }
    ensures longer_than_flag { kind_of (codes "Flag table x") ≡ kinds.Quantity }
    ensures common { kind_of (codes "Common CODE TABLE C-1") ≡ kinds.Code }
    ensures common_alone { kind_of (codes "Common code table") ≡ kinds.Code }
    ensures shorter_than_common { kind_of (codes "Common code tabl") ≡ kinds.Quantity }
    ensures behind_common { kind_of (codes "A Common code table") ≡ kinds.Quantity }
    ensures quantity { kind_of (codes "K") ≡ kinds.Quantity }
    ensures codes_in_each_spelling { list_all (λ unit. same_kind (kind_of unit) kinds.Code)
        (codes "code table" ∷ codes "CODE TABLE" ∷ codes "common code table x"
        ∷ codes "COMMON CODE TABLEC-12" ∷ []) ≡ true }
    ensures near_units { list_all (λ unit. same_kind (kind_of unit) kinds.Quantity)
        ([] ∷ codes "CCITTIA5" ∷ codes "CCITT  IA5" ∷ codes "CCITT-IA5" ∷ codes "CCITT IA4"
        ∷ codes "A CCITT IA5" ∷ codes "Character" ∷ codes "Code" ∷ codes "Code tabl"
        ∷ codes "Codetable" ∷ codes "Code  table" ∷ codes "Code tables" ∷ codes "A code table"
        ∷ codes "Code tables of CCITT" ∷ codes "Flag" ∷ codes "Flag tabl" ∷ codes "Flagtable"
        ∷ codes "Flag  table" ∷ codes "Flag tables" ∷ codes "Common flag table"
        ∷ codes "Common code" ∷ codes "Commoncode table" ∷ codes "Commune code table"
        ∷ codes "Numeric" ∷ codes "Table" ∷ codes "CCITT IA5 Code table" ∷ codes "CCITT_IA5"
        ∷ codes "ccitt_ia5" ∷ codes "CCITT.IA5" ∷ []) ≡ true }
{}

/// Rows by their cells, with a different number in each.
#[tactic(auto, unfolding(crate::specs::Descriptors::of_text, crate::specs::Rows::element_row, crate::specs::Rows::member_row))]
pub fn rows_by_their_cells()
    ensures element { element_row
        (codes "012101" ∷ codes "K" ∷ codes "2" ∷ codes "-5" ∷ codes "16" ∷ [])
        ≡ Some (
          0x0C65,
          record {
            kind = kinds.Quantity;
            scale = pos 2;
            reference = negsuc 4;
            width = 16;
          },
        ) }
    ensures no_width { element_row
        (codes "012101" ∷ codes "K" ∷ codes "2" ∷ codes "0" ∷ [] ∷ []) ≡ None }
    ensures member { member_row (codes "301011" ∷ codes "004001" ∷ []) ≡ Some (0xC10B, 0x0401) }
    ensures no_sequence { member_row (codes "001011" ∷ codes "004001" ∷ []) ≡ None }
    ensures each_sequence { map (λ d. is_some (member_row (d ∷ codes "004001" ∷ [])))
        (codes "101011" ∷ codes "201011" ∷ codes "301011" ∷ codes "363255" ∷ codes "364000" ∷ [])
        ≡ false ∷ false ∷ true ∷ true ∷ false ∷ [] }
    ensures each_member { map (λ m. member_row (codes "301011" ∷ m ∷ []))
        (codes "000000" ∷ codes "101000" ∷ codes "201000" ∷ codes "301011" ∷ codes "363255"
        ∷ codes "400000" ∷ [])
        ≡ Some (0xC10B, 0x0000) ∷ Some (0xC10B, 0x4100) ∷ Some (0xC10B, 0x8100)
        ∷ Some (0xC10B, 0xC10B) ∷ Some (0xC10B, 0xFFFF) ∷ None ∷ [] }
    ensures each_element { map (λ d.
        is_some (element_row (d ∷ codes "K" ∷ codes "2" ∷ codes "0" ∷ codes "16" ∷ [])))
        (codes "000000" ∷ codes "031001" ∷ codes "063255" ∷ codes "064000" ∷ codes "000256"
        ∷ codes "101000" ∷ codes "201000" ∷ codes "301000" ∷ [])
        ≡ true ∷ true ∷ true ∷ false ∷ false ∷ false ∷ false ∷ false ∷ [] }
    ensures limits { map (λ cells. is_some (element_row (codes "012101" ∷ codes "K" ∷ cells)))
        ((codes "2147483647" ∷ codes "9223372036854775807" ∷ codes "4294967295" ∷ [])
        ∷ (codes "2147483648" ∷ codes "0" ∷ codes "0" ∷ [])
        ∷ (codes "0" ∷ codes "9223372036854775808" ∷ codes "0" ∷ [])
        ∷ (codes "0" ∷ codes "0" ∷ codes "4294967296" ∷ [])
        ∷ (codes "-2147483648" ∷ codes "-9223372036854775808" ∷ codes "0" ∷ [])
        ∷ (codes "-2147483649" ∷ codes "0" ∷ codes "0" ∷ [])
        ∷ (codes "0" ∷ codes "-9223372036854775809" ∷ codes "0" ∷ [])
        ∷ (codes "0" ∷ codes "0" ∷ codes "-1" ∷ []) ∷ [])
        ≡ true ∷ false ∷ false ∷ false ∷ true ∷ false ∷ false ∷ false ∷ [] }
{}

/// Fields lose spaces at both ends, and the first field a byte order mark.
#[tactic(auto, unfolding(crate::specs::Fields::skip_spaces, csv::specs::Reading::strip_bom))]
pub fn fields_as_they_are_used()
    ensures spaces { used_fields (codes " FXY " ∷ codes "  a b " ∷ [])
        ≡ codes "FXY" ∷ codes "a b" ∷ [] }
    ensures tab { used_fields ((9 ∷ codes "K") ∷ []) ≡ (9 ∷ codes "K") ∷ [] }
    ensures first_mark { used_fields ((0xEF ∷ 0xBB ∷ 0xBF ∷ codes "FXY") ∷ []) ≡ codes "FXY" ∷ [] }
    ensures other_mark { used_fields (codes "K" ∷ (0xEF ∷ 0xBB ∷ 0xBF ∷ codes "K") ∷ [])
        ≡ codes "K" ∷ (0xEF ∷ 0xBB ∷ 0xBF ∷ codes "K") ∷ [] }
    ensures only_spaces { used_fields (codes "  " ∷ [] ∷ []) ≡ [] ∷ [] ∷ [] }
    ensures two_marks { used_fields
        ((0xEF ∷ 0xBB ∷ 0xBF ∷ 0xEF ∷ 0xBB ∷ 0xBF ∷ codes "FXY") ∷ [])
        ≡ (0xEF ∷ 0xBB ∷ 0xBF ∷ codes "FXY") ∷ [] }
    ensures mark_before_spaces { used_fields ((0xEF ∷ 0xBB ∷ 0xBF ∷ codes " FXY") ∷ [])
        ≡ codes "FXY" ∷ [] }
    ensures mark_behind_spaces { used_fields ((32 ∷ 0xEF ∷ 0xBB ∷ 0xBF ∷ codes "FXY") ∷ [])
        ≡ (0xEF ∷ 0xBB ∷ 0xBF ∷ codes "FXY") ∷ [] }
    ensures parts_of_a_mark { used_fields ((0xEF ∷ 0xBB ∷ codes "K") ∷ [])
        ≡ (0xEF ∷ 0xBB ∷ codes "K") ∷ [] }
    ensures no_spaces { map (λ octet. used_fields ((octet ∷ 75 ∷ octet ∷ []) ∷ []))
        (0 ∷ 9 ∷ 10 ∷ 11 ∷ 12 ∷ 13 ∷ 31 ∷ 33 ∷ 34 ∷ 39 ∷ 44 ∷ 160 ∷ 255 ∷ [])
        ≡ map (λ octet. (octet ∷ 75 ∷ octet ∷ []) ∷ [])
        (0 ∷ 9 ∷ 10 ∷ 11 ∷ 12 ∷ 13 ∷ 31 ∷ 33 ∷ 34 ∷ 39 ∷ 44 ∷ 160 ∷ 255 ∷ []) }
{}

/// Of several columns with one title the first counts; of several missing columns the first one
/// needed.
pub fn columns_of_headers()
    ensures all { columns_at titles_b columns_b ≡ Ok (0 ∷ 1 ∷ 2 ∷ 3 ∷ 4 ∷ []) }
    ensures among_others { columns_at header_b columns_b ≡ Ok (0 ∷ 2 ∷ 3 ∷ 4 ∷ 5 ∷ []) }
    ensures in_another_order { columns_at (codes "BUFR_DataWidth_Bits" ∷ codes "BUFR_Unit"
        ∷ codes "FXY" ∷ codes "BUFR_ReferenceValue" ∷ codes "BUFR_Scale" ∷ []) columns_b
        ≡ Ok (2 ∷ 1 ∷ 4 ∷ 3 ∷ 0 ∷ []) }
    ensures twice { columns_at (titles_b ++ titles_b) columns_b ≡ Ok (0 ∷ 1 ∷ 2 ∷ 3 ∷ 4 ∷ []) }
    ensures none { columns_at [] columns_b ≡ Err (faults.NoColumn columns.Fxy) }
    ensures one { columns_at (codes "FXY" ∷ []) columns_b ≡ Err (faults.NoColumn columns.Unit) }
    ensures two { columns_at (codes "FXY" ∷ codes "BUFR_Unit" ∷ []) columns_b
        ≡ Err (faults.NoColumn columns.Scale) }
    ensures three { columns_at (codes "FXY" ∷ codes "BUFR_Unit" ∷ codes "BUFR_Scale" ∷ []) columns_b
        ≡ Err (faults.NoColumn columns.ReferenceValue) }
    ensures four { columns_at (codes "FXY" ∷ codes "BUFR_Unit" ∷ codes "BUFR_Scale"
        ∷ codes "BUFR_ReferenceValue" ∷ []) columns_b ≡ Err (faults.NoColumn columns.DataWidth) }
    ensures the_last { columns_at (codes "BUFR_DataWidth_Bits" ∷ []) columns_b
        ≡ Err (faults.NoColumn columns.Fxy) }
    ensures near_titles { map (λ title. columns_at (title ∷ titles_d) columns_b)
        (codes "fxy" ∷ codes "FX" ∷ codes "FXY0" ∷ codes "FXY " ∷ [])
        ≡ Err (faults.NoColumn columns.Fxy) ∷ Err (faults.NoColumn columns.Fxy)
        ∷ Err (faults.NoColumn columns.Fxy) ∷ Err (faults.NoColumn columns.Fxy) ∷ [] }
    ensures sequences { columns_at titles_d columns_d ≡ Ok (0 ∷ 1 ∷ []) }
    ensures members_first { columns_at (codes "FXY2" ∷ codes "FXY1" ∷ []) columns_d
        ≡ Ok (1 ∷ 0 ∷ []) }
    ensures no_column { columns_at [] columns_d ≡ Err (faults.NoColumn columns.Fxy1) }
    ensures no_members { columns_at (codes "FXY1" ∷ []) columns_d
        ≡ Err (faults.NoColumn columns.Fxy2) }
    ensures no_sequences { columns_at (codes "FXY2" ∷ codes "FXY" ∷ []) columns_d
        ≡ Err (faults.NoColumn columns.Fxy1) }
{}

/// Records of Table B: which ones are skipped, how they count, and the first fault.
#[tactic(auto, unfolding(crate::specs::Descriptors::of_text, crate::specs::Rows::element_row, crate::specs::Rows::member_row, crate::specs::Fields::skip_spaces, crate::specs::TableFiles::row_cells, crate::specs::TableFiles::after_records, crate::specs::Entries::at, csv::specs::Reading::strip_bom))]
pub fn files_of_table_b()
    ensures empty { file_b [] ≡ Ok [] }
    ensures one { file_b (temperature (codes "16") ∷ []) ≡ Ok ((0x0C65, kelvins) ∷ []) }
    ensures skipped { file_b (header_b ∷ named ∷ temperature (codes "16") ∷ header_b
        ∷ temperature (codes "16") ∷ named ∷ []) ≡ Ok ((0x0C65, kelvins) ∷ []) }
    ensures in_order { file_b (temperature (codes "16")
        ∷ row_b (codes "001001") (codes "K") (codes "2") (codes "0") (codes "16") ∷ [])
        ≡ Ok ((0x0101, kelvins) ∷ (0x0C65, kelvins) ∷ []) }
    ensures a_field_more { file_b ((temperature (codes "16") ++ [] ∷ []) ∷ [])
        ≡ Err (faults.NotCsv 2) }
    ensures a_field_less { file_b (titles_b ∷ []) ≡ Err (faults.NotCsv 2) }
    ensures empty_of_another_number { file_b (([] ∷ []) ∷ []) ≡ Err (faults.NotCsv 2) }
    ensures empty_and_a_field_more { file_b ((named ++ [] ∷ []) ∷ []) ≡ Err (faults.NotCsv 2) }
    ensures header_and_a_field_more { file_b ((header_b ++ [] ∷ []) ∷ [])
        ≡ Err (faults.NotCsv 2) }
    ensures counted { file_b (temperature (codes "16") ∷ header_b ∷ named
        ∷ temperature (codes "x") ∷ []) ≡ Err (faults.BadRow 5) }
    ensures nearly_the_header { file_b ((codes "FXY" ∷ codes "x" ∷ codes "BUFR_Unit"
        ∷ codes "BUFR_Scale" ∷ codes "BUFR_ReferenceValue" ∷ codes "BUFR_DataWidth_Bits" ∷ []) ∷ [])
        ≡ Err (faults.BadRow 2) }
    ensures one_needed_cell { map (λ row. file_b (row ∷ []))
        (row_b (codes "012101") [] [] [] [] ∷ row_b [] (codes "K") [] [] []
        ∷ row_b [] [] (codes "2") [] [] ∷ row_b [] [] [] (codes "0") []
        ∷ row_b [] [] [] [] (codes "16") ∷ row_b (codes " ") [] [] [] [] ∷ [])
        ≡ Err (faults.BadRow 2) ∷ Err (faults.BadRow 2) ∷ Err (faults.BadRow 2)
        ∷ Err (faults.BadRow 2) ∷ Err (faults.BadRow 2) ∷ Ok [] ∷ [] }
    ensures one_cell_lacks { map (λ row. file_b (row ∷ []))
        (row_b [] (codes "K") (codes "2") (codes "0") (codes "16")
        ∷ row_b (codes "012101") [] (codes "2") (codes "0") (codes "16")
        ∷ row_b (codes "012101") (codes "K") [] (codes "0") (codes "16")
        ∷ row_b (codes "012101") (codes "K") (codes "2") [] (codes "16") ∷ [])
        ≡ Err (faults.BadRow 2) ∷ Ok ((0x0C65, kelvins) ∷ []) ∷ Err (faults.BadRow 2)
        ∷ Err (faults.BadRow 2) ∷ [] }
    ensures differs { map (λ row. file_b (temperature (codes "16") ∷ row ∷ []))
        (row_b (codes "012101") (codes "Code table") (codes "2") (codes "0") (codes "16")
        ∷ row_b (codes "012101") (codes "K") (codes "-2") (codes "0") (codes "16")
        ∷ row_b (codes "012101") (codes "K") (codes "2") (codes "1") (codes "16")
        ∷ row_b (codes "012101") (codes "K") (codes "2") (codes "0") (codes "17")
        ∷ row_b (codes "012101") (codes "m") (codes "+2") (codes "-0") (codes "016") ∷ [])
        ≡ Err (faults.Conflict 0x0C65) ∷ Err (faults.Conflict 0x0C65)
        ∷ Err (faults.Conflict 0x0C65) ∷ Err (faults.Conflict 0x0C65)
        ∷ Ok ((0x0C65, kelvins) ∷ []) ∷ [] }
    ensures first_fault { map (λ rows. file_b (temperature (codes "16") ∷ rows))
        ((temperature (codes "17") ∷ temperature (codes "x") ∷ titles_b ∷ [])
        ∷ (temperature (codes "x") ∷ titles_b ∷ temperature (codes "17") ∷ [])
        ∷ (titles_b ∷ temperature (codes "17") ∷ temperature (codes "x") ∷ []) ∷ [])
        ≡ Err (faults.Conflict 0x0C65) ∷ Err (faults.BadRow 3) ∷ Err (faults.NotCsv 3) ∷ [] }
{}

/// Records of Table D: which ones belong to a sequence, what splits it, and the first fault.
#[tactic(auto, unfolding(crate::specs::Descriptors::of_text, crate::specs::Rows::element_row, crate::specs::Rows::member_row, crate::specs::Fields::skip_spaces, crate::specs::TableFiles::row_cells, crate::specs::TableFiles::after_records, crate::specs::Entries::at, csv::specs::Reading::strip_bom))]
pub fn files_of_table_d()
    ensures empty { file_d [] ≡ Ok [] }
    ensures members { file_d (member (codes "301001") (codes "001002")
        ∷ member (codes "301001") (codes "001001") ∷ member (codes "301001") (codes "001002")
        ∷ member (codes "301001") (codes "001002") ∷ [])
        ≡ Ok ((0xC101, 0x0102 ∷ 0x0101 ∷ 0x0102 ∷ 0x0102 ∷ []) ∷ []) }
    ensures in_order { file_d (member (codes "301011") (codes "004001")
        ∷ member (codes "301001") (codes "001001") ∷ member (codes "363255") (codes "000000") ∷ [])
        ≡ Ok ((0xC101, 0x0101 ∷ []) ∷ (0xC10B, 0x0401 ∷ []) ∷ (0xFFFF, 0x0000 ∷ []) ∷ []) }
    ensures skipped { file_d (member (codes "301001") (codes "001001") ∷ header_d ∷ member [] []
        ∷ member (codes "301001") (codes "001002") ∷ [])
        ≡ Ok ((0xC101, 0x0101 ∷ 0x0102 ∷ []) ∷ []) }
    ensures parted { file_d (member (codes "301001") (codes "001001")
        ∷ member (codes "301011") (codes "004001") ∷ member (codes "301001") (codes "001002") ∷ [])
        ≡ Err (faults.SplitSequence 0xC101) }
    ensures parted_with_an_equal_row { file_d (member (codes "301001") (codes "001001")
        ∷ member (codes "301011") (codes "004001") ∷ member (codes "301001") (codes "001001") ∷ [])
        ≡ Err (faults.SplitSequence 0xC101) }
    ensures counted { file_d (member (codes "301001") (codes "001001") ∷ member [] [] ∷ header_d
        ∷ member (codes "001001") (codes "001001") ∷ []) ≡ Err (faults.BadRow 5) }
    ensures one_cell { map (λ row. file_d (row ∷ []))
        (member (codes "301001") [] ∷ member [] (codes "001001")
        ∷ member (codes "401001") (codes "001001") ∷ member (codes "301001") (codes "00100") ∷ [])
        ≡ Err (faults.BadRow 2) ∷ Err (faults.BadRow 2) ∷ Err (faults.BadRow 2)
        ∷ Err (faults.BadRow 2) ∷ [] }
    ensures first_fault { map (λ rows. file_d (member (codes "301001") (codes "001001")
        ∷ member (codes "301011") (codes "004001") ∷ rows))
        ((member (codes "301001") (codes "001002") ∷ member [] (codes "x") ∷ titles_d ∷ [])
        ∷ (member (codes "301001") (codes "x") ∷ titles_d ∷ [])
        ∷ (titles_d ∷ member (codes "301001") (codes "001002") ∷ []) ∷ [])
        ≡ Err (faults.SplitSequence 0xC101) ∷ Err (faults.BadRow 4) ∷ Err (faults.NotCsv 4) ∷ [] }
{}
