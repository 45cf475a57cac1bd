//! Worked values of columns, values and rows, typed from FM 94 BUFR and RFC 4180.

ghost use Rattle.std.specs.Prelude.{◌≡◌, ◌∷◌, ◌++◌, [], codes, false, map, negsuc, pos, Some, None, true};
ghost use Rattle.bufr_select_rows.specs.Asks.{flagged};
ghost use Rattle.bufr_select_rows.specs.Columns.{IsColumn, all_told, word, words_of};
ghost use Rattle.bufr_select_rows.specs.ListedCells.{cell_of_word};
ghost use Rattle.bufr_select_rows.specs.Rows.{header, row, rows, told_number};
ghost use Rattle.bufr_select_rows.specs.Samples.{absent, block, first_name, line_of, named, numbered};
ghost use Rattle.bufr_select_rows.specs.Samples.{pressure, row_from, row_of_names, scaled, second_name};
ghost use Rattle.bufr_select_rows.specs.Samples.{shown_name, somewhere, sounding, sounding_columns};
ghost use Rattle.bufr_select_rows.specs.Samples.{temperature, third_name, unsaid, wind};
ghost use Rattle.bufr_select_rows.specs.Values.{shown_text, shown_value, trimmed};
ghost use Rattle.bufr_select_rows.specs.declared.column.Column.TheVariants.{First, Nth, Fact};
ghost use Rattle.bufr_select_rows.specs.declared.fact.Fact.TheVariants.{Centre, Compressed, Observed};
ghost use Rattle.bufr_select_rows.specs.declared.fact.Fact.TheVariants.{Subset};

/// The words of columns, and the words that commas part.
#[tactic(auto, unfolding(crate::proofs::OnLiterals::rows_on_literals))]
pub fn words_of_columns()
    ensures facts { header (map Fact all_told) ≡ line_of (codes "input,message,place,subset,centre,"
        ++ codes "sub_centre,update,category,international,local_category,master_version,"
        ++ codes "local_version,year,month,day,hour,minute,second,observed,compressed") }
    ensures fields { map word (First temperature ∷ Nth temperature 1 ∷ Nth wind 2 ∷ Nth block 30
        ∷ First 65535 ∷ Nth 65535 18446744073709551615 ∷ [])
        ≡ codes "012101" ∷ codes "012101#1" ∷ codes "011001#2" ∷ codes "001001#30"
        ∷ codes "363255" ∷ codes "363255#18446744073709551615" ∷ [] }
    ensures one { header (First temperature ∷ []) ≡ line_of (codes "012101") }
    ensures some { header (Nth wind 2 ∷ Fact Centre ∷ First block ∷ [])
        ≡ line_of (codes "011001#2,centre,001001") }
    ensures parted { words_of (codes "centre,012101#2,,x y") ≡ codes "centre" ∷ codes "012101#2"
        ∷ [] ∷ codes "x y" ∷ [] }
    ensures last { words_of (codes "012101,") ≡ codes "012101" ∷ [] ∷ [] }
    ensures empty { words_of [] ≡ [] ∷ [] }
{}

/// The columns at each limit.
pub fn limits_of_columns()
    ensures least { IsColumn (Nth temperature 1) }
    ensures none { IsColumn (Nth temperature 0) → ⊥ }
    ensures most { IsColumn (Nth temperature 18446744073709551615) }
    ensures too_many { IsColumn (Nth temperature 18446744073709551616) → ⊥ }
    ensures last { IsColumn (First 65535) }
    ensures no_first { IsColumn (First 65536) → ⊥ }
    ensures no_nth { IsColumn (Nth 65536 1) → ⊥ }
{}

/// The numbers of facts about a subset as a whole.
#[tactic(auto, unfolding(crate::proofs::OnLiterals::rows_on_literals))]
pub fn rows_of_facts()
    ensures all { row_from (map Fact all_told) []
        ≡ line_of (codes "3,4,1840,21,258,772,5,6,7,8,9,10,2828,13,14,15,16,17,1,0") }
    ensures flags { row (Fact Observed ∷ Fact Compressed ∷ [])
        (record somewhere { observed = false; compressed = true }) [] [] ≡ line_of (codes "0,1") }
    ensures one { row_from (Fact Subset ∷ []) (numbered block 6 ∷ []) ≡ line_of (codes "21") }
{}

/// The values of numbers, by scale and reference value.
#[tactic(auto, unfolding(crate::proofs::OnLiterals::rows_on_literals))]
pub fn values_of_numbers()
    ensures whole { shown_value (scaled (pos 0) (pos 0) 27315) ≡ codes "27315" }
    ensures hundredths { shown_value (scaled (pos 2) (pos 0) 27315) ≡ codes "273.15" }
    ensures below_zero { shown_value (scaled (pos 2) (negsuc 8999) 8999) ≡ codes "-0.01" }
    ensures no_hundredths { shown_value (scaled (pos 2) (negsuc 8999) 9000) ≡ codes "0.00" }
    ensures above { shown_value (scaled (pos 1) (pos 100) 7) ≡ codes "10.7" }
    ensures tens { shown_value (scaled (negsuc 0) (pos 0) 10132) ≡ codes "101320" }
    ensures no_thousands { shown_value (scaled (negsuc 2) (pos 0) 0) ≡ codes "0" }
    ensures last { shown_value (scaled (pos 1) (pos 0) 65534) ≡ codes "6553.4" }
    ensures missing { shown_value (scaled (pos 1) (pos 0) 65535) ≡ [] }
    ensures no_scale { shown_value (scaled (pos 601) (pos 0) 5) ≡ [] }
{}

/// The values of texts: what is cut off at their end, and how octets are shown.
#[tactic(auto, unfolding(crate::proofs::OnLiterals::rows_on_literals))]
pub fn values_of_texts()
    ensures whole { shown_name (codes "OSLO-GARD") ≡ codes "OSLO-GARD" }
    ensures spaces { shown_name (codes "OSLO   ") ≡ codes "OSLO" }
    ensures zeros { shown_name (codes "OSLO" ++ 0 ∷ 0 ∷ []) ≡ codes "OSLO" }
    ensures both { shown_name (codes "OSLO" ++ 32 ∷ 0 ∷ 32 ∷ 0 ∷ []) ≡ codes "OSLO" }
    ensures within { shown_name (32 ∷ codes "A" ++ 32 ∷ 32 ∷ 0 ∷ codes "B" ++ 32 ∷ [])
        ≡ codes " A  " ++ 92 ∷ codes "00B" }
    ensures ends { map (λ c. trimmed (65 ∷ c ∷ [])) (0 ∷ 1 ∷ 9 ∷ 31 ∷ 32 ∷ 33 ∷ 48 ∷ 160 ∷ 255 ∷ [])
        ≡ (65 ∷ []) ∷ (65 ∷ 1 ∷ []) ∷ (65 ∷ 9 ∷ []) ∷ (65 ∷ 31 ∷ []) ∷ (65 ∷ [])
        ∷ (65 ∷ 33 ∷ []) ∷ (65 ∷ 48 ∷ []) ∷ (65 ∷ 160 ∷ []) ∷ (65 ∷ 255 ∷ []) ∷ [] }
    ensures only_spaces { shown_name (codes "    ") ≡ [] }
    ensures only_zeros { shown_name (0 ∷ 0 ∷ []) ≡ [] }
    ensures missing { shown_name (255 ∷ 255 ∷ []) ≡ [] }
    ensures not_missing { shown_name (255 ∷ 32 ∷ []) ≡ 92 ∷ codes "ff" }
    ensures themselves { shown_text (32 ∷ 33 ∷ 34 ∷ 35 ∷ 44 ∷ 91 ∷ 93 ∷ 126 ∷ [])
        ≡ 32 ∷ 33 ∷ 34 ∷ 35 ∷ 44 ∷ 91 ∷ 93 ∷ 126 ∷ [] }
    ensures below { shown_text (0 ∷ 10 ∷ 13 ∷ 31 ∷ [])
        ≡ 92 ∷ codes "00" ++ 92 ∷ codes "0a" ++ 92 ∷ codes "0d" ++ 92 ∷ codes "1f" }
    ensures backslash { shown_text (92 ∷ []) ≡ 92 ∷ codes "5c" }
    ensures above { shown_text (127 ∷ 128 ∷ 229 ∷ 255 ∷ [])
        ≡ 92 ∷ codes "7f" ++ 92 ∷ codes "80" ++ 92 ∷ codes "e5" ++ 92 ∷ codes "ff" }
{}

/// Rows of texts with commas, quotes and other octets, as RFC 4180 writes them.
#[tactic(auto, unfolding(crate::proofs::OnLiterals::rows_on_literals))]
pub fn rows_of_texts()
    ensures plain { row_of_names (first_name ∷ second_name ∷ []) (codes "A B" ∷ codes "C;D" ∷ [])
        ≡ line_of (codes "A B,C;D") }
    ensures comma { row_of_names (first_name ∷ second_name ∷ []) (codes "A,B " ∷ codes "C" ∷ [])
        ≡ line_of (34 ∷ codes "A,B" ++ 34 ∷ codes ",C") }
    ensures quotes { row_of_names (second_name ∷ first_name ∷ [])
        ((34 ∷ codes "A") ∷ (codes "B" ++ 34 ∷ 34 ∷ codes "C") ∷ [])
        ≡ line_of (34 ∷ codes "B" ++ 34 ∷ 34 ∷ 34 ∷ 34 ∷ codes "C" ++ 34 ∷ codes ","
        ++ 34 ∷ 34 ∷ 34 ∷ codes "A" ++ 34 ∷ []) }
    ensures ends { row_of_names (first_name ∷ second_name ∷ [])
        ((codes "A" ++ 10 ∷ []) ∷ (13 ∷ codes "B") ∷ [])
        ≡ line_of (codes "A" ++ 92 ∷ codes "0a," ++ 92 ∷ codes "0dB") }
    ensures others { row_of_names (first_name ∷ []) ((codes "K" ++ 248 ∷ codes "B") ∷ [])
        ≡ line_of (codes "K" ++ 92 ∷ codes "f8B") }
    ensures one_empty { row_of_names (first_name ∷ []) (codes "  " ∷ []) ≡ line_of (34 ∷ 34 ∷ []) }
    ensures two_empty { row_of_names (third_name ∷ first_name ∷ []) (codes "  " ∷ [])
        ≡ line_of (codes ",") }
    ensures no_column { row_of_names [] (codes "A" ∷ []) ≡ line_of (34 ∷ 34 ∷ []) }
    ensures one_comma { row_of_names (first_name ∷ []) (codes "," ∷ [])
        ≡ line_of (34 ∷ codes "," ++ 34 ∷ []) }
{}

/// The rows of subsets without spans.
#[tactic(auto, unfolding(crate::proofs::OnLiterals::rows_on_literals))]
pub fn rows_of_subsets()
    ensures firsts { rows sounding_columns None somewhere sounding
        ≡ line_of (codes "6,1000,11,11,12,15,6,") }
    ensures counted { rows (Nth temperature 3 ∷ Nth temperature 4 ∷ Nth temperature 5
        ∷ Nth temperature 6 ∷ Nth temperature 7 ∷ []) None somewhere sounding
        ≡ line_of (codes "13,14,,16,") }
    ensures no_number { rows (First block ∷ Nth block 0 ∷ []) None somewhere sounding
        ≡ line_of (codes "6,") }
    ensures no_field { rows (First block ∷ First wind ∷ []) None somewhere []
        ≡ line_of (codes ",") }
{}

/// The rows of spans.
#[tactic(auto, unfolding(crate::proofs::OnLiterals::rows_on_literals))]
pub fn rows_of_spans()
    ensures levels { rows sounding_columns (Some pressure) somewhere sounding
        ≡ line_of (codes "6,1000,13,13,14,,,") ++ line_of (codes "6,850,12,,,15,,")
        ++ line_of (codes "7,500,,,16,,7,") }
    ensures from_first { rows (First pressure ∷ Nth temperature 2 ∷ First block ∷ Fact Subset ∷ [])
        (Some block) somewhere sounding
        ≡ line_of (codes "1000,12,6,21") ++ line_of (codes ",,7,21") }
    ensures none { rows sounding_columns (Some absent) somewhere sounding ≡ [] }
    ensures no_value { rows (First pressure ∷ First temperature ∷ []) (Some pressure) somewhere
        (unsaid pressure ∷ numbered temperature 13 ∷ []) ≡ line_of (codes ",13") }
    ensures no_value_before { rows (First pressure ∷ First wind ∷ []) (Some pressure) somewhere
        (numbered wind 15 ∷ unsaid wind ∷ numbered pressure 850 ∷ []) ≡ line_of (codes "850,") }
    ensures side_by_side { rows (First pressure ∷ []) (Some pressure) somewhere
        (numbered pressure 850 ∷ numbered pressure 500 ∷ [])
        ≡ line_of (codes "850") ++ line_of (codes "500") }
{}

/// What cells show of the words of a listing.
#[tactic(auto, unfolding(crate::proofs::OnLiterals::rows_on_literals))]
pub fn cells_of_words()
    ensures numbers { map cell_of_word (codes "-273.15" ∷ codes "0" ∷ [])
        ≡ codes "-273.15" ∷ codes "0" ∷ [] }
    ensures missing { cell_of_word (codes "missing") ≡ [] }
    ensures text_of_missing { cell_of_word (34 ∷ codes "missing" ++ 34 ∷ []) ≡ codes "missing" }
    ensures padded { cell_of_word (34 ∷ codes " OSLO  " ++ 92 ∷ codes "00 " ++ 34 ∷ [])
        ≡ codes " OSLO" }
    ensures quotes { cell_of_word (34 ∷ 92 ∷ codes "22A" ++ 92 ∷ codes "22" ++ 34 ∷ [])
        ≡ 34 ∷ codes "A" ++ 34 ∷ [] }
    ensures escaped { cell_of_word (34 ∷ 92 ∷ codes "00K" ++ 92 ∷ codes "5c22" ++ 34 ∷ [])
        ≡ 92 ∷ codes "00K" ++ 92 ∷ codes "5c22" }
    ensures only_padding { cell_of_word (34 ∷ codes " " ++ 92 ∷ codes "00" ++ 34 ∷ []) ≡ [] }
{}

/// The marks of descriptors in the set.
pub fn marked_descriptors()
    ensures { map (flagged (0 ∷ 1 ∷ 2 ∷ [])) (0 ∷ 1 ∷ 2 ∷ 3 ∷ []) ≡ false ∷ true ∷ true ∷ false ∷ [] }
{}
