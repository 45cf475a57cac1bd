//! Worked values of compressed data.

ghost use Rattle.std.specs.Prelude.{◌≡◌, ◌∷◌, ◌++◌, ◌-◌, ◌^◌, [], true, false, take, replicate, Ok};
ghost use Rattle.std.specs.Prelude.{Err, map};
ghost use Rattle.bufr_bits.specs.Bits.{bin, bits};
ghost use Rattle.bufr_tables.specs.Descriptors.{descriptor};
ghost use Rattle.bufr_data.specs.Compressed.Reading.{columns_at, all_equal};
ghost use Rattle.bufr_data.specs.Compressed.Best.{best, can_be_column, can_differ};
ghost use Rattle.bufr_fields.specs.Increments.{fewest_bits};
ghost use Rattle.bufr_fields.specs.Limits.{most_values, most_increment_bits};
ghost use Rattle.bufr_data.specs.Samples.{sample_course, sample_raws, recompressed, number_spec};
ghost use Rattle.bufr_data.specs.Samples.{text_spec, sample_tree};
ghost use Rattle.bufr_fields.specs.Samples.{spec_of, number_kinds};
ghost use Rattle.bufr_base.specs.Answers.{result_map};
ghost use Rattle.bufr_data.specs.Data.{subsets_in};

use bufr_fields::{DataFault, MisfitFault, Raw};
use bufr_tables::Kind;

/// Reading columns: increments, a missing value, and texts that are filled or missing.
#[tactic(auto, unfolding(crate::proofs::OnLiterals::columns_on_literals))]
pub fn columns_of_octets()
    ensures pair { sample_raws (descriptor 3 1 1 ∷ descriptor 3 1 11 ∷ descriptor 3 1 12
        ∷ descriptor 0 12 101 ∷ []) true 2
        (0x14 ∷ 0x03 ∷ 0x00 ∷ 0x03 ∷ 0xF4 ∷ 0x00 ∷ 0x20 ∷ 0x1E ∷ 0x03 ∷ 0x00 ∷ 0x00 ∷ 0x06 ∷ 0xAB
        ∷ 0x30 ∷ 0x50 ∷ []) ≡ Ok ((Raw.Number 10 ∷ Raw.Number 384 ∷ Raw.Number 2024 ∷ Raw.Number 1
        ∷ Raw.Number 15 ∷ Raw.Number 12 ∷ Raw.Number 0 ∷ Raw.Number 27315 ∷ [])
        ∷ (Raw.Number 10 ∷ Raw.Number 384 ∷ Raw.Number 2024 ∷ Raw.Number 1 ∷ Raw.Number 15
        ∷ Raw.Number 12 ∷ Raw.Number 0 ∷ Raw.Number 65535 ∷ []) ∷ []) }
    ensures increments { sample_raws (descriptor 0 12 101 ∷ []) true 2
        (0x6A ∷ 0xB3 ∷ 0x08 ∷ 0x40 ∷ [])
        ≡ Ok ((Raw.Number 27315 ∷ []) ∷ (Raw.Number 27316 ∷ []) ∷ []) }
    ensures texts { sample_raws (descriptor 2 8 3 ∷ descriptor 0 1 11 ∷ []) true 2
        (0x00 ∷ 0x00 ∷ 0x00 ∷ 0x09 ∷ 0x05 ∷ 0x0B ∷ 0xFF ∷ 0xFC ∷ [])
        ≡ Ok ((Raw.Text (65 ∷ 66 ∷ 32 ∷ []) ∷ []) ∷ (Raw.Text (255 ∷ 255 ∷ 255 ∷ []) ∷ []) ∷ []) }
    ensures none { sample_raws (descriptor 0 12 101 ∷ []) true 0 [] ≡ Ok [] }
    ensures rests { map (λ compressed. map (λ n. result_map (λ found. found.1)
        (subsets_in (sample_tree (descriptor 0 2 1 ∷ [])) compressed n (bits (0x40 ∷ 0xFF ∷ []))))
        (0 ∷ 1 ∷ 2 ∷ [])) (false ∷ true ∷ [])
        ≡ (Ok (bits (0x40 ∷ 0xFF ∷ [])) ∷ Ok (bin 6 0 ++ bin 8 255) ∷ Ok (bin 4 0 ++ bin 8 255)
        ∷ []) ∷ (Ok (bits (0x40 ∷ 0xFF ∷ [])) ∷ Ok (bin 8 255) ∷ Ok (bin 8 255) ∷ []) ∷ [] }
    ensures one_count { sample_raws
        (descriptor 1 1 0 ∷ descriptor 0 31 1 ∷ descriptor 0 12 101 ∷ []) true 2
        (0x00 ∷ 0x09 ∷ 0x5A ∷ 0xAC ∷ 0xC0 ∷ [])
        ≡ Ok ((Raw.Number 1 ∷ Raw.Number 27315 ∷ []) ∷ (Raw.Number 1 ∷ Raw.Number 27315 ∷ [])
        ∷ []) }
{}

/// First faults of columns: their order at one field, and the limit on values.
#[tactic(auto, unfolding(crate::proofs::OnLiterals::columns_on_literals))]
pub fn columns_refused()
    ensures passes { sample_raws (descriptor 0 2 1 ∷ []) true 2 (0x82 ∷ 0x80 ∷ [])
        ≡ Err (DataFault.IncrementRange 1 1) }
    ensures second_passes { sample_raws (descriptor 0 2 1 ∷ []) true 2 (0x82 ∷ 0x20 ∷ [])
        ≡ Err (DataFault.IncrementRange 2 1) }
    ensures ends_before { sample_raws (descriptor 0 2 1 ∷ []) true 5 (0x82 ∷ 0x80 ∷ [])
        ≡ Err (DataFault.DataEnds 0 1) }
    ensures wide_text { sample_raws (descriptor 2 8 1 ∷ descriptor 0 1 11 ∷ []) true 2
        (0x00 ∷ 0x08 ∷ 0x00 ∷ 0x00 ∷ 0x00 ∷ 0x00 ∷ []) ≡ Err (DataFault.CharIncrement 1) }
    ensures wide_before_end { sample_raws (descriptor 2 8 1 ∷ descriptor 0 1 11 ∷ []) true 2
        (0x00 ∷ 0x08 ∷ []) ≡ Err (DataFault.CharIncrement 1) }
    ensures no_width { sample_raws (descriptor 2 8 1 ∷ descriptor 0 1 11 ∷ []) true 2 (0x00 ∷ [])
        ≡ Err (DataFault.DataEnds 0 1) }
    ensures unequal { sample_raws (descriptor 1 1 0 ∷ descriptor 0 31 1 ∷ descriptor 0 12 101 ∷ [])
        true 2 (0x00 ∷ 0x08 ∷ 0x40 ∷ []) ≡ Err (DataFault.UnequalCounts 1) }
    ensures values { most_values ≡ 67108864 }
    ensures many_values { columns_at 65535 1025 (sample_course (descriptor 0 12 101 ∷ []) 0) []
        ≡ Err DataFault.TooLarge }
    ensures fewer_values { columns_at 65535 1024 (sample_course (descriptor 0 12 101 ∷ []) 0) []
        ≡ Err (DataFault.DataEnds 0 1024) }
    ensures at_limit { columns_at 2 33554432 (sample_course (descriptor 0 12 101 ∷ []) 0) []
        ≡ Err (DataFault.DataEnds 0 33554432) }
    ensures past_limit { columns_at 5 13421773 (sample_course (descriptor 0 12 101 ∷ []) 0) []
        ≡ Err DataFault.TooLarge }
{}

/// Writing columns.
#[tactic(auto, unfolding(crate::proofs::OnLiterals::columns_on_literals))]
pub fn columns_written()
    ensures pair { recompressed (descriptor 3 1 1 ∷ descriptor 3 1 11 ∷ descriptor 3 1 12
        ∷ descriptor 0 12 101 ∷ []) true 2
        (0x14 ∷ 0x03 ∷ 0x00 ∷ 0x03 ∷ 0xF4 ∷ 0x00 ∷ 0x20 ∷ 0x1E ∷ 0x03 ∷ 0x00 ∷ 0x00 ∷ 0x06 ∷ 0xAB
        ∷ 0x30 ∷ 0x84 ∷ []) ≡ Ok (take 118
        (bits (0x14 ∷ 0x03 ∷ 0x00 ∷ 0x03 ∷ 0xF4 ∷ 0x00 ∷ 0x20 ∷ 0x1E ∷ 0x03 ∷ 0x00 ∷ 0x00 ∷ 0x06
        ∷ 0xAB ∷ 0x30 ∷ 0x84 ∷ []))) }
    ensures missing { recompressed (descriptor 0 12 101 ∷ []) false 2
        (0x6A ∷ 0xB3 ∷ 0xFF ∷ 0xFF ∷ []) ≡ Ok (bin 16 27315 ++ bin 6 1 ++ bin 1 0 ++ bin 1 1) }
    ensures all_missing { recompressed (descriptor 0 12 101 ∷ []) false 2
        (0xFF ∷ 0xFF ∷ 0xFF ∷ 0xFF ∷ []) ≡ Ok (bin 16 65535 ++ bin 6 0) }
    ensures one_subset { recompressed (descriptor 0 12 101 ∷ []) false 1 (0x6A ∷ 0xB3 ∷ [])
        ≡ Ok (bin 16 27315 ++ bin 6 0) }
    ensures spaces_stay { recompressed (descriptor 2 8 2 ∷ descriptor 0 1 11 ∷ []) false 2
        (65 ∷ 32 ∷ 66 ∷ 32 ∷ []) ≡ Ok (bits (0 ∷ 0 ∷ []) ++ bin 6 2
        ++ bits (65 ∷ 32 ∷ 66 ∷ 32 ∷ [])) }
    ensures counts_differ { recompressed
        (descriptor 1 1 0 ∷ descriptor 0 31 1 ∷ descriptor 0 12 101 ∷ []) false 2
        (0x00 ∷ 0x01 ∷ 0x6A ∷ 0xB3 ∷ []) ≡ Err (MisfitFault.NotCompressible 1) }
    ensures no_subset { recompressed (descriptor 0 12 101 ∷ []) true 0 [] ≡ Ok [] }
    ensures greatest_width { best (number_spec 63) (Raw.Number 0 ∷ Raw.Number (2 ^ 63 - 2) ∷ [])
        ≡ bin 63 0 ++ bin 6 63 ++ bin 63 0 ++ bin 63 (2 ^ 63 - 2) }
    ensures narrower { best (number_spec 63) (Raw.Number 1 ∷ Raw.Number (2 ^ 62 - 1) ∷ [])
        ≡ bin 63 1 ++ bin 6 62 ++ bin 62 0 ++ bin 62 (2 ^ 62 - 2) }
    ensures least_behind { best (number_spec 8) (Raw.Number 9 ∷ Raw.Number 5 ∷ [])
        ≡ bin 8 5 ++ bin 6 3 ++ bin 3 4 ++ bin 3 0 }
    ensures missing_between { best (number_spec 8)
        (Raw.Number 5 ∷ Raw.Number 255 ∷ Raw.Number 8 ∷ []) ≡ bin 8 5 ++ bin 6 3 ++ bin 3 0
        ++ bin 3 7 ++ bin 3 3 }
    ensures widths { map (λ difference. fewest_bits most_increment_bits 1 difference)
        (0 ∷ 1 ∷ 2 ∷ 3 ∷ 6 ∷ 7 ∷ 14 ∷ 15 ∷ []) ≡ 1 ∷ 2 ∷ 2 ∷ 3 ∷ 3 ∷ 4 ∷ 4 ∷ 5 ∷ [] }
    ensures numbers_differ { map (λ width. map (λ k. can_differ (spec_of k width)) number_kinds)
        (1 ∷ 63 ∷ 64 ∷ []) ≡ (true ∷ true ∷ true ∷ false ∷ []) ∷ (true ∷ true ∷ true ∷ false ∷ [])
        ∷ replicate 4 false ∷ [] }
    ensures texts_differ { map (λ octets. can_differ (text_spec octets)) (1 ∷ 63 ∷ 64 ∷ [])
        ≡ true ∷ true ∷ false ∷ [] }
    ensures equal_factors { map (λ v. can_be_column (spec_of Kind.Count 8) (Raw.Number 2 ∷ v ∷ []))
        (Raw.Number 2 ∷ Raw.Number 3 ∷ []) ≡ true ∷ false ∷ [] }
    ensures equal_numbers { map all_equal ([] ∷ (Raw.Number 2 ∷ [])
        ∷ (Raw.Number 2 ∷ Raw.Number 2 ∷ []) ∷ (Raw.Number 2 ∷ Raw.Number 2 ∷ Raw.Number 3 ∷ [])
        ∷ []) ≡ true ∷ true ∷ true ∷ false ∷ [] }
    ensures equal_texts { map (λ v. all_equal (Raw.Text (65 ∷ []) ∷ v ∷ []))
        (Raw.Text (65 ∷ []) ∷ Raw.Text (65 ∷ 32 ∷ []) ∷ Raw.Number 65 ∷ [])
        ≡ true ∷ false ∷ false ∷ [] }
    ensures number_and_text { all_equal (Raw.Number 65 ∷ Raw.Text (65 ∷ []) ∷ []) ≡ false }
    ensures long_texts { can_be_column (text_spec 64)
        (Raw.Text (replicate 64 65) ∷ Raw.Text (replicate 64 66) ∷ []) ≡ false }
    ensures long_equal { can_be_column (text_spec 64)
        (Raw.Text (replicate 64 65) ∷ Raw.Text (replicate 64 65) ∷ []) ≡ true }
    ensures texts_of_63 { can_be_column (text_spec 63)
        (Raw.Text (replicate 63 65) ∷ Raw.Text (replicate 63 66) ∷ []) ≡ true }
{}
