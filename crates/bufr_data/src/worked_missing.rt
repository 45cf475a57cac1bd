//! Worked values of missing values, by kind and width, plain and compressed.

ghost use Rattle.std.specs.Prelude.{◌≡◌, ◌∷◌, ◌++◌, [], true, false, Ok, codes, map, Some, None};
ghost use Rattle.std.specs.Prelude.{replicate};
ghost use Rattle.bufr_bits.specs.Bits.{bin, bits};
ghost use Rattle.bufr_tables.specs.Descriptors.{descriptor};
ghost use Rattle.bufr_data.specs.Compressed.Best.{best};
ghost use Rattle.bufr_fields.specs.Increments.{raised};
ghost use Rattle.bufr_data.specs.Compressed.Reading.{filled, column_at};
ghost use Rattle.bufr_fields.specs.Samples.{number_kinds, spec_of};
ghost use Rattle.bufr_data.specs.Samples.{text_spec};
ghost use Rattle.bufr_data.specs.Samples.{sample_raws, sample_missing, sample_texts};

use bufr_fields::Raw;
use bufr_tables::Kind;

/// R0 and an increment: their sum, even if all ones; all ones if the increment is; no sum above the
/// greatest number.
#[tactic(auto, unfolding(crate::proofs::OnLiterals::columns_on_literals))]
pub fn numbers_of_increments()
    ensures sum { raised 8 200 6 5 ≡ Some (Raw.Number 205) }
    ensures none { raised 8 200 6 0 ≡ Some (Raw.Number 200) }
    ensures sum_of_ones { raised 8 200 6 55 ≡ Some (Raw.Number 255) }
    ensures past_ones { raised 8 200 6 56 ≡ None }
    ensures below_ones { raised 16 200 6 62 ≡ Some (Raw.Number 262) }
    ensures ones { raised 16 200 6 63 ≡ Some (Raw.Number 65535) }
    ensures ones_past { raised 8 250 6 63 ≡ Some (Raw.Number 255) }
    ensures one_bit { raised 16 27315 1 1 ≡ Some (Raw.Number 65535) }
    ensures zero_bit { raised 16 27315 1 0 ≡ Some (Raw.Number 27315) }
    ensures one_bit_in_one { raised 1 0 1 1 ≡ Some (Raw.Number 1) }
    ensures above_one_in_one { raised 1 1 1 1 ≡ Some (Raw.Number 1) }
    ensures past_one { raised 1 1 2 1 ≡ None }
    ensures wider_than_field { raised 2 1 3 1 ≡ Some (Raw.Number 2) }
    ensures wider_ones { raised 2 1 3 7 ≡ Some (Raw.Number 3) }
    ensures most_bits { raised 63 1 63 9223372036854775806 ≡ Some (Raw.Number 9223372036854775807) }
{}

/// Columns of each kind: R0 1 with increments of two bits, and the best column with a missing
/// value.
#[tactic(auto, unfolding(crate::proofs::OnLiterals::columns_on_literals))]
pub fn columns_by_kind()
    ensures sum_of_ones { map (λ k. column_at 2 1 (spec_of k 2) (bits (0x42 ∷ 0x80 ∷ [])))
        number_kinds
        ≡ replicate 4 (Ok (Raw.Number 3 ∷ Raw.Number 1 ∷ [], bin 4 0)) }
    ensures one_bit { map (λ k. column_at 2 1 (spec_of k 1) (bits (0x02 ∷ 0x80 ∷ []))) number_kinds
        ≡ replicate 4 (Ok (Raw.Number 0 ∷ Raw.Number 1 ∷ [], bin 7 0)) }
    ensures equal { map (λ k. column_at 2 1 (spec_of k 2) (bits (0xC0 ∷ []))) number_kinds
        ≡ replicate 4 (Ok (Raw.Number 3 ∷ Raw.Number 3 ∷ [], [])) }
    ensures best_of_missing { map (λ k. best (spec_of k 2) (Raw.Number 3 ∷ Raw.Number 1 ∷ []))
        number_kinds ≡ replicate 4 (bin 2 1 ++ bin 6 1 ++ bin 1 1 ++ bin 1 0) }
    ensures best_of_one_bit { map (λ k. best (spec_of k 1) (Raw.Number 0 ∷ Raw.Number 1 ∷ []))
        number_kinds ≡ replicate 4 (bin 1 0 ++ bin 6 1 ++ bin 1 0 ++ bin 1 1) }
    ensures best_of_equal { map (λ k. best (spec_of k 2) (Raw.Number 3 ∷ Raw.Number 3 ∷ []))
        number_kinds ≡ replicate 4 (bin 2 3 ++ bin 6 0) }
{}

/// Data with a sum of all ones, and a field of one bit.
#[tactic(auto, unfolding(crate::proofs::OnLiterals::columns_on_literals, crate::proofs::OnLiterals::decimals_on_literals))]
pub fn missing_in_data()
    ensures sum_of_ones { sample_missing (descriptor 0 2 1 ∷ []) true 2 (0x42 ∷ 0x80 ∷ [])
        ≡ Ok ((true ∷ []) ∷ (false ∷ []) ∷ []) }
    ensures values { sample_texts (descriptor 0 2 1 ∷ []) true 2 (0x42 ∷ 0x80 ∷ [])
        ≡ Ok ((None ∷ []) ∷ (Some (codes "1") ∷ []) ∷ []) }
    ensures one_bit { sample_texts (descriptor 0 31 0 ∷ []) true 2 (0x02 ∷ 0x80 ∷ [])
        ≡ Ok ((Some (codes "0") ∷ []) ∷ (Some (codes "1") ∷ []) ∷ []) }
    ensures plain { sample_texts (descriptor 0 2 1 ∷ descriptor 0 31 0 ∷ []) false 2 (0xF8 ∷ [])
        ≡ Ok ((None ∷ Some (codes "1") ∷ []) ∷ (None ∷ Some (codes "0") ∷ []) ∷ []) }
    ensures factor { sample_texts (descriptor 1 1 0 ∷ descriptor 0 31 0 ∷ descriptor 0 2 1 ∷ [])
        false 1 (0xE0 ∷ []) ≡ Ok ((Some (codes "1") ∷ None ∷ []) ∷ []) }
{}

/// Texts filled with spaces, or missing if all octets are 255; R0 does not matter beside
/// increments.
#[tactic(auto, unfolding(crate::proofs::OnLiterals::columns_on_literals))]
pub fn texts_of_columns()
    ensures one_short { filled 3 (65 ∷ 66 ∷ []) ≡ Raw.Text (65 ∷ 66 ∷ 32 ∷ []) }
    ensures two_short { filled 3 (65 ∷ []) ≡ Raw.Text (65 ∷ 32 ∷ 32 ∷ []) }
    ensures whole { filled 2 (65 ∷ 0 ∷ []) ≡ Raw.Text (65 ∷ 0 ∷ []) }
    ensures of_ones { filled 3 (255 ∷ []) ≡ Raw.Text (255 ∷ 255 ∷ 255 ∷ []) }
    ensures begins_with_ones { filled 3 (255 ∷ 65 ∷ []) ≡ Raw.Text (255 ∷ 65 ∷ 32 ∷ []) }
    ensures below_ones { filled 2 (254 ∷ []) ≡ Raw.Text (254 ∷ 32 ∷ []) }
    ensures ignored { sample_raws (descriptor 2 8 1 ∷ descriptor 0 1 11 ∷ []) true 2
        (0x5A ∷ 0x05 ∷ 0x05 ∷ 0x08 ∷ [])
        ≡ Ok ((Raw.Text (65 ∷ []) ∷ []) ∷ (Raw.Text (66 ∷ []) ∷ []) ∷ []) }
    ensures equal { sample_raws (descriptor 2 8 1 ∷ descriptor 0 1 11 ∷ []) true 2
        (0x5A ∷ 0x00 ∷ []) ≡ Ok ((Raw.Text (90 ∷ []) ∷ []) ∷ (Raw.Text (90 ∷ []) ∷ []) ∷ []) }
    ensures equal_ones { sample_missing (descriptor 2 8 1 ∷ descriptor 0 1 11 ∷ []) true 2
        (0xFF ∷ 0x00 ∷ []) ≡ Ok ((true ∷ []) ∷ (true ∷ []) ∷ []) }
    ensures best_of_missing { best (text_spec 2)
        (Raw.Text (255 ∷ 255 ∷ []) ∷ Raw.Text (65 ∷ 32 ∷ []) ∷ [])
        ≡ bits (0 ∷ 0 ∷ []) ++ bin 6 2 ++ bits (255 ∷ 255 ∷ 65 ∷ 32 ∷ []) }
    ensures best_of_equal { best (text_spec 2)
        (Raw.Text (65 ∷ 66 ∷ []) ∷ Raw.Text (65 ∷ 66 ∷ []) ∷ [])
        ≡ bits (65 ∷ 66 ∷ []) ++ bin 6 0 }
{}
