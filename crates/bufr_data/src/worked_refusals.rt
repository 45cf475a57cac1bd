//! Worked values of refusals: which fault comes first, and the subset and field that it names.

ghost use Rattle.std.specs.Prelude.{◌≡◌, ◌∷◌, ◌++◌, [], true, false, Ok, Err, map, length};
ghost use Rattle.std.specs.Prelude.{replicate};
ghost use Rattle.bufr_bits.specs.Bits.{bin, bits};
ghost use Rattle.bufr_base.specs.Answers.{result_map};
ghost use Rattle.bufr_tables.specs.Descriptors.{descriptor};
ghost use Rattle.bufr_data.specs.Compressed.Best.{packed, columns_of};
ghost use Rattle.bufr_data.specs.Compressed.Reading.{columns_at};
ghost use Rattle.bufr_data.specs.Plain.{fields_at, subsets_at};
ghost use Rattle.bufr_fields.specs.Forms.{items_of, items_of_all};
ghost use Rattle.bufr_data.specs.Samples.{sample_course, sample_raws, recompressed, number_spec};
ghost use Rattle.bufr_fields.specs.Samples.{field_as, number_kinds};
ghost use Rattle.bufr_data.specs.Samples.{written_of};

use bufr_fields::{DataFault, MisfitFault, Raw};
use bufr_tables::Kind;

/// Two subsets of two fields, 001001 of seven bits and 002001 of two, one with a misfit.
#[tactic(auto, unfolding(crate::proofs::OnLiterals::columns_on_literals))]
pub fn misfits_of_two_subsets()
    ensures none { map (λ compressed. written_of (descriptor 0 1 1 ∷ descriptor 0 2 1 ∷ [])
        compressed
        ((field_as (descriptor 0 1 1) Kind.Quantity 7 (Raw.Number 127)
        ∷ field_as (descriptor 0 2 1) Kind.Code 2 (Raw.Number 3) ∷ [])
        ∷ (field_as (descriptor 0 1 1) Kind.Quantity 7 (Raw.Number 127)
        ∷ field_as (descriptor 0 2 1) Kind.Code 2 (Raw.Number 2) ∷ []) ∷ []))
        (false ∷ true ∷ [])
        ≡ Ok (bin 7 127 ++ bin 2 3 ++ bin 7 127 ++ bin 2 2)
        ∷ Ok (bin 7 127 ++ bin 6 0 ++ bin 2 2 ++ bin 6 1 ++ bin 1 1 ++ bin 1 0) ∷ [] }
    ensures first_field { map (λ compressed. written_of (descriptor 0 1 1 ∷ descriptor 0 2 1 ∷ [])
        compressed
        ((field_as (descriptor 0 1 1) Kind.Quantity 7 (Raw.Number 10)
        ∷ field_as (descriptor 0 2 1) Kind.Code 2 (Raw.Number 1) ∷ [])
        ∷ (field_as (descriptor 0 1 1) Kind.Quantity 7 (Raw.Number 128)
        ∷ field_as (descriptor 0 2 1) Kind.Code 2 (Raw.Number 1) ∷ []) ∷ []))
        (false ∷ true ∷ [])
        ≡ Err (MisfitFault.DoesNotFit 2 1) ∷ Err (MisfitFault.DoesNotFit 2 1) ∷ [] }
    ensures second_field { map (λ compressed. written_of (descriptor 0 1 1 ∷ descriptor 0 2 1 ∷ [])
        compressed
        ((field_as (descriptor 0 1 1) Kind.Quantity 7 (Raw.Number 10)
        ∷ field_as (descriptor 0 2 1) Kind.Code 2 (Raw.Number 1) ∷ [])
        ∷ (field_as (descriptor 0 1 1) Kind.Quantity 7 (Raw.Number 10)
        ∷ field_as (descriptor 0 2 1) Kind.Code 2 (Raw.Number 4) ∷ []) ∷ []))
        (false ∷ true ∷ [])
        ≡ Err (MisfitFault.DoesNotFit 2 2) ∷ Err (MisfitFault.DoesNotFit 2 2) ∷ [] }
    ensures first_subset { map (λ compressed. written_of (descriptor 0 1 1 ∷ descriptor 0 2 1 ∷ [])
        compressed
        ((field_as (descriptor 0 1 1) Kind.Quantity 7 (Raw.Number 10)
        ∷ field_as (descriptor 0 2 1) Kind.Code 2 (Raw.Number 4) ∷ [])
        ∷ (field_as (descriptor 0 1 1) Kind.Quantity 7 (Raw.Number 128) ∷ []) ∷ []))
        (false ∷ true ∷ [])
        ≡ Err (MisfitFault.DoesNotFit 1 2) ∷ Err (MisfitFault.DoesNotFit 1 2) ∷ [] }
    ensures too_few { map (λ compressed. written_of (descriptor 0 1 1 ∷ descriptor 0 2 1 ∷ [])
        compressed
        ((field_as (descriptor 0 1 1) Kind.Quantity 7 (Raw.Number 10)
        ∷ field_as (descriptor 0 2 1) Kind.Code 2 (Raw.Number 1) ∷ [])
        ∷ (field_as (descriptor 0 1 1) Kind.Quantity 7 (Raw.Number 10) ∷ []) ∷ []))
        (false ∷ true ∷ [])
        ≡ Err (MisfitFault.DoesNotFit 2 2) ∷ Err (MisfitFault.DoesNotFit 2 2) ∷ [] }
    ensures too_many { map (λ compressed. written_of (descriptor 0 1 1 ∷ []) compressed
        ((field_as (descriptor 0 1 1) Kind.Quantity 7 (Raw.Number 10) ∷ [])
        ∷ (field_as (descriptor 0 1 1) Kind.Quantity 7 (Raw.Number 10)
        ∷ field_as (descriptor 0 2 1) Kind.Code 2 (Raw.Number 1) ∷ []) ∷ []))
        (false ∷ true ∷ [])
        ≡ Err (MisfitFault.DoesNotFit 2 2) ∷ Err (MisfitFault.DoesNotFit 2 2) ∷ [] }
    ensures kinds { map (λ k. written_of (descriptor 0 2 1 ∷ []) true
        ((field_as (descriptor 0 2 1) k 2 (Raw.Number 1) ∷ []) ∷ [])) number_kinds
        ≡ Ok (bin 2 1 ++ bin 6 0) ∷ replicate 3 (Err (MisfitFault.DoesNotFit 1 1)) }
    ensures widths { map (λ width. written_of (descriptor 0 2 1 ∷ []) true
        ((field_as (descriptor 0 2 1) Kind.Code width (Raw.Number 1) ∷ []) ∷ []))
        (1 ∷ 2 ∷ 3 ∷ [])
        ≡ Err (MisfitFault.DoesNotFit 1 1) ∷ Ok (bin 2 1 ++ bin 6 0)
        ∷ Err (MisfitFault.DoesNotFit 1 1) ∷ [] }
    ensures other_descriptor { map (λ compressed. written_of (descriptor 0 1 1 ∷ []) compressed
        ((field_as (descriptor 0 1 1) Kind.Quantity 7 (Raw.Number 10) ∷ [])
        ∷ (field_as (descriptor 0 1 2) Kind.Quantity 7 (Raw.Number 10) ∷ []) ∷ []))
        (false ∷ true ∷ [])
        ≡ Err (MisfitFault.DoesNotFit 2 1) ∷ Err (MisfitFault.DoesNotFit 2 1) ∷ [] }
{}

/// Subsets that can't share columns, and the order of their faults.
#[tactic(auto, unfolding(crate::proofs::OnLiterals::columns_on_literals))]
pub fn places_apart()
    ensures second_place { recompressed (descriptor 0 1 1 ∷ descriptor 1 1 0 ∷ descriptor 0 31 1
        ∷ descriptor 0 12 101 ∷ []) false 2 (0x14 ∷ 0x00 ∷ 0x28 ∷ 0x05 ∷ 0xAA ∷ 0xCC ∷ [])
        ≡ Err (MisfitFault.NotCompressible 2) }
    ensures end { columns_of 3 []
        ((field_as (descriptor 0 2 1) Kind.Code 2 (Raw.Number 1) ∷ []) ∷ [])
        ≡ Err (MisfitFault.NotCompressible 3) }
    ensures no_other { columns_of 3 (field_as (descriptor 0 2 1) Kind.Code 2 (Raw.Number 1) ∷ [])
        ([] ∷ []) ≡ Err (MisfitFault.NotCompressible 3) }
    ensures other_descriptor { columns_of 3
        (field_as (descriptor 0 2 1) Kind.Code 2 (Raw.Number 1) ∷ [])
        ((field_as (descriptor 0 2 2) Kind.Code 2 (Raw.Number 1) ∷ []) ∷ [])
        ≡ Err (MisfitFault.NotCompressible 3) }
    ensures other_spec { columns_of 3 (field_as (descriptor 0 2 1) Kind.Code 2 (Raw.Number 1) ∷ [])
        ((field_as (descriptor 0 2 1) Kind.Code 3 (Raw.Number 1) ∷ []) ∷ [])
        ≡ Err (MisfitFault.NotCompressible 3) }
    ensures later_place { columns_of 3 (field_as (descriptor 0 2 1) Kind.Code 2 (Raw.Number 1)
        ∷ field_as (descriptor 0 2 1) Kind.Code 2 (Raw.Number 1) ∷ [])
        ((field_as (descriptor 0 2 1) Kind.Code 2 (Raw.Number 2) ∷ []) ∷ [])
        ≡ Err (MisfitFault.NotCompressible 4) }
    ensures misfit_before { written_of (descriptor 0 1 1 ∷ descriptor 1 1 0 ∷ descriptor 0 31 1
        ∷ descriptor 0 12 101 ∷ []) true
        ((field_as (descriptor 0 1 1) Kind.Quantity 7 (Raw.Number 10)
        ∷ field_as (descriptor 0 31 1) Kind.Count 8 (Raw.Number 0) ∷ [])
        ∷ (field_as (descriptor 0 1 1) Kind.Quantity 7 (Raw.Number 10)
        ∷ field_as (descriptor 0 31 1) Kind.Count 8 (Raw.Number 1) ∷ []) ∷ [])
        ≡ Err (MisfitFault.DoesNotFit 2 3) }
    ensures at_limit { packed 33554432
        (record { fxy = 1; spec = number_spec 7; values = Raw.Number 5 ∷ [] }
        ∷ record { fxy = 2; spec = number_spec 2; values = Raw.Number 1 ∷ [] } ∷ [])
        ≡ Ok (bin 7 5 ++ bin 6 0 ++ bin 2 1 ++ bin 6 0) }
    ensures past_limit { packed 13421773
        (replicate 5 (record { fxy = 1; spec = number_spec 7; values = Raw.Number 5 ∷ [] }))
        ≡ Err MisfitFault.TooLarge }
{}

/// Data refused at their second field, and in plain data at their second subset.
#[tactic(auto, unfolding(crate::proofs::OnLiterals::columns_on_literals))]
pub fn faults_of_second_fields()
    ensures plain_end { sample_raws (descriptor 0 1 1 ∷ descriptor 0 2 1 ∷ []) false 2
        (0x14 ∷ 0x0A ∷ []) ≡ Err (DataFault.DataEnds 2 2) }
    ensures plain_start { sample_raws (descriptor 0 1 1 ∷ []) false 2 (0x14 ∷ [])
        ≡ Err (DataFault.DataEnds 2 1) }
    ensures column_end { sample_raws (descriptor 0 1 1 ∷ descriptor 0 2 1 ∷ []) true 2
        (0x14 ∷ 0x00 ∷ []) ≡ Err (DataFault.DataEnds 0 2) }
    ensures no_spec { map (λ compressed. sample_raws (descriptor 0 1 1 ∷ descriptor 2 1 255
        ∷ descriptor 0 12 101 ∷ []) compressed 2 (0x14 ∷ 0x00 ∷ [])) (false ∷ true ∷ [])
        ≡ Err (DataFault.EffectiveRange (descriptor 0 12 101))
        ∷ Err (DataFault.EffectiveRange (descriptor 0 12 101)) ∷ [] }
    ensures unequal { sample_raws (descriptor 0 1 1 ∷ descriptor 1 1 0 ∷ descriptor 0 31 1
        ∷ descriptor 0 12 101 ∷ []) true 2 (0x14 ∷ 0x00 ∷ 0x00 ∷ 0x28 ∷ [])
        ≡ Err (DataFault.UnequalCounts 2) }
    ensures passes { sample_raws (descriptor 0 1 1 ∷ descriptor 0 2 1 ∷ []) true 2
        (0x14 ∷ 0x04 ∷ 0x11 ∷ 0x00 ∷ []) ≡ Err (DataFault.IncrementRange 2 2) }
    ensures wide_text { sample_raws (descriptor 0 1 1 ∷ descriptor 2 8 1 ∷ descriptor 0 1 11 ∷ [])
        true 2 (0x14 ∷ 0x00 ∷ 0x00 ∷ 0x40 ∷ []) ≡ Err (DataFault.CharIncrement 2) }
    ensures texts_end { sample_raws (descriptor 2 8 1 ∷ descriptor 0 1 11 ∷ []) true 2
        (0x5A ∷ 0x05 ∷ 0x05 ∷ []) ≡ Err (DataFault.DataEnds 0 1) }
    ensures factor_of_ones { sample_raws (descriptor 1 1 0 ∷ descriptor 0 31 1
        ∷ descriptor 0 12 101 ∷ []) true 2 (0x00 ∷ 0x07 ∷ []) ≡ Err (DataFault.DataEnds 0 2) }
    ensures factor_passes { sample_raws (descriptor 1 1 0 ∷ descriptor 0 31 1
        ∷ descriptor 0 12 101 ∷ []) true 2 (0xFE ∷ 0x08 ∷ 0x80 ∷ [])
        ≡ Err (DataFault.IncrementRange 2 1) }
{}

/// Faults at one field in order: too many items or values, no spec, the end of the data.
#[tactic(auto, unfolding(crate::proofs::OnLiterals::columns_on_literals))]
pub fn first_at_one_field()
    ensures values { columns_at 65535 1025
        (sample_course (descriptor 2 1 255 ∷ descriptor 0 12 101 ∷ []) 0) []
        ≡ Err DataFault.TooLarge }
    ensures spec { columns_at 65535 1024
        (sample_course (descriptor 2 1 255 ∷ descriptor 0 12 101 ∷ []) 0) []
        ≡ Err (DataFault.EffectiveRange (descriptor 0 12 101)) }
    ensures items { fields_at 1 1 (sample_course (descriptor 2 1 255 ∷ descriptor 0 12 101 ∷ [])
        16777215) [] ≡ Err DataFault.TooLarge }
    ensures spec_of_last_item { fields_at 1 1
        (sample_course (descriptor 2 1 255 ∷ descriptor 0 12 101 ∷ []) 16777214) []
        ≡ Err (DataFault.EffectiveRange (descriptor 0 12 101)) }
    ensures items_before_end { fields_at 1 1 (sample_course (descriptor 0 12 101 ∷ []) 16777216) []
        ≡ Err DataFault.TooLarge }
    ensures end_of_last_item { fields_at 1 1 (sample_course (descriptor 0 12 101 ∷ []) 16777215) []
        ≡ Err (DataFault.DataEnds 1 1) }
    ensures items_of_two { map (λ used. result_map (λ found. length found.subsets)
        (subsets_at (sample_course (descriptor 0 12 101 ∷ [])) 1 2 used
        (bits (0x6A ∷ 0xB3 ∷ 0x6A ∷ 0xB4 ∷ [])))) (16777214 ∷ 16777215 ∷ [])
        ≡ Ok 2 ∷ Err DataFault.TooLarge ∷ [] }
    ensures written_items_of_two { map (λ used. items_of_all
        (sample_course (descriptor 0 2 1 ∷ [])) 1 used
        (replicate 2 (record {
          fields = field_as (descriptor 0 2 1) Kind.Code 2 (Raw.Number 1)
              ∷ [];
        }))) (16777214 ∷ 16777215 ∷ []) ≡ Ok 16777216 ∷ Err MisfitFault.TooLarge ∷ [] }
    ensures written_items { items_of 1 1 (sample_course (descriptor 0 12 101 ∷ []) 16777216) []
        ≡ Err MisfitFault.TooLarge }
    ensures written_end { items_of 1 1 (sample_course (descriptor 0 12 101 ∷ []) 16777215) []
        ≡ Err (MisfitFault.DoesNotFit 1 1) }
    ensures written_spec { items_of 1 1
        (sample_course (descriptor 2 1 255 ∷ descriptor 0 12 101 ∷ []) 16777214) []
        ≡ Err (MisfitFault.DoesNotFit 1 1) }
{}
