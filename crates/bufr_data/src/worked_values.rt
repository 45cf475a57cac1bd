//! Worked values of the definitions.

ghost use Rattle.std.specs.Prelude.{◌≡◌, ◌∷◌, [], Ok, Err, codes, map, Some, None, true, false};
ghost use Rattle.std.specs.Prelude.{replicate, is_some};
ghost use Rattle.bufr_bits.specs.Bits.{bin, bits};
ghost use Rattle.bufr_tables.specs.Descriptors.{descriptor};
ghost use Rattle.bufr_data.specs.Plain.{fields_at, raw_at};
ghost use Rattle.bufr_data.specs.Samples.{sample_course, raws, sample_raws, sample_texts};
ghost use Rattle.bufr_fields.specs.Samples.{spec_of, number_kinds};

use crate::template_cache::MOST_KEPT;
use bufr_fields::{DataFault, Raw};
use bufr_tables::Kind;

/// Plain data: sequences, a count of one, operators, a local descriptor, and data that end.
#[tactic(auto, unfolding(crate::proofs::OnLiterals::columns_on_literals, crate::proofs::OnLiterals::decimals_on_literals))]
pub fn plain_data()
    ensures sequences { raws (fields_at 1 1
        (sample_course (descriptor 3 1 1 ∷ descriptor 3 1 11 ∷ descriptor 3 1 12
        ∷ descriptor 0 12 101 ∷ []) 0)
        (bits (0x14 ∷ 0xC0 ∷ 0x3F ∷ 0x40 ∷ 0x9E ∷ 0xC0 ∷ 0x1A ∷ 0xAC ∷ 0xC0 ∷ [])))
        ≡ Ok (Raw.Number 10 ∷ Raw.Number 384 ∷ Raw.Number 2024 ∷ Raw.Number 1 ∷ Raw.Number 15
        ∷ Raw.Number 12 ∷ Raw.Number 0 ∷ Raw.Number 27315 ∷ []) }
    ensures delayed { raws (fields_at 1 1
        (sample_course (descriptor 1 1 0 ∷ descriptor 0 31 1 ∷ descriptor 0 12 101 ∷ []) 0)
        (bits (0x01 ∷ 0x6A ∷ 0xB3 ∷ []))) ≡ Ok (Raw.Number 1 ∷ Raw.Number 27315 ∷ []) }
    ensures operators { raws (fields_at 1 1
        (sample_course (descriptor 2 1 130 ∷ descriptor 2 2 129 ∷ descriptor 0 12 101
        ∷ descriptor 2 1 0 ∷ descriptor 2 2 0 ∷ descriptor 0 12 101 ∷ []) 0)
        (bits (0xF4 ∷ 0x24 ∷ 0x1A ∷ 0xAC ∷ 0xC0 ∷ [])))
        ≡ Ok (Raw.Number 250000 ∷ Raw.Number 27315 ∷ []) }
    ensures local { raws (fields_at 1 1
        (sample_course (descriptor 2 6 12 ∷ descriptor 0 1 250 ∷ []) 0) (bits (0x00 ∷ 0x50 ∷ [])))
        ≡ Ok (Raw.Number 5 ∷ []) }
    ensures local_row { sample_texts (descriptor 2 1 130 ∷ descriptor 2 6 16 ∷ descriptor 0 12 101
        ∷ []) false 1 (0x6A ∷ 0xB3 ∷ []) ≡ Ok ((Some (codes "273.15") ∷ []) ∷ []) }
    ensures characters { sample_raws (descriptor 2 8 10 ∷ descriptor 2 5 4 ∷ []) false 1
        (65 ∷ 66 ∷ 67 ∷ 68 ∷ []) ≡ Ok ((Raw.Text (65 ∷ 66 ∷ 67 ∷ 68 ∷ []) ∷ []) ∷ []) }
    ensures characters_end { sample_raws (descriptor 2 8 10 ∷ descriptor 2 5 4 ∷ []) false 1
        (65 ∷ 66 ∷ 67 ∷ []) ≡ Err (DataFault.DataEnds 1 1) }
    ensures ends { fields_at 1 1 (sample_course
        (descriptor 3 1 1 ∷ descriptor 3 1 11 ∷ descriptor 3 1 12 ∷ descriptor 0 12 101 ∷ []) 0)
        (bits (0x14 ∷ 0xC0 ∷ 0x3F ∷ 0x40 ∷ 0x9E ∷ 0xC0 ∷ 0x1A ∷ 0xAC ∷ []))
        ≡ Err (DataFault.DataEnds 1 8) }
{}

/// Raw values that fit: of code tables, flag tables, quantities and factors, in this order, and
/// texts.
#[tactic(auto, unfolding(crate::proofs::OnLiterals::columns_on_literals))]
pub fn raw_values_by_kind()
    ensures numbers { map (λ k. raw_at (spec_of k 12) (bits (0x41 ∷ 0x42 ∷ []))) number_kinds
        ≡ replicate 4 (Some (Raw.Number 1044, bin 4 2)) }
    ensures texts { map (λ width. raw_at (spec_of Kind.Text width) (bits (0x41 ∷ 0x42 ∷ [])))
        (8 ∷ 15 ∷ 16 ∷ 24 ∷ [])
        ≡ Some (Raw.Text (65 ∷ []), bin 8 66) ∷ Some (Raw.Text (65 ∷ []), bin 8 66)
        ∷ Some (Raw.Text (65 ∷ 66 ∷ []), []) ∷ None ∷ [] }
    ensures most_bits { map (λ width. is_some (raw_at (spec_of Kind.Quantity width)
        (replicate 70 false))) (63 ∷ 64 ∷ 65 ∷ []) ≡ true ∷ true ∷ false ∷ [] }
{}

/// The most templates kept.
pub fn most_kept()
    ensures { MOST_KEPT ≡ 4 }
{}
