ghost use Rattle.std.specs.Prelude.{◌≡◌, ◌∷◌, ◌-◌, ◌+◌, ◌^◌, [], pos, negsuc, codes, map, Some, None};
ghost use Rattle.std.specs.Prelude.{true, false, replicate};
ghost use Rattle.bufr_tables.specs.Descriptors.{descriptor};
ghost use Rattle.bufr_fields.specs.DecimalTexts.{decimal_of, units_by};
ghost use Rattle.bufr_fields.specs.Forms.{has_form_by, number_of, same_spec};
ghost use Rattle.bufr_fields.specs.Limits.{most_raw_bits, most_increment_bits, most_decimal_scale};
ghost use Rattle.bufr_fields.specs.Reasons.{read_reason, write_reason};
ghost use Rattle.bufr_fields.specs.Samples.{number_kinds, field_as};
ghost use Rattle.bufr_fields.specs.Values.{text_of, decimal_within, is_missing, value};

use crate::fault::{DataFault, MisfitFault};
use crate::field::Raw;
use bufr_tables::Kind;

/// The texts of values, and the scales that they can have.
#[tactic(auto, unfolding(crate::proofs::OnLiterals::decimals_on_literals))]
pub fn texts_of_values()
    ensures point { text_of (record { units = pos 27315; scale = pos 2 }) ≡ codes "273.15" }
    ensures small { text_of (record { units = negsuc 0; scale = pos 2 }) ≡ codes "-0.01" }
    ensures tens { text_of (record { units = pos 10132; scale = negsuc 0 }) ≡ codes "101320" }
    ensures zero { text_of (record { units = pos 0; scale = negsuc 0 }) ≡ codes "0" }
    ensures south { text_of (record { units = negsuc 17999; scale = pos 2 }) ≡ codes "-180.00" }
    ensures whole { text_of (record { units = pos 5; scale = pos 0 }) ≡ codes "5" }
    ensures below { text_of (record { units = negsuc 399; scale = pos 0 }) ≡ codes "-400" }
    ensures tenth { text_of (record { units = pos 7; scale = pos 1 }) ≡ codes "0.7" }
    ensures no_hundredth { text_of (record { units = pos 0; scale = pos 2 }) ≡ codes "0.00" }
    ensures thousands { text_of (record { units = negsuc 11; scale = negsuc 2 })
        ≡ codes "-12000" }
    ensures powers { map (λ n. text_of (record { units = pos n; scale = pos 2 }))
        (9 ∷ 10 ∷ 99 ∷ 100 ∷ 999 ∷ 1000 ∷ [])
        ≡ codes "0.09" ∷ codes "0.10" ∷ codes "0.99" ∷ codes "1.00" ∷ codes "9.99"
        ∷ codes "10.00" ∷ [] }
    ensures scales { map (λ s. decimal_within (pos 5) s)
        (pos 600 ∷ pos 601 ∷ negsuc 599 ∷ negsuc 600 ∷ [])
        ≡ Some (record { units = pos 5; scale = pos 600 }) ∷ None
        ∷ Some (record { units = pos 5; scale = negsuc 599 }) ∷ None ∷ [] }
{}

/// Raw values that fit: of code tables, flag tables, quantities and factors, in this order, and
/// texts.
pub fn forms_by_kind()
    ensures limits { most_raw_bits ∷ most_increment_bits ∷ most_decimal_scale ∷ []
        ≡ 64 ∷ 63 ∷ 600 ∷ [] }
    ensures number_forms { map (λ n. map (λ k. has_form_by k 2 (Raw.Number n)) number_kinds)
        (0 ∷ 3 ∷ 4 ∷ []) ≡ replicate 4 true ∷ replicate 4 true ∷ replicate 4 false ∷ [] }
    ensures number_widths { map (λ width. has_form_by Kind.Quantity width (Raw.Number 1))
        (0 ∷ 1 ∷ 64 ∷ 65 ∷ []) ≡ false ∷ true ∷ true ∷ false ∷ [] }
    ensures text_forms { map (λ octets. has_form_by Kind.Text 16 (Raw.Text octets))
        ((65 ∷ []) ∷ (65 ∷ 255 ∷ []) ∷ (65 ∷ 256 ∷ []) ∷ (65 ∷ 66 ∷ 67 ∷ []) ∷ [])
        ≡ false ∷ true ∷ false ∷ false ∷ [] }
    ensures text_widths { map (λ width. has_form_by Kind.Text width (Raw.Text (65 ∷ 66 ∷ [])))
        (15 ∷ 16 ∷ 23 ∷ 24 ∷ []) ≡ false ∷ true ∷ true ∷ false ∷ [] }
    ensures number_as_text { has_form_by Kind.Text 16 (Raw.Number 1) ≡ false }
    ensures text_as_number { map (λ k. has_form_by k 8 (Raw.Text (65 ∷ []))) number_kinds
        ≡ replicate 4 false }
    ensures numbers_of_raws { map number_of (Raw.Number 5 ∷ Raw.Text (65 ∷ []) ∷ [])
        ≡ 5 ∷ 0 ∷ [] }
    ensures specs { map (same_spec (record {
      kind = Kind.Quantity;
      scale = pos 2;
      reference = negsuc 8999;
      width = 15;
    }))
        (record { kind = Kind.Quantity; scale = pos 2; reference = negsuc 8999; width = 15 }
        ∷ record { kind = Kind.Code; scale = pos 2; reference = negsuc 8999; width = 15 }
        ∷ record { kind = Kind.Quantity; scale = negsuc 1; reference = negsuc 8999; width = 15 }
        ∷ record { kind = Kind.Quantity; scale = pos 2; reference = pos 9000; width = 15 }
        ∷ record { kind = Kind.Quantity; scale = pos 2; reference = negsuc 8999; width = 16 } ∷ [])
        ≡ true ∷ replicate 4 false }
{}

/// Missing values: all bits one, but never in one bit or in a factor; of texts all octets 255.
pub fn missing_by_kind()
    ensures one_bit { map (λ k. is_missing (field_as 0 k 1 (Raw.Number 1))) number_kinds
        ≡ false ∷ false ∷ false ∷ false ∷ [] }
    ensures zero_bit { map (λ k. is_missing (field_as 0 k 1 (Raw.Number 0))) number_kinds
        ≡ false ∷ false ∷ false ∷ false ∷ [] }
    ensures two_bits { map (λ k. is_missing (field_as 0 k 2 (Raw.Number 3))) number_kinds
        ≡ true ∷ true ∷ true ∷ false ∷ [] }
    ensures below_two_bits { map (λ k. is_missing (field_as 0 k 2 (Raw.Number 2))) number_kinds
        ≡ false ∷ false ∷ false ∷ false ∷ [] }
    ensures eight_bits { map (λ k. is_missing (field_as 0 k 8 (Raw.Number 255))) number_kinds
        ≡ true ∷ true ∷ true ∷ false ∷ [] }
    ensures below_eight_bits { map (λ k. is_missing (field_as 0 k 8 (Raw.Number 254))) number_kinds
        ≡ false ∷ false ∷ false ∷ false ∷ [] }
    ensures above_eight_bits { map (λ k. is_missing (field_as 0 k 8 (Raw.Number 256))) number_kinds
        ≡ false ∷ false ∷ false ∷ false ∷ [] }
    ensures most_bits { map (λ k. is_missing (field_as 0 k 63 (Raw.Number 9223372036854775807)))
        number_kinds ≡ true ∷ true ∷ true ∷ false ∷ [] }
    ensures text { is_missing (field_as 0 Kind.Text 16 (Raw.Text (255 ∷ 255 ∷ []))) ≡ true }
    ensures text_with_space { is_missing (field_as 0 Kind.Text 16 (Raw.Text (255 ∷ 32 ∷ [])))
        ≡ false }
    ensures blank_text { is_missing (field_as 0 Kind.Text 16 (Raw.Text (32 ∷ 32 ∷ []))) ≡ false }
    ensures zero_text { is_missing (field_as 0 Kind.Text 16 (Raw.Text (0 ∷ 0 ∷ []))) ≡ false }
    ensures short_text { is_missing (field_as 0 Kind.Text 16 (Raw.Text (255 ∷ []))) ≡ false }
    ensures number_of_text { is_missing (field_as 0 Kind.Text 8 (Raw.Number 255)) ≡ false }
    ensures text_of_number { map (λ k. is_missing (field_as 0 k 16 (Raw.Text (255 ∷ 255 ∷ []))))
        number_kinds ≡ false ∷ false ∷ false ∷ false ∷ [] }
{}

/// Values: none of a missing field or a text.
pub fn values_by_kind()
    ensures one_bit { map (λ k. value (field_as 0 k 1 (Raw.Number 1))) number_kinds
        ≡ replicate 4 (Some (record { units = pos 1; scale = pos 0 })) }
    ensures below { map (λ k. value (field_as 0 k 2 (Raw.Number 2))) number_kinds
        ≡ replicate 4 (Some (record { units = pos 2; scale = pos 0 })) }
    ensures ones { map (λ k. value (field_as 0 k 2 (Raw.Number 3))) number_kinds
        ≡ None ∷ None ∷ None ∷ Some (record { units = pos 3; scale = pos 0 }) ∷ [] }
    ensures text { value (field_as 0 Kind.Text 16 (Raw.Text (49 ∷ 50 ∷ []))) ≡ None }
    ensures below_zero { value (record {
      fxy = 1282;
      spec = record {
        kind = Kind.Quantity;
        scale = pos 2;
        reference = negsuc 8999;
        width = 15;
      };
      raw = Raw.Number 8999;
    })
        ≡ Some (record { units = negsuc 0; scale = pos 2 }) }
    ensures above_zero { value (record {
      fxy = 1282;
      spec = record {
        kind = Kind.Quantity;
        scale = negsuc 0;
        reference = pos 100;
        width = 15;
      };
      raw = Raw.Number 7;
    })
        ≡ Some (record { units = pos 107; scale = negsuc 0 }) }
    ensures number_of_text { value (field_as 0 Kind.Text 8 (Raw.Number 5)) ≡ None }
    ensures text_of_number { map (λ k. value (field_as 0 k 8 (Raw.Text (49 ∷ [])))) number_kinds
        ≡ replicate 4 None }
{}

/// The printed refusals.
#[tactic(auto, unfolding(crate::proofs::OnLiterals::decimals_on_literals, crate::specs::Reasons::read_reason, crate::specs::Reasons::write_reason))]
pub fn reasons()
    ensures v1 { read_reason (DataFault.EffectiveRange (descriptor 0 12 101))
        ≡ codes "V1 EffectiveRange 012101" }
    ensures v2 { read_reason (DataFault.DataEnds 0 65) ≡ codes "V2 DataEnds 0 65" }
    ensures v3 { read_reason (DataFault.UnequalCounts 12) ≡ codes "V3 UnequalCounts 12" }
    ensures v4 { read_reason (DataFault.IncrementRange 2 17) ≡ codes "V4 IncrementRange 2 17" }
    ensures v5 { read_reason (DataFault.CharIncrement 3) ≡ codes "V5 CharIncrement 3" }
    ensures v6 { read_reason DataFault.TooLarge ≡ codes "V6 TooLarge" }
    ensures e1 { write_reason (MisfitFault.DoesNotFit 2 31) ≡ codes "E1 DoesNotFit 2 31" }
    ensures e2 { write_reason (MisfitFault.NotCompressible 2) ≡ codes "E2 NotCompressible 2" }
    ensures e3 { write_reason MisfitFault.TooLarge ≡ codes "E3 TooLarge" }
{}

/// Decimals of texts, one spelling each.
#[tactic(auto, unfolding(crate::proofs::OnLiterals::decimals_on_literals))]
pub fn decimals_of_texts()
    ensures hundredths { map (λ t. decimal_of (pos 2) t) (codes "273.15" ∷ codes "-0.01"
        ∷ codes "0.00" ∷ codes "-180.00" ∷ [])
        ≡ Some (record { units = pos 27315; scale = pos 2 })
        ∷ Some (record { units = negsuc 0; scale = pos 2 })
        ∷ Some (record { units = pos 0; scale = pos 2 })
        ∷ Some (record { units = negsuc 17999; scale = pos 2 }) ∷ [] }
    ensures no_hundredths { map (λ t. decimal_of (pos 2) t) (codes "273.1" ∷ codes "273.150"
        ∷ codes "0273.15" ∷ codes ".15" ∷ codes "273" ∷ codes "-0.00" ∷ codes "+1.00"
        ∷ codes "1,00" ∷ codes " 1.00" ∷ codes "1.00 " ∷ codes "-" ∷ [] ∷ [])
        ≡ replicate 12 None }
    ensures whole { map (λ t. decimal_of (pos 0) t) (codes "5" ∷ codes "0" ∷ codes "-400" ∷ [])
        ≡ Some (record { units = pos 5; scale = pos 0 })
        ∷ Some (record { units = pos 0; scale = pos 0 })
        ∷ Some (record { units = negsuc 399; scale = pos 0 }) ∷ [] }
    ensures not_whole { map (λ t. decimal_of (pos 0) t) (codes "05" ∷ codes "-0" ∷ codes "+5"
        ∷ codes "5." ∷ codes "--5" ∷ []) ≡ replicate 5 None }
    ensures tens { map (λ t. decimal_of (negsuc 0) t)
        (codes "101320" ∷ codes "0" ∷ codes "-10" ∷ [])
        ≡ Some (record { units = pos 10132; scale = negsuc 0 })
        ∷ Some (record { units = pos 0; scale = negsuc 0 })
        ∷ Some (record { units = negsuc 0; scale = negsuc 0 }) ∷ [] }
    ensures no_tens { map (λ t. decimal_of (negsuc 0) t) (codes "101325" ∷ codes "00" ∷ codes "5"
        ∷ codes "-0" ∷ []) ≡ replicate 4 None }
    ensures positive { map (λ n. units_by false n) (0 ∷ 5 ∷ (2 ^ 127 - 1) ∷ 2 ^ 127 ∷ [])
        ≡ Some (pos 0) ∷ Some (pos 5) ∷ Some (pos (2 ^ 127 - 1)) ∷ None ∷ [] }
    ensures negative { map (λ n. units_by true n) (0 ∷ 1 ∷ 2 ^ 127 ∷ (2 ^ 127 + 1) ∷ [])
        ≡ None ∷ Some (negsuc 0) ∷ Some (negsuc (2 ^ 127 - 1)) ∷ None ∷ [] }
    ensures scales_read { map (λ s. decimal_of s (codes "0")) (negsuc 599 ∷ negsuc 600 ∷ [])
        ≡ Some (record { units = pos 0; scale = negsuc 599 }) ∷ None ∷ [] }
{}
