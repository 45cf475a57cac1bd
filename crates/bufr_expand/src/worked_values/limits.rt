//! Rows at each side of the limits.

ghost use Rattle.std.specs.Prelude.{◌≡◌, ◌∷◌, [], None, pos, negsuc, ◌^◌, map};
ghost use Rattle.bufr_tables.specs.declared.element.Kind.TheVariants.{Code, Flag, Quantity, Text};
ghost use Rattle.bufr_tables.specs.Descriptors.{descriptor};
ghost use Rattle.bufr_expand.specs.Limits as limits;
ghost use Rattle.bufr_expand.specs.OperatorsInForce.{effective, untouched};
ghost use Rattle.bufr_expand.specs.Samples.{row, number_row, operator, in_force, quantity, text};
ghost use Rattle.bufr_expand.specs.WorkedTables.{Becomes, temperature, call_sign, factor};
ghost use Rattle.bufr_expand.specs.WorkedTables.{under_none, at_limits, beyond_limits, some_spec};
ghost use Rattle.bufr_expand.specs.WorkedTables.{no_spec, increased_reference};

/// The scale has its limit in the row alone, the reference value and the width after all operators.
pub fn limits_under_operators()
    ensures scale_of_the_row { Becomes (λ scale. effective temperature
        (row Quantity scale (pos 0) 1)
        (in_force (operator 2 255 ∷ operator 7 56 ∷ operator 1 1 ∷ [])))
        ((pos 127, quantity (pos 310) (pos 0) 61) ∷ (pos 128, None)
        ∷ (negsuc 126, quantity (pos 56) (pos 0) 61) ∷ (negsuc 127, None) ∷ []) }
    ensures scale_lowered { Becomes (λ scale. effective temperature
        (row Quantity scale (pos 0) 1) (in_force (operator 2 1 ∷ [])))
        ((pos 127, quantity (pos 0) (pos 0) 1) ∷ (pos 128, None)
        ∷ (negsuc 126, quantity (negsuc 253) (pos 0) 1) ∷ (negsuc 127, None) ∷ []) }
    ensures reference_multiplied { Becomes (λ reference. effective temperature
        (row Quantity (pos 0) reference 8) (in_force (operator 7 1 ∷ [])))
        ((pos 461168601842738790, quantity (pos 1) (pos 4611686018427387900) 12)
        ∷ (pos 461168601842738791, None)
        ∷ (negsuc 461168601842738789, quantity (pos 1) (negsuc 4611686018427387899) 12)
        ∷ (negsuc 461168601842738790, None) ∷ []) }
    ensures reference_of_18_zeros { Becomes increased_reference
        (((18, pos 4), quantity (pos 18) (pos 4000000000000000000) 53)
        ∷ ((18, pos 5), None)
        ∷ ((18, negsuc 3), quantity (pos 18) (negsuc 3999999999999999999) 53)
        ∷ ((18, negsuc 4), None)
        ∷ ((19, pos 1), None) ∷ ((19, negsuc 0), None)
        ∷ ((19, pos 0), quantity (pos 19) (pos 0) 57)
        ∷ ((20, pos 0), quantity (pos 20) (pos 0) 60) ∷ []) }
    ensures width_of_the_sum { Becomes (λ operators. effective temperature (number_row 8)
        (in_force operators))
        ((operator 1 1 ∷ operator 7 40 ∷ [], quantity (pos 40) (pos 0) 15)
        ∷ (operator 1 183 ∷ [], quantity (pos 0) (pos 0) 63) ∷ (operator 1 184 ∷ [], None)
        ∷ (operator 1 255 ∷ [], None) ∷ (operator 1 121 ∷ [], quantity (pos 0) (pos 0) 1)
        ∷ (operator 1 120 ∷ [], None) ∷ (operator 1 1 ∷ [], None)
        ∷ (operator 2 1 ∷ [], quantity (negsuc 126) (pos 0) 8)
        ∷ (operator 2 255 ∷ [], quantity (pos 127) (pos 0) 8) ∷ []) }
    ensures wide_rows { Becomes (λ width. effective temperature (number_row width)
        (in_force (operator 1 1 ∷ [])))
        ((127, None) ∷ (128, quantity (pos 0) (pos 0) 1) ∷ (190, quantity (pos 0) (pos 0) 63)
        ∷ (191, None) ∷ []) }
{}

/// Rows of each kind of number at each limit and above it. Texts have whole octets, whatever their
/// scale and reference value.
pub fn limits_of_each_kind()
    ensures codes { map (under_none (descriptor 0 2 1)) (at_limits Code)
        ≡ map some_spec (at_limits Code) }
    ensures no_codes { map (under_none (descriptor 0 2 1)) (beyond_limits Code)
        ≡ map no_spec (beyond_limits Code) }
    ensures flags { map (under_none (descriptor 0 2 2)) (at_limits Flag)
        ≡ map some_spec (at_limits Flag) }
    ensures no_flags { map (under_none (descriptor 0 2 2)) (beyond_limits Flag)
        ≡ map no_spec (beyond_limits Flag) }
    ensures quantities { map (under_none temperature) (at_limits Quantity)
        ≡ map some_spec (at_limits Quantity) }
    ensures no_quantities { map (under_none temperature) (beyond_limits Quantity)
        ≡ map no_spec (beyond_limits Quantity) }
    ensures of_class_31 { map (under_none factor) (at_limits Quantity)
        ≡ map some_spec (at_limits Quantity) }
    ensures none_of_class_31 { map (under_none factor) (beyond_limits Quantity)
        ≡ map no_spec (beyond_limits Quantity) }
    ensures untouched { map untouched (at_limits Quantity) ≡ map some_spec (at_limits Quantity) }
    ensures none_untouched { map untouched (beyond_limits Quantity)
        ≡ map no_spec (beyond_limits Quantity) }
    ensures texts { Becomes (λ width. under_none call_sign (row Text (pos 200) (negsuc 4) width))
        ((0, None) ∷ (1, None) ∷ (4, None) ∷ (7, None) ∷ (8, text 8) ∷ (9, None) ∷ (12, None)
        ∷ (15, None) ∷ (16, text 16) ∷ (20, None) ∷ (24, text 24) ∷ (65520, text 65520)
        ∷ (65528, text 65528) ∷ (65536, None) ∷ []) }
    ensures texts_untouched { Becomes (λ width. untouched (row Text (pos 200) (negsuc 4) width))
        ((0, None) ∷ (7, None) ∷ (8, text 8) ∷ (12, None) ∷ (16, text 16) ∷ (65528, text 65528)
        ∷ (65536, None) ∷ []) }
    ensures text_limit { limits.most_text_bits ≡ 65528 }
    ensures number_limit { limits.most_number_bits ≡ 63 }
    ensures factor_limit { limits.most_factor_bits ≡ 16 }
    ensures scale_limit { limits.most_scale ≡ 127 }
    ensures reference_limit { limits.most_reference ≡ 2 ^ 62 }
{}
