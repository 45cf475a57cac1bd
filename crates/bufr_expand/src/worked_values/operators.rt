//! Operators on each kind of row, alone and together.

ghost use Rattle.std.specs.Prelude.{◌∷◌, [], None, pos, negsuc};
ghost use Rattle.bufr_tables.specs.declared.element.Kind.TheVariants.{Code, Flag, Quantity};
ghost use Rattle.bufr_tables.specs.Descriptors.{descriptor};
ghost use Rattle.bufr_expand.specs.OperatorsInForce.{effective};
ghost use Rattle.bufr_expand.specs.Samples.{row, number_row, operator, in_force, quantity, text};
ghost use Rattle.bufr_expand.specs.Samples.{call_sign_row};
ghost use Rattle.bufr_expand.specs.WorkedTables.{Becomes, temperature, rows_of};
ghost use Rattle.bufr_expand.specs.WorkedTables.{latitude_and_call_sign, both, wider, finer};
ghost use Rattle.bufr_expand.specs.WorkedTables.{increased, shorter, under_each, as_row};

/// Operators together, in any order, on a latitude and a call sign.
pub fn operators_in_any_order()
    ensures alone { Becomes latitude_and_call_sign
        (([], both 2 8999 15 72) ∷ (wider ∷ [], both 2 8999 17 72)
        ∷ (finer ∷ [], both 5 8999 15 72) ∷ (increased ∷ [], both 3 89999 19 72)
        ∷ (shorter ∷ [], both 2 8999 15 32) ∷ []) }
    ensures pairs { Becomes latitude_and_call_sign
        ((wider ∷ finer ∷ [], both 5 8999 17 72) ∷ (finer ∷ wider ∷ [], both 5 8999 17 72)
        ∷ (wider ∷ increased ∷ [], both 3 89999 21 72)
        ∷ (increased ∷ wider ∷ [], both 3 89999 21 72)
        ∷ (wider ∷ shorter ∷ [], both 2 8999 17 32) ∷ (shorter ∷ wider ∷ [], both 2 8999 17 32)
        ∷ (finer ∷ increased ∷ [], both 6 89999 19 72)
        ∷ (increased ∷ finer ∷ [], both 6 89999 19 72)
        ∷ (finer ∷ shorter ∷ [], both 5 8999 15 32) ∷ (shorter ∷ finer ∷ [], both 5 8999 15 32)
        ∷ (increased ∷ shorter ∷ [], both 3 89999 19 32)
        ∷ (shorter ∷ increased ∷ [], both 3 89999 19 32) ∷ []) }
    ensures all { Becomes latitude_and_call_sign
        ((wider ∷ finer ∷ increased ∷ shorter ∷ [], both 6 89999 21 32)
        ∷ (shorter ∷ increased ∷ finer ∷ wider ∷ [], both 6 89999 21 32)
        ∷ (wider ∷ finer ∷ increased ∷ shorter ∷ operator 1 0 ∷ [], both 6 89999 19 32)
        ∷ (wider ∷ finer ∷ increased ∷ shorter ∷ operator 2 0 ∷ [], both 3 89999 21 32)
        ∷ (wider ∷ finer ∷ increased ∷ shorter ∷ operator 7 0 ∷ [], both 5 8999 17 32)
        ∷ (wider ∷ finer ∷ increased ∷ shorter ∷ operator 8 0 ∷ [], both 6 89999 21 72) ∷ []) }
    ensures only_201_left { Becomes latitude_and_call_sign (rows_of
        ((wider ∷ finer ∷ operator 2 0 ∷ []) ∷ (finer ∷ wider ∷ operator 2 0 ∷ [])
        ∷ (wider ∷ increased ∷ operator 7 0 ∷ []) ∷ (increased ∷ wider ∷ operator 7 0 ∷ [])
        ∷ (wider ∷ shorter ∷ operator 8 0 ∷ []) ∷ (shorter ∷ wider ∷ operator 8 0 ∷ []) ∷ [])
        (both 2 8999 17 72)) }
    ensures only_202_left { Becomes latitude_and_call_sign (rows_of
        ((finer ∷ wider ∷ operator 1 0 ∷ []) ∷ (wider ∷ finer ∷ operator 1 0 ∷ [])
        ∷ (finer ∷ increased ∷ operator 7 0 ∷ []) ∷ (increased ∷ finer ∷ operator 7 0 ∷ [])
        ∷ (finer ∷ shorter ∷ operator 8 0 ∷ []) ∷ (shorter ∷ finer ∷ operator 8 0 ∷ []) ∷ [])
        (both 5 8999 15 72)) }
    ensures only_207_left { Becomes latitude_and_call_sign (rows_of
        ((increased ∷ wider ∷ operator 1 0 ∷ []) ∷ (wider ∷ increased ∷ operator 1 0 ∷ [])
        ∷ (increased ∷ finer ∷ operator 2 0 ∷ []) ∷ (finer ∷ increased ∷ operator 2 0 ∷ [])
        ∷ (increased ∷ shorter ∷ operator 8 0 ∷ []) ∷ (shorter ∷ increased ∷ operator 8 0 ∷ [])
        ∷ [])
        (both 3 89999 19 72)) }
    ensures only_208_left { Becomes latitude_and_call_sign (rows_of
        ((shorter ∷ wider ∷ operator 1 0 ∷ []) ∷ (wider ∷ shorter ∷ operator 1 0 ∷ [])
        ∷ (shorter ∷ finer ∷ operator 2 0 ∷ []) ∷ (finer ∷ shorter ∷ operator 2 0 ∷ [])
        ∷ (shorter ∷ increased ∷ operator 7 0 ∷ []) ∷ (increased ∷ shorter ∷ operator 7 0 ∷ [])
        ∷ [])
        (both 2 8999 15 32)) }
    ensures replaced { Becomes latitude_and_call_sign
        ((operator 1 140 ∷ wider ∷ [], both 2 8999 17 72)
        ∷ (operator 2 140 ∷ finer ∷ [], both 5 8999 15 72)
        ∷ (operator 7 3 ∷ increased ∷ [], both 3 89999 19 72)
        ∷ (operator 8 9 ∷ shorter ∷ [], both 2 8999 15 32) ∷ []) }
    ensures cancelled { Becomes latitude_and_call_sign (rows_of
        ((wider ∷ operator 1 0 ∷ []) ∷ (finer ∷ operator 2 0 ∷ [])
        ∷ (increased ∷ operator 7 0 ∷ []) ∷ (shorter ∷ operator 8 0 ∷ []) ∷ (operator 1 0 ∷ [])
        ∷ (operator 2 0 ∷ []) ∷ (operator 7 0 ∷ []) ∷ (operator 8 0 ∷ []) ∷ [])
        (both 2 8999 15 72)) }
{}

/// 208 acts on texts of each class, the others on quantities of each class but 31, and none on code
/// and flag tables.
pub fn operators_on_each_kind()
    ensures texts { Becomes (λ x. under_each (descriptor 0 x 5) call_sign_row)
        (rows_of (1 ∷ 30 ∷ 31 ∷ 32 ∷ 63 ∷ []) (text 72 ∷ text 72 ∷ text 72 ∷ text 32 ∷ [])) }
    ensures codes { Becomes (λ x. under_each (descriptor 0 x 5) (row Code (pos 3) (negsuc 4) 6))
        (rows_of (2 ∷ 31 ∷ 63 ∷ []) (as_row Code ∷ as_row Code ∷ as_row Code ∷ as_row Code ∷ [])) }
    ensures flags { Becomes (λ x. under_each (descriptor 0 x 5) (row Flag (pos 3) (negsuc 4) 6))
        (rows_of (2 ∷ 31 ∷ 63 ∷ []) (as_row Flag ∷ as_row Flag ∷ as_row Flag ∷ as_row Flag ∷ [])) }
    ensures class_31 { Becomes
        (λ y. under_each (descriptor 0 31 y) (row Quantity (pos 3) (negsuc 4) 6))
        (rows_of (0 ∷ 1 ∷ 2 ∷ 11 ∷ 255 ∷ [])
        (as_row Quantity ∷ as_row Quantity ∷ as_row Quantity ∷ as_row Quantity ∷ [])) }
    ensures other_classes { Becomes
        (λ x. under_each (descriptor 0 x 1) (row Quantity (pos 3) (negsuc 4) 6))
        (rows_of (0 ∷ 1 ∷ 15 ∷ 29 ∷ 30 ∷ 32 ∷ 33 ∷ 47 ∷ 62 ∷ 63 ∷ [])
        (quantity (pos 3) (negsuc 4) 8 ∷ quantity (pos 6) (negsuc 4) 6
        ∷ quantity (pos 4) (negsuc 49) 10 ∷ as_row Quantity ∷ [])) }
{}

/// 207 YYY widens by (10 * YYY + 2) / 3 bits.
pub fn widths_under_207()
    ensures of_one_bit { Becomes (λ y. effective temperature (number_row 1)
        (in_force (operator 7 y ∷ [])))
        ((1, quantity (pos 1) (pos 0) 5) ∷ (2, quantity (pos 2) (pos 0) 8)
        ∷ (3, quantity (pos 3) (pos 0) 11) ∷ (4, quantity (pos 4) (pos 0) 15)
        ∷ (5, quantity (pos 5) (pos 0) 18) ∷ (6, quantity (pos 6) (pos 0) 21)
        ∷ (7, quantity (pos 7) (pos 0) 25) ∷ (8, quantity (pos 8) (pos 0) 28)
        ∷ (9, quantity (pos 9) (pos 0) 31) ∷ (10, quantity (pos 10) (pos 0) 35)
        ∷ (11, quantity (pos 11) (pos 0) 38) ∷ (12, quantity (pos 12) (pos 0) 41)
        ∷ (13, quantity (pos 13) (pos 0) 45) ∷ (14, quantity (pos 14) (pos 0) 48)
        ∷ (15, quantity (pos 15) (pos 0) 51) ∷ (16, quantity (pos 16) (pos 0) 55)
        ∷ (17, quantity (pos 17) (pos 0) 58) ∷ (18, quantity (pos 18) (pos 0) 61)
        ∷ (19, None) ∷ (255, None) ∷ []) }
{}
