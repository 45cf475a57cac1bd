ghost use Rattle.std.specs.Prelude.{◌≡◌, ◌∷◌, [], Some, None, true, false, pos, negsuc, codes, map};
ghost use Rattle.std.specs.Prelude.{is_some};
ghost use Rattle.bufr_tables.specs.declared.element.Kind.TheVariants as kinds;
ghost use Rattle.bufr_tables.specs.Descriptors.{descriptor, f_of, x_of, y_of, six_digits, of_text};
ghost use Rattle.bufr_tables.specs.Elements.{same_element};

mod files;

/// The bits of F, X and Y, and six digits.
#[tactic(auto, unfolding(crate::specs::Descriptors::of_text))]
pub fn parts_of_descriptors()
    ensures whole { descriptor 3 10 255 ≡ 0xCAFF }
    ensures f { f_of 0xCAFF ≡ 3 }
    ensures x { x_of 0xCAFF ≡ 10 }
    ensures y { y_of 0xCAFF ≡ 255 }
    ensures greatest_f { f_of 0xFFFF ≡ 3 }
    ensures greatest_x { x_of 0xFFFF ≡ 63 }
    ensures least_y { y_of 0xFF00 ≡ 0 }
    ensures digits { six_digits 0xCAFF ≡ codes "310255" }
    ensures temperature { of_text (codes "012101") ≡ Some 0x0C65 }
    ensures digits_of_temperature { six_digits 0x0C65 ≡ codes "012101" }
    ensures greatest { of_text (codes "363255") ≡ Some 0xFFFF }
    ensures f_above { of_text (codes "400000") ≡ None }
    ensures x_above { of_text (codes "364000") ≡ None }
    ensures y_above { of_text (codes "300256") ≡ None }
    ensures no_digit { of_text (codes "01210A") ≡ None }
    ensures short { of_text (codes "12101") ≡ None }
    ensures long { of_text (codes "0121010") ≡ None }
    ensures below_a_digit { map (λ text. is_some (of_text text))
        (codes "/00000" ∷ codes "0/0000" ∷ codes "00/000" ∷ codes "000/00" ∷ codes "0000/0"
        ∷ codes "00000/" ∷ []) ≡ false ∷ false ∷ false ∷ false ∷ false ∷ false ∷ [] }
    ensures above_a_digit { map (λ text. is_some (of_text text))
        (codes ":00000" ∷ codes "0:0000" ∷ codes "00:000" ∷ codes "000:00" ∷ codes "0000:0"
        ∷ codes "00000:" ∷ []) ≡ false ∷ false ∷ false ∷ false ∷ false ∷ false ∷ [] }
    ensures each_digit { map of_text (codes "123145" ∷ codes "267089" ∷ codes "054236" ∷ [])
        ≡ Some 0x5791 ∷ None ∷ Some 0x36EC ∷ [] }
    ensures written { map six_digits (0x5791 ∷ 0x36EC ∷ [])
        ≡ codes "123145" ∷ codes "054236" ∷ [] }
{}

/// Two rows are equal if kind, scale, reference value and width are.
pub fn equal_elements()
    ensures same { same_element
        (record { kind = kinds.Code; scale = pos 1; reference = negsuc 2; width = 3 })
        (record { kind = kinds.Code; scale = pos 1; reference = negsuc 2; width = 3 })
        ≡ true }
    ensures kind { same_element
        (record { kind = kinds.Code; scale = pos 1; reference = negsuc 2; width = 3 })
        (record { kind = kinds.Flag; scale = pos 1; reference = negsuc 2; width = 3 })
        ≡ false }
    ensures scale { same_element
        (record { kind = kinds.Code; scale = pos 1; reference = negsuc 2; width = 3 })
        (record { kind = kinds.Code; scale = negsuc 1; reference = negsuc 2; width = 3 })
        ≡ false }
    ensures reference { same_element
        (record { kind = kinds.Code; scale = pos 1; reference = negsuc 2; width = 3 })
        (record { kind = kinds.Code; scale = pos 1; reference = negsuc 1; width = 3 })
        ≡ false }
    ensures width { same_element
        (record { kind = kinds.Code; scale = pos 1; reference = negsuc 2; width = 3 })
        (record { kind = kinds.Code; scale = pos 1; reference = negsuc 2; width = 4 })
        ≡ false }
{}
