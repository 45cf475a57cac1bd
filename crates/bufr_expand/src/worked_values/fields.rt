//! The fields that a list asks for, and the items met.

ghost use Rattle.std.specs.Prelude.{◌≡◌, ◌∷◌, [], Ok, pos};
ghost use Rattle.bufr_tables.specs.declared.element.Kind.TheVariants.{Code, Count, Quantity, Text};
ghost use Rattle.bufr_tables.specs.Descriptors.{descriptor};
ghost use Rattle.bufr_expand.specs.Courses.{ends, stops};
ghost use Rattle.bufr_expand.specs.Samples.{sample, with_factor, row, number_row, operator};
ghost use Rattle.bufr_expand.specs.WorkedTables.{Becomes, temperature, block, call_sign, code};
ghost use Rattle.bufr_expand.specs.WorkedTables.{local, factor, rows_of, spec, walk, ending};
ghost use Rattle.bufr_expand.specs.WorkedTables.{without_specs, refused, full, count, kelvin};
ghost use Rattle.bufr_expand.specs.WorkedTables.{blocks, counting, chain, run};
ghost use Rattle.bufr_expand.specs.Runs.{joined_runs, turned_run, behind_item};

use crate::walk::WalkFault;

/// No operator changes the fields of 205 and 206.
#[tactic(auto, unfolding(bufr_tables::specs::Entries::at, crate::specs::Expansion::expand_list, crate::specs::Expansion::expand_within, crate::specs::Trees::tree_within, crate::specs::Courses::turns, crate::specs::Courses::course_then, crate::specs::WorkedTables::walked))]
pub fn fields_that_no_operator_changes()
    ensures by_206 { Becomes (λ operator. walk sample 0 0 (operator ∷ descriptor 2 6 16
        ∷ temperature ∷ descriptor 2 6 12 ∷ local ∷ descriptor 2 6 72 ∷ call_sign ∷ descriptor 2 6 2
        ∷ code ∷ []))
        (rows_of (operator 1 130 ∷ operator 2 129 ∷ operator 7 1 ∷ operator 8 10 ∷ [])
        (Ok (
          (temperature, spec Quantity (pos 2) (pos 0) 16)
              ∷ (local, spec Quantity (pos 0) (pos 0) 12)
              ∷ (call_sign, spec Text (pos 0) (pos 0) 72)
              ∷ (code, spec Code (pos 0) (pos 0) 2) ∷ [],
          ends 5,
        ))) }
    ensures by_205 { Becomes (λ operator. walk sample 0 0 (operator ∷ descriptor 2 5 4 ∷ []))
        (rows_of (operator 1 130 ∷ operator 2 129 ∷ operator 7 1 ∷ operator 8 10 ∷ [])
        (Ok ((descriptor 2 5 4, spec Text (pos 0) (pos 0) 32) ∷ [], ends 2))) }
    ensures behind_them { walk sample 0 0 (operator 1 130 ∷ operator 2 131 ∷ operator 7 1
        ∷ operator 8 10 ∷ descriptor 2 5 4 ∷ descriptor 2 6 16 ∷ temperature ∷ temperature
        ∷ call_sign
        ∷ [])
        ≡ Ok (
          (descriptor 2 5 4, spec Text (pos 0) (pos 0) 32)
              ∷ (temperature, spec Quantity (pos 2) (pos 0) 16)
              ∷ (temperature, spec Quantity (pos 6) (pos 0) 22)
              ∷ (call_sign, spec Text (pos 0) (pos 0) 80) ∷ [],
          ends 8,
        ) }
    ensures without_a_spec { Becomes (walk without_specs 0 0)
        ((descriptor 2 6 64 ∷ temperature ∷ [], refused 1 temperature)
        ∷ (descriptor 2 6 12 ∷ call_sign ∷ [], refused 1 call_sign)
        ∷ (descriptor 2 6 8 ∷ block ∷ [], refused 1 block)
        ∷ (temperature ∷ [], refused 1 temperature) ∷ (call_sign ∷ [], refused 1 call_sign)
        ∷ (block ∷ [], refused 1 block)
        ∷ (
          operator 1 126 ∷ temperature ∷ [],
          Ok ((temperature, spec Quantity (pos 2) (pos 0) 62) ∷ [], ends 2),
        ) ∷ []) }
{}

/// Each count sets the turns of its body; operators stay in force from turn to turn and after the
/// last; none changes a factor.
#[tactic(auto, unfolding(bufr_tables::specs::Entries::at, crate::specs::Expansion::expand_list, crate::specs::Expansion::expand_within, crate::specs::Trees::tree_within, crate::specs::Courses::turns, crate::specs::Courses::course_then, crate::specs::WorkedTables::walked, crate::specs::WorkedTables::chained))]
pub fn fields_of_replications()
    ensures operators_stay { Becomes (counting 0)
        ((
          (0, descriptor 1 2 2 ∷ temperature ∷ operator 1 130 ∷ temperature ∷ []),
          Ok (kelvin 2 16 ∷ kelvin 2 18 ∷ kelvin 2 18 ∷ [], ends 8),
        )
        ∷ (
          (2, descriptor 1 2 0 ∷ factor ∷ temperature ∷ operator 1 130 ∷ temperature ∷ []),
          Ok (count ∷ kelvin 2 16 ∷ kelvin 2 18 ∷ kelvin 2 18 ∷ [], ends 8),
        )
        ∷ (
          (1, descriptor 1 2 0 ∷ factor ∷ temperature ∷ operator 1 130 ∷ temperature ∷ []),
          Ok (count ∷ kelvin 2 16 ∷ kelvin 2 18 ∷ [], ends 5),
        )
        ∷ (
          (0, descriptor 1 2 0 ∷ factor ∷ temperature ∷ operator 1 130 ∷ temperature ∷ []),
          Ok (count ∷ kelvin 2 16 ∷ [], ends 2),
        )
        ∷ (
          (0, operator 1 130 ∷ descriptor 1 2 2 ∷ temperature ∷ operator 1 0 ∷ temperature ∷ []),
          Ok (kelvin 2 18 ∷ kelvin 2 16 ∷ kelvin 2 16 ∷ [], ends 9),
        )
        ∷ (
          (
            1,
            operator 1 130 ∷ operator 2 129 ∷ operator 7 1 ∷ operator 8 10 ∷ descriptor 1 1 0
                ∷ factor ∷ temperature ∷ [],
          ),
          Ok (count ∷ kelvin 4 22 ∷ [], ends 7),
        ) ∷ []) }
    ensures in_each_other { Becomes (counting 10)
        ((
          (0, descriptor 1 3 2 ∷ descriptor 1 1 2 ∷ block ∷ temperature ∷ []),
          Ok (blocks 7 ∷ blocks 7 ∷ kelvin 2 16 ∷ blocks 7 ∷ blocks 7 ∷ kelvin 2 16 ∷ [], ends 25),
        )
        ∷ (
          (2, descriptor 1 3 2 ∷ descriptor 1 1 0 ∷ factor ∷ block ∷ temperature ∷ []),
          Ok (
            count ∷ blocks 7 ∷ blocks 7 ∷ count ∷ blocks 7 ∷ blocks 7 ∷ kelvin 2 16 ∷ [],
            ends 24,
          ),
        )
        ∷ (
          (0, descriptor 1 3 2 ∷ descriptor 1 1 0 ∷ factor ∷ block ∷ temperature ∷ []),
          Ok (count ∷ count ∷ kelvin 2 16 ∷ [], ends 16),
        ) ∷ []) }
    ensures counts { Becomes (λ tables. walk tables 0 1
        (descriptor 1 1 0 ∷ descriptor 0 31 2 ∷ temperature ∷ []))
        ((
          with_factor (number_row 16),
          Ok ((descriptor 0 31 2, spec Count (pos 0) (pos 0) 16) ∷ kelvin 2 16 ∷ [], ends 3),
        )
        ∷ (
          with_factor (row Code (pos 0) (pos 0) 4),
          Ok ((descriptor 0 31 2, spec Count (pos 0) (pos 0) 4) ∷ kelvin 2 16 ∷ [], ends 3),
        )
        ∷ []) }
    ensures from_a_sequence { Becomes (walk (chain (operator 1 130 ∷ temperature ∷ [])) 0 0)
        ((descriptor 3 1 217 ∷ temperature ∷ [], Ok (kelvin 2 18 ∷ kelvin 2 18 ∷ [], ends 3))
        ∷ (
          descriptor 1 2 2 ∷ temperature ∷ descriptor 3 1 217 ∷ temperature ∷ [],
          Ok (kelvin 2 16 ∷ kelvin 2 18 ∷ kelvin 2 18 ∷ kelvin 2 18 ∷ kelvin 2 18 ∷ [], ends 10),
        )
        ∷ []) }
    ensures no_count { walk sample 0 5 (factor ∷ temperature ∷ [])
        ≡ Ok ((factor, spec Quantity (pos 0) (pos 0) 8) ∷ kelvin 2 16 ∷ [], ends 2) }
{}

/// Item 16,777,216 is met, and the next is too large: a node, a turn, or a field without a spec.
#[tactic(auto, unfolding(bufr_tables::specs::Entries::at, crate::specs::Expansion::expand_list, crate::specs::Expansion::expand_within, crate::specs::Trees::tree_within, crate::specs::Courses::turns, crate::specs::Courses::course_then, crate::specs::WorkedTables::walked))]
pub fn most_items()
    ensures of_fields { Becomes (ending sample 0 (temperature ∷ []))
        ((0, Ok (1, ends 1)) ∷ (16777215, Ok (1, ends 16777216)) ∷ (16777216, Ok (0, full)) ∷ []) }
    ensures of_operators { Becomes (ending sample 0 (operator 1 130 ∷ []))
        ((0, Ok (0, ends 1)) ∷ (16777215, Ok (0, ends 16777216)) ∷ (16777216, Ok (0, full)) ∷ []) }
    ensures of_texts { Becomes (ending sample 0 (descriptor 2 5 4 ∷ []))
        ((0, Ok (1, ends 1)) ∷ (16777215, Ok (1, ends 16777216)) ∷ (16777216, Ok (0, full)) ∷ []) }
    ensures of_no_node { Becomes (ending sample 0 [])
        ((0, Ok (0, ends 0)) ∷ (16777216, Ok (0, ends 16777216)) ∷ []) }
    ensures of_turns { Becomes (ending sample 0 (descriptor 1 1 2 ∷ temperature ∷ []))
        ((0, Ok (2, ends 5)) ∷ (16777211, Ok (2, ends 16777216)) ∷ (16777212, Ok (1, full))
        ∷ (16777213, Ok (1, full)) ∷ (16777214, Ok (0, full)) ∷ (16777215, Ok (0, full))
        ∷ (16777216, Ok (0, full)) ∷ []) }
    ensures of_turns_by_a_factor { Becomes
        (ending sample 2 (descriptor 1 1 0 ∷ factor ∷ temperature ∷ []))
        ((0, Ok (3, ends 5)) ∷ (16777211, Ok (3, ends 16777216)) ∷ (16777212, Ok (2, full))
        ∷ (16777213, Ok (2, full)) ∷ (16777214, Ok (1, full)) ∷ (16777215, Ok (1, full))
        ∷ (16777216, Ok (0, full)) ∷ []) }
    ensures of_no_turn { Becomes (ending sample 0 (descriptor 1 1 0 ∷ factor ∷ temperature ∷ []))
        ((0, Ok (1, ends 1)) ∷ (16777215, Ok (1, ends 16777216)) ∷ (16777216, Ok (0, full)) ∷ []) }
    ensures without_a_spec { Becomes (ending without_specs 0 (temperature ∷ []))
        ((0, Ok (0, stops 1 (WalkFault.EffectiveRange temperature)))
        ∷ (16777215, Ok (0, stops 16777216 (WalkFault.EffectiveRange temperature)))
        ∷ (16777216, Ok (0, full)) ∷ []) }
    ensures untouched_without_a_spec { Becomes
        (ending without_specs 0 (descriptor 2 6 64 ∷ temperature ∷ []))
        ((0, Ok (0, stops 1 (WalkFault.EffectiveRange temperature)))
        ∷ (16777215, Ok (0, stops 16777216 (WalkFault.EffectiveRange temperature)))
        ∷ (16777216, Ok (0, full)) ∷ []) }
{}

/// Two runs in a row, the turns of a body, and the node of their replication.
pub fn runs()
    ensures joined { joined_runs (run 2 4 23) (run 5 7 90) ≡ run 7 11 113 }
    ensures turned { turned_run 3 (run 2 4 23) ≡ run 6 15 69 }
    ensures turned_never { turned_run 0 (run 2 4 23) ≡ run 0 0 0 }
    ensures behind { behind_item (turned_run 3 (run 2 4 23)) ≡ run 6 16 69 }
{}
