//! Expansions of lists, and their first faults.

ghost use Rattle.std.specs.Prelude.{◌≡◌, ◌∷◌, ◌++◌, [], Ok, Err, pos, negsuc, map};
ghost use Rattle.bufr_tables.specs.declared.element.Kind.TheVariants.{Code, Flag, Quantity, Text};
ghost use Rattle.bufr_tables.specs.Descriptors.{descriptor};
ghost use Rattle.bufr_expand.specs.Expansion.{expansion};
ghost use Rattle.bufr_expand.specs.Samples.{sample, with_factor, row, number_row, temperature_row};
ghost use Rattle.bufr_expand.specs.Samples.{call_sign_row};
ghost use Rattle.bufr_expand.specs.WorkedTables.{Becomes, alone, left_out, unsupported};
ghost use Rattle.bufr_expand.specs.WorkedTables.{operator_alone, untouched_alone, temperature};
ghost use Rattle.bufr_expand.specs.WorkedTables.{block, call_sign, code, local, factor};
ghost use Rattle.bufr_expand.specs.WorkedTables.{temperature_node, block_node, by_factor};
ghost use Rattle.bufr_expand.specs.WorkedTables.{bad_replication, bad_factor, delayed};
ghost use Rattle.bufr_expand.specs.WorkedTables.{with_neighbours, nested, nested_nodes, chain};
ghost use Rattle.bufr_expand.specs.WorkedTables.{behind_206, behind_all_nodes, behind_nodes};

use crate::node::{Node, TemplateFault};

/// Sequences and replications.
#[tactic(auto, unfolding(bufr_tables::specs::Entries::at, crate::specs::Expansion::expand_list, crate::specs::Expansion::expand_within))]
pub fn expansions()
    ensures sequence { expansion sample (descriptor 3 1 1 ∷ descriptor 0 12 101 ∷ [])
        ≡ Ok (Node.Element (descriptor 0 1 1) (number_row 7)
        ∷ Node.Element (descriptor 0 1 2) (number_row 10)
        ∷ Node.Element (descriptor 0 12 101) temperature_row ∷ []) }
    ensures repeated { expansion sample
        (descriptor 1 1 3 ∷ descriptor 0 12 101 ∷ descriptor 0 1 1 ∷ [])
        ≡ Ok (Node.Repeated 3 1 ∷ Node.Element (descriptor 0 12 101) temperature_row
        ∷ Node.Element (descriptor 0 1 1) (number_row 7) ∷ []) }
    ensures delayed { expansion sample
        (descriptor 1 1 0 ∷ descriptor 0 31 1 ∷ descriptor 0 12 101 ∷ descriptor 0 1 1 ∷ [])
        ≡ Ok (Node.Delayed (descriptor 0 31 1) (number_row 8) 1
        ∷ Node.Element (descriptor 0 12 101) temperature_row
        ∷ Node.Element (descriptor 0 1 1) (number_row 7) ∷ []) }
{}

/// Each operator by its X, with any Y: nodes for those that stay in force, texts of Y characters
/// for 205, X3 for the rest.
#[tactic(auto, unfolding(bufr_tables::specs::Entries::at, crate::specs::Expansion::expand_list, crate::specs::Expansion::expand_within))]
pub fn every_operator()
    ensures left_out_with_0 { map (λ x. alone x 0) left_out ≡ map (λ x. unsupported x 0) left_out }
    ensures left_out_with_1 { map (λ x. alone x 1) left_out ≡ map (λ x. unsupported x 1) left_out }
    ensures left_out_with_255 { map (λ x. alone x 255) left_out
        ≡ map (λ x. unsupported x 255) left_out }
    ensures stay_in_force { Becomes (λ x. map (alone x) (0 ∷ 1 ∷ 255 ∷ []))
        ((1, operator_alone 1 0 ∷ operator_alone 1 1 ∷ operator_alone 1 255 ∷ [])
        ∷ (2, operator_alone 2 0 ∷ operator_alone 2 1 ∷ operator_alone 2 255 ∷ [])
        ∷ (7, operator_alone 7 0 ∷ operator_alone 7 1 ∷ operator_alone 7 255 ∷ [])
        ∷ (8, operator_alone 8 0 ∷ operator_alone 8 1 ∷ operator_alone 8 255 ∷ []) ∷ []) }
    ensures characters { Becomes (alone 5)
        ((0, Err (TemplateFault.BadOperand (descriptor 2 5 0)))
        ∷ (1, untouched_alone (descriptor 2 5 1) (row Text (pos 0) (pos 0) 8))
        ∷ (255, untouched_alone (descriptor 2 5 255) (row Text (pos 0) (pos 0) 2040)) ∷ []) }
{}

/// 206 YYY: the element's row counts if it has YYY bits, else a number of 1 to 63 bits; a bad
/// operand comes before a missing element.
#[tactic(auto, unfolding(bufr_tables::specs::Entries::at, crate::specs::Expansion::expand_list, crate::specs::Expansion::expand_within))]
pub fn data_widths()
    ensures at_the_end { Becomes (alone 6)
        ((0, Err (TemplateFault.BadOperand (descriptor 2 6 0)))
        ∷ (1, Err (TemplateFault.Dangling206 (descriptor 2 6 1)))
        ∷ (64, Err (TemplateFault.Dangling206 (descriptor 2 6 64))) ∷ []) }
    ensures before { Becomes behind_206
        (((0, temperature), Err (TemplateFault.BadOperand (descriptor 2 6 0)))
        ∷ ((15, temperature), untouched_alone temperature (number_row 15))
        ∷ ((16, temperature), untouched_alone temperature temperature_row)
        ∷ ((17, temperature), untouched_alone temperature (number_row 17))
        ∷ ((63, temperature), untouched_alone temperature (number_row 63))
        ∷ ((64, temperature), Err (TemplateFault.BadOperand (descriptor 2 6 64)))
        ∷ ((255, temperature), Err (TemplateFault.BadOperand (descriptor 2 6 255)))
        ∷ ((63, call_sign), untouched_alone call_sign (number_row 63))
        ∷ ((71, call_sign), Err (TemplateFault.BadOperand (descriptor 2 6 71)))
        ∷ ((72, call_sign), untouched_alone call_sign call_sign_row)
        ∷ ((73, call_sign), Err (TemplateFault.BadOperand (descriptor 2 6 73)))
        ∷ ((2, code), untouched_alone code (row Code (pos 0) (pos 0) 2))
        ∷ ((3, code), untouched_alone code (number_row 3))
        ∷ ((1, local), untouched_alone local (number_row 1))
        ∷ ((63, local), untouched_alone local (number_row 63))
        ∷ ((64, local), Err (TemplateFault.BadOperand (descriptor 2 6 64)))
        ∷ ((0, descriptor 3 1 1), Err (TemplateFault.BadOperand (descriptor 2 6 0)))
        ∷ ((8, descriptor 1 1 2), Err (TemplateFault.Dangling206 (descriptor 2 6 8)))
        ∷ ((8, descriptor 2 1 130), Err (TemplateFault.Dangling206 (descriptor 2 6 8)))
        ∷ ((8, descriptor 3 1 1), Err (TemplateFault.Dangling206 (descriptor 2 6 8)))
        ∷ ((64, descriptor 3 1 1), Err (TemplateFault.Dangling206 (descriptor 2 6 64))) ∷ []) }
    ensures one_element { expansion sample (descriptor 2 6 8 ∷ local ∷ temperature ∷ [])
        ≡ Ok (Node.Untouched local (number_row 8) ∷ temperature_node ∷ []) }
    ensures in_the_same_body { Becomes (expansion sample)
        ((
          descriptor 1 1 2 ∷ descriptor 2 6 8 ∷ [],
          Err (TemplateFault.Dangling206 (descriptor 2 6 8)),
        )
        ∷ (
          descriptor 1 1 2 ∷ descriptor 2 6 8 ∷ local ∷ [],
          Err (TemplateFault.Dangling206 (descriptor 2 6 8)),
        )
        ∷ (
          descriptor 1 2 2 ∷ descriptor 2 6 8 ∷ local ∷ [],
          Ok (Node.Repeated 2 1 ∷ Node.Untouched local (number_row 8) ∷ []),
        ) ∷ []) }
{}

/// Replications: the descriptors that belong to them, and their first faults.
#[tactic(auto, unfolding(bufr_tables::specs::Entries::at, crate::specs::Expansion::expand_list, crate::specs::Expansion::expand_within, crate::specs::WorkedTables::chained))]
pub fn replications()
    ensures fixed { Becomes (expansion sample)
        ((descriptor 1 1 1 ∷ temperature ∷ [], Ok (Node.Repeated 1 1 ∷ temperature_node ∷ []))
        ∷ (
          descriptor 1 1 255 ∷ temperature ∷ [],
          Ok (Node.Repeated 255 1 ∷ temperature_node ∷ []),
        )
        ∷ (
          descriptor 1 2 3 ∷ temperature ∷ block ∷ temperature ∷ [],
          Ok (Node.Repeated 3 2 ∷ temperature_node ∷ block_node ∷ temperature_node ∷ []),
        )
        ∷ (
          descriptor 1 1 2 ∷ descriptor 3 1 1 ∷ temperature ∷ [],
          Ok (Node.Repeated 2 2 ∷ block_node ∷ Node.Element (descriptor 0 1 2) (number_row 10)
              ∷ temperature_node ∷ []),
        )
        ∷ (descriptor 1 2 2 ∷ temperature ∷ [], bad_replication 2 2)
        ∷ (descriptor 1 1 2 ∷ [], bad_replication 1 2)
        ∷ (descriptor 1 0 2 ∷ temperature ∷ [], bad_replication 0 2)
        ∷ (
          descriptor 1 1 2 ∷ descriptor 1 2 2 ∷ temperature ∷ temperature ∷ [],
          bad_replication 2 2,
        ) ∷ []) }
    ensures by_a_factor { Becomes (expansion sample)
        ((
          descriptor 1 2 0 ∷ factor ∷ temperature ∷ block ∷ temperature ∷ [],
          Ok (Node.Delayed factor (number_row 8) 2 ∷ temperature_node ∷ block_node
              ∷ temperature_node ∷ []),
        )
        ∷ (
          descriptor 1 3 0 ∷ factor ∷ descriptor 1 1 0 ∷ factor ∷ temperature ∷ [],
          Ok (Node.Delayed factor (number_row 8) 2 ∷ Node.Delayed factor (number_row 8) 1
              ∷ temperature_node ∷ []),
        )
        ∷ (descriptor 1 2 0 ∷ factor ∷ temperature ∷ [], bad_replication 2 0)
        ∷ (descriptor 1 1 0 ∷ factor ∷ [], bad_replication 1 0)
        ∷ (descriptor 1 1 0 ∷ [], bad_replication 1 0)
        ∷ (descriptor 1 0 0 ∷ [], bad_replication 0 0)
        ∷ (descriptor 1 0 0 ∷ factor ∷ temperature ∷ [], bad_replication 0 0)
        ∷ (descriptor 1 0 0 ∷ temperature ∷ [], bad_replication 0 0)
        ∷ (descriptor 1 2 0 ∷ temperature ∷ [], bad_factor temperature)
        ∷ (descriptor 1 2 0 ∷ descriptor 0 31 2 ∷ [], bad_factor (descriptor 0 31 2)) ∷ []) }
    ensures in_their_own_list { Becomes (λ list. expansion (chain list)
        (descriptor 3 1 217 ∷ temperature ∷ temperature ∷ []))
        ((descriptor 1 1 2 ∷ [], bad_replication 1 2)
        ∷ (descriptor 1 2 2 ∷ temperature ∷ [], bad_replication 2 2)
        ∷ (descriptor 1 1 0 ∷ [], bad_replication 1 0)
        ∷ (descriptor 2 6 8 ∷ [], Err (TemplateFault.Dangling206 (descriptor 2 6 8)))
        ∷ ([], Ok (temperature_node ∷ temperature_node ∷ [])) ∷ []) }
{}

/// The factors are 031000, 031001 and 031002; their neighbours are none, whatever their rows.
#[tactic(auto, unfolding(bufr_tables::specs::Entries::at, crate::specs::Expansion::expand_list, crate::specs::Expansion::expand_within))]
pub fn factors()
    ensures which { Becomes (by_factor with_neighbours)
        ((descriptor 0 1 1, bad_factor (descriptor 0 1 1))
        ∷ (descriptor 0 12 101, bad_factor (descriptor 0 12 101))
        ∷ (descriptor 0 30 0, bad_factor (descriptor 0 30 0))
        ∷ (descriptor 0 30 1, bad_factor (descriptor 0 30 1))
        ∷ (descriptor 0 30 255, bad_factor (descriptor 0 30 255))
        ∷ (descriptor 0 31 0, delayed (descriptor 0 31 0) (number_row 1))
        ∷ (descriptor 0 31 1, delayed (descriptor 0 31 1) (number_row 8))
        ∷ (descriptor 0 31 2, delayed (descriptor 0 31 2) (number_row 16))
        ∷ (descriptor 0 31 3, bad_factor (descriptor 0 31 3))
        ∷ (descriptor 0 31 11, bad_factor (descriptor 0 31 11))
        ∷ (descriptor 0 31 12, bad_factor (descriptor 0 31 12))
        ∷ (descriptor 0 31 255, bad_factor (descriptor 0 31 255))
        ∷ (descriptor 0 32 0, bad_factor (descriptor 0 32 0))
        ∷ (descriptor 1 31 1, bad_factor (descriptor 1 31 1))
        ∷ (descriptor 2 31 1, bad_factor (descriptor 2 31 1))
        ∷ (descriptor 3 31 1, bad_factor (descriptor 3 31 1)) ∷ []) }
    ensures without_row { by_factor sample (descriptor 0 31 2) ≡ bad_factor (descriptor 0 31 2) }
    ensures before_too_few_left { expansion (with_factor (number_row 17))
        (descriptor 1 2 0 ∷ descriptor 0 31 2 ∷ temperature ∷ [])
        ≡ bad_factor (descriptor 0 31 2) }
    ensures rows { Becomes (λ factor. by_factor (with_factor factor) (descriptor 0 31 2))
        ((number_row 0, bad_factor (descriptor 0 31 2))
        ∷ (number_row 1, delayed (descriptor 0 31 2) (number_row 1))
        ∷ (number_row 16, delayed (descriptor 0 31 2) (number_row 16))
        ∷ (number_row 17, bad_factor (descriptor 0 31 2))
        ∷ (row Code (pos 0) (pos 0) 8, delayed (descriptor 0 31 2) (row Code (pos 0) (pos 0) 8))
        ∷ (row Flag (pos 0) (pos 0) 8, delayed (descriptor 0 31 2) (row Flag (pos 0) (pos 0) 8))
        ∷ (row Text (pos 0) (pos 0) 8, bad_factor (descriptor 0 31 2))
        ∷ (row Code (pos 0) (pos 0) 17, bad_factor (descriptor 0 31 2))
        ∷ (row Flag (pos 0) (pos 0) 0, bad_factor (descriptor 0 31 2))
        ∷ (row Quantity (pos 1) (pos 0) 8, bad_factor (descriptor 0 31 2))
        ∷ (row Quantity (negsuc 0) (pos 0) 8, bad_factor (descriptor 0 31 2))
        ∷ (row Code (pos 1) (pos 0) 8, bad_factor (descriptor 0 31 2))
        ∷ (row Quantity (pos 0) (pos 1) 8, bad_factor (descriptor 0 31 2))
        ∷ (row Quantity (pos 0) (negsuc 0) 8, bad_factor (descriptor 0 31 2))
        ∷ (row Flag (pos 0) (pos 1) 8, bad_factor (descriptor 0 31 2)) ∷ []) }
{}

/// The first of several faults, in depth-first order: at one descriptor X1 to X7, then X8, then X9.
#[tactic(auto, unfolding(bufr_tables::specs::Entries::at, crate::specs::Expansion::expand_list, crate::specs::Expansion::expand_within))]
pub fn first_faults()
    ensures in_order { Becomes (expansion sample)
        ((local ∷ descriptor 2 3 12 ∷ [], Err (TemplateFault.UnknownElement local))
        ∷ (descriptor 2 3 12 ∷ local ∷ [], unsupported 3 12)
        ∷ (
          temperature ∷ descriptor 3 1 99 ∷ local ∷ [],
          Err (TemplateFault.UnknownSequence (descriptor 3 1 99)),
        )
        ∷ (
          descriptor 1 1 2 ∷ local ∷ descriptor 2 3 12 ∷ [],
          Err (TemplateFault.UnknownElement local),
        )
        ∷ (descriptor 3 1 250 ∷ local ∷ [], Err TemplateFault.TooDeep)
        ∷ (descriptor 3 1 1 ∷ local ∷ [], Err (TemplateFault.UnknownElement local))
        ∷ (
          descriptor 1 1 2 ∷ temperature ∷ local ∷ [],
          Err (TemplateFault.UnknownElement local),
        ) ∷ []) }
    ensures at_one_descriptor { Becomes behind_all_nodes
        (((0, 0, local ∷ []), Err (TemplateFault.UnknownElement local))
        ∷ (
          (0, 0, descriptor 3 1 99 ∷ []),
          Err (TemplateFault.UnknownSequence (descriptor 3 1 99)),
        )
        ∷ ((0, 0, descriptor 2 3 12 ∷ []), unsupported 3 12)
        ∷ ((0, 0, descriptor 1 1 2 ∷ []), bad_replication 1 2)
        ∷ ((0, 0, descriptor 1 1 0 ∷ temperature ∷ temperature ∷ []), bad_factor temperature)
        ∷ ((0, 0, descriptor 2 5 0 ∷ []), Err (TemplateFault.BadOperand (descriptor 2 5 0)))
        ∷ ((0, 0, descriptor 2 6 8 ∷ []), Err (TemplateFault.Dangling206 (descriptor 2 6 8)))
        ∷ ((0, 1, descriptor 3 1 1 ∷ []), Err TemplateFault.TooDeep)
        ∷ ((1, 0, descriptor 1 1 2 ∷ temperature ∷ []), Err TemplateFault.TooDeep)
        ∷ ((1, 0, descriptor 3 1 1 ∷ []), Err TemplateFault.TooManyNodes)
        ∷ ((0, 1, descriptor 1 1 2 ∷ temperature ∷ []), Err TemplateFault.TooManyNodes)
        ∷ ((0, 0, temperature ∷ []), Err TemplateFault.TooManyNodes) ∷ []) }
{}

/// 16 levels of sequences and 16 of replications, nested in any way.
#[tactic(auto, unfolding(bufr_tables::specs::Entries::at, crate::specs::Expansion::expand_list, crate::specs::Expansion::expand_within, crate::specs::WorkedTables::nested, crate::specs::WorkedTables::nested_nodes, crate::specs::WorkedTables::chained))]
pub fn levels()
    ensures of_sequences { Becomes (expansion (chain (block ∷ [])))
        ((descriptor 3 1 202 ∷ [], Ok (block_node ∷ []))
        ∷ (descriptor 3 1 202 ∷ descriptor 3 1 202 ∷ [], Ok (block_node ∷ block_node ∷ []))
        ∷ (descriptor 3 1 201 ∷ [], Err TemplateFault.TooDeep)
        ∷ (temperature ∷ descriptor 3 1 201 ∷ [], Err TemplateFault.TooDeep) ∷ []) }
    ensures of_replications { Becomes (expansion sample)
        ((nested 16 (temperature ∷ []), Ok (nested_nodes 16 temperature_node))
        ∷ (
          nested 16 (temperature ∷ nested 16 (temperature ∷ [])),
          Ok (nested_nodes 16 temperature_node ++ nested_nodes 16 temperature_node),
        )
        ∷ (nested 17 (temperature ∷ []), Err TemplateFault.TooDeep) ∷ []) }
    ensures of_sequences_in_replications { Becomes (expansion (chain (block ∷ [])))
        ((nested 16 (descriptor 3 1 202 ∷ []), Ok (nested_nodes 16 block_node))
        ∷ (nested 16 (descriptor 3 1 201 ∷ []), Err TemplateFault.TooDeep)
        ∷ (nested 17 (descriptor 3 1 202 ∷ []), Err TemplateFault.TooDeep) ∷ []) }
    ensures of_replications_in_sequences { Becomes (λ n. expansion (chain (nested n (block ∷ [])))
        (descriptor 3 1 202 ∷ []))
        ((16, Ok (nested_nodes 16 block_node)) ∷ (17, Err TemplateFault.TooDeep) ∷ []) }
{}

/// Node 65,536 of any kind is allowed, and the next is refused.
#[tactic(auto, unfolding(bufr_tables::specs::Entries::at, crate::specs::Expansion::expand_list, crate::specs::Expansion::expand_within))]
pub fn most_nodes()
    ensures of_one { Becomes behind_nodes
        (((65535, temperature ∷ []), Ok (temperature_node ∷ []))
        ∷ ((65536, temperature ∷ []), Err TemplateFault.TooManyNodes)
        ∷ ((65535, descriptor 2 1 130 ∷ []), operator_alone 1 130)
        ∷ ((65536, descriptor 2 1 130 ∷ []), Err TemplateFault.TooManyNodes)
        ∷ (
          (65535, descriptor 2 5 1 ∷ []),
          untouched_alone (descriptor 2 5 1) (row Text (pos 0) (pos 0) 8),
        )
        ∷ ((65536, descriptor 2 5 1 ∷ []), Err TemplateFault.TooManyNodes)
        ∷ ((65535, descriptor 2 6 8 ∷ local ∷ []), untouched_alone local (number_row 8))
        ∷ ((65536, descriptor 2 6 8 ∷ local ∷ []), Err TemplateFault.TooManyNodes)
        ∷ ((65536, []), Ok []) ∷ []) }
    ensures of_several { Becomes behind_nodes
        ((
          (65534, descriptor 3 1 1 ∷ []),
          Ok (block_node ∷ Node.Element (descriptor 0 1 2) (number_row 10) ∷ []),
        )
        ∷ ((65535, descriptor 3 1 1 ∷ []), Err TemplateFault.TooManyNodes)
        ∷ (
          (65533, descriptor 3 1 1 ∷ temperature ∷ []),
          Ok (block_node ∷ Node.Element (descriptor 0 1 2) (number_row 10) ∷ temperature_node
              ∷ []),
        )
        ∷ ((65534, descriptor 3 1 1 ∷ temperature ∷ []), Err TemplateFault.TooManyNodes)
        ∷ (
          (65533, descriptor 1 1 9 ∷ temperature ∷ block ∷ []),
          Ok (Node.Repeated 9 1 ∷ temperature_node ∷ block_node ∷ []),
        )
        ∷ ((65534, descriptor 1 1 9 ∷ temperature ∷ block ∷ []), Err TemplateFault.TooManyNodes)
        ∷ ((65535, descriptor 1 1 9 ∷ temperature ∷ []), Err TemplateFault.TooManyNodes)
        ∷ (
          (65534, descriptor 1 1 0 ∷ factor ∷ temperature ∷ []),
          Ok (Node.Delayed factor (number_row 8) 1 ∷ temperature_node ∷ []),
        )
        ∷ (
          (65535, descriptor 1 1 0 ∷ factor ∷ temperature ∷ []),
          Err TemplateFault.TooManyNodes,
        ) ∷ []) }
{}
