//! Expands descriptors into nodes, in depth-first order.

ghost use Rattle.std.specs.Prelude.{◌≡◌, ◌≤◌, ◌+◌, suc, length, IfOk};
ghost use Rattle.bufr_base.specs.Answers.{Gives};
ghost use Rattle.bufr_expand.specs.Expansion.{onto, expand_within, first_onto, found_at};
ghost use Rattle.bufr_expand.specs.Expansion.{single_nodes, replication_node};

use crate::limits::MOST_NODES;
use crate::node::{Node, Repetitions, TemplateFault};
use crate::part::{Part, found_at};
use bufr_base::Failure;
use bufr_tables::{Fxy, Tables};

/// Appends the nodes of a list, or returns its first fault. The counts are the levels still
/// allowed.
#[cycle(expand)]
pub(crate) fn expand(
    tables: &Tables,
    sequences: u8,
    replications: u8,
    list: &[Fxy],
    nodes: &mut Vec<Node>,
) -> Result<(), Failure<TemplateFault>>
    ensures { Gives (λ _. nodes.new.items) result
        (onto nodes.old.items (expand_within
        (suc (sequences + replications)) tables.now sequences replications
        (length nodes.old.items) list.now)) }
{
    let mut rest = list;
    while let Some((first, behind)) = rest.split_first() {
        let taken = add_first(tables, sequences, replications, *first, behind, nodes)?;
        rest = &behind[taken..];
    }
    Ok(())
}

/// Appends the nodes of the first part of a list, and returns the number of descriptors that it
/// takes after the first; a replication's node gets the size of its body.
#[cycle(expand)]
fn add_first(
    tables: &Tables,
    sequences: u8,
    replications: u8,
    first: Fxy,
    behind: &[Fxy],
    nodes: &mut Vec<Node>,
) -> Result<usize, Failure<TemplateFault>>
    ensures exact { Gives (λ taken. (nodes.new.items, taken)) result
        (first_onto (expand_within (sequences + replications) tables.now) sequences replications
        nodes.old.items (found_at tables.now first behind.now)) }
    ensures taken { IfOk result (λ taken. taken ≤ length behind.now) }
{
    let found = match found_at(tables, first, behind) {
        Ok(found) => found,
        Err(fault) => return Err(Failure::Fault(fault)),
    };
    match &found.part {
        Part::Single(node) => {
            add_node(node, nodes)?;
            Ok(found.taken)
        }
        Part::Inner(list) => {
            if sequences == 0 {
                return Err(Failure::Fault(TemplateFault::TooDeep));
            }
            expand(tables, sequences - 1, replications, list, nodes)?;
            Ok(found.taken)
        }
        Part::Replication(repetitions, body) => {
            if replications == 0 {
                return Err(Failure::Fault(TemplateFault::TooDeep));
            }
            let place = nodes.len();
            add_node(&replication_node(repetitions, 0), nodes)?;
            expand(tables, sequences, replications - 1, body, nodes)?;
            let size = nodes.len() - place - 1;
            nodes[place] = replication_node(repetitions, size as u64);
            Ok(found.taken)
        }
    }
}

fn add_node(node: &Node, nodes: &mut Vec<Node>) -> Result<(), Failure<TemplateFault>>
    ensures { Gives (λ _. nodes.new.items) result
        (onto nodes.old.items (single_nodes (length nodes.old.items) node.now)) }
{
    if nodes.len() >= MOST_NODES {
        return Err(Failure::Fault(TemplateFault::TooManyNodes));
    }
    nodes.push(*node)?;
    Ok(())
}

fn replication_node(repetitions: &Repetitions, size: u64) -> Node
    ensures { result ≡ replication_node repetitions.now size }
{
    match *repetitions {
        Repetitions::Times(times) => Node::Repeated(times, size),
        Repetitions::Factor(factor, element) => Node::Delayed(factor, element, size),
    }
}
