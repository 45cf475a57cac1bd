//! Sums fields that no data can change.

ghost use Rattle.std.specs.Prelude.{◌≤◌, ◌∷◌, List, length, drop, IfSome};
ghost use Rattle.bufr_expand.specs.Runs.{BeginsRun, TurnsRun, field_run};
ghost use Rattle.bufr_expand.specs.Trees.{tree_of, done};
ghost use Rattle.bufr_expand.specs.declared.node.Node.{Node};

use crate::node::Node;
use crate::operators::{Operators, untouched};
use bufr_tables::Kind;

/// A run: the sums of some fields in a row, none a count.
#[derive(Clone, Copy, PartialEq, Eq)]
pub struct Run {
    /// The number of fields.
    pub fields: u64,
    /// The number of items: nodes and turns.
    pub items: u64,
    /// The number of bits.
    pub bits: u128,
}

/// Sums `times` turns of nodes. `None` if they include an operator, a count, a field without a spec
/// or a delayed replication, or a sum overflows.
#[cycle(run_of)]
pub(crate) fn turns_run(times: u64, nodes: &[Node], operators: &Operators) -> Option<Run>
    ensures { IfSome result (TurnsRun times (tree_of nodes.now) operators.now) }
{
    let body = run_of(nodes, operators)?;
    let turn = body.items.checked_add(1)?;
    let fields = times.checked_mul(body.fields)?;
    let items = times.checked_mul(turn)?;
    let bits = u128::from(times).checked_mul(body.bits)?;
    Some(Run {
        fields,
        items,
        bits,
    })
}

/// Sums some nodes, likewise.
#[cycle(run_of)]
fn run_of(nodes: &[Node], operators: &Operators) -> Option<Run>
    ensures { IfSome result (λ run. BeginsRun (tree_of nodes.now) operators.now run done) }
{
    let mut run = Run {
        fields: 0,
        items: 0,
        bits: 0,
    };
    let mut rest = nodes;
    while let Some((first, behind)) = rest.split_first() {
        let (more, taken) = first_run(*first, behind, operators)?;
        let fields = run.fields.checked_add(more.fields)?;
        let items = run.items.checked_add(more.items)?;
        let bits = run.bits.checked_add(more.bits)?;
        run = Run {
            fields,
            items,
            bits,
        };
        rest = &behind[taken..];
    }
    Some(run)
}

/// Sums the first node, a replication with its body, and returns the nodes in the body.
#[cycle(run_of)]
fn first_run(first: Node, behind: &[Node], operators: &Operators) -> Option<(Run, usize)>
    ensures within { IfSome result (λ found. found.1 ≤ length behind.now) }
    ensures begins { IfSome result (λ found. BeginsRun (tree_of (first ∷ behind.now)) operators.now
        found.0 (tree_of (drop found.1 behind.now))) }
{
    let spec = match first {
        Node::Element(fxy, element) => operators.effective(&element, fxy).ok()?,
        Node::Untouched(_, element) => untouched(&element)?,
        Node::Repeated(times, len) => {
            let taken = len.min(behind.len() as u64) as usize;
            let turns = turns_run(times, &behind[..taken], operators)?;
            let items = turns.items.checked_add(1)?;
            return Some((Run { items, ..turns }, taken));
        }
        Node::Operator(_) | Node::Delayed(_, _, _) => return None,
    };
    match spec.kind {
        Kind::Count => None,
        _ => Some((
            Run {
                fields: 1,
                items: 1,
                bits: u128::from(spec.width),
            },
            0,
        )),
    }
}

/// Sums the elements at the front, up to a node that is none, a count, or a field without a spec.
pub(crate) fn front_run(nodes: &[Node], operators: &Operators) -> Run
    ensures within { result.items ≤ length nodes.now }
    ensures begins { BeginsRun (tree_of nodes.now) operators.now result
        (tree_of (drop result.items nodes.now)) }
{
    let mut run = Run {
        fields: 0,
        items: 0,
        bits: 0,
    };
    let mut rest = nodes;
    while let Some((first, behind)) = rest.split_first() {
        let Some(width) = element_bits(first, operators) else {
            return run;
        };
        let Some(bits) = run.bits.checked_add(u128::from(width)) else {
            return run;
        };
        run = Run {
            fields: run.fields + 1,
            items: run.items + 1,
            bits,
        };
        rest = behind;
    }
    run
}

/// Returns the bits of a node's field, if it is an element with a spec and no count.
#[inline(always)]
fn element_bits(node: &Node, operators: &Operators) -> Option<u32>
    ensures { IfSome result (λ bits. (rest : List Node) → BeginsRun (tree_of (node.now ∷ rest))
        operators.now (field_run bits) (tree_of rest)) }
{
    let spec = match node {
        Node::Element(fxy, element) => operators.effective(element, *fxy).ok()?,
        Node::Untouched(_, element) => untouched(element)?,
        Node::Operator(_) | Node::Repeated(_, _) | Node::Delayed(_, _, _) => return None,
    };
    match spec.kind {
        Kind::Count => None,
        _ => Some(spec.width),
    }
}
