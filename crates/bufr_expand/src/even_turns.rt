//! Lays out the fields of elements.

ghost use Rattle.std.specs.Prelude.{◌∷◌, List, [], IfOk, IfSome};
ghost use Rattle.bufr_expand.specs.declared.node.Node.{Node};
ghost use Rattle.bufr_expand.specs.EvenTurns.{BeginsFields};
ghost use Rattle.bufr_expand.specs.Trees.{tree_of, done};

use crate::node::Node;
use crate::operators::{Operators, Spec, untouched};
use bufr_base::OutOfMemory;
use bufr_tables::{Fxy, Kind};
use std::alloc::Global;

/// A field whatever the data are.
#[derive(Clone, Copy, PartialEq)]
pub struct CommonField {
    pub fxy: Fxy,
    pub spec: Spec,
}

/// A number of turns with the same fields.
#[derive(Drop)]
pub struct EvenTurns {
    pub turns: u64,
    /// The fields of one turn.
    pub fields: Vec<CommonField>,
}

/// Lays out nodes. `None` if they include other nodes than elements, a count, or a field without a
/// spec.
pub(crate) fn fields_of(
    alloc: Global,
    nodes: &[Node],
    operators: &Operators,
) -> Result<Option<Vec<CommonField>>, OutOfMemory>
    ensures { IfOk result (λ found. IfSome found (λ fields.
        BeginsFields (tree_of nodes.now) operators.now fields.items done)) }
{
    let mut fields = Vec::with_capacity(alloc, nodes.len())?;
    let mut rest = nodes;
    while let Some((first, behind)) = rest.split_first() {
        let Some(field) = field_of(*first, operators) else {
            return Ok(None);
        };
        fields.push(field)?;
        rest = behind;
    }
    Ok(Some(fields))
}

/// Returns the field of an element, unless it is a count.
fn field_of(node: Node, operators: &Operators) -> Option<CommonField>
    ensures { IfSome result (λ field. (rest : List Node) →
        BeginsFields (tree_of (node ∷ rest)) operators.now (field ∷ []) (tree_of rest)) }
{
    let (fxy, spec) = match node {
        Node::Element(fxy, element) => (fxy, operators.effective(&element, fxy).ok()?),
        Node::Untouched(fxy, element) => (fxy, untouched(&element)?),
        Node::Operator(_) | Node::Repeated(_, _) | Node::Delayed(_, _, _) => return None,
    };
    match spec.kind {
        Kind::Count => None,
        _ => Some(CommonField { fxy, spec }),
    }
}
