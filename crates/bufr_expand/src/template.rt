//! Templates.

ghost use Rattle.std.specs.Prelude.{◌≡◌, length, IfOk};
ghost use Rattle.bufr_base.specs.Answers.{Gives};
ghost use Rattle.bufr_expand.specs.Templates.{template};
ghost use Rattle.bufr_expand.specs.Trees.{nodes_of};

use crate::expand::expand;
use crate::limits::{MOST_REPLICATION_LEVELS, MOST_SEQUENCE_LEVELS};
use crate::node::{Node, TemplateFault};
use bufr_base::{Failure, OutOfMemory};
use bufr_tables::{Fxy, Tables};
use std::alloc::Global;
use std::marker::Model;
use std::rc::Rc;

/// A template: a list of descriptors, expanded. Contracts see a tree; `levels` counts its
/// replications.
#[derive(Debug, Drop)]
pub struct Template {
    pub(crate) nodes: Rc<Vec<Node>>,
    pub(crate) levels: usize,
}

impl Model for Template {
    ghost use Rattle.std.specs.Prelude.{◌≡◌};
    ghost use Rattle.bufr_expand.specs.Places.{replications};
    ghost use Rattle.bufr_expand.specs.Trees.{Tree, tree_of, nodes_of};
    ghost use Rattle.bufr_expand.specs.TreeCodes.{tree_code};

    ghost Value = { Tree };

    ghost coded = { tree_code };

    ghost view = { λ t. tree_of t.nodes.value.items };

    ghost invariant = { λ t. (nodes_of (tree_of t.nodes.value.items) ≡ t.nodes.value.items)
        × (t.levels ≡ replications t.nodes.value.items) };
}

impl Template {
    /// Expands a list, or returns its first fault in depth-first order.
    pub fn build(
        alloc: Global,
        tables: &Tables,
        list: &[Fxy],
    ) -> Result<Template, Failure<TemplateFault>>
        ensures { Gives (λ t. t) result (template tables.now list.now) }
    {
        let mut nodes = Vec::new(alloc);
        expand(
            tables,
            MOST_SEQUENCE_LEVELS,
            MOST_REPLICATION_LEVELS,
            list,
            &mut nodes,
        )?;
        let levels = nodes
            .iter()
            .filter(|node| matches!(node, Node::Repeated(_, _) | Node::Delayed(_, _, _)))
            .count();
        let shared = Rc::new(alloc, nodes)?;
        Ok(Template {
            nodes: shared,
            levels,
        })
    }

    /// Shares the nodes. `OutOfMemory` comes if the count of shares overflows.
    pub fn share(&self) -> Result<Template, OutOfMemory>
        ensures { IfOk result (λ t. t ≡ self.now) }
    {
        let nodes = self.nodes.clone()?;
        Ok(Template {
            nodes,
            levels: self.levels,
        })
    }

    /// Returns the number of nodes; those of a body count once.
    pub fn nodes(&self) -> usize
        ensures { result ≡ length (nodes_of self.now) }
    {
        self.nodes.len()
    }
}
