//! Templates: descriptors expanded by the tables, and the fields that they ask for. Every call that
//! allocates can return `OutOfMemory`.
#![tactic(auto)]

mod asks;
mod even_turns;
mod expand;
pub mod laws;
mod limits;
mod node;
mod operators;
mod part;
mod run;
mod template;
mod walk;
mod walk_state;
mod worked_values;

pub use asks::Asks;
pub use bufr_base::{Failure, OutOfMemory};
pub use even_turns::{CommonField, EvenTurns};
pub use limits::{
    MOST_FACTOR_BITS, MOST_ITEMS, MOST_NODES, MOST_NUMBER_BITS, MOST_REFERENCE,
    MOST_REPLICATION_LEVELS, MOST_SCALE, MOST_SEQUENCE_LEVELS, MOST_TEXT_BITS,
};
pub use node::{Node, TemplateFault};
pub use operators::{EffectiveRange, Operators, Spec};
pub use run::Run;
pub use template::Template;
pub use walk::{Step, Walk, WalkFault};
