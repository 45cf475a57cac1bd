ghost use Rattle.std.specs.Prelude.{◌≡◌, ◌↔◌, IsTrue, [], false, OnErr};
ghost use Rattle.bufr_tables.specs.declared.element.Kind.TheVariants as kinds;
ghost use Rattle.bufr_base.specs.Answers.{Gives};
ghost use Rattle.bufr_tables.specs.Elements.{same_kind};
ghost use Rattle.bufr_tables.specs.ElementJoins.{with_element};

use crate::element::Element;
use crate::fxy::Fxy;
use crate::table_faults::TableFault;
use bufr_base::Failure;
use std::alloc::Global;
use std::collections::BTreeMap;
use std::marker::Model;

mod file;

/// A Table B: elements by descriptor.
#[derive(Drop)]
pub struct TableB {
    pub(crate) rows: BTreeMap<Fxy, Element>,
}

impl Model for TableB {
    ghost use Rattle.std.specs.Prelude.{List, ℕ};
    ghost use Rattle.bufr_tables.specs.Entries.{AreElements};
    ghost use Rattle.bufr_tables.specs.declared.element.Element.{Element};

    ghost Value = { List (ℕ × Element) };

    ghost view = { λ t. t.rows.entries };

    ghost invariant = { λ t. AreElements t.rows.entries };
}

impl TableB {
    pub(crate) fn new(alloc: Global) -> TableB
        ensures { result ≡ [] }
    {
        TableB {
            rows: BTreeMap::new(alloc),
        }
    }

    /// Adds an element. An equal row changes nothing; a different one is the fault `Conflict`.
    pub(crate) fn add(&mut self, fxy: Fxy, element: Element) -> Result<(), Failure<TableFault>>
        requires { same_kind element.kind kinds.Count ≡ false }
        ensures exact { Gives (λ _. self.new) result (with_element self.old (fxy, element)) }
        ensures err { OnErr result (self.new ≡ self.old) }
    {
        if let Some(old) = self.rows.get(&fxy) {
            if *old == element {
                return Ok(());
            }
            return Err(Failure::Fault(TableFault::Conflict(fxy)));
        }
        self.rows.insert(fxy, element)?;
        Ok(())
    }

    pub(crate) fn same(&self, other: &TableB) -> bool
        ensures { IsTrue result ↔ (self.now ≡ other.now) }
    {
        self.rows == other.rows
    }
}
