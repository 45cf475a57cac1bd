ghost use Rattle.std.specs.Prelude.{◌≡◌, ◌↔◌, IsTrue};
ghost use Rattle.bufr_tables.specs.Entries.{Rising};

use crate::fxy::Fxy;
use bufr_base::Items;
use std::collections::BTreeMap;
use std::marker::Model;

mod file;

/// A Table D: sequences by descriptor.
#[derive(Drop)]
pub struct TableD {
    pub(crate) rows: BTreeMap<Fxy, Items<Fxy>>,
}

impl Model for TableD {
    ghost use Rattle.std.specs.Prelude.{List, ℕ};
    ghost use Rattle.bufr_tables.specs.Entries.{Rising};

    ghost Value = { List (ℕ × List ℕ) };

    ghost view = { λ t. t.rows.entries };

    ghost invariant = { λ t. Rising t.rows.entries };
}

impl TableD {
    /// Makes the table of a map from each sequence to its descriptors.
    pub(crate) fn from_map(rows: BTreeMap<Fxy, Items<Fxy>>) -> TableD
        requires { Rising rows.entries }
        ensures { result ≡ rows.entries }
    {
        TableD { rows }
    }

    pub(crate) fn same(&self, other: &TableD) -> bool
        ensures { IsTrue result ↔ (self.now ≡ other.now) }
    {
        self.rows == other.rows
    }
}
