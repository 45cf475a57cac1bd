ghost use Rattle.std.specs.Prelude.{◌≡◌, ◌↔◌, IsTrue, option_copied, option_map};
ghost use Rattle.bufr_tables.specs.Entries.{element, sequence, AreElements, Rising};

use crate::element::Element;
use crate::fxy::Fxy;
use crate::table_b::TableB;
use crate::table_d::TableD;
use std::marker::Model;

/// A Table B and a Table D.
#[derive(Drop)]
pub struct Tables {
    elements: TableB,
    sequences: TableD,
}

impl Model for Tables {
    ghost use Rattle.bufr_tables.specs.Entries.{Entries};

    ghost Value = { Entries };

    ghost view = { λ t. record { elements = t.elements; sequences = t.sequences } };
}

impl Tables {
    /// Joins a Table B and a Table D.
    pub fn new(b: TableB, d: TableD) -> Tables
        ensures { result ≡ record { elements = b; sequences = d } }
    {
        Tables {
            elements: b,
            sequences: d,
        }
    }

    /// Finds an element in Table B.
    pub fn element(&self, fxy: Fxy) -> Option<&Element>
        ensures value { option_copied result ≡ element self.now fxy }
        ensures tables { AreElements self.now.elements }
    {
        self.elements.rows.get(&fxy)
    }

    /// Finds the descriptors of a sequence in Table D.
    pub fn sequence(&self, fxy: Fxy) -> Option<&[Fxy]>
        ensures value { option_map (λ s. s.now) result ≡ sequence self.now fxy }
        ensures tables { Rising self.now.sequences }
    {
        match self.sequences.rows.get(&fxy) {
            Some(list) => Some(list.as_slice()),
            None => None,
        }
    }

    /// Returns whether both tables are equal.
    pub fn same(&self, other: &Tables) -> bool
        ensures { IsTrue result ↔ (self.now ≡ other.now) }
    {
        self.elements.same(&other.elements) && self.sequences.same(&other.sequences)
    }
}
