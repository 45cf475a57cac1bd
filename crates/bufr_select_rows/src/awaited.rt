//! The descriptors that cells wait for.

ghost use Rattle.bufr_select_rows.specs.Cells.{is_awaited};

use crate::cell::Cell;
use bufr_expand::Asks;
use bufr_tables::Fxy;

/// A set of the descriptors whose next field may change the text of a cell.
#[derive(Clone, Copy)]
pub(crate) struct Awaited<'c> {
    pub(crate) cells: &'c [Cell],
}

impl<'c> Asks for Awaited<'c> {
    ghost is_asked = { λ a. is_awaited a.cells.now };

    fn asks(&self, fxy: Fxy) -> bool {
        self.cells.iter().any(|cell| cell.waits_for(fxy))
    }
}
