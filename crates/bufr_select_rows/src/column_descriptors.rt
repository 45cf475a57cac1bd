//! The descriptors that a selection asks for.

ghost use Rattle.std.specs.Prelude.{◌≡◌, ℕ, ◌+◌, ◌≤◌, get_or, true, length, IfOk, IfSome};
ghost use Rattle.bufr_select_rows.specs.Asks.{CoversEach, IsSetOf, ListsAll, MarksColumn, MarksFor, flagged};
ghost use Rattle.bufr_select_rows.specs.Asks as asks;

use crate::column::Column;
use bufr_base::OutOfMemory;
use bufr_expand::Asks;
use bufr_tables::Fxy;
use std::alloc::Global;
use std::marker::Model;

const DESCRIPTORS: usize = 65_536;

/// The number of cells that a mark can name.
const MOST_NAMED: usize = 65_534;

/// A set of descriptors, which knows the cell of each, with a list of them. Contracts see its marks.
#[derive(Drop)]
pub struct ColumnDescriptors {
    /// The mark of each descriptor: 0 if it is not in the set, the index of its cell plus 2 if no other cell
    /// asks for it, else 1.
    cells: Vec<u16>,
    /// The descriptors with a mark, in rising order.
    listed: Vec<u16>,
}

impl Model for ColumnDescriptors {
    ghost use Rattle.std.specs.Prelude.{List, ℕ};
    ghost use Rattle.bufr_select_rows.specs.Asks.{ListsAll};

    ghost Value = { List ℕ };

    ghost view = { λ a. a.cells.items };

    ghost invariant = { λ a. ListsAll a.cells.items a.listed.items };
}

impl ColumnDescriptors {
    /// Makes the set of a selection's descriptors.
    pub fn of(
        alloc: Global,
        columns: &[Column],
        each: Option<Fxy>,
    ) -> Result<ColumnDescriptors, OutOfMemory>
        ensures { IfOk result (λ asked. IsSetOf asked each columns.now) }
    {
        let mut cells = Vec::new(alloc);
        cells.resize(DESCRIPTORS, 0)?;
        let mut index = 0;
        for column in columns {
            mark_column(&mut cells, *column, index);
            index += 1;
        }
        mark_each(&mut cells, each);
        let listed = listed_in(alloc, &cells)?;
        Ok(ColumnDescriptors { cells, listed })
    }

    /// Returns the descriptors, as 16 bits, in rising order.
    pub fn listed(&self) -> &[u16]
        ensures { ListsAll self.now result.now }
    {
        &self.listed
    }

    /// Returns the index of the only cell for a descriptor. `None` if several cells may ask for it, or
    /// none.
    #[inline(always)]
    pub(crate) fn cell_of(&self, fxy: Fxy) -> Option<usize>
        ensures { IfSome result (λ index. get_or self.now fxy 0 ≡ index + 2) }
    {
        match self.cells.get(usize::from(fxy.bits())) {
            Some(mark) if *mark >= 2 => Some(usize::from(*mark) - 2),
            _ => None,
        }
    }
}

impl Asks for ColumnDescriptors {
    ghost is_asked = { flagged };

    #[inline(always)]
    fn asks(&self, fxy: Fxy) -> bool {
        match self.cells.get(usize::from(fxy.bits())) {
            Some(mark) => *mark != 0,
            None => false,
        }
    }
}

/// Lists the descriptors that have a mark.
fn listed_in(alloc: Global, cells: &[u16]) -> Result<Vec<u16>, OutOfMemory>
    requires { length cells.now ≤ 65536 }
    ensures { IfOk result (λ listed. ListsAll cells.now listed.items) }
{
    let mut listed = Vec::new(alloc);
    for index in 0..cells.len() {
        if cells[index] != 0 {
            listed.push(index as u16)?;
        }
    }
    Ok(listed)
}

/// Marks the descriptor of the column at an index.
fn mark_column(cells: &mut Vec<u16>, column: Column, index: usize)
    requires { length cells.old.items ≡ 65536 }
    ensures cells { MarksColumn index column cells.old.items cells.new.items }
    ensures long { length cells.new.items ≡ length cells.old.items }
{
    match column {
        Column::Fact(_) => {}
        Column::First(fxy) => mark(cells, fxy, index),
        Column::Nth(fxy, _) => mark(cells, fxy, index),
    }
}

/// Marks a descriptor for the cell at an index.
fn mark(cells: &mut Vec<u16>, fxy: Fxy, index: usize)
    requires { length cells.old.items ≡ 65536 }
    ensures cells { MarksFor index fxy cells.old.items cells.new.items }
    ensures long { length cells.new.items ≡ length cells.old.items }
{
    let place = usize::from(fxy.bits());
    let after = mark_after(index, cells[place]);
    cells[place] = after;
}

/// Returns the mark of a descriptor once the cell at an index asks for it too.
fn mark_after(index: usize, mark: u16) -> u16
    ensures { result ≡ asks.mark_after index mark }
{
    if mark == 0 && index < MOST_NAMED {
        index as u16 + 2
    } else {
        1
    }
}

/// Marks the descriptor of the fields that open spans, unless it has a mark.
fn mark_each(cells: &mut Vec<u16>, each: Option<Fxy>)
    requires { length cells.old.items ≡ 65536 }
    ensures covers { CoversEach (flagged cells.new.items) each }
    ensures kept { (d : ℕ) → flagged cells.old.items d ≡ true → flagged cells.new.items d ≡ true }
    ensures named { (d i : ℕ) → get_or cells.new.items d 0 ≡ i + 2
        → get_or cells.old.items d 0 ≡ i + 2 }
    ensures long { length cells.new.items ≡ length cells.old.items }
{
    let Some(fxy) = each else {
        return;
    };
    let place = usize::from(fxy.bits());
    if cells[place] == 0 {
        cells[place] = 1;
    }
}
