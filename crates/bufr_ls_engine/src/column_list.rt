//! The columns of rows, with the short way that their rows have.

ghost use Rattle.std.specs.Prelude.{◌≡◌, ◌∷◌, [], true};
ghost use Rattle.bufr_ls_engine.specs.Columns.{all_columns};
ghost use Rattle.bufr_ls_engine.specs.RowSteps.{HasShape};
ghost use Rattle.bufr_ls_engine.specs.declared.column.Column.TheVariants.{MasterVersion};

use crate::column::Column;
use crate::whole_row::are_all;
use std::marker::Model;

/// A shape of columns.
#[derive(Clone, Copy, Drop)]
pub(crate) enum Shape {
    /// The version of the master tables alone.
    MasterVersion,
    /// All columns, in their order.
    All,
    /// Any columns.
    Any,
}

/// Columns with their shape. Contracts see the columns alone.
#[derive(Drop)]
pub(crate) struct ColumnList<'c> {
    columns: &'c [Column],
    shape: Shape,
}

impl<'c> Model for ColumnList<'c> {
    ghost use Rattle.std.specs.Prelude.{List};
    ghost use Rattle.std.specs.Borrow.{Bor};
    ghost use Rattle.bufr_ls_engine.specs.RowSteps.{HasShape};
    ghost use Rattle.bufr_ls_engine.specs.declared.column.Column.{Column};

    ghost Value = { Bor (List Column) };

    ghost view = { λ c. c.columns };

    ghost invariant = { λ c. HasShape c.shape c.columns.now };
}

impl<'c> ColumnList<'c> {
    pub(crate) fn new(columns: &'c [Column]) -> ColumnList<'c>
        ensures { result.now ≡ columns.now }
    {
        ColumnList {
            columns,
            shape: shape_of(columns),
        }
    }

    #[inline(always)]
    pub(crate) fn as_slice(&self) -> &'c [Column]
        ensures { result.now ≡ self.now.now }
    {
        self.columns
    }

    /// Returns whether the version of the master tables is the only column.
    #[inline(always)]
    pub(crate) fn is_master_version(&self) -> bool
        ensures { result ≡ true → self.now.now ≡ MasterVersion ∷ [] }
    {
        matches!(self.shape, Shape::MasterVersion)
    }

    /// Returns whether the columns are all, in their order.
    #[inline(always)]
    pub(crate) fn is_all(&self) -> bool
        ensures { result ≡ true → self.now.now ≡ all_columns }
    {
        matches!(self.shape, Shape::All)
    }
}

fn shape_of(columns: &[Column]) -> Shape
    ensures { HasShape result columns.now }
{
    if let [Column::MasterVersion] = columns {
        return Shape::MasterVersion;
    }
    if are_all(columns) {
        return Shape::All;
    }
    Shape::Any
}
