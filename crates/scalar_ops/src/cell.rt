//! Values of expressions.
ghost use Rattle.std.specs.Prelude.{◌≡◌, IfOk};
ghost use Rattle.scalar_ops.specs.Cells.{kind_of_cell};

use rows_core::{Memory, Txt};
use std::alloc::Global;

/// A number in i64, a text or a truth value.
#[derive(Debug, PartialEq, Eq, Drop)]
pub enum Cell {
    Int(i64),
    Text(Txt),
    Bool(bool),
}

/// What a cell is.
#[derive(Clone, Copy, PartialEq, Eq)]
pub enum CellKind {
    Int,
    Text,
    Bool,
}

impl Cell {
    pub fn kind(&self) -> CellKind
        ensures { result ≡ kind_of_cell self.now }
    {
        match self {
            Cell::Int(_) => CellKind::Int,
            Cell::Text(_) => CellKind::Text,
            Cell::Bool(_) => CellKind::Bool,
        }
    }

    /// A second cell that equals this one.
    pub fn try_copy(&self, alloc: Global) -> Result<Cell, Memory>
        ensures { IfOk result (λ cell. cell ≡ self.now) }
    {
        match self {
            Cell::Int(number) => Ok(Cell::Int(*number)),
            Cell::Text(text) => Ok(Cell::Text(text.try_copy(alloc)?)),
            Cell::Bool(truth) => Ok(Cell::Bool(*truth)),
        }
    }
}
