//! What holds of the table and of its values: functions that do nothing, for their contracts.
ghost use Rattle.std.specs.Prelude.{◌≡◌, ◌↔◌, ℕ, List, All, IsTrue, IsSomeAnd, Ok};
ghost use Rattle.scalar_ops.specs.declared.cell.Cell.{Cell};
ghost use Rattle.scalar_ops.specs.declared.cell.CellKind.{CellKind};
ghost use Rattle.scalar_ops.specs.declared.table.Op.{Op};
ghost use Rattle.scalar_ops.specs.declared.table.OpRow.{OpRow};
ghost use Rattle.scalar_ops.specs.Cells.{IsCell, AreCells};
ghost use Rattle.scalar_ops.specs.Table.{IsRowFor, is_row_for, stated_rows};
ghost use Rattle.scalar_ops.specs.Meaning.{row_at, op_at, meaning, exact_value, cell_of, Divides, SaysSo};

use crate::table::OPS;

/// The rows are those that are stated, in this order. A row says that it may overflow exactly where it does
/// so at some cells of its kinds, and no two rows have the same operation and kinds.
pub fn table_as_stated()
    ensures rows { OPS.rows ≡ stated_rows }
    ensures overflows { All SaysSo OPS.rows }
    ensures one_row { (op : Op) (kinds : List CellKind) (i j : ℕ) →
        IsSomeAnd (row_at i) (IsRowFor op kinds) → IsSomeAnd (row_at j) (IsRowFor op kinds) → i ≡ j }
{}

/// The test by which rows are found is that of the operation and the kinds.
pub fn rows_are_found_by_kinds()
    ensures { (op : Op) (kinds : List CellKind) (row : OpRow) →
        IsTrue (is_row_for op kinds row) ↔ IsRowFor op kinds row }
{}

/// At cells that a program holds, with a divisor other than 0, a row gives the exact value or an overflow,
/// whatever it says of overflows; and a value is again such a cell.
pub fn values_are_cells()
    ensures exact { (row : ℕ) (cells : List Cell) → AreCells cells → Divides (op_at row) cells
        → meaning row cells ≡ cell_of (exact_value (op_at row) cells) }
    ensures cells { (row : ℕ) (cells : List Cell) (cell : Cell) → AreCells cells → Divides (op_at row) cells
        → meaning row cells ≡ Ok cell → IsCell cell }
{}
