//! Rows of the table of operations.
ghost use Rattle.std.specs.Prelude.{◌≡◌, ◌<◌, ◌^◌, [], ◌∷◌, IfSome};
ghost use Rattle.std.specs.List.{position};
ghost use Rattle.scalar_ops.specs.Table.{same_op};
ghost use Rattle.plan_binder.specs.OpRows.{row_with, first_row, row_for};

use scalar_ops::{CellKind, OPS, Op, Operations};

/// The row for this operation at an argument of this kind.
pub fn row_for_one(op: Op, kind: Option<CellKind>) -> u32
    ensures { result ≡ row_for op (kind ∷ []) }
{
    let found = match kind {
        Some(kind) => row_with(op, &[kind]),
        None => None,
    };
    found.unwrap_or(first_row(op))
}

/// The row for this operation at arguments of these kinds.
pub fn row_for_two(op: Op, left: Option<CellKind>, right: Option<CellKind>) -> u32
    ensures { result ≡ row_for op (left ∷ right ∷ []) }
{
    let found = match (left, right) {
        (Some(left), Some(right)) => row_with(op, &[left, right]),
        _ => None,
    };
    found.unwrap_or(first_row(op))
}

/// The row with this operation and these kinds.
fn row_with(op: Op, kinds: &[CellKind]) -> Option<u32>
    ensures { result ≡ row_with op kinds.now }
{
    let table = OPS;
    number_of(table.find(op, kinds))
}

/// The first row with this operation.
fn first_row(op: Op) -> u32
    ensures { result ≡ first_row op }
{
    let table = OPS;
    number_of(first_in(&table, op)).unwrap_or(0)
}

/// The number of the row at this place, as plans have it.
fn number_of(place: Option<usize>) -> Option<u32>
    requires { IfSome place (λ at. at < 2 ^ 32) }
    ensures { result ≡ place }
{
    match place {
        Some(place) => Some(place as u32),
        None => None,
    }
}

fn first_in(table: &Operations, op: Op) -> Option<usize>
    ensures { result ≡ position (λ row. same_op row.op op) table.now.rows }
{
    table.rows.iter().position(|row| row.op.is_same(op))
}
