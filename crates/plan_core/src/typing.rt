//! Typing of expressions.
ghost use Rattle.std.specs.Prelude.{◌≡◌, [], ◌∷◌, slice_get};
ghost use Rattle.scalar_ops.specs.Meaning.{op_at, row_at};
ghost use Rattle.plan_core.specs.PlainExpr.{expr_of};
ghost use Rattle.plan_core.specs.ExpressionKind.{expression_kind, call_kind, cell_kind_of, same_cell_kind};
ghost use Rattle.plan_core.specs.ExpressionKind.{is_division, is_divisor, both_truths, choice_kind};

use crate::expr::Expr;
use rows_core::Kind;
use scalar_ops::{Args, Cell, CellKind, OPS, Op, OpRow, Operations};

/// The kind of an expression over columns of these kinds; `None` exactly where it has no typing. It takes no
/// memory.
pub fn expression_kind(kinds: &[Kind], e: &Expr) -> Option<CellKind>
    ensures { result ≡ expression_kind kinds.now (expr_of e.now) }
{
    match e {
        Expr::Column(column) => Some(cell_kind_of(*kinds.get(*column as usize)?)),
        Expr::Literal(cell) => Some(cell.kind()),
        Expr::Call1 { row, arg } => kind_of_one(*row, expression_kind(kinds, arg)?),
        Expr::Call2 { row, left, right } => {
            if is_division(*row) && !is_divisor(right) {
                return None;
            }
            let left = expression_kind(kinds, left)?;
            let right = expression_kind(kinds, right)?;
            kind_of_two(*row, left, right)
        }
        Expr::And(left, right) | Expr::Or(left, right) => {
            both_truths(expression_kind(kinds, left), expression_kind(kinds, right))
        }
        Expr::If(test, then, other) => choice_kind(
            expression_kind(kinds, test),
            expression_kind(kinds, then),
            expression_kind(kinds, other),
        ),
    }
}

fn cell_kind_of(kind: Kind) -> CellKind
    ensures { result ≡ cell_kind_of kind }
{
    match kind {
        Kind::Int => CellKind::Int,
        Kind::Text => CellKind::Text,
        Kind::Bool => CellKind::Bool,
    }
}

fn kind_of_one(row: u32, arg: CellKind) -> Option<CellKind>
    ensures { result ≡ call_kind row (arg ∷ []) }
{
    let row = op_row(row)?;
    match row.args {
        Args::One(kind) if same_cell_kind(arg, kind) => Some(row.result),
        _ => None,
    }
}

fn kind_of_two(row: u32, left: CellKind, right: CellKind) -> Option<CellKind>
    ensures { result ≡ call_kind row (left ∷ right ∷ []) }
{
    let row = op_row(row)?;
    match row.args {
        Args::Two(first, second) if same_cell_kind(left, first) && same_cell_kind(right, second) =>
            { Some(row.result) }
        _ => None,
    }
}

/// The table's row with this number.
fn op_row(row: u32) -> Option<OpRow>
    ensures { result ≡ row_at row }
{
    let table = OPS;
    row_in(&table, row)
}

fn row_in(table: &Operations, row: u32) -> Option<OpRow>
    ensures { result ≡ slice_get table.now.rows row }
{
    table.rows.get(row as usize).copied()
}

/// Whether the row divides: its second argument is a number other than 0, as a literal.
fn is_division(row: u32) -> bool
    ensures { result ≡ is_division (op_at row) }
{
    match op_row(row) {
        Some(row) => matches!(row.op, Op::Div | Op::Mod),
        None => false,
    }
}

fn is_divisor(e: &Expr) -> bool
    ensures { result ≡ is_divisor (expr_of e.now) }
{
    match e {
        Expr::Literal(Cell::Int(number)) => *number != 0,
        _ => false,
    }
}

fn same_cell_kind(a: CellKind, b: CellKind) -> bool
    ensures { result ≡ same_cell_kind a b }
{
    a == b
}

fn both_truths(a: Option<CellKind>, b: Option<CellKind>) -> Option<CellKind>
    ensures { result ≡ both_truths a b }
{
    match (a, b) {
        (Some(CellKind::Bool), Some(CellKind::Bool)) => Some(CellKind::Bool),
        _ => None,
    }
}

fn choice_kind(
    test: Option<CellKind>,
    then: Option<CellKind>,
    other: Option<CellKind>,
) -> Option<CellKind>
    ensures { result ≡ choice_kind test then other }
{
    match (test, then, other) {
        (Some(CellKind::Bool), Some(kind), Some(other)) if same_cell_kind(kind, other) => {
            Some(kind)
        }
        _ => None,
    }
}
