//! Values of expressions.
ghost use Rattle.std.specs.Prelude.{◌≡◌, [], ◌∷◌, map, slice_get, Some, IfOk, IsSome};
ghost use Rattle.rows_core.specs.Value.{kind_of};
ghost use Rattle.scalar_ops.specs.Cells.{kind_of_cell};
ghost use Rattle.scalar_ops.specs.Meaning.{meaning, op_at, Divides};
ghost use Rattle.plan_core.specs.PlainExpr.{expr_of};
ghost use Rattle.plan_core.specs.Columns.{column_of};
ghost use Rattle.plan_core.specs.ExpressionValue.{expression_value, cell_of_value, is_true};
ghost use Rattle.plan_core.specs.ExpressionKind.{IsTyped, expression_kind, call_kind};
ghost use Rattle.plan_core.specs.Answer.{Means};

use crate::expr::Expr;
use crate::refusal::EvRefusal;
use rows_core::{Memory, Overflow, Row, Value};
use scalar_ops::{Cell, apply};
use std::alloc::Global;

/// The value of an expression at a row: `Overflow` exactly where its meaning is an overflow. Of `and`, `or`
/// and `if` only the part that is needed is evaluated.
pub fn ev(alloc: Global, e: &Expr, row: &Row) -> Result<Cell, EvRefusal>
    requires { IsTyped (map kind_of row.now) (expr_of e.now) }
    ensures meaning { Means result (expression_value (expr_of e.now) row.now) }
    ensures kind { IfOk result
        (λ cell. expression_kind (map kind_of row.now) (expr_of e.now) ≡ Some (kind_of_cell cell)) }
{
    match e {
        Expr::Column(column) => Ok(column_cell(alloc, row, *column)?),
        Expr::Literal(cell) => Ok(cell.try_copy(alloc)?),
        Expr::Call1 { row: number, arg } => {
            let arg = ev(alloc, arg, row)?;
            Ok(call_of_one(*number, arg)?)
        }
        Expr::Call2 {
            row: number,
            left,
            right,
        } => {
            let left = ev(alloc, left, row)?;
            let right = ev(alloc, right, row)?;
            Ok(call_of_two(*number, left, right)?)
        }
        Expr::And(left, right) => {
            if !is_true(&ev(alloc, left, row)?) {
                return Ok(Cell::Bool(false));
            }
            ev(alloc, right, row)
        }
        Expr::Or(left, right) => {
            if is_true(&ev(alloc, left, row)?) {
                return Ok(Cell::Bool(true));
            }
            ev(alloc, right, row)
        }
        Expr::If(test, then, other) => {
            if is_true(&ev(alloc, test, row)?) {
                ev(alloc, then, row)
            } else {
                ev(alloc, other, row)
            }
        }
    }
}

fn column_cell(alloc: Global, row: &Row, column: u32) -> Result<Cell, Memory>
    requires { IsSome (slice_get row.now column) }
    ensures value { IfOk result (λ cell. cell ≡ cell_of_value (column_of row.now column)) }
    ensures there { IfOk result (λ cell. slice_get row.now column ≡ Some (column_of row.now column)) }
{
    match row.values().get(column as usize) {
        Some(Value::Int(number)) => Ok(Cell::Int(*number)),
        Some(Value::Text(text)) => Ok(Cell::Text(text.try_copy(alloc)?)),
        Some(Value::Bool(truth)) => Ok(Cell::Bool(*truth)),
        None => unreachable!(),
    }
}

/// The value of an operation of one argument, which has the row's kind.
#[tactic(auto, using(crate::proofs::ExprLaws::row_there))]
fn call_of_one(row: u32, arg: Cell) -> Result<Cell, Overflow>
    requires { IsSome (call_kind row (kind_of_cell arg ∷ [])) }
    ensures meaning { result ≡ meaning row (arg ∷ []) }
    ensures kind { IfOk result (λ cell. call_kind row (kind_of_cell arg ∷ []) ≡ Some (kind_of_cell cell)) }
{
    apply(row as usize, &[arg])
}

/// The value of an operation of two arguments, which have the row's kinds.
#[tactic(auto, using(crate::proofs::ExprLaws::row_there))]
fn call_of_two(row: u32, left: Cell, right: Cell) -> Result<Cell, Overflow>
    requires kinds { IsSome (call_kind row (kind_of_cell left ∷ kind_of_cell right ∷ [])) }
    requires divisor { Divides (op_at row) (left ∷ right ∷ []) }
    ensures meaning { result ≡ meaning row (left ∷ right ∷ []) }
    ensures kind { IfOk result (λ cell. call_kind row (kind_of_cell left ∷ kind_of_cell right ∷ [])
        ≡ Some (kind_of_cell cell)) }
{
    apply(row as usize, &[left, right])
}

fn is_true(cell: &Cell) -> bool
    ensures { result ≡ is_true cell.now }
{
    match cell {
        Cell::Bool(truth) => *truth,
        _ => false,
    }
}
