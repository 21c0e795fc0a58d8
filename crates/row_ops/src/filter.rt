//! Rows that pass a test.
ghost use Rattle.std.specs.Prelude.{◌≡◌, [], ◌∷◌, ◌++◌, map, All, OnOk, IfOk};
ghost use Rattle.rows_core.specs.Value.{kind_of};
ghost use Rattle.plan_core.specs.Answer.{Means};
ghost use Rattle.plan_core.specs.ExpressionKind.{IsTyped};
ghost use Rattle.plan_core.specs.Filter.{filter_rows};
ghost use Rattle.plan_core.specs.PlainExpr.{expr_of};
ghost use Rattle.row_ops.specs.Operators.{Gives, test_value};

use plan_core::{EvRefusal, Expr, ev};
use rows_core::{Memory, Row};
use scalar_ops::Cell;
use std::alloc::Global;

/// The rows at which the test is true, in their order: `Where` of LINQ to Objects. Overflow exactly where the
/// test is an overflow at some row. The rows are taken over, and those that pass are moved.
pub fn where_rows(alloc: Global, rows: Vec<Row>, test: &Expr) -> Result<Vec<Row>, EvRefusal>
    requires { All (λ row. IsTyped (map kind_of row) (expr_of test.now)) rows.items }
    ensures { Gives result (filter_rows (expr_of test.now) rows.items) }
{
    let mut kept = Vec::new(alloc);
    for row in rows {
        if passes(alloc, &row, test)? {
            push_row(&mut kept, row)?;
        }
    }
    Ok(kept)
}

/// The same of rows that are lent: it copies those that pass and no other.
pub fn where_lent(alloc: Global, rows: &[Row], test: &Expr) -> Result<Vec<Row>, EvRefusal>
    requires { All (λ row. IsTyped (map kind_of row) (expr_of test.now)) rows.now }
    ensures { Gives result (filter_rows (expr_of test.now) rows.now) }
{
    let mut kept = Vec::new(alloc);
    for row in rows {
        if passes(alloc, row, test)? {
            push_row(&mut kept, row.try_copy(alloc)?)?;
        }
    }
    Ok(kept)
}

fn passes(alloc: Global, row: &Row, test: &Expr) -> Result<bool, EvRefusal>
    requires { IsTyped (map kind_of row.now) (expr_of test.now) }
    ensures { Means result (test_value (expr_of test.now) row.now) }
{
    match ev(alloc, test, row) {
        Ok(Cell::Bool(value)) => Ok(value),
        Ok(_) => Ok(false),
        Err(refusal) => Err(refusal),
    }
}

/// Puts a row behind the others.
pub fn push_row(rows: &mut Vec<Row>, row: Row) -> Result<(), Memory>
    ensures { OnOk result (rows.new.items ≡ rows.old.items ++ row ∷ []) }
{
    rows.push(row)?;
    Ok(())
}
