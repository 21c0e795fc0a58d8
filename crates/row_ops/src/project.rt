//! Columns of rows.
ghost use Rattle.std.specs.Prelude.{◌≡◌, [], ◌∷◌, ◌++◌, map, All, OnOk, IfOk};
ghost use Rattle.rows_core.specs.Value.{kind_of};
ghost use Rattle.plan_core.specs.Answer.{Means};
ghost use Rattle.plan_core.specs.ExpressionKind.{IsTyped};
ghost use Rattle.plan_core.specs.PlainExpr.{expr_of};
ghost use Rattle.plan_core.specs.Project.{column_value, project_row, project_rows};
ghost use Rattle.row_ops.specs.Operators.{Gives};

use crate::filter::push_row;
use plan_core::{EvRefusal, Expr, ev};
use rows_core::{Memory, Row, Value};
use scalar_ops::Cell;
use std::alloc::Global;

/// For each row the row of these columns' values, in the order of the rows: `Select` of LINQ to Objects.
/// Overflow exactly where a value is an overflow, whether it is used above or not.
pub fn select_rows(alloc: Global, rows: &[Row], columns: &[Expr]) -> Result<Vec<Row>, EvRefusal>
    requires { All (λ row. All (λ column. IsTyped (map kind_of row) (expr_of column)) columns.now) rows.now }
    ensures { Gives result (project_rows (map expr_of columns.now) rows.now) }
{
    let mut selected = with_room(alloc, rows.len())?;
    for row in rows {
        push_row(&mut selected, select_row(alloc, row, columns)?)?;
    }
    Ok(selected)
}

fn select_row(alloc: Global, row: &Row, columns: &[Expr]) -> Result<Row, EvRefusal>
    requires { All (λ column. IsTyped (map kind_of row.now) (expr_of column)) columns.now }
    ensures { Means result (project_row (map expr_of columns.now) row.now) }
{
    let mut values = with_room(alloc, columns.len())?;
    for column in columns {
        push_value(&mut values, column_value(alloc, row, column)?)?;
    }
    Ok(Row::new(values))
}

fn with_room<T>(alloc: Global, count: usize) -> Result<Vec<T>, Memory>
    ensures { IfOk result (λ items. items.items ≡ []) }
{
    Ok(Vec::with_capacity(alloc, count)?)
}

fn push_value(values: &mut Vec<Value>, value: Value) -> Result<(), Memory>
    ensures { OnOk result (values.new.items ≡ values.old.items ++ value ∷ []) }
{
    values.push(value)?;
    Ok(())
}

fn column_value(alloc: Global, row: &Row, column: &Expr) -> Result<Value, EvRefusal>
    requires { IsTyped (map kind_of row.now) (expr_of column.now) }
    ensures { Means result (column_value (expr_of column.now) row.now) }
{
    match ev(alloc, column, row) {
        Ok(Cell::Int(number)) => Ok(Value::Int(number)),
        Ok(Cell::Text(text)) => Ok(Value::Text(text)),
        Ok(Cell::Bool(truth)) => Ok(Value::Bool(truth)),
        Err(refusal) => Err(refusal),
    }
}
