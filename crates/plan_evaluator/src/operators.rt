//! What each operator gives, one row after another.
ghost use Rattle.std.specs.Prelude.{◌≡◌, [], ◌∷◌, ◌++◌, map, All, if◌then◌else◌, IfOk, OnOk};
ghost use Rattle.std.specs.List.{list_any, filter};
ghost use Rattle.rows_core.specs.Value.{kind_of};
ghost use Rattle.plan_core.specs.PlainExpr.{expr_of};
ghost use Rattle.rows_core.specs.Value.{value_eq, row_eq};
ghost use Rattle.plan_core.specs.Columns.{column_of, no_value};
ghost use Rattle.plan_core.specs.ExpressionKind.{IsTyped};
ghost use Rattle.plan_core.specs.Filter.{filter_rows};
ghost use Rattle.plan_core.specs.Project.{column_value, project_row, project_rows};
ghost use Rattle.plan_core.specs.Distinct.{distinct_rows};
ghost use Rattle.plan_core.specs.Join.{rows_agree, join_rows};
ghost use Rattle.plan_core.specs.StableOrder.{order_rows};
ghost use Rattle.plan_core.specs.Answer.{Means};
ghost use Rattle.plan_evaluator.specs.Evaluation.{test_value};

use plan_core::{EvRefusal, Expr, ev};
use plan_laws::one_stable_order;
use rows_core::{Key, Memory, Row, Seq, Value, cmp_by, copy_rows, total_order};
use scalar_ops::Cell;
use std::alloc::Global;

/// Puts a row behind the others.
pub fn push_row(rows: &mut Vec<Row>, row: Row) -> Result<(), Memory>
    ensures { OnOk result (rows.new.items ≡ rows.old.items ++ row ∷ []) }
{
    rows.push(row)?;
    Ok(())
}

/// Puts a value behind the others.
pub fn push_value(values: &mut Vec<Value>, value: Value) -> Result<(), Memory>
    ensures { OnOk result (values.new.items ≡ values.old.items ++ value ∷ []) }
{
    values.push(value)?;
    Ok(())
}

/// The rows at which the test is true.
pub fn filter_rows(alloc: Global, rows: &[Row], test: &Expr) -> Result<Seq<Row>, EvRefusal>
    requires { All (λ row. IsTyped (map kind_of row) (expr_of test.now)) rows.now }
    ensures { Means result (filter_rows (expr_of test.now) rows.now) }
{
    let mut kept = Vec::new(alloc);
    for row in rows {
        if passes(alloc, row, test)? {
            push_row(&mut kept, row.try_copy(alloc)?)?;
        }
    }
    Ok(Seq::new(kept))
}

fn passes(alloc: Global, row: &Row, test: &Expr) -> Result<bool, EvRefusal>
    requires { IsTyped (map kind_of row.now) (expr_of test.now) }
    ensures { Means result (test_value (expr_of test.now) row.now) }
{
    match ev(alloc, test, row) {
        Ok(Cell::Bool(value)) => Ok(value),
        Ok(_) => Ok(false),
        Err(refusal) => Err(refusal),
    }
}

/// The row of these columns for each row.
pub fn project_rows(alloc: Global, rows: &[Row], columns: &[Expr]) -> Result<Seq<Row>, EvRefusal>
    requires { All (λ row. All (λ column. IsTyped (map kind_of row) (expr_of column)) columns.now) rows.now }
    ensures { Means result (project_rows (map expr_of columns.now) rows.now) }
{
    let mut projected = Vec::new(alloc);
    for row in rows {
        push_row(&mut projected, project_row(alloc, row, columns)?)?;
    }
    Ok(Seq::new(projected))
}

fn project_row(alloc: Global, row: &Row, columns: &[Expr]) -> Result<Row, EvRefusal>
    requires { All (λ column. IsTyped (map kind_of row.now) (expr_of column)) columns.now }
    ensures { Means result (project_row (map expr_of columns.now) row.now) }
{
    let mut values = Vec::new(alloc);
    for column in columns {
        push_value(&mut values, column_value(alloc, row, column)?)?;
    }
    Ok(Row::new(values))
}

fn column_value(alloc: Global, row: &Row, column: &Expr) -> Result<Value, EvRefusal>
    requires { IsTyped (map kind_of row.now) (expr_of column.now) }
    ensures { Means result (column_value (expr_of column.now) row.now) }
{
    match ev(alloc, column, row) {
        Ok(Cell::Int(number)) => Ok(Value::Int(number)),
        Ok(Cell::Text(text)) => Ok(Value::Text(text)),
        Ok(Cell::Bool(truth)) => Ok(Value::Bool(truth)),
        Err(refusal) => Err(refusal),
    }
}

/// The first of equal rows.
pub fn distinct_rows(alloc: Global, rows: &[Row]) -> Result<Seq<Row>, Memory>
    ensures { IfOk result (λ different. different ≡ distinct_rows rows.now) }
{
    let mut different = Vec::new(alloc);
    for row in rows {
        put_new(alloc, row, &mut different)?;
    }
    Ok(Seq::new(different))
}

// Puts the row behind the others where none of them is equal to it.
fn put_new(alloc: Global, row: &Row, rows: &mut Vec<Row>) -> Result<(), Memory>
    ensures { OnOk result (rows.new.items ≡ rows.old.items ++
        (if list_any (row_eq row.now) rows.old.items then [] else row.now ∷ [])) }
{
    if has_row(rows.as_slice(), row) {
        return Ok(());
    }
    rows.push(row.try_copy(alloc)?)?;
    Ok(())
}

fn has_row(rows: &[Row], row: &Row) -> bool
    ensures { result ≡ list_any (row_eq row.now) rows.now }
{
    rows.iter().any(|other| row == other)
}

/// Each left row followed by each right row that agrees with it.
pub fn join_rows(
    alloc: Global,
    lefts: &[Row],
    rights: &[Row],
    on: &[(u32, u32)],
) -> Result<Seq<Row>, Memory>
    ensures { IfOk result (λ joined. joined ≡ join_rows on.now lefts.now rights.now) }
{
    let mut joined = Vec::new(alloc);
    for left in lefts {
        join_one(alloc, left, rights, on, &mut joined)?;
    }
    Ok(Seq::new(joined))
}

fn join_one(
    alloc: Global,
    left: &Row,
    rights: &[Row],
    on: &[(u32, u32)],
    joined: &mut Vec<Row>,
) -> Result<(), Memory>
    ensures { OnOk result (joined.new.items ≡ joined.old.items
        ++ map (λ right. left.now ++ right) (filter (rows_agree on.now left.now) rights.now)) }
{
    for right in rights {
        if rows_agree(left, right, on) {
            joined.push(joined_row(alloc, left, right)?)?;
        }
    }
    Ok(())
}

/// A row followed by another one.
pub fn joined_row(alloc: Global, left: &Row, right: &Row) -> Result<Row, Memory>
    ensures { IfOk result (λ row. row ≡ left.now ++ right.now) }
{
    let mut values = left.try_copy(alloc)?.into_values();
    let mut others = right.try_copy(alloc)?.into_values();
    values.append(&mut others)?;
    Ok(Row::new(values))
}

fn rows_agree(left: &Row, right: &Row, on: &[(u32, u32)]) -> bool
    ensures { result ≡ rows_agree on.now left.now right.now }
{
    on.iter().all(|pair| has_same(left, right, pair))
}

fn has_same(left: &Row, right: &Row, pair: &(u32, u32)) -> bool
    ensures { result ≡ value_eq (column_of left.now pair.now.0) (column_of right.now pair.now.1) }
{
    match (
        left.values().get(pair.0 as usize),
        right.values().get(pair.1 as usize),
    ) {
        (Some(a), Some(b)) => a == b,
        (Some(a), None) => is_zero(a),
        (None, Some(b)) => is_zero(b),
        (None, None) => true,
    }
}

// What stands for a column that isn't there is the number 0.
fn is_zero(value: &Value) -> bool
    ensures { result ≡ value_eq value.now no_value }
{
    matches!(value, Value::Int(0))
}

/// The rows in the one stable order by these keys.
pub fn order_rows(alloc: Global, rows: &[Row], keys: &[Key]) -> Result<Seq<Row>, Memory>
    ensures { IfOk result (λ ordered. ordered ≡ order_rows keys.now rows.now) }
{
    total_order();
    one_stable_order();
    let mut ordered = copy_rows(alloc, rows)?;
    ordered.sort_by(|a, b| cmp_by(a, b, keys))?;
    Ok(Seq::new(ordered))
}
