//! Whether expressions have a typing over rows.
ghost use Rattle.std.specs.Prelude.{◌≡◌, map, All, IsTrue};
ghost use Rattle.rows_core.specs.Value.{kind_of};
ghost use Rattle.plan_core.specs.ExpressionKind.{IsTyped};
ghost use Rattle.plan_core.specs.PlainExpr.{expr_of};

use plan_core::{Expr, expression_kind};
use rows_core::{Kind, Row, Value};

fn has_kinds(values: &[Value], kinds: &[Kind]) -> bool
    ensures { IsTrue result → map kind_of values.now ≡ kinds.now }
{
    match (values, kinds) {
        ([], []) => true,
        ([value, values @ ..], [kind, kinds @ ..]) => {
            value.kind() == *kind && has_kinds(values, kinds)
        }
        _ => false,
    }
}

fn is_typed(row: &Row, kinds: &[Kind], e: &Expr) -> bool
    ensures { IsTrue result → IsTyped (map kind_of row.now) (expr_of e.now) }
{
    has_kinds(row.values(), kinds) && expression_kind(kinds, e).is_some()
}

/// Whether the rows are of these kinds, over which the expression has a typing.
pub fn are_typed(rows: &[Row], kinds: &[Kind], e: &Expr) -> bool
    ensures { IsTrue result → All (λ row. IsTyped (map kind_of row) (expr_of e.now)) rows.now }
{
    match rows {
        [] => true,
        [row, rows @ ..] => is_typed(row, kinds, e) && are_typed(rows, kinds, e),
    }
}

fn columns_typed(row: &Row, kinds: &[Kind], columns: &[Expr]) -> bool
    ensures { IsTrue result → All (λ column. IsTyped (map kind_of row.now) (expr_of column)) columns.now }
{
    match columns {
        [] => true,
        [column, columns @ ..] => is_typed(row, kinds, column)
            && columns_typed(row, kinds, columns),
    }
}

/// The same of several expressions.
pub fn all_typed(rows: &[Row], kinds: &[Kind], columns: &[Expr]) -> bool
    ensures { IsTrue result →
        All (λ row. All (λ column. IsTyped (map kind_of row) (expr_of column)) columns.now) rows.now }
{
    match rows {
        [] => true,
        [row, rows @ ..] => columns_typed(row, kinds, columns) && all_typed(rows, kinds, columns),
    }
}
