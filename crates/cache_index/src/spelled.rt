//! Which plans have a spelling.
ghost use Rattle.std.specs.Prelude.{◌≡◌, ◌<◌, ◌^◌, ℕ, [], length, map, slice_get, unwrap_or, IsTrue};
ghost use Rattle.std.specs.List.{AllByRecursion};
ghost use Rattle.std.specs.Option.{option_map};
ghost use Rattle.rows_core.specs.declared.order.Key.{Key};
ghost use Rattle.scalar_ops.specs.Cells.{IsCell};
ghost use Rattle.scalar_ops.specs.Meaning.{kinds_at};
ghost use Rattle.scalar_ops.specs.Table.{kinds_of_args};
ghost use Rattle.plan_core.specs.PlainExpr.{expr_of};
ghost use Rattle.plan_core.specs.PlainPlan.{plan_of};
ghost use Rattle.plan_spelling.specs.Spelling.{HasExprSpelling, HasAggSpelling, HasPlanSpelling};

use plan_core::{Agg, Expr, Plan};
use rows_core::Key;
use scalar_ops::{Args, Cell, OPS, Operations};

/// The lists of a spelling have fewer items than this.
const ITEMS_END: usize = 256;

/// Whether the plan has a spelling. A plan with a typing has one. One has none only where a list in it is too
/// long, or a call isn't of its row's arguments.
pub(crate) fn has_spelling(plan: &Plan) -> bool
    ensures { IsTrue result → HasPlanSpelling (plan_of plan.now) }
{
    match plan {
        Plan::Scan { stream } => is_number(*stream),
        Plan::Filter { child, test } => has_spelling(child) && has_expr_spelling(test),
        Plan::Project { child, columns } => {
            let columns = columns.items();
            has_spelling(child) && columns.len() < ITEMS_END && have_expr_spellings(columns)
        }
        Plan::Distinct { child } => has_spelling(child),
        Plan::Group { child, keys, aggs } => {
            let (keys, aggs) = (keys.items(), aggs.items());
            let are_few = keys.len() < ITEMS_END && aggs.len() < ITEMS_END;
            has_spelling(child) && are_few && are_numbers(keys) && have_agg_spellings(aggs)
        }
        Plan::Join { left, right, on } => {
            let on = on.items();
            let are_spelled = has_spelling(left) && has_spelling(right);
            are_spelled && on.len() < ITEMS_END && are_pairs(on)
        }
        Plan::Concat { left, right } => has_spelling(left) && has_spelling(right),
        Plan::Order { child, keys } => {
            let keys = keys.items();
            has_spelling(child) && keys.len() < ITEMS_END && are_keys(keys)
        }
    }
}

fn has_expr_spelling(expr: &Expr) -> bool
    ensures { IsTrue result → HasExprSpelling (expr_of expr.now) }
{
    match expr {
        Expr::Column(column) => is_number(*column),
        Expr::Literal(cell) => is_cell(cell),
        Expr::Call1 { row, arg } => count_of_args(*row) == 1 && has_expr_spelling(arg),
        Expr::Call2 { row, left, right } => {
            count_of_args(*row) == 2 && has_expr_spelling(left) && has_expr_spelling(right)
        }
        | Expr::And(left, right) | Expr::Or(left, right) => has_expr_spelling(left)
            && has_expr_spelling(right),
        Expr::If(test, then, other) => {
            has_expr_spelling(test) && has_expr_spelling(then) && has_expr_spelling(other)
        }
    }
}

fn have_expr_spellings(exprs: &[Expr]) -> bool
    ensures { IsTrue result → AllByRecursion HasExprSpelling (map expr_of exprs.now) }
{
    match exprs {
        [] => true,
        [expr, others @ ..] => has_expr_spelling(expr) && have_expr_spellings(others),
    }
}

// How many arguments a call of this row has. None are 0.
fn count_of_args(row: u32) -> usize
    ensures { result ≡ length (kinds_at row) }
{
    let table = OPS;
    count_of_args_in(&table, row)
}

fn count_of_args_in(table: &Operations, row: u32) -> usize
    ensures { result ≡ length (unwrap_or (option_map (λ r. kinds_of_args r.args)
        (slice_get table.now.rows row)) []) }
{
    match table.rows.get(row as usize) {
        Some(row) => match row.args {
            Args::One(_) => 1,
            Args::Two(_, _) => 2,
        },
        None => 0,
    }
}

fn have_agg_spellings(aggs: &[Agg]) -> bool
    ensures { IsTrue result → AllByRecursion HasAggSpelling aggs.now }
{
    match aggs {
        [] => true,
        [agg, others @ ..] => has_agg_spelling(*agg) && have_agg_spellings(others),
    }
}

fn has_agg_spelling(agg: Agg) -> bool
    ensures { IsTrue result → HasAggSpelling agg }
{
    match agg {
        Agg::Count => true,
        | Agg::Sum(column)
        | Agg::Min(column)
        | Agg::Max(column)
        | Agg::First(column)
        | Agg::Last(column)
        | Agg::Avg(column) => is_number(column),
    }
}

// By their types each of these is so.

fn is_number(number: u32) -> bool
    ensures { IsTrue result → number < 2 ^ 32 }
{
    u64::from(number) < 4_294_967_296
}

fn are_numbers(numbers: &[u32]) -> bool
    ensures { IsTrue result → AllByRecursion (λ number. number < 2 ^ 32) numbers.now }
{
    match numbers {
        [] => true,
        [number, others @ ..] => is_number(*number) && are_numbers(others),
    }
}

fn are_pairs(pairs: &[(u32, u32)]) -> bool
    ensures { IsTrue result
        → AllByRecursion (λ (p : ℕ × ℕ). (p.0 < 2 ^ 32) × (p.1 < 2 ^ 32)) pairs.now }
{
    match pairs {
        [] => true,
        [pair, others @ ..] => is_number(pair.0) && is_number(pair.1) && are_pairs(others),
    }
}

fn are_keys(keys: &[Key]) -> bool
    ensures { IsTrue result → AllByRecursion (λ (key : Key). key.column < 2 ^ 32) keys.now }
{
    match keys {
        [] => true,
        [key, others @ ..] => is_number(key.column) && are_keys(others),
    }
}

fn is_cell(cell: &Cell) -> bool
    ensures { IsTrue result → IsCell cell.now }
{
    match cell {
        Cell::Int(number) => {
            let _number = *number;
        }
        Cell::Text(text) => {
            let _bytes = text.bytes();
        }
        Cell::Bool(_) => {}
    }
    true
}
