//! The literals of a plan are cells by their type. Each function reads them, and does nothing else.
ghost use Rattle.std.specs.Prelude.{map};
ghost use Rattle.scalar_ops.specs.Cells.{IsCell};
ghost use Rattle.plan_core.specs.PlainExpr.{expr_of};
ghost use Rattle.plan_core.specs.PlainPlan.{plan_of};
ghost use Rattle.plan_core.specs.Literals.{HasCells, HaveCells, HasValidLiterals};

use crate::expr::Expr;
use crate::plan::Plan;
use scalar_ops::Cell;

/// The literals of a plan are numbers in i64, texts of at most 1,000 bytes and truth values.
pub fn read_literals(plan: &Plan)
    ensures { HasValidLiterals (plan_of plan.now) }
{
    match plan {
        Plan::Scan { .. } => {}
        Plan::Filter { child, test } => {
            read_literals(child);
            read_cells(test);
        }
        Plan::Project { child, columns } => {
            read_literals(child);
            read_all_cells(columns.items());
        }
        Plan::Distinct { child }
        | Plan::Group {
            child,
            keys: _,
            aggs: _,
        }
        | Plan::Order { child, keys: _ } => read_literals(child),
        Plan::Join { left, right, on: _ } | Plan::Concat { left, right } => {
            read_literals(left);
            read_literals(right);
        }
    }
}

fn read_all_cells(exprs: &[Expr])
    ensures { HaveCells (map expr_of exprs.now) }
{
    if let [expr, others @ ..] = exprs {
        read_cells(expr);
        read_all_cells(others);
    }
}

fn read_cells(e: &Expr)
    ensures { HasCells (expr_of e.now) }
{
    match e {
        Expr::Column(_) => {}
        Expr::Literal(cell) => read_cell(cell),
        Expr::Call1 { row: _, arg } => read_cells(arg),
        Expr::Call2 {
            row: _,
            left,
            right,
        }
        | Expr::And(left, right)
        | Expr::Or(left, right) => {
            read_cells(left);
            read_cells(right);
        }
        Expr::If(test, then, other) => {
            read_cells(test);
            read_cells(then);
            read_cells(other);
        }
    }
}

fn read_cell(cell: &Cell)
    ensures { IsCell cell.now }
{
    match cell {
        Cell::Int(number) => {
            let _number = *number;
        }
        Cell::Text(text) => {
            let _bytes = text.bytes();
        }
        Cell::Bool(_) => {}
    }
}
