//! Expressions with numbers in place of names.
ghost use Rattle.std.specs.Prelude.{◌≡◌, map, Some};
ghost use Rattle.std.specs.Option.{option_map};
ghost use Rattle.plan_core.specs.PlainExpr as bound;
ghost use Rattle.plan_core.specs.PlanTyping.{all_there};
ghost use Rattle.plan_text.specs.PlainNamed.{expr_of};
ghost use Rattle.plan_binder.specs.Binding.{bound_expr, place_of, call1, call2, operated, of_two, of_three};
ghost use Rattle.plan_binder.specs.BoundPlan.{boxed_expr_of};
ghost use Rattle.plan_binder.specs.Resolves.{Resolves};

use crate::allocation::{boxed, push};
use crate::bind_names::place_of;
use crate::columns::Columns;
use crate::op_rows::{row_for_one, row_for_two};
use crate::refusal::BindRefusal;
use plan_core::{Expr, expression_kind};
use plan_text::{NamedColumn, NamedExpr, Operator};
use rows_core::{Kind, Name};
use scalar_ops::{Cell, Op};
use std::alloc::Global;

/// The expression over columns with these names and kinds.
#[cycle(expression)]
pub fn bind_expr(alloc: Global, columns: &Columns, e: &NamedExpr) -> Result<Box<Expr>, BindRefusal>
    ensures { Resolves boxed_expr_of result (bound_expr columns.now.names columns.now.kinds (expr_of e.now)) }
{
    match e {
        NamedExpr::Column(name) => bind_column(alloc, columns, name),
        NamedExpr::Literal(cell) => bind_literal(alloc, cell),
        NamedExpr::Call1 { op, arg } => {
            let arg = bind_expr(alloc, columns, arg)?;
            call(alloc, columns, *op, arg)
        }
        NamedExpr::Binary {
            operator,
            left,
            right,
        } => bind_operands(alloc, columns, *operator, left, right),
        NamedExpr::If(test, first, last) => bind_choice(alloc, columns, test, first, last),
    }
}

fn bind_column(alloc: Global, columns: &Columns, name: &Name) -> Result<Box<Expr>, BindRefusal>
    ensures { Resolves boxed_expr_of result
        (option_map bound.Column (place_of columns.now.names name.now)) }
{
    let place = place_of(columns.names.items(), name.bytes())?;
    Ok(boxed(alloc, Expr::Column(place))?)
}

fn bind_literal(alloc: Global, cell: &Cell) -> Result<Box<Expr>, BindRefusal>
    ensures { Resolves boxed_expr_of result (Some (bound.Literal cell.now)) }
{
    let cell = cell.try_copy(alloc)?;
    Ok(boxed(alloc, Expr::Literal(cell))?)
}

/// The call of the row that is for the argument's kind.
fn call(alloc: Global, columns: &Columns, op: Op, arg: Box<Expr>) -> Result<Box<Expr>, BindRefusal>
    ensures { Resolves boxed_expr_of result (Some (call1 columns.now.kinds op (boxed_expr_of arg))) }
{
    let row = row_for_one(op, expression_kind(columns.kinds.items(), &arg));
    Ok(boxed(alloc, Expr::Call1 { row, arg })?)
}

/// What the operator makes of its operands.
#[cycle(expression)]
fn bind_operands(
    alloc: Global,
    columns: &Columns,
    operator: Operator,
    left: &NamedExpr,
    right: &NamedExpr,
) -> Result<Box<Expr>, BindRefusal>
    ensures { Resolves boxed_expr_of result (of_two (operated columns.now.kinds operator)
        (bound_expr columns.now.names columns.now.kinds (expr_of left.now))
        (bound_expr columns.now.names columns.now.kinds (expr_of right.now))) }
{
    let left = bind_expr(alloc, columns, left)?;
    let right = bind_expr(alloc, columns, right)?;
    operate(alloc, columns, operator, left, right)
}

fn operate(
    alloc: Global,
    columns: &Columns,
    operator: Operator,
    left: Box<Expr>,
    right: Box<Expr>,
) -> Result<Box<Expr>, BindRefusal>
    ensures { Resolves boxed_expr_of result
        (Some (operated columns.now.kinds operator (boxed_expr_of left) (boxed_expr_of right))) }
{
    let expr = match operator {
        Operator::Call(op) => call_of_two(columns.kinds.items(), op, left, right),
        Operator::And => Expr::And(left, right),
        Operator::Or => Expr::Or(left, right),
    };
    Ok(boxed(alloc, expr)?)
}

/// The call of the row that is for the arguments' kinds.
fn call_of_two(kinds: &[Kind], op: Op, left: Box<Expr>, right: Box<Expr>) -> Expr
    ensures { bound.expr_of result ≡ call2 kinds.now op (boxed_expr_of left) (boxed_expr_of right) }
{
    let row = row_for_two(
        op,
        expression_kind(kinds, &left),
        expression_kind(kinds, &right),
    );
    Expr::Call2 { row, left, right }
}

/// The choice by the test.
#[cycle(expression)]
fn bind_choice(
    alloc: Global,
    columns: &Columns,
    test: &NamedExpr,
    first: &NamedExpr,
    last: &NamedExpr,
) -> Result<Box<Expr>, BindRefusal>
    ensures { Resolves boxed_expr_of result
        (of_three bound.If (bound_expr columns.now.names columns.now.kinds (expr_of test.now))
        (bound_expr columns.now.names columns.now.kinds (expr_of first.now))
        (bound_expr columns.now.names columns.now.kinds (expr_of last.now))) }
{
    let test = bind_expr(alloc, columns, test)?;
    let first = bind_expr(alloc, columns, first)?;
    let last = bind_expr(alloc, columns, last)?;
    Ok(boxed(alloc, Expr::If(test, first, last))?)
}

/// The expressions of the result's columns, over the columns of the input.
#[tactic(auto, using(plan_core::specs::AllThere::found))]
pub fn bind_exprs(
    alloc: Global,
    input: &Columns,
    columns: &[NamedColumn],
) -> Result<Vec<Expr>, BindRefusal>
    ensures { Resolves (λ v. map bound.expr_of v.items) result
        (all_there (map (λ column. bound_expr input.now.names input.now.kinds (expr_of column.expr))
        columns.now)) }
{
    let mut found = Vec::with_capacity(alloc, columns.len())?;
    for column in columns {
        let expr = bind_expr(alloc, input, &column.expr)?;
        push(&mut found, Box::into_inner(expr))?;
    }
    Ok(found)
}
