//! Normal expressions.
ghost use Rattle.std.specs.Prelude.{◌≡◌, true, false, IfOk, unwrap_or};
ghost use Rattle.std.specs.Option.{option_map};
ghost use Rattle.plan_core.specs.PlainExpr.{expr_of, Literal};
ghost use Rattle.plan_canon.specs.ExprRules.{is_true, is_false, value_of_call};
ghost use Rattle.plan_canon.specs.NormalExpr.{call1_of, call2_of, and_of, or_of, if_of, normal_expr};

use plan_core::{EvRefusal, Expr, ev, expression_kind};
use rows_core::{Memory, Row};
use scalar_ops::Cell;
use std::alloc::Global;

/// The normal form of an expression.
pub fn normal_expr(alloc: Global, e: &Expr) -> Result<Expr, Memory>
    ensures { IfOk result (λ normal. expr_of normal ≡ normal_expr (expr_of e.now)) }
{
    match e {
        Expr::Column(column) => Ok(Expr::Column(*column)),
        Expr::Literal(cell) => Ok(Expr::Literal(cell.try_copy(alloc)?)),
        Expr::Call1 { row, arg } => call1_of(alloc, *row, normal_expr(alloc, arg)?),
        Expr::Call2 { row, left, right } => {
            let left = normal_expr(alloc, left)?;
            let right = normal_expr(alloc, right)?;
            call2_of(alloc, *row, left, right)
        }
        Expr::And(left, right) => {
            let left = normal_expr(alloc, left)?;
            let right = normal_expr(alloc, right)?;
            and_of(alloc, left, &right)
        }
        Expr::Or(left, right) => {
            let left = normal_expr(alloc, left)?;
            let right = normal_expr(alloc, right)?;
            or_of(alloc, left, &right)
        }
        Expr::If(test, then, other) => {
            let test = normal_expr(alloc, test)?;
            let then = normal_expr(alloc, then)?;
            let other = normal_expr(alloc, other)?;
            if_of(alloc, test, then, other)
        }
    }
}

/// The normal form of `a and b`, both of which are normal.
pub fn and_of(alloc: Global, a: Expr, b: &Expr) -> Result<Expr, Memory>
    ensures { IfOk result (λ normal. expr_of normal ≡ and_of (expr_of a) (expr_of b.now)) }
{
    if is_true(&a) {
        return b.try_copy(alloc);
    }
    if is_true(b) {
        return Ok(a);
    }
    if is_false(&a) {
        return Ok(Expr::Literal(Cell::Bool(false)));
    }
    match b {
        Expr::And(first, last) => {
            let front = and_of(alloc, a, first)?;
            Ok(Expr::And(
                Box::new(alloc, front)?,
                Box::new(alloc, last.try_copy(alloc)?)?,
            ))
        }
        _ => Ok(Expr::And(Box::new(alloc, a)?, Box::new(alloc, b.try_copy(alloc)?)?)),
    }
}

/// The normal form of `a or b`, both of which are normal.
fn or_of(alloc: Global, a: Expr, b: &Expr) -> Result<Expr, Memory>
    ensures { IfOk result (λ normal. expr_of normal ≡ or_of (expr_of a) (expr_of b.now)) }
{
    if is_false(&a) {
        return b.try_copy(alloc);
    }
    if is_false(b) {
        return Ok(a);
    }
    if is_true(&a) {
        return Ok(Expr::Literal(Cell::Bool(true)));
    }
    match b {
        Expr::Or(first, last) => {
            let front = or_of(alloc, a, first)?;
            Ok(Expr::Or(
                Box::new(alloc, front)?,
                Box::new(alloc, last.try_copy(alloc)?)?,
            ))
        }
        _ => Ok(Expr::Or(Box::new(alloc, a)?, Box::new(alloc, b.try_copy(alloc)?)?)),
    }
}

fn if_of(alloc: Global, test: Expr, then: Expr, other: Expr) -> Result<Expr, Memory>
    ensures { IfOk result (λ normal. expr_of normal ≡ if_of (expr_of test) (expr_of then) (expr_of other)) }
{
    if is_true(&test) {
        return Ok(then);
    }
    if is_false(&test) {
        return Ok(other);
    }
    Ok(Expr::If(
        Box::new(alloc, test)?,
        Box::new(alloc, then)?,
        Box::new(alloc, other)?,
    ))
}

fn call1_of(alloc: Global, row: u32, arg: Expr) -> Result<Expr, Memory>
    ensures { IfOk result (λ normal. expr_of normal ≡ call1_of row (expr_of arg)) }
{
    let is_known = matches!(&arg, Expr::Literal(_));
    let call = Expr::Call1 {
        row,
        arg: Box::new(alloc, arg)?,
    };
    if is_known {
        folded(alloc, call)
    } else {
        Ok(call)
    }
}

fn call2_of(alloc: Global, row: u32, left: Expr, right: Expr) -> Result<Expr, Memory>
    ensures { IfOk result (λ normal. expr_of normal ≡ call2_of row (expr_of left) (expr_of right)) }
{
    let are_known = matches!((&left, &right), (Expr::Literal(_), Expr::Literal(_)));
    let call = Expr::Call2 {
        row,
        left: Box::new(alloc, left)?,
        right: Box::new(alloc, right)?,
    };
    if are_known {
        folded(alloc, call)
    } else {
        Ok(call)
    }
}

/// The value of a call as a literal, or the call where it has none.
fn folded(alloc: Global, call: Expr) -> Result<Expr, Memory>
    ensures { IfOk result
        (λ normal. expr_of normal
        ≡ unwrap_or (option_map Literal (value_of_call (expr_of call))) (expr_of call)) }
{
    match value_of_call(alloc, &call)? {
        Some(cell) => Ok(Expr::Literal(cell)),
        None => Ok(call),
    }
}

fn value_of_call(alloc: Global, call: &Expr) -> Result<Option<Cell>, Memory>
    ensures { IfOk result (λ value. value ≡ value_of_call (expr_of call.now)) }
{
    if expression_kind(&[], call).is_none() {
        return Ok(None);
    }
    let row = Row::new(Vec::new(alloc));
    match ev(alloc, call, &row) {
        Ok(cell) => Ok(Some(cell)),
        Err(EvRefusal::Overflow) => Ok(None),
        Err(EvRefusal::Memory) => Err(Memory),
    }
}

pub fn is_true(e: &Expr) -> bool
    ensures { result ≡ is_true (expr_of e.now) }
{
    match e {
        Expr::Literal(Cell::Bool(truth)) => *truth,
        _ => false,
    }
}

fn is_false(e: &Expr) -> bool
    ensures { result ≡ is_false (expr_of e.now) }
{
    match e {
        Expr::Literal(Cell::Bool(truth)) => !*truth,
        _ => false,
    }
}
