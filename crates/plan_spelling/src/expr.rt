//! Expressions.
ghost use Rattle.std.specs.Prelude.{◌≡◌, IfOk, IsSome, slice_get};
ghost use Rattle.std.specs.Option.{option_map};
ghost use Rattle.scalar_ops.specs.Meaning.{row_at};
ghost use Rattle.plan_core.specs.PlainExpr.{expr_of, Column, Literal, Call1, Call2};
ghost use Rattle.byte_formats.specs.Reading.{Gives};
ghost use Rattle.byte_formats.specs.Format.{symbol_at, beside, read_as, ◌⊗◌, u32, i64, text, flag};
ghost use Rattle.plan_spelling.specs.Tags.{expr_tags_above};
ghost use Rattle.plan_spelling.specs.Formats.{operation, expr_format};
ghost use Rattle.plan_spelling.specs.Reading.{expr_behind, call_behind};

use crate::tag::ExprTag;
use byte_formats::{Unread, flag_at, i64_at, text_at, u32_at};
use plan_core::Expr;
use scalar_ops::{Args, Cell, OPS, Operations};
use std::alloc::Global;

/// An expression of at most this nesting.
#[cycle(expr)]
pub fn expr_at<'a>(alloc: Global, depth: usize, bytes: &'a [u8]) -> Result<(Expr, &'a [u8]), Unread>
    ensures { Gives (λ x. (expr_of x.0, x.1.now)) result ((expr_format depth).read bytes.now) }
{
    if depth == 0 {
        return Err(Unread::Left(bytes.len()));
    }
    let (tag, rest) = tag_at(depth - 1, bytes)?;
    let (expr, rest) = expr_behind(alloc, depth - 1, tag, rest)?;
    Ok((expr, rest))
}

/// The tag of a node whose parts have at most this nesting.
fn tag_at(depth: usize, bytes: &[u8]) -> Result<(ExprTag, &[u8]), Unread>
    ensures { Gives (λ x. (x.0, x.1.now)) result (symbol_at (beside (expr_tags_above depth)) bytes.now) }
{
    let [byte, rest @ ..] = bytes else {
        return Err(Unread::Left(0));
    };
    match ExprTag::above(depth, *byte) {
        Some(tag) => Ok((tag, rest)),
        None => Err(Unread::Left(bytes.len())),
    }
}

/// A row of the table of operations.
fn operation_at(bytes: &[u8]) -> Result<(u8, &[u8]), Unread>
    ensures read { Gives (λ x. (x.0, x.1.now)) result (operation.read bytes.now) }
    ensures there { IfOk result (λ x. IsSome (row_at x.0)) }
{
    let [byte, rest @ ..] = bytes else {
        return Err(Unread::Left(0));
    };
    match args_of(*byte) {
        Some(_) => Ok((*byte, rest)),
        None => Err(Unread::Left(bytes.len())),
    }
}

/// The arguments of a row of the table.
fn args_of(row: u8) -> Option<Args>
    ensures { result ≡ option_map (λ r. r.args) (row_at row) }
{
    let table = OPS;
    args_in(&table, row)
}

fn args_in(table: &Operations, row: u8) -> Option<Args>
    ensures { result ≡ option_map (λ r. r.args) (slice_get table.now.rows row) }
{
    table.rows.get(row as usize).map(|row| row.args)
}

/// Two expressions.
#[cycle(expr)]
fn two_at<'a>(
    alloc: Global,
    depth: usize,
    bytes: &'a [u8],
) -> Result<((Expr, Expr), &'a [u8]), Unread>
    ensures { Gives (λ x. ((expr_of x.0.0, expr_of x.0.1), x.1.now)) result
        ((expr_format depth ⊗ expr_format depth).read bytes.now) }
{
    let (left, rest) = expr_at(alloc, depth, bytes)?;
    let (right, rest) = expr_at(alloc, depth, rest)?;
    Ok(((left, right), rest))
}

/// A call of this row, of as many arguments as it has.
#[cycle(expr)]
fn call_at<'a>(alloc: Global, depth: usize, bytes: &'a [u8]) -> Result<(Expr, &'a [u8]), Unread>
    ensures { Gives (λ x. (expr_of x.0, x.1.now)) result (expr_behind depth ExprTag.Call bytes.now) }
{
    let (row, rest) = operation_at(bytes)?;
    let (call, rest) = call_of(alloc, depth, row, rest)?;
    Ok((call, rest))
}

#[cycle(expr)]
fn call_of<'a>(
    alloc: Global,
    depth: usize,
    row: u8,
    bytes: &'a [u8],
) -> Result<(Expr, &'a [u8]), Unread>
    requires { IsSome (row_at row) }
    ensures { Gives (λ x. (expr_of x.0, x.1.now)) result (call_behind depth row bytes.now) }
{
    match args_of(row) {
        Some(Args::One(_)) => call_one_at(alloc, depth, row, bytes),
        Some(Args::Two(_, _)) => call_two_at(alloc, depth, row, bytes),
        None => unreachable!(),
    }
}

#[cycle(expr)]
fn call_one_at<'a>(
    alloc: Global,
    depth: usize,
    row: u8,
    bytes: &'a [u8],
) -> Result<(Expr, &'a [u8]), Unread>
    ensures { Gives (λ x. (expr_of x.0, x.1.now)) result
        (read_as (Call1 row) ((expr_format depth).read bytes.now)) }
{
    let (arg, rest) = expr_at(alloc, depth, bytes)?;
    let call = Expr::Call1 {
        row: row as u32,
        arg: Box::new(alloc, arg)?,
    };
    Ok((call, rest))
}

#[cycle(expr)]
fn call_two_at<'a>(
    alloc: Global,
    depth: usize,
    row: u8,
    bytes: &'a [u8],
) -> Result<(Expr, &'a [u8]), Unread>
    ensures { Gives (λ x. (expr_of x.0, x.1.now)) result
        (read_as (λ p. Call2 row p.0 p.1) ((expr_format depth ⊗ expr_format depth).read bytes.now)) }
{
    let ((left, right), rest) = two_at(alloc, depth, bytes)?;
    let call = Expr::Call2 {
        row: row as u32,
        left: Box::new(alloc, left)?,
        right: Box::new(alloc, right)?,
    };
    Ok((call, rest))
}

#[cycle(expr)]
fn and_at<'a>(alloc: Global, depth: usize, bytes: &'a [u8]) -> Result<(Expr, &'a [u8]), Unread>
    ensures { Gives (λ x. (expr_of x.0, x.1.now)) result (expr_behind depth ExprTag.And bytes.now) }
{
    let ((left, right), rest) = two_at(alloc, depth, bytes)?;
    let expr = Expr::And(Box::new(alloc, left)?, Box::new(alloc, right)?);
    Ok((expr, rest))
}

#[cycle(expr)]
fn or_at<'a>(alloc: Global, depth: usize, bytes: &'a [u8]) -> Result<(Expr, &'a [u8]), Unread>
    ensures { Gives (λ x. (expr_of x.0, x.1.now)) result (expr_behind depth ExprTag.Or bytes.now) }
{
    let ((left, right), rest) = two_at(alloc, depth, bytes)?;
    let expr = Expr::Or(Box::new(alloc, left)?, Box::new(alloc, right)?);
    Ok((expr, rest))
}

#[cycle(expr)]
fn if_at<'a>(alloc: Global, depth: usize, bytes: &'a [u8]) -> Result<(Expr, &'a [u8]), Unread>
    ensures { Gives (λ x. (expr_of x.0, x.1.now)) result (expr_behind depth ExprTag.If bytes.now) }
{
    let (test, rest) = expr_at(alloc, depth, bytes)?;
    let ((then, other), rest) = two_at(alloc, depth, rest)?;
    let expr = Expr::If(
        Box::new(alloc, test)?,
        Box::new(alloc, then)?,
        Box::new(alloc, other)?,
    );
    Ok((expr, rest))
}

/// What stands behind the tag of an expression.
#[cycle(expr)]
fn expr_behind<'a>(
    alloc: Global,
    depth: usize,
    tag: ExprTag,
    bytes: &'a [u8],
) -> Result<(Expr, &'a [u8]), Unread>
    ensures { Gives (λ x. (expr_of x.0, x.1.now)) result (expr_behind depth tag bytes.now) }
{
    match tag {
        ExprTag::Column => column_at(bytes),
        ExprTag::Int => int_at(bytes),
        ExprTag::Text => text_literal_at(alloc, bytes),
        ExprTag::Bool => bool_at(bytes),
        ExprTag::Call => call_at(alloc, depth, bytes),
        ExprTag::And => and_at(alloc, depth, bytes),
        ExprTag::Or => or_at(alloc, depth, bytes),
        ExprTag::If => if_at(alloc, depth, bytes),
    }
}

fn column_at(bytes: &[u8]) -> Result<(Expr, &[u8]), Unread>
    ensures { Gives (λ x. (expr_of x.0, x.1.now)) result (read_as Column (u32.read bytes.now)) }
{
    let (column, rest) = u32_at(bytes)?;
    Ok((Expr::Column(column), rest))
}

fn int_at(bytes: &[u8]) -> Result<(Expr, &[u8]), Unread>
    ensures { Gives (λ x. (expr_of x.0, x.1.now)) result
        (read_as (λ n. Literal (Cell.Int n)) (i64.read bytes.now)) }
{
    let (number, rest) = i64_at(bytes)?;
    Ok((Expr::Literal(Cell::Int(number)), rest))
}

fn text_literal_at(alloc: Global, bytes: &[u8]) -> Result<(Expr, &[u8]), Unread>
    ensures { Gives (λ x. (expr_of x.0, x.1.now)) result
        (read_as (λ t. Literal (Cell.Text t)) (text.read bytes.now)) }
{
    let (text, rest) = text_at(alloc, bytes)?;
    Ok((Expr::Literal(Cell::Text(text)), rest))
}

fn bool_at(bytes: &[u8]) -> Result<(Expr, &[u8]), Unread>
    ensures { Gives (λ x. (expr_of x.0, x.1.now)) result
        (read_as (λ b. Literal (Cell.Bool b)) (flag.read bytes.now)) }
{
    let (truth, rest) = flag_at(bytes)?;
    Ok((Expr::Literal(Cell::Bool(truth)), rest))
}
