//! How an expression is printed.
ghost use Rattle.std.specs.Prelude.{◌≡◌, ◌++◌, [], ◌∷◌, List, OnOk};
ghost use Rattle.std.specs.Fmt.{signed_decimal};
ghost use Rattle.std.specs.List.{flat_map};
ghost use Rattle.scalar_ops.specs.declared.cell.Cell.TheVariants as cell;
ghost use Rattle.plan_text.specs.declared.token.Token.{Token};
ghost use Rattle.plan_text.specs.declared.operator.Operator.TheVariants as operator;
ghost use Rattle.plan_text.specs.PlainNamed.{PlainExpr, Call1, Binary, If, expr_of};
ghost use Rattle.plan_text.specs.Operators.{E};
ghost use Rattle.plan_text.specs.Canonical.{Space, One, escaped, quoted, text_of, between, behind_comma};
ghost use Rattle.plan_text.specs.Canonical.{literal, bare, canonical_expr, function};

use crate::rule::{Form, rule_of};
use crate::{CONJUNCTION, EXPRESSION, NEGATION, NamedExpr, Operator, SIGNED, Word};
use itoa::Buffer;
use rows_core::Memory;
use scalar_ops::{Cell, Op};

pub fn put(bytes: &[u8], to: &mut Vec<u8>) -> Result<(), Memory>
    ensures { OnOk result (to.new.items ≡ to.old.items ++ bytes.now) }
{
    to.extend_from_slice(bytes)?;
    Ok(())
}

/// Between two spaces.
pub fn put_spaced(bytes: &[u8], to: &mut Vec<u8>) -> Result<(), Memory>
    ensures { OnOk result (to.new.items ≡ to.old.items ++ 32 ∷ (bytes.now ++ 32 ∷ [])) }
{
    put(b" ", to)?;
    put(bytes, to)?;
    put(b" ", to)
}

fn put_number(number: i64, to: &mut Vec<u8>) -> Result<(), Memory>
    ensures { OnOk result (to.new.items ≡ to.old.items ++ signed_decimal number) }
{
    let mut buffer = Buffer::new();
    put(buffer.format(number).as_bytes(), to)
}

/// Between two `"`.
fn put_text(text: &[u8], to: &mut Vec<u8>) -> Result<(), Memory>
    ensures { OnOk result (to.new.items ≡ to.old.items ++ quoted text.now) }
{
    put(b"\"", to)?;
    put_text_bytes(text, to)?;
    put(b"\"", to)
}

fn put_text_bytes(text: &[u8], to: &mut Vec<u8>) -> Result<(), Memory>
    ensures { OnOk result (to.new.items ≡ to.old.items ++ flat_map escaped text.now) }
{
    for byte in text {
        put_text_byte(*byte, to)?;
    }
    Ok(())
}

fn put_text_byte(byte: u8, to: &mut Vec<u8>) -> Result<(), Memory>
    ensures { OnOk result (to.new.items ≡ to.old.items ++ escaped byte) }
{
    if byte == b'"' || byte == b'\\' {
        to.push(b'\\')?;
    }
    to.push(byte)?;
    Ok(())
}

fn put_literal(cell: &Cell, to: &mut Vec<u8>) -> Result<(), Memory>
    ensures { OnOk result (to.new.items ≡ to.old.items ++ text_of (literal cell.now)) }
{
    match cell {
        Cell::Int(number) => put_number(*number, to),
        Cell::Text(text) => put_text(text.bytes(), to),
        Cell::Bool(true) => put(b"true", to),
        Cell::Bool(false) => put(b"false", to),
    }
}

/// Appends the expression as the rule spells it, in parentheses exactly where the rule needs them.
#[cycle(expression)]
pub fn put_expr(rule: u8, expr: &NamedExpr, to: &mut Vec<u8>) -> Result<(), Memory>
    ensures { OnOk result
        (to.new.items ≡ to.old.items ++ text_of (canonical_expr rule (expr_of expr.now))) }
{
    if rule_of(expr) <= rule {
        return put_bare(expr, to);
    }
    put(b"(", to)?;
    put_bare(expr, to)?;
    put(b")", to)
}

/// Appends the expression without parentheses around it.
#[cycle(expression)]
fn put_bare(expr: &NamedExpr, to: &mut Vec<u8>) -> Result<(), Memory>
    ensures { OnOk result (to.new.items ≡ to.old.items ++ text_of (bare (expr_of expr.now))) }
{
    match expr {
        NamedExpr::Column(name) => put(name.bytes(), to),
        NamedExpr::Literal(cell) => put_literal(cell, to),
        NamedExpr::Call1 { op, arg } => put_call1(*op, arg, to),
        NamedExpr::Binary {
            operator,
            left,
            right,
        } => put_binary(*operator, left, right, to),
        NamedExpr::If(test, first, last) => put_choice(test, first, last, to),
    }
}

#[cycle(expression)]
fn put_binary(
    operator: Operator,
    left: &NamedExpr,
    right: &NamedExpr,
    to: &mut Vec<u8>,
) -> Result<(), Memory>
    ensures { OnOk result (to.new.items ≡ to.old.items
        ++ text_of (bare (Binary operator (expr_of left.now) (expr_of right.now)))) }
{
    match operator {
        Operator::Call(op) => put_call2(op, left, right, to),
        Operator::And => put_between(CONJUNCTION, left, b"and", NEGATION, right, to),
        Operator::Or => put_between(EXPRESSION, left, b"or", CONJUNCTION, right, to),
    }
}

#[cycle(expression)]
fn put_between(
    left_rule: u8,
    left: &NamedExpr,
    operator: &[u8],
    right_rule: u8,
    right: &NamedExpr,
    to: &mut Vec<u8>,
) -> Result<(), Memory>
    ensures { OnOk result (to.new.items ≡ to.old.items
        ++ (text_of (canonical_expr left_rule (expr_of left.now))
        ++ 32 ∷ (operator.now ++ 32 ∷ text_of
        (canonical_expr right_rule (expr_of right.now))))) }
{
    put_expr(left_rule, left, to)?;
    put_spaced(operator, to)?;
    put_expr(right_rule, right, to)
}

#[cycle(expression)]
fn put_call1(op: Op, arg: &NamedExpr, to: &mut Vec<u8>) -> Result<(), Memory>
    ensures { OnOk result (to.new.items ≡ to.old.items ++ text_of (bare (Call1 op (expr_of arg.now)))) }
{
    match op {
        Op::Not => put_behind(b"not ", NEGATION, arg, to),
        Op::Neg => put_behind(b"- ", SIGNED, arg, to),
        Op::Len => put_function1(b"len(", arg, to),
        Op::Abs => put_function1(b"abs(", arg, to),
        _ => Ok(()),
    }
}

#[cycle(expression)]
fn put_behind(before: &[u8], rule: u8, arg: &NamedExpr, to: &mut Vec<u8>) -> Result<(), Memory>
    ensures { OnOk result
        (to.new.items ≡ to.old.items ++
        (before.now ++ text_of (canonical_expr rule (expr_of arg.now)))) }
{
    put(before, to)?;
    put_expr(rule, arg, to)
}

#[cycle(expression)]
fn put_function1(function: &[u8], arg: &NamedExpr, to: &mut Vec<u8>) -> Result<(), Memory>
    ensures { OnOk result
        (to.new.items ≡ to.old.items ++
        (function.now ++ (text_of (canonical_expr E (expr_of arg.now)) ++ 41 ∷ []))) }
{
    put_behind(function, EXPRESSION, arg, to)?;
    put(b")", to)
}

#[cycle(expression)]
fn put_call2(op: Op, left: &NamedExpr, right: &NamedExpr, to: &mut Vec<u8>) -> Result<(), Memory>
    ensures { OnOk result
        (to.new.items ≡ to.old.items
        ++ text_of (bare (Binary (operator.Call op) (expr_of left.now) (expr_of right.now)))) }
{
    match Form::of(op) {
        Form::Between(sign, infix) => {
            put_between(infix.left, left, sign.bytes(), infix.right, right, to)
        }
        Form::Function(word) => put_function2(word, left, right, to),
        Form::Nowhere => Ok(()),
    }
}

#[cycle(expression)]
fn put_function2(
    word: Word,
    left: &NamedExpr,
    right: &NamedExpr,
    to: &mut Vec<u8>,
) -> Result<(), Memory>
    ensures { OnOk result (to.new.items ≡ to.old.items
        ++ text_of (function word
        (canonical_expr E (expr_of left.now) ++ behind_comma (canonical_expr E (expr_of right.now))))) }
{
    put(word.bytes(), to)?;
    put_behind(b"(", EXPRESSION, left, to)?;
    put_behind(b", ", EXPRESSION, right, to)?;
    put(b")", to)
}

#[cycle(expression)]
fn put_choice(
    test: &NamedExpr,
    first: &NamedExpr,
    last: &NamedExpr,
    to: &mut Vec<u8>,
) -> Result<(), Memory>
    ensures { OnOk result
        (to.new.items ≡ to.old.items ++ text_of
        (bare (If (expr_of test.now) (expr_of first.now) (expr_of last.now)))) }
{
    put_behind(b"if(", EXPRESSION, test, to)?;
    put_behind(b", ", EXPRESSION, first, to)?;
    put_behind(b", ", EXPRESSION, last, to)?;
    put(b")", to)
}
