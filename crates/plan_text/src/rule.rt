//! How operations are written, and the rules that spell them.
ghost use Rattle.std.specs.Prelude.{◌≡◌};
ghost use Rattle.std.specs.List.{find};
ghost use Rattle.plan_text.specs.declared.operator.Operator.TheVariants as operator;
ghost use Rattle.plan_text.specs.Operators.{mark_infix};
ghost use Rattle.plan_text.specs.PlainNamed.{expr_of};
ghost use Rattle.plan_text.specs.Canonical.{rule_of, call1_rule, form_of, form_in, form_rule, all_marks};
ghost use Rattle.plan_text.specs.Canonical.{between_mark, function_form, is_mark_of, calls};

use crate::{
    ATOM, CONJUNCTION, EXPRESSION, Infix, Mark, NEGATION, NamedExpr, Operator, SIGNED, Token, Word,
};
use scalar_ops::Op;

/// Each mark. Of `Minus` and `Sign`, which are one operator, `Minus` comes first.
const MARKS: [Mark; 16] = [
    Mark::Bar,
    Mark::Comma,
    Mark::Open,
    Mark::Close,
    Mark::Equal,
    Mark::NotEqual,
    Mark::Less,
    Mark::LessEqual,
    Mark::Greater,
    Mark::GreaterEqual,
    Mark::Plus,
    Mark::Minus,
    Mark::Sign,
    Mark::Times,
    Mark::Divide,
    Mark::Rest,
];

/// How an operation of two arguments is written: between them, before them as a function, or in no text.
#[derive(Clone, Copy, PartialEq, Eq)]
pub enum Form {
    Between(Mark, Infix),
    Function(Word),
    Nowhere,
}

/// The rule that spells the expression without parentheses around it.
pub fn rule_of(expr: &NamedExpr) -> u8
    ensures { result ≡ rule_of (expr_of expr.now) }
{
    match expr {
        NamedExpr::Call1 { op, arg: _ } => call1_rule(*op),
        NamedExpr::Binary {
            operator,
            left: _,
            right: _,
        } => operator_rule(*operator),
        NamedExpr::Column(_) | NamedExpr::Literal(_) | NamedExpr::If(_, _, _) => ATOM,
    }
}

fn operator_rule(operator: Operator) -> u8
    ensures { result ≡ form_rule (form_of operator) }
{
    match operator {
        Operator::Call(op) => Form::of(op).rule(),
        Operator::And => CONJUNCTION,
        Operator::Or => EXPRESSION,
    }
}

fn call1_rule(op: Op) -> u8
    ensures { result ≡ call1_rule op }
{
    match op {
        Op::Not => NEGATION,
        Op::Neg => SIGNED,
        _ => ATOM,
    }
}

impl Form {
    /// How an operation of two arguments is written: by the mark that is read as it, or else as a function.
    #[tactic(auto, unfolding(crate::specs::Canonical::call_form))]
    pub fn of(op: Op) -> Form
        ensures { form_in result ≡ form_of (operator.Call op) }
    {
        match mark_of(op) {
            Some(mark) => between(mark),
            None => function_form(op),
        }
    }

    fn rule(self) -> u8
        ensures { result ≡ form_rule (form_in self) }
    {
        match self {
            Form::Between(_, infix) => infix.rule,
            Form::Function(_) | Form::Nowhere => ATOM,
        }
    }
}

fn between(mark: Mark) -> Form
    ensures { form_in result ≡ between_mark mark (mark_infix mark) }
{
    match Token::Mark(mark).infix() {
        Some(infix) => Form::Between(mark, infix),
        None => Form::Nowhere,
    }
}

fn function_form(op: Op) -> Form
    ensures { form_in result ≡ function_form op }
{
    match op {
        Op::Starts => Form::Function(Word::Starts),
        Op::Least => Form::Function(Word::Least),
        Op::Most => Form::Function(Word::Most),
        _ => Form::Nowhere,
    }
}

/// The first mark that is read as the operation.
fn mark_of(op: Op) -> Option<Mark>
    ensures { result ≡ find (is_mark_of op) all_marks }
{
    let marks: [Mark; 16] = MARKS;
    first_mark(marks.as_slice(), op)
}

fn first_mark(marks: &[Mark], op: Op) -> Option<Mark>
    ensures { result ≡ find (is_mark_of op) marks.now }
{
    marks.iter().copied().find(|mark| is_mark_of(op, *mark))
}

fn is_mark_of(op: Op, mark: Mark) -> bool
    ensures { result ≡ is_mark_of op mark }
{
    match Token::Mark(mark).infix() {
        Some(infix) => calls(op, infix.operator),
        None => false,
    }
}

fn calls(op: Op, operator: Operator) -> bool
    ensures { result ≡ calls op operator }
{
    match operator {
        Operator::Call(other) => other.is_same(op),
        Operator::And | Operator::Or => false,
    }
}
