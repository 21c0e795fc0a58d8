//! Operators between operands and before one, with the rules that have them.
ghost use Rattle.std.specs.Prelude.{◌≡◌, ◌<◌, IfSome};
ghost use Rattle.plan_text.specs.Operators.{infix_of, mark_infix, prefix_of};
ghost use Rattle.plan_text.specs.Operators.{comparing, summing, multiplying};

use crate::token::{Mark, Token, Word};
use scalar_ops::Op;

/// The rules of expressions, by how loosely they bind.
pub const ATOM: u8 = 0;

pub const SIGNED: u8 = 1;

pub const PRODUCT: u8 = 2;

pub const SUM: u8 = 3;

pub const COMPARISON: u8 = 4;

pub const NEGATION: u8 = 5;

pub const CONJUNCTION: u8 = 6;

pub const EXPRESSION: u8 = 7;

/// What makes one of two operands: an operation of two arguments, `and` or `or`.
#[derive(Clone, Copy, PartialEq, Eq)]
pub enum Operator {
    Call(Op),
    And,
    Or,
}

/// An operator between two operands, with the rule that has it and those of the operands.
#[derive(Clone, Copy, PartialEq, Eq)]
pub struct Infix {
    pub rule: u8,
    pub left: u8,
    pub right: u8,
    pub operator: Operator,
}

/// An operation before its operand, with the rule of both.
#[derive(Clone, Copy, PartialEq, Eq)]
pub struct Prefix {
    pub rule: u8,
    pub op: Op,
}

impl Token {
    /// The operator between operands that the token is.
    pub fn infix(&self) -> Option<Infix>
        ensures operator { result ≡ infix_of self.now }
        ensures right { IfSome result (λ o. o.right < o.rule) }
    {
        match self {
            Token::Word(Word::Or) => Some(Infix {
                rule: EXPRESSION,
                left: EXPRESSION,
                right: CONJUNCTION,
                operator: Operator::Or,
            }),
            Token::Word(Word::And) => Some(Infix {
                rule: CONJUNCTION,
                left: CONJUNCTION,
                right: NEGATION,
                operator: Operator::And,
            }),
            Token::Mark(mark) => mark_infix(*mark),
            _ => None,
        }
    }

    /// The operation before an operand that the token is.
    pub fn prefix(&self) -> Option<Prefix>
        ensures { result ≡ prefix_of self.now }
    {
        match self {
            Token::Word(Word::Not) => Some(Prefix {
                rule: NEGATION,
                op: Op::Not,
            }),
            Token::Mark(Mark::Minus) => Some(Prefix {
                rule: SIGNED,
                op: Op::Neg,
            }),
            _ => None,
        }
    }
}

fn mark_infix(mark: Mark) -> Option<Infix>
    ensures operator { result ≡ mark_infix mark }
    ensures right { IfSome result (λ o. o.right < o.rule) }
{
    match mark {
        Mark::Equal => Some(comparing(Op::Eq)),
        Mark::NotEqual => Some(comparing(Op::Ne)),
        Mark::Less => Some(comparing(Op::Lt)),
        Mark::LessEqual => Some(comparing(Op::Le)),
        Mark::Greater => Some(comparing(Op::Gt)),
        Mark::GreaterEqual => Some(comparing(Op::Ge)),
        Mark::Plus => Some(summing(Op::Add)),
        Mark::Minus | Mark::Sign => Some(summing(Op::Sub)),
        Mark::Times => Some(multiplying(Op::Mul)),
        Mark::Divide => Some(multiplying(Op::Div)),
        Mark::Rest => Some(multiplying(Op::Mod)),
        _ => None,
    }
}

/// The comparison: operands without another comparison between them.
pub fn comparing(op: Op) -> Infix
    ensures { result ≡ comparing op }
{
    Infix {
        rule: COMPARISON,
        left: SUM,
        right: SUM,
        operator: Operator::Call(op),
    }
}

/// The sum or difference, to the left.
pub fn summing(op: Op) -> Infix
    ensures { result ≡ summing op }
{
    Infix {
        rule: SUM,
        left: SUM,
        right: PRODUCT,
        operator: Operator::Call(op),
    }
}

/// The product, quotient or rest, to the left.
pub fn multiplying(op: Op) -> Infix
    ensures { result ≡ multiplying op }
{
    Infix {
        rule: PRODUCT,
        left: PRODUCT,
        right: SIGNED,
        operator: Operator::Call(op),
    }
}
