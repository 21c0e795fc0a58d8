//! Expressions with names.

use crate::operator::Operator;
use rows_core::Name;
use scalar_ops::{Cell, Op};

/// An expression over the columns of an operator's input, which it names. Contracts see it as `expr_of` says
/// it, without its boxes.
#[derive(Drop)]
pub enum NamedExpr {
    Column(Name),
    Literal(Cell),
    /// An operation of one argument, whatever the argument's kind.
    Call1 {
        op: Op,
        arg: Box<NamedExpr>,
    },
    /// An operator on two operands, whatever their kinds.
    Binary {
        operator: Operator,
        left: Box<NamedExpr>,
        right: Box<NamedExpr>,
    },
    If(Box<NamedExpr>, Box<NamedExpr>, Box<NamedExpr>),
}
