//! Expressions.
ghost use Rattle.std.specs.Prelude.{◌≡◌, ◌↔◌, IfOk, IsTrue};
ghost use Rattle.plan_core.specs.PlainExpr.{expr_of};

use rows_core::Memory;
use scalar_ops::Cell;
use std::alloc::Global;

/// An expression over a row. Contracts see it as `expr_of` says it, without its boxes.
#[derive(Debug, Drop)]
pub enum Expr {
    /// The value of a column, counted from 0.
    Column(u32),
    Literal(Cell),
    /// An operation of one argument, by the number of its row of `OPS`.
    Call1 {
        row: u32,
        arg: Box<Expr>,
    },
    /// An operation of two arguments, by the number of its row of `OPS`.
    Call2 {
        row: u32,
        left: Box<Expr>,
        right: Box<Expr>,
    },
    /// Its second part is evaluated only where the first is true.
    And(Box<Expr>, Box<Expr>),
    /// Its second part is evaluated only where the first is false.
    Or(Box<Expr>, Box<Expr>),
    /// A test, its value where the test is true, and its value where it is false. Only one of the two is
    /// evaluated.
    If(Box<Expr>, Box<Expr>, Box<Expr>),
}

impl Expr {
    /// A second expression that equals this one.
    pub fn try_copy(&self, alloc: Global) -> Result<Expr, Memory>
        ensures { IfOk result (λ copy. expr_of copy ≡ expr_of self.now) }
    {
        Ok(match self {
            Expr::Column(column) => Expr::Column(*column),
            Expr::Literal(cell) => Expr::Literal(cell.try_copy(alloc)?),
            Expr::Call1 { row, arg } => Expr::Call1 {
                row: *row,
                arg: Box::new(alloc, arg.try_copy(alloc)?)?,
            },
            Expr::Call2 { row, left, right } => Expr::Call2 {
                row: *row,
                left: Box::new(alloc, left.try_copy(alloc)?)?,
                right: Box::new(alloc, right.try_copy(alloc)?)?,
            },
            Expr::And(left, right) => Expr::And(
                Box::new(alloc, left.try_copy(alloc)?)?,
                Box::new(alloc, right.try_copy(alloc)?)?,
            ),
            Expr::Or(left, right) => Expr::Or(
                Box::new(alloc, left.try_copy(alloc)?)?,
                Box::new(alloc, right.try_copy(alloc)?)?,
            ),
            Expr::If(test, then, other) => Expr::If(
                Box::new(alloc, test.try_copy(alloc)?)?,
                Box::new(alloc, then.try_copy(alloc)?)?,
                Box::new(alloc, other.try_copy(alloc)?)?,
            ),
        })
    }

    /// Whether the two are equal.
    pub fn is_same(&self, other: &Expr) -> bool
        ensures { IsTrue result ↔ (expr_of self.now ≡ expr_of other.now) }
    {
        match (self, other) {
            (Expr::Column(column), Expr::Column(other)) => column == other,
            (Expr::Literal(cell), Expr::Literal(other)) => is_same_cell(cell, other),
            (
                Expr::Call1 { row, arg },
                Expr::Call1 {
                    row: other_row,
                    arg: other,
                },
            ) => row == other_row && arg.is_same(other),
            (
                Expr::Call2 { row, left, right },
                Expr::Call2 {
                    row: other_row,
                    left: other_left,
                    right: other_right,
                },
            ) => row == other_row && left.is_same(other_left) && right.is_same(other_right),
            (Expr::And(left, right), Expr::And(other_left, other_right))
            | (Expr::Or(left, right), Expr::Or(other_left, other_right)) => {
                left.is_same(other_left) && right.is_same(other_right)
            }
            (Expr::If(test, then, last), Expr::If(other_test, other_then, other_last)) => {
                test.is_same(other_test) && then.is_same(other_then) && last.is_same(other_last)
            }
            _ => false,
        }
    }
}

fn is_same_cell(cell: &Cell, other: &Cell) -> bool
    ensures { IsTrue result ↔ (cell.now ≡ other.now) }
{
    match (cell, other) {
        (Cell::Int(number), Cell::Int(other)) => number == other,
        (Cell::Text(text), Cell::Text(other)) => text.is_same(other),
        (Cell::Bool(truth), Cell::Bool(other)) => truth == other,
        _ => false,
    }
}
