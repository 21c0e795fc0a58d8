//! What is kept of a part of a plan while it is read, and of an expression.
ghost use Rattle.std.specs.Prelude.{◌≡◌, IfOk};
ghost use Rattle.plan_text.specs.PlainNamed.{expr_of, Call1, Binary, If};
ghost use Rattle.plan_text.specs.Draft.{limits, kept, counted, paired, seen, kept_one, with1, with2, with3};
ghost use Rattle.plan_text.specs.Reader.{Makes};

use crate::counts::{Counts, EXPR};
use crate::text_refusal::TextRefusal;
use crate::{NamedExpr, Operator};
use rows_core::Memory;
use scalar_ops::Op;
use std::alloc::Global;

/// A part of a plan and its counts. Where a count is above its limit, nothing of the part is kept; each count
/// stands still at one above its limit.
#[derive(Drop)]
pub struct Draft<T> {
    pub part: Option<T>,
    pub counts: Counts,
}

/// What is kept of an expression.
pub type ExprDraft = Draft<Box<NamedExpr>>;

impl<T: Drop> Draft<T> {
    /// The part where its counts are within the limits.
    fn kept(self) -> Draft<T>
        ensures { result ≡ kept limits self.part self.counts }
    {
        if self.counts.are_within() {
            self
        } else {
            Draft {
                part: None,
                counts: self.counts,
            }
        }
    }

    /// The part with more that counts.
    pub fn counting(self, more: Counts) -> Draft<T>
        ensures { result ≡ counted limits more self }
    {
        let Draft { part, counts } = self;
        let counts = more.plus(counts);
        Draft { part, counts }.kept()
    }

    /// This part and the other one as one.
    pub fn with<U: Drop>(self, other: Draft<U>) -> Draft<(T, U)>
        ensures { result ≡ paired limits self other }
    {
        let part = self.part.zip(other.part);
        let counts = self.counts.plus(other.counts);
        Draft { part, counts }.kept()
    }
}

/// The value in a box.
pub fn boxed<T: Drop>(alloc: Global, value: T) -> Result<Box<T>, Memory>
    ensures { IfOk result (λ b. b.value ≡ value) }
{
    Ok(Box::new(alloc, value)?)
}

/// An expression of one node.
pub fn one_node(alloc: Global, expr: NamedExpr) -> Result<ExprDraft, Memory>
    ensures { IfOk result (λ draft. seen draft ≡ kept_one limits (expr_of expr)) }
{
    let part = Some(boxed(alloc, expr)?);
    Ok(Draft { part, counts: EXPR })
}

/// An expression of one node, which is all that is read.
pub fn one(alloc: Global, expr: NamedExpr) -> Result<ExprDraft, TextRefusal>
    ensures { Makes seen result (kept_one limits (expr_of expr)) }
{
    Ok(one_node(alloc, expr)?)
}

/// The operation on the argument.
pub fn call1(alloc: Global, op: Op, arg: ExprDraft) -> Result<ExprDraft, TextRefusal>
    ensures { Makes seen result (with1 limits (Call1 op) (seen arg)) }
{
    let Draft { part, counts } = arg.counting(EXPR);
    let Some(arg) = part else {
        return Ok(Draft { part: None, counts });
    };
    let part = Some(boxed(alloc, NamedExpr::Call1 { op, arg })?);
    Ok(Draft { part, counts })
}

/// What the operator makes of the operands.
pub fn join(
    alloc: Global,
    operator: Operator,
    left: ExprDraft,
    right: ExprDraft,
) -> Result<ExprDraft, TextRefusal>
    ensures { Makes seen result (with2 limits (Binary operator) (seen left) (seen right)) }
{
    let Draft { part, counts } = left.with(right).counting(EXPR);
    let Some((left, right)) = part else {
        return Ok(Draft { part: None, counts });
    };
    let part = Some(boxed(
        alloc,
        NamedExpr::Binary {
            operator,
            left,
            right,
        },
    )?);
    Ok(Draft { part, counts })
}

/// The choice by the test.
pub fn choice(
    alloc: Global,
    test: ExprDraft,
    first: ExprDraft,
    last: ExprDraft,
) -> Result<ExprDraft, TextRefusal>
    ensures { Makes seen result (with3 limits If (seen test) (seen first) (seen last)) }
{
    let Draft { part, counts } = test.with(first.with(last)).counting(EXPR);
    let Some((test, (first, last))) = part else {
        return Ok(Draft { part: None, counts });
    };
    let part = Some(boxed(alloc, NamedExpr::If(test, first, last))?);
    Ok(Draft { part, counts })
}
