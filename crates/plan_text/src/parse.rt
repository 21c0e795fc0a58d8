//! How a whole text is read.
ghost use Rattle.std.specs.Prelude.{◌≡◌, ◌<◌, ◌≤◌, IfOk, IsErrOf};
ghost use Rattle.plan_text.specs.declared.limit.PlanLimit.{PlanLimit};
ghost use Rattle.plan_text.specs.PlainNamed.{PlainExpr, PlainTree, expr_of, tree_of};
ghost use Rattle.plan_text.specs.Counts.{expr_nodes, IsFirstPassed, IsWithinLimits};
ghost use Rattle.plan_text.specs.Spelled.{SpellsExpr, SpellsText};
ghost use Rattle.plan_text.specs.Answer.{Means, whole_reading, text_reading, expr_reading};
ghost use Rattle.plan_text.specs.Draft.{limits};
ghost use Rattle.plan_text.specs.PlanReading.{plan_at};
ghost use Rattle.plan_text.specs.Reading.{expr_at, inner};

use crate::parser::Parser;
use crate::text_refusal::TextRefusal;
use crate::tokenizer::tokens_of;
use crate::{NamedExpr, NamedPlan, NamedTree, PlanLimit, Token};
use std::alloc::Global;

/// How many levels of nesting may be open at once: each parenthesis, `not` and `-` before an operand is one.
const MAX_LEVELS: u32 = 32;

/// The plan that a text spells, with spaces before, between and behind its tokens: `Syntax` exactly where it
/// spells none, else `Limit` exactly where the plan as written has more than 40 nodes, more than 8 wide ones
/// or more than 512 expression nodes, with the first of these. `Memory` may come in place of any of these,
/// where memory was asked for and refused. The grammar and the limits are this project's own. No text spells
/// two plans, as `one_plan` says; `reading` says the same of the text by a function of its bytes.
pub fn parse_plan(alloc: Global, text: &[u8]) -> Result<NamedPlan, TextRefusal>
    ensures reading { Means (λ plan. plan) result (text_reading text.now) }
    ensures found { IfOk result (λ plan. SpellsText plan text.now × IsWithinLimits plan) }
    ensures syntax { IsErrOf result TextRefusal.Syntax → ((plan : PlainTree) → SpellsText plan text.now → ⊥) }
    ensures limit { (what : PlanLimit) → IsErrOf result (TextRefusal.Limit what) →
        ((plan : PlainTree) × SpellsText plan text.now × IsFirstPassed what plan) }
{
    plan_of_text(alloc, text)
}

/// The plan that a text is read as.
fn plan_of_text(alloc: Global, text: &[u8]) -> Result<NamedPlan, TextRefusal>
    ensures { Means (λ plan. plan) result (text_reading text.now) }
{
    let tree = tree_of_text(alloc, text)?;
    Ok(NamedPlan::new(alloc, tree)?)
}

/// The operators of the plan that a text spells.
fn tree_of_text(alloc: Global, text: &[u8]) -> Result<NamedTree, TextRefusal>
    ensures { Means tree_of result (text_reading text.now) }
{
    match tokens_of(alloc, text)? {
        Some(tokens) => whole_plan(alloc, tokens.as_slice()),
        None => Err(TextRefusal::Syntax),
    }
}

/// The expression that a text spells, with spaces before, between and behind its tokens: `Syntax` exactly
/// where it spells none, else `Limit` exactly where it has more than 512 nodes. `Memory` may come in place of
/// either, where memory was asked for and refused. The grammar and the limit are this project's own.
pub fn parse_expr(alloc: Global, text: &[u8]) -> Result<NamedExpr, TextRefusal>
    ensures reading { Means expr_of result (expr_reading text.now) }
    ensures found { IfOk result (λ e. SpellsExpr (expr_of e) text.now × (expr_nodes (expr_of e) ≤ 512)) }
    ensures syntax { IsErrOf result TextRefusal.Syntax → ((e : PlainExpr) → SpellsExpr e text.now → ⊥) }
    ensures limit { (what : PlanLimit) → IsErrOf result (TextRefusal.Limit what) →
        (what ≡ PlanLimit.Exprs) × ((e : PlainExpr) × SpellsExpr e text.now × (512 < expr_nodes e)) }
{
    expr_of_text(alloc, text)
}

/// The expression that a text is read as.
fn expr_of_text(alloc: Global, text: &[u8]) -> Result<NamedExpr, TextRefusal>
    ensures { Means expr_of result (expr_reading text.now) }
{
    match tokens_of(alloc, text)? {
        Some(tokens) => whole_expr(alloc, tokens.as_slice()),
        None => Err(TextRefusal::Syntax),
    }
}

/// The expression that the tokens are.
fn whole_expr(alloc: Global, tokens: &[Token]) -> Result<NamedExpr, TextRefusal>
    ensures { Means expr_of result (whole_reading (expr_at limits (inner limits 32) tokens.now)) }
{
    let mut parser = Parser::new(alloc, tokens);
    let draft = parser.expr(MAX_LEVELS)?;
    if !parser.is_at_end() {
        return Err(TextRefusal::Syntax);
    }
    match draft.part {
        Some(part) => Ok(Box::into_inner(part)),
        None => Err(TextRefusal::Limit {
            what: draft.counts.first_above(),
        }),
    }
}

/// The plan that the tokens are.
fn whole_plan(alloc: Global, tokens: &[Token]) -> Result<NamedTree, TextRefusal>
    ensures { Means tree_of result (whole_reading (plan_at limits 32 tokens.now)) }
{
    let mut parser = Parser::new(alloc, tokens);
    let draft = parser.plan(MAX_LEVELS)?;
    if !parser.is_at_end() {
        return Err(TextRefusal::Syntax);
    }
    match draft.part {
        Some(part) => Ok(Box::into_inner(part)),
        None => Err(TextRefusal::Limit {
            what: draft.counts.first_above(),
        }),
    }
}
