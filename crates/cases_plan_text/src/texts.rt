//! Texts of expressions and of plans, with the canonical texts of what they spell.

use anyhow::Result;
use plan_text::{
    NamedExpr, NamedPlan, PlanLimit, TextRefusal, parse_expr, parse_plan, print_expr, print_plan,
};
use std::alloc::Global;

/// The canonical text of the expression, or why there is none.
pub fn expr(alloc: Global, text: &[u8]) -> Result<String> {
    match parse_expr(alloc, text) {
        Ok(expr) => expr_printed(alloc, text, &expr),
        Err(refusal) => refused(alloc, refusal),
    }
}

fn expr_printed(alloc: Global, text: &[u8], expr: &NamedExpr) -> Result<String> {
    let canonical = print_expr(alloc, expr)?;
    printed(alloc, text, canonical.as_slice())
}

/// The canonical text of the plan, or why there is none.
pub fn plan(alloc: Global, text: &[u8]) -> Result<String> {
    match parse_plan(alloc, text) {
        Ok(plan) => plan_printed(alloc, text, &plan),
        Err(refusal) => refused(alloc, refusal),
    }
}

fn plan_printed(alloc: Global, text: &[u8], plan: &NamedPlan) -> Result<String> {
    let canonical = print_plan(alloc, plan)?;
    printed(alloc, text, canonical.as_slice())
}

/// Whether the text is an expression, or why not.
pub fn reads_expr(alloc: Global, text: &[u8]) -> Result<String> {
    match parse_expr(alloc, text) {
        Ok(_) => word(alloc, "ok"),
        Err(refusal) => refused(alloc, refusal),
    }
}

/// Whether the text is a plan, or why not.
pub fn reads(alloc: Global, text: &[u8]) -> Result<String> {
    match parse_plan(alloc, text) {
        Ok(_) => word(alloc, "ok"),
        Err(refusal) => refused(alloc, refusal),
    }
}

pub fn word(alloc: Global, word: &str) -> Result<String> {
    Ok(String::from_str(alloc, word)?)
}

/// The canonical text, or `same` where the case's text is canonical.
fn printed(alloc: Global, text: &[u8], canonical: &[u8]) -> Result<String> {
    if canonical == text {
        return word(alloc, "same");
    }
    word(alloc, std::str::from_utf8(canonical)?)
}

pub fn refused(alloc: Global, refusal: TextRefusal) -> Result<String> {
    let refused = match refusal {
        TextRefusal::Syntax => "refused syntax",
        TextRefusal::Limit { what } => match what {
            PlanLimit::Nodes => "refused nodes",
            PlanLimit::Wide => "refused wide",
            PlanLimit::Exprs => "refused exprs",
        },
        TextRefusal::Memory => "refused memory",
    };
    word(alloc, refused)
}
