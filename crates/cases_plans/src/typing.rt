//! Typing of plans, their leaves and their equality. The parts of a case stand behind ` | `.

use crate::shown::{kinds_shown, numbers_shown};
use anyhow::{Context, Result};
use plan_core::{Plan, Schemas, Typed, type_plan};
use postfix_plans::{kinds_of, plan_of};
use rows_core::Seq;
use std::alloc::Global;

/// The kinds and the leaves of a plan over streams whose kinds stand behind it, as `int,text`.
pub fn typed(alloc: Global, text: &str) -> Result<String> {
    let (plan, streams) = text.split_once(" | ").unwrap_or((text, ""));
    let schemas = schemas_of(alloc, streams)?;
    let plan = plan_of(alloc, plan)?;
    typed_over(alloc, &plan, &schemas)
}

fn schemas_of(alloc: Global, streams: &str) -> Result<Schemas> {
    let mut schemas = Vec::new(alloc);
    for stream in streams.split(" | ") {
        schemas.push(Seq::new(kinds_of(alloc, stream)?))?;
    }
    let kinds = Seq::new(schemas);
    Ok(Schemas { kinds })
}

fn typed_over(alloc: Global, plan: &Plan, schemas: &Schemas) -> Result<String> {
    let typed = type_plan(alloc, plan.try_copy(alloc)?, schemas)?;
    let shown = typing_shown(alloc, &typed)?;
    let is_same = typed.into_plan().is_same(plan);
    let same = if is_same { "" } else { ", and of another plan" };
    Ok(format!(in alloc; "{shown}{same}")?)
}

fn typing_shown(alloc: Global, typed: &Typed) -> Result<String> {
    let kinds = kinds_shown(alloc, typed.kinds())?;
    let leaves = numbers_shown(alloc, typed.leaves())?;
    Ok(format!(in alloc; "{kinds} from {leaves}")?)
}

/// The leaves of a plan, read from a copy of it.
pub fn leaves(alloc: Global, text: &str) -> Result<String> {
    let plan = plan_of(alloc, text)?;
    leaves_of_copy(alloc, &plan)
}

fn leaves_of_copy(alloc: Global, plan: &Plan) -> Result<String> {
    let copy = plan.try_copy(alloc)?;
    leaves_shown(alloc, &copy)
}

fn leaves_shown(alloc: Global, plan: &Plan) -> Result<String> {
    numbers_shown(alloc, &plan.leaves(alloc)?)
}

/// Whether a copy of the first plan is the second one.
pub fn same(alloc: Global, text: &str) -> Result<String> {
    let (first, second) = text.split_once(" | ").context("no second plan")?;
    let answer = if are_same(alloc, first, second)? {
        "the same"
    } else {
        "others"
    };
    Ok(String::from_str(alloc, answer)?)
}

fn are_same(alloc: Global, first: &str, second: &str) -> Result<bool> {
    let first = plan_of(alloc, first)?;
    is_copy_of(alloc, &first, second)
}

fn is_copy_of(alloc: Global, plan: &Plan, text: &str) -> Result<bool> {
    let copy = plan.try_copy(alloc)?;
    is_written(alloc, &copy, text)
}

fn is_written(alloc: Global, plan: &Plan, text: &str) -> Result<bool> {
    let written = plan_of(alloc, text)?;
    Ok(plan.is_same(&written))
}
