//! The rows of a plan and of its normal plan.
ghost use Rattle.plan_core.specs.TypedPlan.{IsTypedOver};

use crate::forms::{is_written, normal_of};
use anyhow::{Context, Result};
use plan_core::Typed;
use postfix_plans::{Streams, rows_of, streams_of, typed_of};
use std::alloc::Global;

/// The rows that the plan gives, behind `same` where its normal plan gives the same, behind `normal` where it
/// is its normal plan; and behind `other`, with what the normal plan gives.
pub fn compared(alloc: Global, case: &str) -> Result<String> {
    let (plan, streams) = case.split_once(" | ").context("no streams")?;
    let streams = streams_of(alloc, streams)?;
    compared_on(alloc, plan, &streams)
}

fn compared_on(alloc: Global, plan: &str, streams: &Streams) -> Result<String> {
    let rows = own_rows(alloc, plan, streams)?;
    let normal = normal_of(alloc, plan, &streams.schemas)?;
    beside(alloc, &rows, &normal, plan, streams)
}

/// The rows that the plan itself gives.
fn own_rows(alloc: Global, plan: &str, streams: &Streams) -> Result<String> {
    let typed = typed_of(alloc, plan, &streams.schemas)?;
    shown(alloc, rows_of(alloc, &typed, streams))
}

fn beside(
    alloc: Global,
    rows: &str,
    normal: &Typed,
    plan: &str,
    streams: &Streams,
) -> Result<String>
    requires { IsTypedOver streams.now.schemas.kinds normal.now }
{
    let others = shown(alloc, rows_of(alloc, normal, streams))?;
    if rows != others.as_str() {
        return Ok(format!(in alloc; "other: {rows}, and {others}")?);
    }
    let word = if is_written(alloc, normal.plan(), plan)? {
        "normal"
    } else {
        "same"
    };
    Ok(format!(in alloc; "{word}: {rows}")?)
}

/// The rows, that there are none, or the refusal.
fn shown(alloc: Global, rows: Result<String>) -> Result<String> {
    match rows {
        Ok(rows) if rows.is_empty() => Ok(String::from_str(alloc, "no rows")?),
        Ok(rows) => Ok(rows),
        Err(refusal) => Ok(format!(in alloc; "{refusal}")?),
    }
}
