//! What a case is given.

use anyhow::{Context, Result};
use plan_core::{Schemas, Typed};
use postfix_plans::{ExtentLens, ListedResult, ResultList, cuts_of, plan_of, typed_of};
use rows_core::{Cut, Kind, Seq};
use std::alloc::Global;

/// A plan with its typing, a cut, the kept results and the lengths of extents.
#[derive(Drop)]
pub struct Case {
    pub typed: Typed,
    pub cuts: Seq<Cut>,
    pub kept: ResultList,
    pub extents: ExtentLens,
}

/// The case that is written so. Each stream has a number and a text.
pub fn case_of(alloc: Global, text: &str) -> Result<Case> {
    let (plan, others) = text.split_once(" | ").context("no extents")?;
    let (extents, others) = others.split_once(" | ").context("no cut")?;
    let (cuts, kept) = others.split_once(" | ").unwrap_or((others, ""));
    let extents = extents_of(alloc, extents)?;
    let schemas = schemas_of(alloc, extents.lens.items().len())?;
    let cuts = cuts_of(alloc, cuts)?;
    let kept = kept_of(alloc, kept)?;
    let typed = typed_of(alloc, plan, &schemas)?;
    Ok(Case {
        typed,
        cuts,
        kept,
        extents,
    })
}

fn schemas_of(alloc: Global, count: usize) -> Result<Schemas> {
    let mut kinds = Vec::new(alloc);
    for _ in 0..count {
        kinds.push(number_and_text(alloc)?)?;
    }
    let kinds = Seq::new(kinds);
    Ok(Schemas { kinds })
}

fn number_and_text(alloc: Global) -> Result<Seq<Kind>> {
    let mut kinds = Vec::new(alloc);
    kinds.push(Kind::Int)?;
    kinds.push(Kind::Text)?;
    Ok(Seq::new(kinds))
}

/// The lengths of the extents of streams, as `64,32;100`.
fn extents_of(alloc: Global, text: &str) -> Result<ExtentLens> {
    let mut lens = Vec::new(alloc);
    for stream in text.split(';') {
        lens.push(lens_of(alloc, stream)?)?;
    }
    Ok(ExtentLens {
        lens: Seq::new(lens),
    })
}

fn lens_of(alloc: Global, text: &str) -> Result<Seq<u64>> {
    let mut lens = Vec::new(alloc);
    for len in text.split(',') {
        lens.push(len.parse::<u64>().ok().context("no length")?)?;
    }
    Ok(Seq::new(lens))
}

fn kept_of(alloc: Global, text: &str) -> Result<ResultList> {
    let mut results = Vec::new(alloc);
    for line in text.split(" | ").filter(|line| !line.is_empty()) {
        results.push(result_of(alloc, line)?)?;
    }
    Ok(ResultList { results })
}

/// A kept result: its id, the length of its file, its cut and its plan, as `7 48 0-1 s0 distinct`.
fn result_of(alloc: Global, text: &str) -> Result<ListedResult> {
    let (id, others) = text.split_once(' ').context("no length")?;
    let (len, others) = others.split_once(' ').context("no cut")?;
    let (cuts, plan) = others.split_once(' ').context("no plan")?;
    let id = id.parse::<u32>().ok().context("no id")?;
    let len = len.parse::<u64>().ok().context("no length")?;
    let cuts = cuts_of(alloc, cuts)?;
    let plan = plan_of(alloc, plan)?;
    Ok(ListedResult {
        id,
        plan,
        cuts,
        len,
    })
}
