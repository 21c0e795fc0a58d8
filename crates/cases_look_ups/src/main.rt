//! Cases of look-ups: a case a line on standard input, and on standard output a line for each, what it gives.
//! A case is a plan (`postfix_plans` says how plans are written), a cut, the ids that are left out, and the
//! kept results, with ` | ` between them. The answer is the result of the plan and cut and the earlier one,
//! each by its id and the length of its file. A case that begins with `index` tells steps of the index. A line
//! that is empty or begins with `#` is no case.
#![tactic(auto)]

mod given;
mod indexing;

use anyhow::Result;
use cache_index::View;
use case_text::cases::answer_each;
use given::{Case, case_of};
use indexing::indexed;
use rewrite_core::{Hit, Lookup};
use std::alloc::Global;
use std::io;

fn main(rt: HostRuntime) -> io::Result<()> {
    answer_each(rt, answer)
}

fn answer(alloc: Global, case: &str) -> Result<String> {
    match case.strip_prefix("index ") {
        Some(steps) => indexed(alloc, steps),
        None => looked_up(alloc, &case_of(alloc, case)?),
    }
}

fn looked_up(alloc: Global, case: &Case) -> Result<String> {
    let view = View::new(&case.entries, &case.without);
    let cuts = case.cuts.items();
    let whole = shown(alloc, &view.whole(alloc, &case.plan, cuts)?)?;
    let earlier = shown(alloc, &view.earlier(alloc, &case.plan, cuts)?)?;
    Ok(format!(in alloc; "whole {whole}, earlier {earlier}")?)
}

fn shown(alloc: Global, hit: &Option<Hit>) -> Result<String> {
    match hit {
        Some(hit) => Ok(format!(in alloc; "{} of {}", hit.id, hit.len)?),
        None => Ok(String::from_str(alloc, "none")?),
    }
}
