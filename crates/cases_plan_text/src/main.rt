//! Cases of the text of plans: a case a line on standard input, and on standard output a line for each, what
//! it gives. A case is the word of its subject and then a text, in which `{N PART}` stands for N times the
//! part. A line that is empty or begins with `#` is no case.
#![tactic(auto)]

mod bindings;
mod generator;
mod texts;

use anyhow::{Context, Result};
use case_text::cases::answer_each;
use std::alloc::Global;
use std::io;

fn main(rt: HostRuntime) -> io::Result<()> {
    answer_each(rt, answer)
}

/// What the case gives.
fn answer(alloc: Global, case: &str) -> Result<String> {
    let (subject, short) = case.split_once(' ').unwrap_or((case, ""));
    let text = generator::expanded(alloc, short)?;
    match subject {
        "expr" => texts::expr(alloc, text.as_bytes()),
        "plan" => texts::plan(alloc, text.as_bytes()),
        "reads_expr" => texts::reads_expr(alloc, text.as_bytes()),
        "reads" => texts::reads(alloc, text.as_bytes()),
        "bind" => bindings::bind(alloc, text.as_bytes()),
        "typing" => bindings::typing(alloc, text.as_bytes()),
        _ => None.context("no such subject"),
    }
}
