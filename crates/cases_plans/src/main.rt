//! Cases of the scalar table, expressions, plans and their rows: a case a line on standard input, and on
//! standard output a line for each, what it gives. A case is the word of its subject and then its arguments;
//! `postfix_plans` says how expressions and plans are written. A line that is empty or begins with `#` is no
//! case.
#![tactic(auto)]

mod given;
mod scalars;
mod shown;
mod typing;
mod values;

use anyhow::{Context, Result};
use case_text::cases::answer_each;
use std::alloc::Global;
use std::io;

fn main(rt: HostRuntime) -> io::Result<()> {
    answer_each(rt, answer)
}

/// What the case gives; a refusal is the error that its type prints.
fn answer(alloc: Global, case: &str) -> Result<String> {
    let (subject, arguments) = case.split_once(' ').unwrap_or((case, ""));
    match subject {
        "find" => scalars::find(alloc, arguments),
        "cell" => scalars::cell(alloc, arguments),
        "value" => values::value(alloc, arguments),
        "typed" => typing::typed(alloc, arguments),
        "leaves" => typing::leaves(alloc, arguments),
        "same" => typing::same(alloc, arguments),
        "rows" => given::rows(alloc, arguments),
        _ => None.context("no such subject"),
    }
}
