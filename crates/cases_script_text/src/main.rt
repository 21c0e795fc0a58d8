//! Cases of the text of scripts and answers: a case a line on standard input, and on standard output a line
//! for each, what it gives. A case is the word of its subject and then its arguments, of which the last may be
//! a script, as `case_text` reads it. A line that is empty or begins with `#` is no case.
#![tactic(auto)]

mod answers;
mod reading;

use anyhow::{Context, Result};
use case_text::cases::answer_each;
use std::alloc::Global;
use std::io;

fn main(rt: HostRuntime) -> io::Result<()> {
    answer_each(rt, answer)
}

/// What a case gives; a refusal is the error that its type prints.
fn answer(alloc: Global, case: &str) -> Result<String> {
    let (subject, arguments) = case.split_once(' ').unwrap_or((case, ""));
    match subject {
        "spells" => reading::spells(alloc, arguments),
        "block" => reading::block(alloc, arguments),
        "answer" => answers::answer(alloc, arguments),
        "result" => answers::result(alloc, false, arguments),
        "quiet" => answers::result(alloc, true, arguments),
        _ => None.context("no such subject"),
    }
}
