//! Cases of scripts: a case a line on standard input, and on standard output a line for each, what it gives.
//! A case is the word of its subject and then its arguments, of which a script is written as `case_text` reads it; or
//! it is a command line, whose first word is the program's own name. A line that is empty or begins with `#` is no
//! case.
#![tactic(auto)]

mod anew;
mod command_line;
mod generations;
mod jobs;
mod judging;
mod making;
mod meant;
mod plans;
mod runs;
mod single;
mod workload;

use anyhow::{Context, Result};
use case_text::cases::answer_each;
use std::alloc::Global;
use std::io;

fn main(rt: HostRuntime) -> io::Result<()> {
    answer_each(rt, answer)
}

/// What a case gives; a refusal is the error that its type prints.
fn answer(alloc: Global, case: &str) -> Result<String> {
    let (subject, arguments) = case.split_once(' ').unwrap_or((case, ""));
    match subject {
        "run" => single::run(alloc, arguments),
        "lengths" => single::lengths(alloc, arguments),
        "over-std" => single::over_std(alloc, arguments),
        "words" => single::words(alloc, arguments),
        "quiet" => single::quiet(alloc, arguments),
        "generate" => single::generate(alloc, arguments),
        "anew" => anew::anew(alloc, arguments),
        "taken" => anew::taken(alloc, arguments),
        "logs" => generations::logs(alloc, arguments),
        "loading" => generations::loading(alloc, arguments),
        "jobs" => jobs::jobs(alloc, arguments),
        "nectar" => command_line::read(alloc, case),
        "workload" => workload::workload(alloc, arguments),
        _ => None.context("no such subject"),
    }
}
