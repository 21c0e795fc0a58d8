//! Cases of the operators on lists of rows: a case a line on standard input, and on standard output a line for
//! each, what the operator gives. A case is the operator's word and its arguments, and behind ` | ` each list
//! of rows: its kinds, as `int,text`, and then its rows. A line that is empty or begins with `#` is no case.
#![tactic(auto)]

mod fed;
mod given;
mod groups;
mod joins;
mod rows;
mod shown;
mod typing;

use anyhow::{Context, Result};
use case_text::cases::answer_each;
use postfix_plans::streams_of;
use std::alloc::Global;
use std::io;

fn main(rt: HostRuntime) -> io::Result<()> {
    answer_each(rt, answer)
}

/// What the operator gives; a refusal is the error that its type prints.
fn answer(alloc: Global, case: &str) -> Result<String> {
    let (subject, lists) = case.split_once(" | ").context("no rows")?;
    let (word, arguments) = subject.split_once(' ').unwrap_or((subject, ""));
    let lists = streams_of(alloc, lists)?;
    match word {
        "fold" => groups::folded(alloc, arguments, &lists),
        "group" => groups::finished(alloc, arguments, &lists),
        "grow" => groups::merged(alloc, arguments, &lists),
        "groups" => fed::groups(alloc, arguments, &lists),
        "seen" => fed::seen(alloc, lists.rows),
        "join" => joins::joined(alloc, arguments, &lists),
        "more_rights" => joins::with_more_rights(alloc, arguments, &lists),
        "more_lefts" => joins::with_more_lefts(alloc, arguments, &lists),
        _ => rows::answer(alloc, word, arguments, lists),
    }
}
