//! Cases of names, texts, values, rows and row lines: a case a line on standard input, and on standard output
//! a line for each, what it gives. A case is the word of its subject and then its arguments; behind a word
//! with `-hex` the arguments stand in hex. A line that is empty or begins with `#` is no case.
#![tactic(auto)]

mod names;
mod row_lines;
mod rows;
mod schemas;
mod texts;

use anyhow::{Context, Result};
use case_text::cases::answer_each;
use std::alloc::Global;
use std::io;

fn main(rt: HostRuntime) -> io::Result<()> {
    answer_each(rt, answer)
}

fn answer(alloc: Global, case: &str) -> Result<String> {
    let (subject, arguments) = case.split_once(' ').unwrap_or((case, ""));
    match subject.split_once('-') {
        Some((subject, "hex")) => {
            let bytes = hex::decode(alloc, arguments)?;
            answer_on(alloc, subject, bytes.as_slice())
        }
        _ => answer_on(alloc, subject, arguments.as_bytes()),
    }
}

/// What the case of this subject gives; a refusal is the error that its type prints.
fn answer_on(alloc: Global, subject: &str, arguments: &[u8]) -> Result<String> {
    match subject {
        "kind" => names::kind(alloc, arguments),
        "name" => names::name(alloc, arguments),
        "names" => names::names(alloc, arguments),
        "text" => texts::text(alloc, arguments),
        "schema" => schemas::schema(alloc, arguments),
        "admits" => schemas::admits(alloc, arguments),
        "same" => rows::same(alloc, arguments),
        "order" => rows::order(alloc, arguments),
        "cuts" => rows::cuts(alloc, arguments),
        "digests" => rows::digests(alloc, arguments),
        "line" => row_lines::line(alloc, arguments),
        _ => None.context("no such subject"),
    }
}
