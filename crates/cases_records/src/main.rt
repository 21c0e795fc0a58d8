//! Cases of the bytes of changes, and of keys: a case a line on standard input, and on standard output what
//! it gives. A case is the word of its subject and then its arguments, bytes in hex. A line that is empty or
//! begins with `#` is no case.
//!
//! FORM is `first` or `second`, the form in which changes are read.
//!
//! - `change FORM BYTES`: the change that is read.
//! - `bytes FORM BYTES`: the bytes are read, and their change is spelled again; or where reading stops.
//! - `prefixes FORM BYTES`: whether each prefix of the bytes stops at its end.
//! - `edits FORM BYTES`: for each byte, what reading gives with each of 256 bytes in its place (`edits.rt`).
//! - `nested FORM N FRONT BACK`: N times `Distinct` between the bytes, read as `bytes` reads them.
//! - `form BYTES`: the form of a log whose first body has these bytes.
//! - `program PLAN`: the key of the plan with these bytes.
//! - `data PROGRAM CHAINS`: the key of a program key over chains, one behind the other.
//! - `chain EXTENTS`: the chain of a stream with these extents, one behind the other.
#![tactic(auto)]

mod edits;
mod keys;
mod reading;

use anyhow::{Context, Result};
use case_text::cases::answer_each;
use std::alloc::Global;
use std::io;

fn main(rt: HostRuntime) -> io::Result<()> {
    answer_each(rt, answer)
}

/// What the case gives; a refusal is the error that its type prints.
fn answer(alloc: Global, case: &str) -> Result<String> {
    let (subject, arguments) = case.split_once(' ').unwrap_or((case, ""));
    match subject {
        "change" => reading::change(alloc, arguments),
        "bytes" => reading::bytes(alloc, arguments),
        "prefixes" => reading::prefixes(alloc, arguments),
        "edits" => edits::edits(alloc, arguments),
        "nested" => reading::nested(alloc, arguments),
        "form" => reading::form(alloc, arguments),
        "program" => keys::program(alloc, arguments),
        "data" => keys::data(alloc, arguments),
        "chain" => keys::chain(alloc, arguments),
        _ => None.context("no such subject"),
    }
}
