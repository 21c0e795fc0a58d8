//! Cases of hostile folders and outsides: a case a line on standard input, and on standard output a line for each, what
//! it gives. A case is the word of its subject and then its arguments, of which each script is read by `case_text`. A
//! line that is empty or begins with `#` is no case.
//!
//! Folders are given byte for byte, or are those of worked scripts with files damaged or logs changed; and runs are
//! stopped, the outside fails at one of their calls, or files lie in the folder that nothing names.
//!
//! Logs are read a second time by a plain reader (`logs.rt`): it goes over their bytes from the front, as
//! `docs/FORMATS.md` has them, and tells what the catalogue then holds, or the first place at which they aren't
//! those of a folder. It is written apart from the crates that loading stands on.
#![tactic(auto)]

mod changed;
mod checks;
mod damaged;
mod failing;
mod folders;
mod logs;
mod many;
mod older;
mod outages;
mod performed;
mod plans;
mod reader;
mod runs;
mod strays;
mod table;
mod typing;
mod watched;
mod worked;

use anyhow::{Context, Result};
use case_text::cases::answer_each;
use outages::Outage;
use std::alloc::Global;
use std::io;

fn main(rt: HostRuntime) -> io::Result<()> {
    answer_each(rt, answer)
}

/// What a case gives; a refusal is the error that its type prints.
fn answer(alloc: Global, case: &str) -> Result<String> {
    let (subject, arguments) = case.split_once(' ').unwrap_or((case, ""));
    match subject {
        "folder" => folders::folder(alloc, arguments),
        "older" => older::older(alloc, arguments),
        "changed" => changed::changed(alloc, arguments),
        "many-results" => many::many_results(alloc, arguments),
        "damaged-file" => damaged::damaged_file(alloc, arguments),
        "damaged-results" => damaged::damaged_results(alloc, arguments),
        "stops" => outages::tell(alloc, Outage::Stops, arguments),
        "once" => outages::tell(alloc, Outage::Once, arguments),
        "reads" => outages::tell(alloc, Outage::Reads(1), arguments),
        "whole-reads" => outages::tell(alloc, Outage::Reads(usize::MAX), arguments),
        "writes" => outages::tell(alloc, Outage::Writes, arguments),
        "looks" => outages::looks(alloc, arguments),
        "unremoved" => strays::unremoved(alloc, arguments),
        "strays" => strays::strays(alloc, arguments),
        _ => None.context("no such subject"),
    }
}
