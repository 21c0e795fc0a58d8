//! Cases of the extent files, the log, the journal, and the store, source and sink in memory: a case a line
//! on standard input, and on standard output a line for each, what it gives. A case is the word of its
//! subject and then its arguments, words with a space between them, bytes in hex and `-` for none. A line
//! that is empty or begins with `#` is no case.
#![tactic(auto)]

mod crashes;
mod files;
mod journals;
mod logs;
mod streams;
mod words;

use anyhow::{Context, Result};
use case_text::cases::answer_each;
use mem_outside::MemStore;
use std::alloc::Global;
use std::io;

fn main(rt: HostRuntime) -> io::Result<()> {
    answer_each(rt, answer)
}

/// What the case gives; a refusal is the error that its type prints.
fn answer(alloc: Global, case: &str) -> Result<String> {
    let mut store = MemStore::new(alloc, Vec::new(alloc));
    answer_over(alloc, &mut store, case)
}

/// What the case gives over an empty store.
fn answer_over(alloc: Global, store: &mut MemStore, case: &str) -> Result<String> {
    let (subject, arguments) = case.split_once(' ').unwrap_or((case, ""));
    match subject {
        "committed" => logs::committed(alloc, store, arguments),
        "reading" => logs::reading(alloc, store, arguments),
        "stop" => logs::stop(alloc, store, arguments),
        "load" => journals::load(alloc, store, arguments),
        "commit" => journals::commit(alloc, store, arguments),
        "journal_stop" => journals::stop(alloc, store, arguments),
        "checkpoint" => journals::checkpoint(alloc, store, arguments),
        "checkpoint_stop" => journals::checkpoint_stop(alloc, store, arguments),
        "digest" => files::digest(alloc, arguments),
        "front" => files::front(alloc, store, arguments),
        "dropped" => files::dropped(alloc, store, arguments),
        "write" => files::write(alloc, store, arguments),
        "source" => streams::source(alloc, arguments),
        "sink" => streams::sink(alloc, arguments),
        _ => None.context("no such subject"),
    }
}
