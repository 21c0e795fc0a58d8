//! Runs that load the folder anew before each command. Commands stand behind each other with ` ; ` between
//! them.

use crate::runs::{FOLDER, answers, empty, outcome};
use anyhow::Result;
use case_text::{script, shown};
use mem_outside::MemStore;
use std::alloc::Global;

/// The file of the log in use: loading replaces the first one, which has no body, by that of generation 1.
const LOG: u64 = 4_294_967_297;

/// The answers to the commands, each of which is given to a run of its own on the same folder.
pub fn anew(alloc: Global, commands: &str) -> Result<String> {
    let mut folder = empty(alloc);
    anew_in(alloc, commands, &mut folder)
}

fn anew_in(alloc: Global, commands: &str, folder: &mut MemStore) -> Result<String> {
    let mut all = Vec::new(alloc);
    for command in commands.split(" ; ") {
        all.extend_from_slice(&answers(alloc, command, folder)?)?;
    }
    shown::lines(alloc, &all)
}

/// The bytes that loading alone takes before each command, with the bytes that the two log files then have, and
/// the bytes that the command takes behind that.
pub fn taken(alloc: Global, commands: &str) -> Result<String> {
    let mut folder = empty(alloc);
    taken_in(alloc, commands, &mut folder)
}

fn taken_in(alloc: Global, commands: &str, folder: &mut MemStore) -> Result<String> {
    let mut lines = Vec::new(alloc);
    for command in commands.split(" ; ") {
        let logs = folder.bytes(0).len() + folder.bytes(LOG).len();
        let loading = taken_by(alloc, "", folder)?;
        let both = taken_by(alloc, command, folder)?;
        let more = both.saturating_sub(loading);
        let line = format!(in alloc; "{loading} of {logs} and {more}\n")?;
        lines.extend_from_slice(line.as_bytes())?;
    }
    shown::lines(alloc, &lines)
}

// The bytes that a run on this script takes.
fn taken_by(alloc: Global, text: &str, folder: &mut MemStore) -> Result<u64> {
    let script = script::bytes(alloc, text)?;
    let before = folder.taken();
    outcome(alloc, &FOLDER, &script, folder)?;
    Ok(folder.taken().saturating_sub(before))
}
