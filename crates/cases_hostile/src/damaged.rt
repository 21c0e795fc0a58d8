//! Kept results whose files are damaged.

use crate::runs::{answers, empty, image, run_each};
use anyhow::{Context, Result, bail};
use case_text::shown;
use folder::Folder;
use mem_outside::MemStore;
use outside_traits::Store;
use std::alloc::Global;

/// What is done to a file.
#[derive(Clone, Copy)]
enum Damage {
    Changed,
    Short,
    Removed,
}

/// The kinds of damage by their words.
const DAMAGES: [(&str, Damage); 3] = [
    ("changed", Damage::Changed),
    ("short", Damage::Short),
    ("removed", Damage::Removed),
];

/// How many files of kept results the runs in front of ` : ` leave. Each of them is damaged in turn, has its middle
/// byte changed, is cut short by a byte, or removed: behind each, the script has the rows of the undamaged folder.
/// How often the other lines of its answers differ is told.
pub fn damaged_results(alloc: Global, arguments: &str) -> Result<String> {
    let (runs, text) = arguments.split_once(" : ").context("no script")?;
    let mut folder = empty(alloc);
    results_told(alloc, runs, text, &mut folder)
}

fn results_told(alloc: Global, runs: &str, text: &str, folder: &mut MemStore) -> Result<String> {
    run_each(alloc, runs, folder)?;
    let files = result_files(alloc, folder)?;
    let whole = undamaged_answers(alloc, folder, text)?;
    let mut others = 0u64;
    for file in &files {
        let count = other_answers(alloc, folder, *file, text, &whole)?;
        others = others.saturating_add(count);
    }
    let count = files.len();
    Ok(format!(in alloc;
        "{count} results, each changed, short and removed: the same rows, {others} times other lines"
    )?)
}

fn result_files(alloc: Global, store: &mut MemStore) -> Result<Vec<u64>> {
    let folder = Folder::load(alloc, store)?;
    files_of(alloc, &folder)
}

fn files_of(alloc: Global, folder: &Folder) -> Result<Vec<u64>> {
    let mut files = Vec::new(alloc);
    for entry in folder.catalog().entries() {
        files.push(u64::from(entry.file.file))?;
    }
    Ok(files)
}

fn undamaged_answers(alloc: Global, folder: &MemStore, text: &str) -> Result<Vec<u8>> {
    let mut store = image(folder, 0)?;
    answers(alloc, text, &mut store)
}

// With how many kinds of damage to the file the answers have other lines. None of them has other rows.
fn other_answers(
    alloc: Global,
    folder: &MemStore,
    file: u64,
    text: &str,
    whole: &[u8],
) -> Result<u64> {
    let mut others = 0u64;
    for (word, damage) in &DAMAGES {
        let given = damaged_answers(alloc, folder, file, *damage, text)?;
        if rows_of(alloc, &given)? != rows_of(alloc, whole)? {
            bail!("other rows with file {file} {word}");
        }
        others = others.saturating_add(u64::from(given.as_slice() != whole));
    }
    Ok(others)
}

/// The answers of a script over the folder that runs leave, of which one file is damaged: the kind of damage and
/// the file's number stand first, and the script behind ` : `.
pub fn damaged_file(alloc: Global, arguments: &str) -> Result<String> {
    let (kind, rest) = arguments.split_once(' ').context("no damage")?;
    let (file, rest) = rest.split_once(' ').context("no file")?;
    let (runs, text) = rest.split_once(" : ").context("no script")?;
    let (file, damage) = (file.parse::<u64>()?, damage_of(kind)?);
    let mut folder = empty(alloc);
    file_told(alloc, runs, file, damage, text, &mut folder)
}

fn damage_of(kind: &str) -> Result<Damage> {
    for (word, damage) in &DAMAGES {
        if *word == kind {
            return Ok(*damage);
        }
    }
    None.context("no such damage")
}

fn file_told(
    alloc: Global,
    runs: &str,
    file: u64,
    damage: Damage,
    text: &str,
    folder: &mut MemStore,
) -> Result<String> {
    run_each(alloc, runs, folder)?;
    let given = damaged_answers(alloc, folder, file, damage, text)?;
    shown::lines(alloc, &given)
}

// The answers over the folder with one file damaged.
fn damaged_answers(
    alloc: Global,
    folder: &MemStore,
    file: u64,
    damage: Damage,
    text: &str,
) -> Result<Vec<u8>> {
    let mut store = image(folder, 0)?;
    answers_behind(alloc, file, damage, text, &mut store)
}

fn answers_behind(
    alloc: Global,
    file: u64,
    damage: Damage,
    text: &str,
    store: &mut MemStore,
) -> Result<Vec<u8>> {
    do_damage(alloc, file, damage, store)?;
    answers(alloc, text, store)
}

fn do_damage(alloc: Global, file: u64, damage: Damage, store: &mut MemStore) -> Result<()> {
    let mut bytes = Vec::from_slice(alloc, store.bytes(file))?;
    let len = bytes.len();
    match damage {
        Damage::Changed => {
            if let Some(byte) = bytes.get_mut(len / 2) {
                *byte = byte.wrapping_add(1);
            }
        }
        Damage::Short => bytes.truncate(len.saturating_sub(1)),
        Damage::Removed => return Ok(store.remove(file)?),
    }
    Ok(store.put(file, &bytes)?)
}

// The lines of the answers but for those that tell which results were used and kept and what was read.
fn rows_of(alloc: Global, answers: &[u8]) -> Result<Vec<u8>> {
    let mut rows = Vec::new(alloc);
    for line in answers.split_inclusive(|byte| *byte == b'\n') {
        let is_told = [b"used ".as_slice(), b"kept ", b"read ", b"left "]
            .iter()
            .any(|word| line.starts_with(word));
        if !is_told {
            rows.extend_from_slice(line)?;
        }
    }
    Ok(rows)
}
