//! Journals.

use crate::words;
use anyhow::{Context, Result};
use journal_store::{Journal, JournalRefusal};
use mem_outside::MemStore;
use outside_traits::Failed;
use std::alloc::Global;

/// What a store is loaded as whose file 0 is `ROOT` and whose file `FILE` has these bytes: the generation in
/// use, the end of its log, and the bodies.
pub fn load(alloc: Global, store: &mut MemStore, arguments: &str) -> Result<String> {
    begin(alloc, store, arguments)?;
    loaded(alloc, store)
}

/// The bytes of file 0 and of the log of generation 0 after a store is loaded, and then `BODY` committed
/// unless it is `-`.
pub fn commit(alloc: Global, store: &mut MemStore, arguments: &str) -> Result<String> {
    let (body, arguments) = words::first(arguments);
    let body = words::bytes(alloc, body)?;
    begin(alloc, store, arguments)?;
    load_and_commit(alloc, store, &body)?;
    let root = words::shown(alloc, store.bytes(0))?;
    let log = words::shown(alloc, store.bytes(4_294_967_296))?;
    Ok(format!(in alloc; "{root} {log}")?)
}

/// The bytes of file 0, of the log that was in use and of the next one after a store is loaded, and `BODY` is
/// made the body of the next generation.
pub fn checkpoint(alloc: Global, store: &mut MemStore, arguments: &str) -> Result<String> {
    let (body, arguments) = words::first(arguments);
    let body = words::bytes(alloc, body)?;
    begin(alloc, store, arguments)?;
    let (former, next) = load_and_checkpoint(alloc, store, &body)?;
    let root = words::shown(alloc, store.bytes(0))?;
    let left = words::shown(alloc, store.bytes(former))?;
    let log = words::shown(alloc, store.bytes(next))?;
    Ok(format!(in alloc; "{root} {left} {log}")?)
}

/// An empty store is loaded, 01 is committed, and 02 is made the body of the next generation, while each call
/// from `CALL` on fails: whether that was answered, and what the image `PICK` is loaded as.
pub fn checkpoint_stop(alloc: Global, store: &mut MemStore, arguments: &str) -> Result<String> {
    let (call, pick) = words::first(arguments);
    store.fail_from(words::number(call)?);
    let answered = if commit_and_checkpoint(alloc, store)? {
        "answered"
    } else {
        "failed"
    };
    let loaded = image_loaded(alloc, store, words::number(pick)?)?;
    Ok(format!(in alloc; "{answered}, {loaded}")?)
}

/// A store is loaded whose file 0 is `ROOT`, and two bodies are committed, while each call from `CALL` on
/// fails: how many were answered as committed, and whether the image `PICK`, loaded again, has those or those
/// and the next one.
pub fn stop(alloc: Global, store: &mut MemStore, arguments: &str) -> Result<String> {
    let (call, arguments) = words::first(arguments);
    let (pick, root) = words::first(arguments);
    store.put(0, &words::bytes(alloc, root)?)?;
    store.fail_from(words::number(call)?);
    let answered = commit_two(alloc, store)?;
    let left = left_in_image(alloc, store, words::number(pick)?, answered.unwrap_or(0))?;
    match answered {
        Some(count) => Ok(format!(in alloc; "{count} committed, {left}")?),
        None => Ok(format!(in alloc; "not loaded, {left}")?),
    }
}

// Gives file 0 the bytes `ROOT`, and the file `FILE` the others.
fn begin(alloc: Global, store: &mut MemStore, arguments: &str) -> Result<()> {
    let (root, arguments) = words::first(arguments);
    let (file, bytes) = words::first(arguments);
    store.put(0, &words::bytes(alloc, root)?)?;
    Ok(store.put(words::number(file)?, &words::bytes(alloc, bytes)?)?)
}

// The generation in use, its file, the end of its log, and the bodies.
fn loaded(alloc: Global, store: &mut MemStore) -> Result<String> {
    let (journal, bodies) = Journal::load(alloc, store)?;
    shown(alloc, &journal, &bodies)
}

fn image_loaded(alloc: Global, store: &MemStore, pick: u64) -> Result<String> {
    let mut image = store.image(pick)?;
    loaded(alloc, &mut image)
}

fn shown(alloc: Global, journal: &Journal, bodies: &[Vec<u8>]) -> Result<String> {
    let (generation, file, end) = (journal.generation(), journal.file(), journal.end());
    let mut answer = format!(in alloc; "generation {generation}, file {file}, end {end}:")?;
    for body in bodies {
        answer.push(' ')?;
        answer.push_str(words::shown(alloc, body)?.as_str())?;
    }
    Ok(answer)
}

fn load_and_commit(alloc: Global, store: &mut MemStore, body: &[u8]) -> Result<()> {
    let (journal, _) = Journal::load(alloc, store)?;
    if !body.is_empty() {
        commit_short(journal, store, body)?;
    }
    Ok(())
}

// The files of the log that was in use and of the next one.
fn load_and_checkpoint(alloc: Global, store: &mut MemStore, body: &[u8]) -> Result<(u64, u64)> {
    let (journal, _) = Journal::load(alloc, store)?;
    let former = journal.file();
    match checkpoint_short(journal, store, body)? {
        Some(next) => Ok((former, next.file())),
        None => None.context("the store failed"),
    }
}

// Loads the journal and commits the bodies 01 and 02, and says how many were answered, if it was loaded.
fn commit_two(alloc: Global, store: &mut MemStore) -> Result<Option<u8>> {
    match Journal::load(alloc, store) {
        Ok((journal, _)) => commit_one_and_two(journal, store),
        Err(JournalRefusal::Fault) => Ok(None),
        Err(refusal) => Err(refusal.into()),
    }
}

fn commit_one_and_two(journal: Journal, store: &mut MemStore) -> Result<Option<u8>> {
    match commit_short(journal, store, &[1])? {
        Some(journal) => commit_two_behind_one(journal, store),
        None => Ok(Some(0)),
    }
}

fn commit_two_behind_one(journal: Journal, store: &mut MemStore) -> Result<Option<u8>> {
    match commit_short(journal, store, &[2])? {
        Some(_) => Ok(Some(2)),
        None => Ok(Some(1)),
    }
}

// Loads the journal, commits the body 01 and makes 02 the body of the next generation, and says whether all
// was answered.
fn commit_and_checkpoint(alloc: Global, store: &mut MemStore) -> Result<bool> {
    let (journal, _) = Journal::load(alloc, store)?;
    match commit_short(journal, store, &[1])? {
        Some(journal) => is_checkpointed(journal, store, &[2]),
        None => Ok(false),
    }
}

fn is_checkpointed(journal: Journal, store: &mut MemStore, body: &[u8]) -> Result<bool> {
    Ok(checkpoint_short(journal, store, body)?.is_some())
}

// Whether the image `PICK`, loaded, has the first `count` bodies, or one more.
fn left_in_image(alloc: Global, store: &MemStore, pick: u64, count: u8) -> Result<&'static str> {
    let mut image = store.image(pick)?;
    left_in(alloc, &mut image, count)
}

fn left_in(alloc: Global, image: &mut MemStore, count: u8) -> Result<&'static str> {
    let (_, bodies) = Journal::load(alloc, image)?;
    Ok(if are_first(&bodies, count) {
        "left"
    } else {
        "lost"
    })
}

// Whether these bodies are the first `count` of 01 and 02, or one more.
fn are_first(bodies: &[Vec<u8>], count: u8) -> bool {
    let count = usize::from(count);
    let all = bodies
        .iter()
        .zip(1..3u8)
        .all(|(body, number)| body.as_slice() == [number].as_slice());
    all && bodies.len() >= count && bodies.len() <= 2.min(count + 1)
}

// Commits a body of at most 1,000 bytes; none where the store failed.
fn commit_short(journal: Journal, store: &mut MemStore, body: &[u8]) -> Result<Option<Journal>> {
    if body.is_empty() || body.len() > 1000 || journal.end() > 1_000_000 {
        return None.context("no body");
    }
    match journal.commit(store, body) {
        Ok(journal) => Ok(Some(journal)),
        Err(Failed) => Ok(None),
    }
}

// Makes the next generation, with a body of at most 1,000 bytes; none where the store failed.
fn checkpoint_short(
    journal: Journal,
    store: &mut MemStore,
    body: &[u8],
) -> Result<Option<Journal>> {
    if body.is_empty() || body.len() > 1000 || journal.generation() > 1_000_000 {
        return None.context("no body");
    }
    match journal.checkpoint(store, body) {
        Ok(journal) => Ok(Some(journal)),
        Err(Failed) => Ok(None),
    }
}
