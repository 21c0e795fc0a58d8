//! The source and the sink in memory.

use crate::words;
use anyhow::{Context, Result};
use mem_outside::{MemSink, MemSource};
use outside_traits::{Failed, Sink, Source};
use std::alloc::Global;

/// What reads give of a source of these bytes, in pieces of `PIECE`, where those of the numbers `FAILS` fail:
/// a read for each further argument, the room that it has.
pub fn source(alloc: Global, arguments: &str) -> Result<String> {
    let (bytes, arguments) = words::first(arguments);
    let (piece, arguments) = words::first(arguments);
    let (fails, rooms) = words::first(arguments);
    let piece = words::number(piece)?.max(1) as usize;
    let fails = words::numbers(alloc, fails)?;
    let mut source = MemSource::new(words::bytes(alloc, bytes)?, piece, fails);
    all_given(alloc, &mut source, rooms)
}

// What reads give, one for each room.
fn all_given(alloc: Global, source: &mut MemSource, rooms: &str) -> Result<String> {
    let mut answers = String::new(alloc);
    for room in rooms.split(' ') {
        let answer = given(alloc, source, words::number(room)?)?;
        push_word(&mut answers, answer.as_str())?;
    }
    Ok(answers)
}

// What one read gives.
fn given(alloc: Global, source: &mut MemSource, room: u64) -> Result<String> {
    let mut room = vec![in alloc; 0u8; room.clamp(1, 1000) as usize]?;
    match source.read(room.as_mut_slice()) {
        Ok(count) => words::shown(alloc, &room[..count]),
        Err(Failed) => Ok(String::from_str(alloc, "failed")?),
    }
}

/// How many bytes writes take, where those of the numbers `FAILS` and each from `FROM` on fail: a write for
/// each further argument; and then all that was written.
pub fn sink(alloc: Global, arguments: &str) -> Result<String> {
    let (fails, arguments) = words::first(arguments);
    let (from, pieces) = words::first(arguments);
    let fails = words::numbers(alloc, fails)?;
    let from = words::number(from)?;
    let mut sink = MemSink::new(alloc, fails);
    sink.fail_from(from);
    all_taken(alloc, &mut sink, pieces)
}

// How many bytes writes take, one for each piece, and all that was written.
fn all_taken(alloc: Global, sink: &mut MemSink, pieces: &str) -> Result<String> {
    let mut answers = String::new(alloc);
    for piece in pieces.split(' ') {
        let answer = taken(alloc, sink, &words::bytes(alloc, piece)?)?;
        push_word(&mut answers, answer.as_str())?;
    }
    let written = words::shown(alloc, sink.written())?;
    push_word(&mut answers, written.as_str())?;
    Ok(answers)
}

// How many bytes one write takes.
fn taken(alloc: Global, sink: &mut MemSink, bytes: &[u8]) -> Result<String> {
    if bytes.is_empty() {
        return None.context("no bytes");
    }
    match sink.write(bytes) {
        Ok(count) => Ok(format!(in alloc; "{count}")?),
        Err(Failed) => Ok(String::from_str(alloc, "failed")?),
    }
}

fn push_word(words: &mut String, word: &str) -> Result<()> {
    if !words.is_empty() {
        words.push(' ')?;
    }
    words.push_str(word)?;
    Ok(())
}
