//! Logs, and where reading a folder's logs stops.

use crate::reader::Reader;
use crate::table::{Held, Table};
use anyhow::Result;
use std::alloc::Global;

/// The file of the first generation's log; that of each later one is the file behind.
const FIRST_LOG: u64 = 4_294_967_296;

const HEADER: [u64; 8] = [0x4E, 0x58, 0x4C, 0x31, 0, 0, 0, 0];

/// The root, and the file with a log; no other file is there.
#[derive(Clone, Copy)]
pub struct Logs<'a> {
    pub root: &'a [u8],
    pub file: u64,
    pub log: &'a [u8],
}

/// What the logs are read as.
#[derive(Clone, Copy)]
pub enum Reading {
    /// What the catalogue holds.
    Loaded(Held),
    /// Where reading stops.
    Stops { why: Why, file: u64, at: u64 },
}

/// Why reading stops.
#[derive(Clone, Copy)]
pub enum Why {
    /// A gate, a length or the header isn't that of a log, or bytes are missing.
    NoLog,
    /// The root has another number than the next generation's.
    NoNumber,
    /// A body spells no change.
    NoChange,
    /// A body spells a change that may not be made, or the checkpoint is missing.
    Misfit,
}

/// A body and where it stands.
#[derive(Clone, Copy)]
struct Body<'a> {
    at: usize,
    bytes: &'a [u8],
}

/// The bodies of a file that is a log, or where it is none.
#[derive(Drop)]
enum Log<'a> {
    Bodies(Vec<Body<'a>>),
    Stops(usize),
}

/// What the logs are read as, from the front.
pub fn read_logs(alloc: Global, logs: &Logs<'_>) -> Result<Reading> {
    if logs.root.len() <= 9 {
        return Ok(nothing(alloc));
    }
    let numbers = match read_log(alloc, logs.root)? {
        Log::Bodies(numbers) => numbers,
        Log::Stops(at) => return Ok(stops(Why::NoLog, 0, at)),
    };
    for (generation, body) in numbers.iter().enumerate() {
        if body.bytes != (generation as u64).to_be_bytes().as_slice() {
            return Ok(stops(Why::NoNumber, 0, body.at));
        }
    }
    match numbers.len().checked_sub(1) {
        Some(generation) => read_generation(alloc, logs, generation as u64),
        None => Ok(nothing(alloc)),
    }
}

// What is read where there is no log.
fn nothing(alloc: Global) -> Reading {
    Reading::Loaded(Table::new(alloc, 1).held())
}

fn stops(why: Why, file: u64, at: usize) -> Reading {
    Reading::Stops {
        why,
        file,
        at: at as u64,
    }
}

// What the log of this generation is read as.
fn read_generation(alloc: Global, logs: &Logs<'_>, generation: u64) -> Result<Reading> {
    let file = FIRST_LOG.saturating_add(generation);
    let log = if file == logs.file { logs.log } else { b"" };
    match read_log(alloc, log)? {
        Log::Bodies(bodies) if generation > 0 && bodies.is_empty() => {
            Ok(stops(Why::Misfit, file, HEADER.len()))
        }
        Log::Bodies(bodies) => replay(alloc, file, &bodies, generation > 0),
        Log::Stops(at) => Ok(stops(Why::NoLog, file, at)),
    }
}

// What the bodies of a log lead to; the first is a checkpoint where one is due, and no other is.
fn replay(alloc: Global, file: u64, bodies: &[Body<'_>], is_due: bool) -> Result<Reading> {
    let mut table = Table::new(alloc, form_of(bodies));
    replay_on(&mut table, file, bodies, is_due)
}

// The form of a log: 2 where its first body begins with 7, else 1.
fn form_of(bodies: &[Body<'_>]) -> u64 {
    match bodies.first() {
        Some(body) if body.bytes.first() == Some(&7) => 2,
        _ => 1,
    }
}

fn replay_on<'a>(
    table: &mut Table<'a>,
    file: u64,
    bodies: &[Body<'a>],
    is_due: bool,
) -> Result<Reading> {
    for (place, body) in bodies.iter().enumerate() {
        let mut reader = Reader::new(body.bytes);
        table.read(&mut reader, is_due && place == 0)?;
        if let Some(within) = reader.place() {
            let at = body.at.saturating_add(within);
            return Ok(stops(Why::NoChange, file, at));
        }
        if !table.fits() {
            return Ok(stops(Why::Misfit, file, body.at));
        }
    }
    Ok(Reading::Loaded(table.held()))
}

fn read_header(reader: &mut Reader<'_>) {
    for byte in HEADER {
        reader.number(1, byte, byte);
    }
}

// The bodies behind open gates up to the first closed one, or where the file is no log.
fn read_log<'a>(alloc: Global, file: &'a [u8]) -> Result<Log<'a>> {
    let mut reader = Reader::new(file);
    read_header(&mut reader);
    let mut bodies = Vec::new(alloc);
    for _ in 0..=file.len() {
        let place = reader.at();
        let is_open = reader.number(1, 0, 255) == 1;
        let len = if is_open { reader.word() } else { 1 };
        let at = reader.at();
        let bytes = reader.taken(if is_open { len } else { 0 });
        if reader.is_stopped() || len == 0 {
            return Ok(Log::Stops(place));
        }
        if !is_open {
            break;
        }
        bodies.push(Body { at, bytes })?;
    }
    Ok(Log::Bodies(bodies))
}
