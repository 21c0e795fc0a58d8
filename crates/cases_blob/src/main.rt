//! Cases of kept forms: a case a line on standard input, and on standard output a line for each, what it
//! gives. A case is the word of its subject, a shape (`shapes.rt`) and the bytes of a file in hex. A line
//! that is empty or begins with `#` is no case.
//!
//! - `file`: the file is read, and its kept form is written again; or where reading stops.
//! - `prefixes`: whether each prefix of the file stops at its end.
//! - `bytes`: whether each change of one byte of the file stops where the plain reader says (`plain.rt`).
//! - `change AT BYTE`: where reading stops after this change of one byte.
#![tactic(auto)]

mod plain;
mod shapes;

use crate::shapes::shape_of;
use anyhow::{Context, Result};
use case_text::cases::answer_each;
use row_blob::{BlobRefusal, Shape, decode, encode, encoded_len};
use std::alloc::Global;
use std::io;

fn main(rt: HostRuntime) -> io::Result<()> {
    answer_each(rt, answer)
}

fn answer(alloc: Global, case: &str) -> Result<String> {
    let (subject, arguments) = case.split_once(' ').unwrap_or((case, ""));
    match subject {
        "file" => file(alloc, arguments),
        "prefixes" => prefixes(alloc, arguments),
        "bytes" => bytes(alloc, arguments),
        "change" => change(alloc, arguments),
        _ => None.context("no such subject"),
    }
}

/// The shape and the bytes of a file.
fn file_of(alloc: Global, arguments: &str) -> Result<(Shape, Vec<u8>)> {
    let (shape, digits) = arguments.split_once(' ').context("no file")?;
    Ok((shape_of(alloc, shape)?, hex::decode(alloc, digits)?))
}

fn file(alloc: Global, arguments: &str) -> Result<String> {
    let (shape, bytes) = file_of(alloc, arguments)?;
    read_and_written(alloc, &bytes, &shape)
}

fn read_and_written(alloc: Global, bytes: &[u8], shape: &Shape) -> Result<String> {
    match decode(alloc, bytes, shape) {
        Ok(kept) => {
            let written = encode(alloc, &kept)?;
            compared(alloc, bytes, &written, encoded_len(&kept))
        }
        Err(BlobRefusal::NotBlob { at }) => stops_at(alloc, at),
        Err(refusal) => Err(anyhow::Error::from(refusal)),
    }
}

fn compared(alloc: Global, bytes: &[u8], written: &[u8], len: u64) -> Result<String> {
    let answer = if written == bytes {
        "the same bytes"
    } else {
        "others"
    };
    Ok(format!(in alloc; "length {len}, written as {answer}")?)
}

fn stops_at(alloc: Global, at: u64) -> Result<String> {
    Ok(format!(in alloc; "stops at {at}")?)
}

fn prefixes(alloc: Global, arguments: &str) -> Result<String> {
    let (shape, bytes) = file_of(alloc, arguments)?;
    prefixes_of(alloc, &bytes, &shape)
}

fn prefixes_of(alloc: Global, bytes: &[u8], shape: &Shape) -> Result<String> {
    for len in 0..bytes.len() {
        if place(alloc, &bytes[..len], shape)? != Some(len as u64) {
            return Ok(format!(in alloc; "the first {len} bytes stop elsewhere")?);
        }
    }
    let len = bytes.len();
    Ok(format!(in alloc; "{len} prefixes stop at their ends")?)
}

fn bytes(alloc: Global, arguments: &str) -> Result<String> {
    let (shape, bytes) = file_of(alloc, arguments)?;
    changes_of(alloc, &bytes, &shape)
}

fn changes_of(alloc: Global, bytes: &[u8], shape: &Shape) -> Result<String> {
    for at in 0..bytes.len() {
        if !stops_as_plain(alloc, bytes, at, shape)? {
            return Ok(format!(in alloc; "a change of byte {at} stops elsewhere")?);
        }
    }
    let len = bytes.len();
    Ok(format!(in alloc; "changes of {len} bytes stop where the plain reader says")?)
}

/// Whether each change of this byte stops where the plain reader says.
fn stops_as_plain(alloc: Global, bytes: &[u8], at: usize, shape: &Shape) -> Result<bool> {
    for byte in 0..=u8::MAX {
        let changed = changed(alloc, bytes, at, byte)?;
        if place(alloc, &changed, shape)? != plain_place(alloc, &changed, shape)? {
            return Ok(false);
        }
    }
    Ok(true)
}

fn change(alloc: Global, arguments: &str) -> Result<String> {
    let (at, arguments) = arguments.split_once(' ').context("no place")?;
    let (byte, arguments) = arguments.split_once(' ').context("no byte")?;
    let at = at.parse::<usize>().ok().context("no place")?;
    let mut digits = [0; 1];
    hex::decode_to_slice(byte, &mut digits)?;
    let (shape, bytes) = file_of(alloc, arguments)?;
    change_of(alloc, &bytes, at, digits[0], &shape)
}

fn change_of(alloc: Global, bytes: &[u8], at: usize, byte: u8, shape: &Shape) -> Result<String> {
    let changed = changed(alloc, bytes, at, byte)?;
    match place(alloc, &changed, shape)? {
        Some(at) => stops_at(alloc, at),
        None => Ok(String::from_str(alloc, "read")?),
    }
}

fn changed(alloc: Global, bytes: &[u8], at: usize, byte: u8) -> Result<Vec<u8>> {
    let mut changed = Vec::from_slice(alloc, bytes)?;
    if let Some(there) = changed.get_mut(at) {
        *there = byte;
    }
    Ok(changed)
}

/// Where reading stops.
fn place(alloc: Global, bytes: &[u8], shape: &Shape) -> Result<Option<u64>> {
    match decode(alloc, bytes, shape) {
        Ok(_) => Ok(None),
        Err(BlobRefusal::NotBlob { at }) => Ok(Some(at)),
        Err(refusal) => Err(anyhow::Error::from(refusal)),
    }
}

/// Where the plain reader stops.
fn plain_place(alloc: Global, bytes: &[u8], shape: &Shape) -> Result<Option<u64>> {
    let left = plain::left(alloc, bytes, shape)?;
    Ok(left.map(|left| bytes.len().saturating_sub(left) as u64))
}
