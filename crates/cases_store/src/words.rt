//! The words of a case.

use anyhow::{Context, Result};
use std::alloc::Global;

/// The word before the first space, and what stands behind it.
pub fn first(arguments: &str) -> (&str, &str) {
    arguments.split_once(' ').unwrap_or((arguments, ""))
}

pub fn number(word: &str) -> Result<u64> {
    word.parse::<u64>().ok().context("no number")
}

/// The bytes that a word has in hex.
pub fn bytes(alloc: Global, word: &str) -> Result<Vec<u8>> {
    if word == "-" {
        return Ok(Vec::new(alloc));
    }
    Ok(hex::decode(alloc, word.as_bytes())?)
}

/// Bytes as a word.
pub fn shown(alloc: Global, bytes: &[u8]) -> Result<String> {
    if bytes.is_empty() {
        return Ok(String::from_str(alloc, "-")?);
    }
    Ok(hex::encode(alloc, bytes)?)
}

/// The numbers of calls that fail, behind commas; `-` for none.
pub fn numbers(alloc: Global, word: &str) -> Result<Vec<u64>> {
    let mut numbers = Vec::new(alloc);
    if word != "-" {
        for part in word.split(',') {
            numbers.push(number(part)?)?;
        }
    }
    Ok(numbers)
}
