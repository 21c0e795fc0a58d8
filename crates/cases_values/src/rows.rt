//! Rows, written as values behind commas: a number, or a text behind a `'`.

use crate::names::sameness;
use crate::texts::text_of;
use anyhow::{Context, Result};
use rows_core::{Cut, Digest, Key, Row, Seq, Txt, Value, cmp_by};
use std::alloc::Global;
use std::cmp::Ordering;

/// Whether two rows, divided by a space, are the same, and how many values a copy of the first has.
pub fn same(alloc: Global, bytes: &[u8]) -> Result<String> {
    let (first, second) = two_of(bytes)?;
    let first = copy_of(alloc, first)?;
    let is_same = is_row(alloc, &first, second)?;
    counted(alloc, is_same, "values", first.into_values().len())
}

fn copy_of(alloc: Global, text: &str) -> Result<Row> {
    let row = row_of(alloc, text)?;
    Ok(row.try_copy(alloc)?)
}

fn is_row(alloc: Global, row: &Row, text: &str) -> Result<bool> {
    Ok(row.is_same(&row_of(alloc, text)?))
}

fn counted(alloc: Global, is_same: bool, what: &str, count: usize) -> Result<String> {
    let answer = sameness(is_same);
    Ok(format!(in alloc; "{answer}, {what}: {count}")?)
}

fn two_of(bytes: &[u8]) -> Result<(&str, &str)> {
    Ok(
        std::str::from_utf8(bytes)?
            .split_once(' ')
            .unwrap_or(("", "")),
    )
}

/// How two rows stand by the keys that are written first, as `+0` and `-1` behind commas; `by` stands before
/// them.
pub fn order(alloc: Global, bytes: &[u8]) -> Result<String> {
    let (keys, rows) = two_of(bytes)?;
    let (first, second) = rows.split_once(' ').unwrap_or(("", ""));
    let keys = keys_of(alloc, keys)?;
    let answer = match order_by(alloc, &keys, first, second)? {
        Ordering::Less => "less",
        Ordering::Equal => "equal",
        Ordering::Greater => "greater",
    };
    text_of(alloc, answer.as_bytes())
}

fn order_by(alloc: Global, keys: &[Key], first: &str, second: &str) -> Result<Ordering> {
    let first = row_of(alloc, first)?;
    order_of(alloc, keys, &first, second)
}

fn order_of(alloc: Global, keys: &[Key], first: &Row, second: &str) -> Result<Ordering> {
    let second = row_of(alloc, second)?;
    Ok(cmp_by(first, &second, keys))
}

/// How many cuts a copy of a list has, and whether it is the same.
pub fn cuts(alloc: Global, bytes: &[u8]) -> Result<String> {
    let cuts = Seq::new(cuts_of(alloc, std::str::from_utf8(bytes)?)?);
    let copy = cuts.try_copy(alloc)?;
    let is_same = copy.is_same(&cuts);
    counted(alloc, is_same, "cuts", copy.into_vec().len())
}

fn cuts_of(alloc: Global, text: &str) -> Result<Vec<Cut>> {
    let mut cuts = Vec::new(alloc);
    for part in text.split(',') {
        cuts.push(cut_of(part)?)?;
    }
    Ok(cuts)
}

fn cut_of(part: &str) -> Result<Cut> {
    let (from, to) = part.split_once('-').context("a cut without an end")?;
    Ok(Cut {
        from: number_of(from)?,
        to: number_of(to)?,
    })
}

fn number_of(text: &str) -> Result<u32> {
    text.parse::<u32>().ok().context("no number")
}

/// Whether two digests in hex, divided by a space, are the same.
pub fn digests(alloc: Global, bytes: &[u8]) -> Result<String> {
    let (first, second) = two_of(bytes)?;
    let is_same = digest_of(first)?.is_same(&digest_of(second)?);
    text_of(alloc, sameness(is_same).as_bytes())
}

fn digest_of(text: &str) -> Result<Digest> {
    let mut bytes = [0; 32];
    hex::decode_to_slice(text, &mut bytes)?;
    Ok(Digest { bytes })
}

pub fn row_of(alloc: Global, text: &str) -> Result<Row> {
    let mut values = Vec::new(alloc);
    for part in text.split(',') {
        values.push(value_of(alloc, part)?)?;
    }
    Ok(Row::new(values))
}

fn value_of(alloc: Global, part: &str) -> Result<Value> {
    if let Some(text) = part.strip_prefix('\'') {
        return Ok(Value::Text(Txt::new(alloc, text.as_bytes())?));
    }
    match part {
        "true" => return Ok(Value::Bool(true)),
        "false" => return Ok(Value::Bool(false)),
        _ => {}
    }
    let number = part.parse::<i64>().ok().context("no number")?;
    Ok(Value::Int(number))
}

fn keys_of(alloc: Global, text: &str) -> Result<Vec<Key>> {
    let mut keys = Vec::new(alloc);
    for part in text.split(',').skip(1) {
        keys.push(key_of(part)?)?;
    }
    Ok(keys)
}

fn key_of(part: &str) -> Result<Key> {
    let down = part.starts_with('-');
    let column = part
        .trim_start_matches('+')
        .trim_start_matches('-')
        .parse::<u32>();
    Ok(Key {
        column: column.ok().context("no column")?,
        down,
    })
}
