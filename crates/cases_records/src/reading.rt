//! Reading of changes.

use anyhow::{Context, Result};
use catalog_types::Change;
use record_codec::{ChangeRefusal, Form, form_of, newer_spellings, read_change, spell_change};
use rows_core::{Column, Name};
use std::alloc::Global;

/// The form of a log whose first body has these bytes.
pub fn form(alloc: Global, digits: &str) -> Result<String> {
    let bytes = hex::decode(alloc, digits)?;
    let word = match form_of(&bytes) {
        Form::First => "first",
        Form::Second => "second",
    };
    Ok(String::from_str(alloc, word)?)
}

/// The form that the arguments begin with, and what stands behind it.
pub fn form_and_rest(arguments: &str) -> Result<(Form, &str)> {
    let (word, rest) = arguments.split_once(' ').context("no form")?;
    let form = match word {
        "first" => Form::First,
        "second" => Form::Second,
        _ => return None.context("no such form"),
    };
    Ok((form, rest))
}

pub fn change(alloc: Global, arguments: &str) -> Result<String> {
    let (form, digits) = form_and_rest(arguments)?;
    let bytes = hex::decode(alloc, digits)?;
    let change = read_change(alloc, &bytes, form)?;
    shown(alloc, &change)
}

/// A new stream, as `stream d (a:int)`; of another change only that it is one.
fn shown(alloc: Global, change: &Change) -> Result<String> {
    match change {
        Change::Stream { name, columns } => stream_shown(alloc, name, columns.items()),
        _ => Ok(String::from_str(alloc, "no stream")?),
    }
}

fn stream_shown(alloc: Global, name: &Name, columns: &[Column]) -> Result<String> {
    let mut shown = String::from_str(alloc, "stream ")?;
    shown.push_str(std::str::from_utf8(name.bytes())?)?;
    let mut between = " (";
    for column in columns {
        shown.push_str(between)?;
        push_column(column, &mut shown)?;
        between = ", ";
    }
    shown.push_str(")")?;
    Ok(shown)
}

fn push_column(column: &Column, to: &mut String) -> Result<()> {
    to.push_str(std::str::from_utf8(column.name.bytes())?)?;
    to.push_str(":")?;
    to.push_str(std::str::from_utf8(column.kind.word())?)?;
    Ok(())
}

pub fn bytes(alloc: Global, arguments: &str) -> Result<String> {
    let (form, digits) = form_and_rest(arguments)?;
    let bytes = hex::decode(alloc, digits)?;
    answered(alloc, form, &bytes)
}

fn answered(alloc: Global, form: Form, bytes: &[u8]) -> Result<String> {
    match place(alloc, form, bytes)? {
        Some(at) => Ok(format!(in alloc; "stops at {at}")?),
        None => {
            let len = bytes.len();
            Ok(format!(in alloc; "{len} bytes, spelled again")?)
        }
    }
}

pub fn prefixes(alloc: Global, arguments: &str) -> Result<String> {
    let (form, digits) = form_and_rest(arguments)?;
    let bytes = hex::decode(alloc, digits)?;
    for len in 0..bytes.len() {
        if place(alloc, form, &bytes[..len])? != Some(len as u64) {
            return Ok(format!(in alloc; "the first {len} bytes stop elsewhere")?);
        }
    }
    let len = bytes.len();
    Ok(format!(in alloc; "{len} prefixes stop at their ends")?)
}

/// So many tags of `Distinct` between the bytes.
pub fn nested(alloc: Global, arguments: &str) -> Result<String> {
    let (form, rest) = form_and_rest(arguments)?;
    let (count, digits) = rest.split_once(' ').context("no bytes")?;
    let (front, back) = digits.split_once(' ').context("no bytes behind")?;
    let mut bytes = hex::decode(alloc, front)?;
    for _ in 0..count.parse::<u32>()? {
        bytes.push(0x04)?;
    }
    bytes.extend_from_slice(&hex::decode(alloc, back)?)?;
    answered(alloc, form, &bytes)
}

/// Where reading stops; `None` where a change is read that is spelled with the same bytes.
pub fn place(alloc: Global, form: Form, bytes: &[u8]) -> Result<Option<u64>> {
    newer_spellings();
    match read_change(alloc, bytes, form) {
        Ok(change) => {
            let spelled = spell_change(alloc, &change)?;
            compared(bytes, &spelled)
        }
        Err(ChangeRefusal::NotChange { at }) => Ok(Some(at)),
        Err(refusal) => Err(anyhow::Error::from(refusal)),
    }
}

/// What is spelled is of the newest form, in which a checkpoint alone begins with another byte.
fn compared(bytes: &[u8], spelled: &[u8]) -> Result<Option<u64>> {
    let are_same = match (bytes, spelled) {
        ([0x06, bytes @ ..], [0x07, spelled @ ..]) => spelled == bytes,
        _ => spelled == bytes,
    };
    if !are_same {
        return None.context("spelled with other bytes");
    }
    Ok(None)
}
