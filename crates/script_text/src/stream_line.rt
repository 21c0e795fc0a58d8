//! The line `stream NAME (COL:KIND, COL:KIND)`.
ghost use Rattle.std.specs.Prelude.{◌≡◌, ◌<◌, length, IfOk, IfSome, IfNone, Some, None, position};
ghost use Rattle.script_text.specs.StreamLine.{is_mark, Parts, parts_at, only_kind, column_of, columns_of};
ghost use Rattle.script_text.specs.StreamLine.{closed_columns, stream_of};

use crate::item::Command;
use crate::words::{is_blank, only_name, only_word};
use rows_core::{Column, Kind, Memory, Seq};
use std::alloc::Global;

/// The command of which this stands behind its first word.
pub fn stream_of(alloc: Global, text: &[u8]) -> Result<Option<Command>, Memory>
    ensures { IfOk result (λ command. command ≡ stream_of text.now) }
{
    let Some((before, behind)) = split_at_mark(b'(', text) else {
        return Ok(None);
    };
    let Some(name) = only_name(alloc, before)? else {
        return Ok(None);
    };
    match closed_columns(alloc, behind)? {
        Some(columns) => Ok(Some(Command::Stream { name, columns })),
        None => Ok(None),
    }
}

// The columns that `COL:KIND, COL:KIND)` spells.
fn closed_columns(alloc: Global, text: &[u8]) -> Result<Option<Seq<Column>>, Memory>
    ensures { IfOk result (λ columns. columns ≡ closed_columns text.now) }
{
    match split_at_mark(b')', text) {
        Some((before, behind)) if is_blank(behind) => columns_of(alloc, before),
        _ => Ok(None),
    }
}

// The columns that `COL:KIND, COL:KIND` spells.
fn columns_of(alloc: Global, text: &[u8]) -> Result<Option<Seq<Column>>, Memory>
    ensures { IfOk result (λ columns. columns ≡ columns_of text.now) }
{
    let mut columns = Vec::new(alloc);
    let mut rest = text;
    while let Some((part, behind)) = split_at_mark(b',', rest) {
        let Some(column) = column_of(alloc, part)? else {
            return Ok(None);
        };
        columns.push(column)?;
        rest = behind;
    }
    let Some(column) = column_of(alloc, rest)? else {
        return Ok(None);
    };
    columns.push(column)?;
    Ok(Some(Seq::new(columns)))
}

// The column that `COL:KIND` spells.
fn column_of(alloc: Global, text: &[u8]) -> Result<Option<Column>, Memory>
    ensures { IfOk result (λ column. column ≡ column_of text.now) }
{
    let Some((before, behind)) = split_at_mark(b':', text) else {
        return Ok(None);
    };
    let Some(kind) = only_kind(behind) else {
        return Ok(None);
    };
    match only_name(alloc, before)? {
        Some(name) => Ok(Some(Column { name, kind })),
        None => Ok(None),
    }
}

// The kind of which the one word of a text is the word.
fn only_kind(text: &[u8]) -> Option<Kind>
    ensures { result ≡ only_kind text.now }
{
    match only_word(text) {
        Some(word) => Kind::of(word),
        None => None,
    }
}

/// The parts of a text before and behind the first such mark.
pub fn split_at_mark<'a>(mark: u8, text: &'a [u8]) -> Option<(&'a [u8], &'a [u8])>
    ensures none { IfNone result (parts_at mark text.entry.now ≡ None) }
    ensures shorter { IfSome result (λ parts. length parts.1.now < length text.entry.now) }
    ensures some { IfSome result
        (λ parts. parts_at mark text.entry.now
        ≡ Some (record { before = parts.0.now; behind = parts.1.now })) }
{
    match first_mark(mark, text) {
        Some(at) => Some((&text[..at], &text[at + 1..])),
        None => None,
    }
}

fn first_mark(mark: u8, text: &[u8]) -> Option<usize>
    ensures place { result ≡ position (is_mark mark) text.now }
    ensures bound { IfSome result (λ at. at < length text.now) }
{
    text.iter().position(|byte| *byte == mark)
}
