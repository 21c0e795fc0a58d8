//! A second reader, plain: it takes byte after byte and knows what may stand next.

use anyhow::Result;
use std::alloc::Global;

/// The greatest length of a text, in bytes.
const MAX_TEXT_LEN: u32 = 1_000;

/// The greatest nesting of a plan.
const MAX_NESTING: u32 = 1_024;

/// What may stand next.
#[derive(Clone, Copy)]
enum Want {
    /// A plan of at most so many levels.
    Plan(u32),
    /// An expression of at most so many levels.
    Expr(u32),
    /// A row of the scalar table, and arguments of at most so many levels.
    Row(u32),
    /// Expressions behind their count.
    Exprs(u32),
    Columns,
    Pairs,
    Keys,
    Aggs,
    Agg,
    /// The length of a text: how many bytes are to come, and the number that the bytes before make.
    Len(u32, u32),
    /// A character of a text, which has so many bytes left.
    Text(u32),
    /// What follows within a character: how many bytes, the least and the greatest that the first of them may
    /// be, and how many bytes the text has left.
    Following(u32, u8, u8, u32),
    /// A byte from one to another.
    Between(u8, u8),
}

const ANY: Want = Want::Between(0, 255);

const NUMBER: [Want; 4] = [ANY; 4];

const LONG: [Want; 8] = [ANY; 8];

/// Where reading of a plan stops; `None` where the bytes are one.
pub fn place(alloc: Global, bytes: &[u8]) -> Result<Option<u64>> {
    let mut next = Vec::new(alloc);
    next.push(Want::Plan(MAX_NESTING))?;
    for at in 0..bytes.len() {
        let goes_on = match next.pop() {
            Some(want) => goes_on(&mut next, want, bytes[at])?,
            None => false,
        };
        if !goes_on {
            return Ok(Some(at as u64));
        }
    }
    if next.is_empty() {
        Ok(None)
    } else {
        Ok(Some(bytes.len() as u64))
    }
}

/// Whether the byte may stand there; then what may stand behind it lies on the others, the first at the end.
fn goes_on(next: &mut Vec<Want>, want: Want, byte: u8) -> Result<bool> {
    match want {
        Want::Plan(levels) => plan(next, levels.saturating_sub(1), byte),
        Want::Expr(levels) => expr(next, levels.saturating_sub(1), byte),
        Want::Row(below) => row(next, below, byte),
        Want::Exprs(below) => items(next, byte, &[Want::Expr(below)]),
        Want::Columns => items(next, byte, &NUMBER),
        Want::Pairs => items(next, byte, &LONG),
        Want::Keys => items(next, byte, &[Want::Between(0, 1), ANY, ANY, ANY, ANY]),
        Want::Aggs => items(next, byte, &[Want::Agg]),
        Want::Agg => match byte {
            1 => items(next, 4, &[Want::Between(0, 0)]),
            2..=7 => items(next, 1, &NUMBER),
            _ => Ok(false),
        },
        Want::Len(left, front) => len(next, left, front, byte),
        Want::Text(room) => character(next, room.saturating_sub(1), byte),
        Want::Following(count, least, greatest, room) => {
            if byte < least || greatest < byte {
                return Ok(false);
            }
            follow(
                next,
                count.saturating_sub(1),
                0x80,
                0xBF,
                room.saturating_sub(1),
            )
        }
        Want::Between(least, greatest) => Ok(least <= byte && byte <= greatest),
    }
}

/// So many times these, the first of which stands at the end.
fn items(next: &mut Vec<Want>, count: u8, wants: &[Want]) -> Result<bool> {
    for _ in 0..count {
        next.extend_from_slice(wants)?;
    }
    Ok(true)
}

/// The tag of a plan, whose parts have at most so many levels.
fn plan(next: &mut Vec<Want>, below: u32, tag: u8) -> Result<bool> {
    if below == 0 && tag != 0x01 {
        return Ok(false);
    }
    let plan = Want::Plan(below);
    match tag {
        0x01 => items(next, 1, &NUMBER),
        0x02 => items(next, 1, &[Want::Expr(below), plan]),
        0x03 => items(next, 1, &[Want::Exprs(below), plan]),
        0x04 => items(next, 1, &[plan]),
        0x05 => items(next, 1, &[Want::Aggs, Want::Columns, plan]),
        0x06 => items(next, 1, &[Want::Pairs, plan, plan]),
        0x07 => items(next, 2, &[plan]),
        0x08 => items(next, 1, &[Want::Keys, plan]),
        _ => Ok(false),
    }
}

/// The tag of an expression, whose parts have at most so many levels.
fn expr(next: &mut Vec<Want>, below: u32, tag: u8) -> Result<bool> {
    if below == 0 && tag > 0x14 {
        return Ok(false);
    }
    match tag {
        0x11 => items(next, 1, &NUMBER),
        0x12 => items(next, 1, &LONG),
        0x13 => items(next, 1, &[Want::Len(4, 0)]),
        0x14 => items(next, 1, &[Want::Between(0, 1)]),
        0x15 => items(next, 1, &[Want::Row(below)]),
        0x16 | 0x17 => items(next, 2, &[Want::Expr(below)]),
        0x18 => items(next, 3, &[Want::Expr(below)]),
        _ => Ok(false),
    }
}

fn row(next: &mut Vec<Want>, below: u32, row: u8) -> Result<bool> {
    match row {
        3 | 4 | 21 | 23 => items(next, 1, &[Want::Expr(below)]),
        0..=31 => items(next, 2, &[Want::Expr(below)]),
        _ => Ok(false),
    }
}

/// A byte of a text's length: some length that may be has these first bytes.
fn len(next: &mut Vec<Want>, left: u32, front: u32, byte: u8) -> Result<bool> {
    let front = front.wrapping_mul(256) | byte as u32;
    let left = left.saturating_sub(1);
    if front > MAX_TEXT_LEN.wrapping_shr(left.wrapping_mul(8)) {
        return Ok(false);
    }
    if left > 0 {
        return items(next, 1, &[Want::Len(left, front)]);
    }
    follow(next, 0, 0, 0, front)
}

/// The first byte of a character, behind which the text has so many bytes left.
fn character(next: &mut Vec<Want>, room: u32, byte: u8) -> Result<bool> {
    match byte {
        0x20..=0x7F => follow(next, 0, 0, 0, room),
        0xC2..=0xDF => follow(next, 1, 0x80, 0xBF, room),
        0xE0 => follow(next, 2, 0xA0, 0xBF, room),
        0xED => follow(next, 2, 0x80, 0x9F, room),
        0xE1..=0xEF => follow(next, 2, 0x80, 0xBF, room),
        0xF0 => follow(next, 3, 0x90, 0xBF, room),
        0xF1..=0xF3 => follow(next, 3, 0x80, 0xBF, room),
        0xF4 => follow(next, 3, 0x80, 0x8F, room),
        _ => Ok(false),
    }
}

/// So many bytes within the character, and then the rest of the text, if there is room for them.
fn follow(next: &mut Vec<Want>, count: u32, least: u8, greatest: u8, room: u32) -> Result<bool> {
    if room < count {
        return Ok(false);
    }
    if count > 0 {
        return items(next, 1, &[Want::Following(count, least, greatest, room)]);
    }
    if room > 0 {
        return items(next, 1, &[Want::Text(room)]);
    }
    Ok(true)
}
