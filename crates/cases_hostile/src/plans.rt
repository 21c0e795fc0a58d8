//! The bytes of a plan.

use crate::reader::{MAX_WORD, Reader};

/// The greatest nesting of a plan.
const MAX_NESTING: u32 = 1_024;

/// A number of four bytes, as an item of a list has it.
const WORD: (u32, u64, u64) = (4, 0, MAX_WORD);

/// A plan behind its length, whose bytes these are.
pub fn sized_plan<'a>(reader: &mut Reader<'a>) -> &'a [u8] {
    let len = reader.word();
    let rest = reader.rest();
    let mut inner = Reader::new(rest.get(..len as usize).unwrap_or(rest));
    plan(&mut inner, MAX_NESTING);
    match inner.place() {
        None => reader.taken(len),
        Some(place) => {
            reader.stop_at(reader.at().saturating_add(place));
            b""
        }
    }
}

/// A plan of at most so many levels.
fn plan(reader: &mut Reader<'_>, levels: u32) {
    let below = levels.saturating_sub(1);
    let tag = reader.number(1, 1, if below == 0 { 1 } else { 8 });
    if tag == 1 || below == 0 {
        reader.word();
        return;
    }
    plan(reader, below);
    match tag {
        2 => expression(reader, below),
        3 => expressions(reader, below),
        5 => {
            counted(reader, &[WORD]);
            aggregates(reader);
        }
        6 => {
            plan(reader, below);
            counted(reader, &[WORD, WORD]);
        }
        7 => plan(reader, below),
        8 => counted(reader, &[WORD, (1, 0, 1)]),
        _ => {}
    }
}

/// An expression of at most so many levels.
fn expression(reader: &mut Reader<'_>, levels: u32) {
    let below = levels.saturating_sub(1);
    let tag = reader.number(1, 0x11, if below == 0 { 0x14 } else { 0x18 });
    let parts = match tag {
        0x15 => match reader.number(1, 0, 23) {
            3 | 4 | 21 | 23 => 1,
            _ => 2,
        },
        0x16 | 0x17 => 2,
        0x18 => 3,
        _ => 0,
    };
    match tag {
        0x11 => drop(reader.word()),
        0x12 => drop(reader.number(8, 0, u64::MAX)),
        0x13 => reader.text(),
        0x14 => drop(reader.number(1, 0, 1)),
        _ => {}
    }
    if below > 0 {
        for _ in 0..parts {
            expression(reader, below);
        }
    }
}

/// Expressions behind their count.
fn expressions(reader: &mut Reader<'_>, levels: u32) {
    for _ in 0..reader.number(1, 0, 255) {
        expression(reader, levels);
    }
}

/// Items behind their count, each of which is these numbers: how many bytes, the least and the greatest.
fn counted(reader: &mut Reader<'_>, item: &[(u32, u64, u64)]) {
    for _ in 0..reader.number(1, 0, 255) {
        numbers(reader, item);
    }
}

fn numbers(reader: &mut Reader<'_>, all: &[(u32, u64, u64)]) {
    for (len, least, greatest) in all {
        reader.number(*len, *least, *greatest);
    }
}

/// Aggregates behind their count; a count of rows has column 0.
fn aggregates(reader: &mut Reader<'_>) {
    for _ in 0..reader.number(1, 0, 255) {
        let function = reader.number(1, 1, 7);
        reader.number(4, 0, if function == 1 { 0 } else { MAX_WORD });
    }
}
