//! A second reader, slow and plain: byte by byte it asks whether a spelling can go on so.

use row_blob::{AccKind, Shape};
use rows_core::{Kind, Memory};
use std::alloc::Global;

/// How many bytes are left from the first with which no spelling goes on; 0 where bytes are missing.
pub enum Stop {
    Left(usize),
    Memory,
}

impl From<Memory> for Stop {
    fn from(_: Memory) -> Stop {
        Stop::Memory
    }
}

/// The least and the greatest number of a range.
type Range = (u128, u128);

const ANY: &[Range] = &[(0, u64::MAX as u128)];

const COUNT: &[Range] = &[(1, 4_294_967_295)];

const LEFT_LEN: &[Range] = &[(0, 4_294_967_295)];

const TRUTH: &[Range] = &[(0, 1)];

const TEXT_LEN: &[Range] = &[(0, 1_000)];
/// From -2^95 to -1 and from 0 to 2^95, as 128 bits.
const SUM: &[Range] = &[
    (
        0xFFFF_FFFF_8000_0000_0000_0000_0000_0000,
        0xFFFF_FFFF_FFFF_FFFF_FFFF_FFFF_FFFF_FFFF,
    ),
    (0, 0x8000_0000_0000_0000_0000_0000),
];

/// What may complete a character whose first bytes were read.
const ENDS: &[&[u8]] = &[
    b"",
    b"\x80",
    b"\x90",
    b"\xA0",
    b"\x80\x80",
    b"\x90\x80",
    b"\xA0\x80",
    b"\x80\x80\x80",
    b"\x90\x80\x80",
];

/// How many bytes are left where reading of a file stops, 0 where bytes are missing; `None` where the file is
/// read.
pub fn left(alloc: Global, bytes: &[u8], shape: &Shape) -> Result<Option<usize>, Memory> {
    match file(alloc, bytes, shape) {
        Ok(rest) if rest.is_empty() => Ok(None),
        Ok(rest) => Ok(Some(rest.len())),
        Err(Stop::Left(left)) => Ok(Some(left)),
        Err(Stop::Memory) => Err(Memory),
    }
}

fn file<'a>(alloc: Global, bytes: &'a [u8], shape: &Shape) -> Result<&'a [u8], Stop> {
    match shape {
        Shape::Rows(kinds) => {
            let (count, rest) = number(8, ANY, fixed(b"NXT1\x00\x00\x00\x00", bytes)?)?;
            rows(alloc, kinds.items(), count, rest)
        }
        Shape::Groups { keys, accs } => {
            let (count, rest) = number(8, ANY, fixed(b"NXT1\x01\x00\x00\x00", bytes)?)?;
            groups(alloc, keys.items(), accs.items(), count, rest)
        }
        Shape::Tagged(kinds) => {
            let (count, rest) = number(8, ANY, fixed(b"NXT1\x02\x00\x00\x00", bytes)?)?;
            let (left, rest) = number(8, LEFT_LEN, rest)?;
            tagged(alloc, kinds.items(), left, count, rest)
        }
    }
}

fn rows<'a>(alloc: Global, kinds: &[Kind], count: u128, bytes: &'a [u8]) -> Result<&'a [u8], Stop> {
    let mut rest = bytes;
    for _ in 0..small(count) {
        rest = row(alloc, kinds, rest)?;
    }
    Ok(rest)
}

/// A key that stood before stops at its last byte.
fn groups<'a>(
    alloc: Global,
    keys: &[Kind],
    accs: &[AccKind],
    count: u128,
    bytes: &'a [u8],
) -> Result<&'a [u8], Stop> {
    let mut rest = bytes;
    let mut seen: Vec<&[u8]> = Vec::new(alloc);
    for _ in 0..small(count) {
        let after = row(alloc, keys, rest)?;
        let key = &rest[..rest.len().saturating_sub(after.len())];
        if seen.iter().any(|other| *other == key) {
            return Err(Stop::Left(after.len() + 1));
        }
        seen.push(key).map_err(|_| Memory)?;
        rest = accumulators(alloc, accs, after)?;
    }
    Ok(rest)
}

/// A position that falls or isn't below the left length stops at its last byte.
fn tagged<'a>(
    alloc: Global,
    kinds: &[Kind],
    left: u128,
    count: u128,
    bytes: &'a [u8],
) -> Result<&'a [u8], Stop> {
    let mut rest = bytes;
    let mut last = 0;
    for _ in 0..small(count) {
        let (position, after) = number(8, ANY, rest)?;
        if position < last || left <= position {
            return Err(Stop::Left(after.len() + 1));
        }
        last = position;
        rest = row(alloc, kinds, after)?;
    }
    Ok(rest)
}

fn row<'a>(alloc: Global, kinds: &[Kind], bytes: &'a [u8]) -> Result<&'a [u8], Stop> {
    let mut rest = bytes;
    for kind in kinds {
        rest = value(alloc, *kind, rest)?;
    }
    Ok(rest)
}

fn accumulators<'a>(alloc: Global, kinds: &[AccKind], bytes: &'a [u8]) -> Result<&'a [u8], Stop> {
    let mut rest = bytes;
    for kind in kinds {
        rest = match kind {
            AccKind::Count => number(8, COUNT, rest)?.1,
            AccKind::Sum => number(16, SUM, rest)?.1,
            AccKind::Avg => number(8, COUNT, number(16, SUM, rest)?.1)?.1,
            AccKind::Pick(kind) => value(alloc, *kind, rest)?,
        };
    }
    Ok(rest)
}

fn value(alloc: Global, kind: Kind, bytes: &[u8]) -> Result<&[u8], Stop> {
    match kind {
        Kind::Int => Ok(number(8, ANY, bytes)?.1),
        Kind::Text => {
            let (len, rest) = number(4, TEXT_LEN, bytes)?;
            text(alloc, small(len), rest)
        }
        Kind::Bool => Ok(number(1, TRUTH, bytes)?.1),
    }
}

/// Each byte in turn goes on if some end makes a text of what was read with it, and the end has room.
fn text(alloc: Global, len: u64, bytes: &[u8]) -> Result<&[u8], Stop> {
    let mut front = Vec::new(alloc);
    let mut rest = bytes;
    for room in (0..len).rev() {
        let [byte, after @ ..] = rest else {
            return Err(Stop::Left(0));
        };
        front.push(*byte).map_err(|_| Memory)?;
        if !goes_on(alloc, &front, room)? {
            return Err(Stop::Left(rest.len()));
        }
        rest = after;
    }
    Ok(rest)
}

fn goes_on(alloc: Global, front: &[u8], room: u64) -> Result<bool, Memory> {
    for end in ENDS {
        if end.len() as u64 <= room && is_text(alloc, front, end)? {
            return Ok(true);
        }
    }
    Ok(false)
}

fn is_text(alloc: Global, front: &[u8], end: &[u8]) -> Result<bool, Memory> {
    let mut whole = Vec::from_slice(alloc, front)?;
    whole.extend_from_slice(end)?;
    Ok(std::str::from_utf8(&whole).is_ok() && whole.iter().all(|byte| *byte >= 0x20))
}

/// Each byte in turn goes on if a number of a range has the same first bytes.
fn number<'a>(width: u32, ranges: &[Range], bytes: &'a [u8]) -> Result<(u128, &'a [u8]), Stop> {
    let mut number: u128 = 0;
    let mut rest = bytes;
    for behind in (0..width).rev() {
        let [byte, after @ ..] = rest else {
            return Err(Stop::Left(0));
        };
        number = number.wrapping_mul(256) | *byte as u128;
        if !begins_one(number, behind, ranges) {
            return Err(Stop::Left(rest.len()));
        }
        rest = after;
    }
    Ok((number, rest))
}

/// The number, which has 8 bytes at most.
fn small(number: u128) -> u64 {
    number.min(u64::MAX as u128) as u64
}

/// Whether a number of a range has these first bytes and then so many more.
fn begins_one(front: u128, behind: u32, ranges: &[Range]) -> bool {
    let bits = behind.wrapping_mul(8);
    ranges.iter().any(|(low, high)| low.wrapping_shr(bits) <= front
        && front <= high.wrapping_shr(bits))
}

fn fixed<'a>(expected: &[u8], bytes: &'a [u8]) -> Result<&'a [u8], Stop> {
    let mut rest = bytes;
    for byte in expected {
        match rest {
            [] => return Err(Stop::Left(0)),
            [first, after @ ..] if first == byte => rest = after,
            _ => return Err(Stop::Left(rest.len())),
        }
    }
    Ok(rest)
}
