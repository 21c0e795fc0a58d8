//! Rows of a join.
ghost use Rattle.std.specs.Prelude.{◌≡◌, []};
ghost use Rattle.byte_formats.specs.Reading.{Gives};
ghost use Rattle.row_blob.specs.Reading.{tagged_at, tagged_rows_at, items_at};
ghost use Rattle.row_blob.specs.Kept.{last_left};

use crate::kept::TaggedRow;
use crate::number::MAX_COUNT;
use crate::rows::row_at;
use byte_formats::{Unread, u64_at, u64_between};
use rows_core::Kind;
use std::alloc::Global;

/// The left length and the rows, behind the count of the rows.
#[tactic(auto, unfolding(crate::specs::Reading::tagged_rows_at))]
pub fn tagged_rows_at<'a>(
    alloc: Global,
    kinds: &[Kind],
    bytes: &'a [u8],
) -> Result<(u64, Vec<TaggedRow>, &'a [u8]), Unread>
    ensures { Gives (λ x. ((x.0, x.1.items), x.2.now)) result (tagged_rows_at kinds.now bytes.now) }
{
    let (count, rest) = u64_at(bytes)?;
    let (left, rest) = u64_between(0, MAX_COUNT, rest)?;
    let (rows, rest) = counted_tagged_at(alloc, left, kinds, count, rest)?;
    Ok((left, rows, rest))
}

fn counted_tagged_at<'a>(
    alloc: Global,
    left: u64,
    kinds: &[Kind],
    count: u64,
    bytes: &'a [u8],
) -> Result<(Vec<TaggedRow>, &'a [u8]), Unread>
    ensures { Gives (λ x. (x.0.items, x.1.now)) result
        (items_at (tagged_at left kinds.now) count [] bytes.now) }
{
    let mut rows = Vec::new(alloc);
    let mut rest = bytes;
    for _ in 0..count {
        let (row, after) = tagged_at(alloc, left, kinds, &rows, rest)?;
        rows.push(row)?;
        rest = after;
    }
    Ok((rows, rest))
}

/// A row with its left position, behind the rows before it.
#[tactic(auto, unfolding(crate::specs::Reading::tagged_at))]
fn tagged_at<'a>(
    alloc: Global,
    left: u64,
    kinds: &[Kind],
    before: &[TaggedRow],
    bytes: &'a [u8],
) -> Result<(TaggedRow, &'a [u8]), Unread>
    ensures { Gives (λ x. (x.0, x.1.now)) result (tagged_at left kinds.now before.now bytes.now) }
{
    let (position, rest) = u64_at(bytes)?;
    if position < last_left(before) || left <= position {
        return Err(Unread::Left(rest.len() + 1));
    }
    let (row, rest) = row_at(alloc, kinds, rest)?;
    Ok((
        TaggedRow {
            left: position,
            row,
        },
        rest,
    ))
}

/// The left position of the last row.
fn last_left(rows: &[TaggedRow]) -> u64
    ensures { result ≡ last_left rows.now }
{
    match rows.last() {
        Some(row) => row.left,
        None => 0,
    }
}
