//! Rows.
ghost use Rattle.std.specs.Prelude.{◌≡◌, []};
ghost use Rattle.byte_formats.specs.Reading.{Gives};
ghost use Rattle.row_blob.specs.Reading.{value_at, row_at, rows_at, items_at};

use byte_formats::{Unread, flag_at, text_at, u64_at};
use rows_core::{Kind, Row, Value};
use std::alloc::Global;

/// A value of the kind.
#[tactic(auto, unfolding(crate::specs::Reading::value_at))]
pub fn value_at(alloc: Global, kind: Kind, bytes: &[u8]) -> Result<(Value, &[u8]), Unread>
    ensures { Gives (λ x. (x.0, x.1.now)) result (value_at kind bytes.now) }
{
    match kind {
        Kind::Int => {
            let (bits, rest) = u64_at(bytes)?;
            Ok((Value::Int(bits.cast_signed()), rest))
        }
        Kind::Text => {
            let (text, rest) = text_at(alloc, bytes)?;
            Ok((Value::Text(text), rest))
        }
        Kind::Bool => {
            let (truth, rest) = flag_at(bytes)?;
            Ok((Value::Bool(truth), rest))
        }
    }
}

/// A row of these kinds.
#[tactic(auto, unfolding(crate::specs::Reading::row_at))]
pub fn row_at<'a>(alloc: Global, kinds: &[Kind], bytes: &'a [u8]) -> Result<(Row, &'a [u8]), Unread>
    ensures { Gives (λ x. (x.0, x.1.now)) result (row_at kinds.now bytes.now) }
{
    let mut values = Vec::with_capacity(alloc, kinds.len())?;
    let mut rest = bytes;
    for kind in kinds {
        let (value, after) = value_at(alloc, *kind, rest)?;
        values.push(value)?;
        rest = after;
    }
    Ok((Row::new(values), rest))
}

/// The rows behind their count.
#[tactic(auto, unfolding(crate::specs::Reading::rows_at))]
pub fn rows_at<'a>(
    alloc: Global,
    kinds: &[Kind],
    bytes: &'a [u8],
) -> Result<(Vec<Row>, &'a [u8]), Unread>
    ensures { Gives (λ x. (x.0.items, x.1.now)) result (rows_at kinds.now bytes.now) }
{
    let (count, rest) = u64_at(bytes)?;
    counted_rows_at(alloc, kinds, count, rest)
}

fn counted_rows_at<'a>(
    alloc: Global,
    kinds: &[Kind],
    count: u64,
    bytes: &'a [u8],
) -> Result<(Vec<Row>, &'a [u8]), Unread>
    ensures { Gives (λ x. (x.0.items, x.1.now)) result
        (items_at (λ before. row_at kinds.now) count [] bytes.now) }
{
    let mut rows = Vec::new(alloc);
    let mut rest = bytes;
    for _ in 0..count {
        let (row, after) = row_at(alloc, kinds, rest)?;
        rows.push(row)?;
        rest = after;
    }
    Ok((rows, rest))
}
