//! Joins of lists.
ghost use Rattle.std.specs.Prelude.{◌≤◌, ◌+◌, ◌^◌, length};

use crate::given::{list_at, pairs_of};
use crate::shown::tagged_shown;
use anyhow::{Context, Result, bail};
use join_ops::{append_tagged, join_tagged, merge_tagged};
use plan_laws::joins_ascend_by_position;
use postfix_plans::Streams;
use row_blob::TaggedRow;
use rows_core::{Memory, Row};
use std::alloc::Global;

/// The rows of a join, whose left rows are counted from the number that stands before the pairs.
pub fn joined(alloc: Global, arguments: &str, lists: &Streams) -> Result<String> {
    let (first, pairs) = arguments.split_once(' ').context("no pairs")?;
    let first = first.parse::<u64>().ok().context("no number")?;
    let on = pairs_of(alloc, pairs)?;
    let lefts = list_at(lists, 0)?;
    let rights = list_at(lists, 1)?;
    if u128::from(first) + lefts.len() as u128 > 1 << 64 {
        bail!("positions above u64");
    }
    tagged_shown(
        alloc,
        &join_tagged(alloc, lefts, rights, on.items(), first)?,
    )
}

/// The rows of a join, and then those with more right rows, in one list.
pub fn with_more_rights(alloc: Global, pairs: &str, lists: &Streams) -> Result<String> {
    let on = pairs_of(alloc, pairs)?;
    let lefts = list_at(lists, 0)?;
    let rights = list_at(lists, 1)?;
    let more = list_at(lists, 2)?;
    tagged_shown(
        alloc,
        &more_rights_merged(alloc, lefts, rights, more, on.items())?,
    )
}

fn more_rights_merged(
    alloc: Global,
    lefts: &[Row],
    rights: &[Row],
    more: &[Row],
    on: &[(u32, u32)],
) -> Result<Vec<TaggedRow>, Memory>
    requires { length lefts.now ≤ 4294967295 }
{
    joins_ascend_by_position();
    let old = join_tagged(alloc, lefts, rights, on, 0)?;
    let new = join_tagged(alloc, lefts, more, on, 0)?;
    merge_tagged(alloc, old, new)
}

/// The rows of a join, and then those of more left rows, in one list.
pub fn with_more_lefts(alloc: Global, pairs: &str, lists: &Streams) -> Result<String> {
    let on = pairs_of(alloc, pairs)?;
    let lefts = list_at(lists, 0)?;
    let more = list_at(lists, 1)?;
    let rights = list_at(lists, 2)?;
    tagged_shown(
        alloc,
        &more_lefts_appended(alloc, lefts, more, rights, on.items())?,
    )
}

fn more_lefts_appended(
    alloc: Global,
    lefts: &[Row],
    more: &[Row],
    rights: &[Row],
    on: &[(u32, u32)],
) -> Result<Vec<TaggedRow>, Memory>
    requires lefts { length lefts.now ≤ 4294967295 }
    requires more { length more.now ≤ 4294967295 }
{
    joins_ascend_by_position();
    let old = join_tagged(alloc, lefts, rights, on, 0)?;
    let new = join_tagged(alloc, more, rights, on, lefts.len() as u64)?;
    append_tagged(alloc, old, new)
}
