//! Groups of rows.
ghost use Rattle.std.specs.Prelude.{◌≤◌, length};

use crate::given::{Grouping, grouping_of, list_at};
use crate::shown::{groups_shown, rows_shown};
use anyhow::Result;
use group_fold::{FinishRefusal, finish, fold, merge};
use postfix_plans::Streams;
use row_blob::GroupRow;
use rows_core::{Memory, Row};
use std::alloc::Global;

/// What `fold` keeps of the groups of the first list.
pub fn folded(alloc: Global, arguments: &str, lists: &Streams) -> Result<String> {
    let rows = list_at(lists, 0)?;
    let grouping = grouping_of(alloc, arguments)?;
    folded_by(alloc, &grouping, rows)
}

fn folded_by(alloc: Global, grouping: &Grouping, rows: &[Row]) -> Result<String>
    requires { length rows.now ≤ 4294967295 }
{
    let groups = fold(alloc, rows, grouping.keys.items(), grouping.aggs.items())?;
    groups_shown(alloc, &groups)
}

/// The rows of these groups.
pub fn finished(alloc: Global, arguments: &str, lists: &Streams) -> Result<String> {
    let rows = list_at(lists, 0)?;
    let grouping = grouping_of(alloc, arguments)?;
    finished_by(alloc, &grouping, rows)
}

fn finished_by(alloc: Global, grouping: &Grouping, rows: &[Row]) -> Result<String>
    requires { length rows.now ≤ 4294967295 }
{
    rows_shown(alloc, &finished_rows(alloc, grouping, rows)?)
}

fn finished_rows(
    alloc: Global,
    grouping: &Grouping,
    rows: &[Row],
) -> Result<Vec<Row>, FinishRefusal>
    requires { length rows.now ≤ 4294967295 }
{
    let aggs = grouping.aggs.items();
    let groups = fold(alloc, rows, grouping.keys.items(), aggs)?;
    finish(alloc, &groups, aggs)
}

/// What is kept of the groups of the first list, and then of the second one.
pub fn merged(alloc: Global, arguments: &str, lists: &Streams) -> Result<String> {
    let old = list_at(lists, 0)?;
    let new = list_at(lists, 1)?;
    let grouping = grouping_of(alloc, arguments)?;
    merged_by(alloc, &grouping, old, new)
}

fn merged_by(alloc: Global, grouping: &Grouping, old: &[Row], new: &[Row]) -> Result<String>
    requires old { length old.now ≤ 4294967295 }
    requires new { length new.now ≤ 4294967295 }
{
    groups_shown(alloc, &merged_groups(alloc, grouping, old, new)?)
}

fn merged_groups(
    alloc: Global,
    grouping: &Grouping,
    old: &[Row],
    new: &[Row],
) -> Result<Vec<GroupRow>, Memory>
    requires old { length old.now ≤ 4294967295 }
    requires new { length new.now ≤ 4294967295 }
{
    let keys = grouping.keys.items();
    let aggs = grouping.aggs.items();
    let groups = fold(alloc, old, keys, aggs)?;
    merge(alloc, groups, fold(alloc, new, keys, aggs)?, aggs)
}
