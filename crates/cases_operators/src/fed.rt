//! Operators that take their rows a list at a time: how many rows or groups there are after each list, and
//! at the end what they are.
ghost use Rattle.std.specs.Prelude.{◌≤◌, ◌+◌, length};

use crate::given::{Grouping, grouping_of, list_at};
use crate::shown::rows_shown;
use anyhow::{Result, bail};
use group_fold::{FinishRefusal, Groups, finish};
use postfix_plans::Streams;
use row_ops::Seen;
use rows_core::{Row, Seq};
use std::alloc::Global;

/// The first of equal rows of all lists.
pub fn seen(alloc: Global, lists: Seq<Seq<Row>>) -> Result<String> {
    let mut seen = Seen::new(alloc);
    let counts = counts_fed(alloc, lists, &mut seen)?;
    let rows = seen.into_rows(alloc)?;
    let rows = rows_shown(alloc, &rows)?;
    Ok(format!(in alloc; "{counts}| {rows}")?)
}

fn counts_fed(alloc: Global, lists: Seq<Seq<Row>>, seen: &mut Seen) -> Result<String> {
    let mut counts = String::new(alloc);
    for rows in lists.into_vec() {
        seen.feed(rows.into_vec())?;
        counts.push_str(format!(in alloc; "{} ", seen.len())?.as_str())?;
    }
    Ok(counts)
}

/// The rows of the groups of two lists.
pub fn groups(alloc: Global, arguments: &str, lists: &Streams) -> Result<String> {
    let old = list_at(lists, 0)?;
    let new = list_at(lists, 1)?;
    if old.len() + new.len() > 4_294_967_295 {
        bail!("too many rows");
    }
    groups_of_few(alloc, arguments, old, new)
}

fn groups_of_few(alloc: Global, arguments: &str, old: &[Row], new: &[Row]) -> Result<String>
    requires { length old.now + length new.now ≤ 4294967295 }
{
    let grouping = grouping_of(alloc, arguments)?;
    groups_by(alloc, &grouping, old, new)
}

fn groups_by(alloc: Global, grouping: &Grouping, old: &[Row], new: &[Row]) -> Result<String>
    requires { length old.now + length new.now ≤ 4294967295 }
{
    let (before, after, rows) = grouped(alloc, grouping, old, new)?;
    let rows = rows_shown(alloc, &rows)?;
    Ok(format!(in alloc; "{before} {after} | {rows}")?)
}

// How many groups there are before and after the new rows, and the rows of all.
fn grouped(
    alloc: Global,
    grouping: &Grouping,
    old: &[Row],
    new: &[Row],
) -> Result<(usize, usize, Vec<Row>), FinishRefusal>
    requires { length old.now + length new.now ≤ 4294967295 }
{
    let keys = grouping.keys.items();
    let aggs = grouping.aggs.items();
    let mut groups = Groups::new(alloc);
    groups.feed(old, keys, aggs)?;
    let before = groups.len();
    groups.feed(new, keys, aggs)?;
    let after = groups.len();
    let rows = finish(alloc, &groups.into_groups(alloc)?, aggs)?;
    Ok((before, after, rows))
}
