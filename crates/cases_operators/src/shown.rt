//! How rows, groups and rows of a join are shown.

use anyhow::Result;
use row_blob::{Acc, GroupRow, TaggedRow};
use row_text::print_row;
use rows_core::{Row, Value};
use std::alloc::Global;

/// The lines of the rows, with ` / ` between them.
pub fn rows_shown(alloc: Global, rows: &[Row]) -> Result<String> {
    let mut shown = String::new(alloc);
    for row in rows {
        put(&mut shown, " / ", row_shown(alloc, row)?.as_str())?;
    }
    Ok(shown)
}

/// The rows of a join, each behind the position of its left row.
pub fn tagged_shown(alloc: Global, rows: &[TaggedRow]) -> Result<String> {
    let mut shown = String::new(alloc);
    for tagged in rows {
        let row = row_shown(alloc, &tagged.row)?;
        let line = format!(in alloc; "{}: {row}", tagged.left)?;
        put(&mut shown, " / ", line.as_str())?;
    }
    Ok(shown)
}

/// The groups, each with what it keeps behind its key.
pub fn groups_shown(alloc: Global, groups: &[GroupRow]) -> Result<String> {
    let mut shown = String::new(alloc);
    for group in groups {
        let key = row_shown(alloc, &group.key)?;
        let accs = accs_shown(alloc, group.accs.items())?;
        let line = format!(in alloc; "{key}: {accs}")?;
        put(&mut shown, " / ", line.as_str())?;
    }
    Ok(shown)
}

fn accs_shown(alloc: Global, accs: &[Acc]) -> Result<String> {
    let mut shown = String::new(alloc);
    for acc in accs {
        put(&mut shown, ", ", acc_shown(alloc, acc)?.as_str())?;
    }
    Ok(shown)
}

fn acc_shown(alloc: Global, acc: &Acc) -> Result<String> {
    Ok(match acc {
        Acc::Count(count) => format!(in alloc; "count {count}")?,
        Acc::Sum(sum) => format!(in alloc; "sum {sum}")?,
        Acc::Avg { sum, count } => format!(in alloc; "sum {sum} of {count}")?,
        Acc::Pick(value) => value_shown(alloc, value)?,
    })
}

fn value_shown(alloc: Global, value: &Value) -> Result<String> {
    let mut values = Vec::new(alloc);
    values.push(value.try_copy(alloc)?)?;
    row_shown(alloc, &Row::new(values))
}

fn row_shown(alloc: Global, row: &Row) -> Result<String> {
    let mut text = Vec::new(alloc);
    print_row(row, &mut text)?;
    Ok(String::from_str(alloc, std::str::from_utf8(&text)?)?)
}

fn put(shown: &mut String, between: &str, part: &str) -> Result<()> {
    if !shown.is_empty() {
        shown.push_str(between)?;
    }
    shown.push_str(part)?;
    Ok(())
}
