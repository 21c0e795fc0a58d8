//! The length of a kept form's file.
ghost use Rattle.std.specs.Prelude.{◌≡◌, length, min};
ghost use Rattle.std.specs.List.{flat_map};
ghost use Rattle.row_blob.specs.Spelling.{kept_spelling, row_spelling, value_spelling, acc_spelling};
ghost use Rattle.row_blob.specs.Spelling.{group_spelling, tagged_spelling};

use crate::kept::{Acc, GroupRow, Kept, TaggedRow};
use rows_core::{Row, Value};

/// The length of the file that holds the kept form, or the greatest u64 where it is longer. It takes no
/// memory.
pub fn encoded_len(kept: &Kept) -> u64
    ensures { result ≡ min (length (kept_spelling kept.now)) u64.MAX }
{
    match kept {
        Kept::Rows(rows) => rows_len(rows.items()).saturating_add(16),
        Kept::Groups(groups) => groups_len(groups.items()).saturating_add(16),
        Kept::Tagged { left: _, rows } => tagged_rows_len(rows.items()).saturating_add(24),
    }
}

fn rows_len(rows: &[Row]) -> u64
    ensures { result ≡ min (length (flat_map row_spelling rows.now)) u64.MAX }
{
    let mut len: u64 = 0;
    for row in rows {
        len = len.saturating_add(row_len(row));
    }
    len
}

fn groups_len(groups: &[GroupRow]) -> u64
    ensures { result ≡ min (length (flat_map group_spelling groups.now)) u64.MAX }
{
    let mut len: u64 = 0;
    for group in groups {
        len = len.saturating_add(group_len(group));
    }
    len
}

fn tagged_rows_len(rows: &[TaggedRow]) -> u64
    ensures { result ≡ min (length (flat_map tagged_spelling rows.now)) u64.MAX }
{
    let mut len: u64 = 0;
    for tagged in rows {
        len = len.saturating_add(tagged_len(tagged));
    }
    len
}

fn group_len(group: &GroupRow) -> u64
    ensures { result ≡ min (length (group_spelling group.now)) u64.MAX }
{
    row_len(&group.key).saturating_add(accs_len(group.accs.items()))
}

fn tagged_len(tagged: &TaggedRow) -> u64
    ensures { result ≡ min (length (tagged_spelling tagged.now)) u64.MAX }
{
    row_len(&tagged.row).saturating_add(8)
}

fn row_len(row: &Row) -> u64
    ensures { result ≡ min (length (row_spelling row.now)) u64.MAX }
{
    let mut len: u64 = 0;
    for value in row.values() {
        len = len.saturating_add(value_len(value));
    }
    len
}

fn value_len(value: &Value) -> u64
    ensures { result ≡ min (length (value_spelling value.now)) u64.MAX }
{
    match value {
        Value::Int(_) => 8,
        Value::Text(text) => 4 + text.bytes().len() as u64,
        Value::Bool(_) => 1,
    }
}

fn accs_len(accs: &[Acc]) -> u64
    ensures { result ≡ min (length (flat_map acc_spelling accs.now)) u64.MAX }
{
    let mut len: u64 = 0;
    for acc in accs {
        len = len.saturating_add(acc_len(acc));
    }
    len
}

fn acc_len(acc: &Acc) -> u64
    ensures { result ≡ min (length (acc_spelling acc.now)) u64.MAX }
{
    match acc {
        Acc::Count(_) => 8,
        Acc::Sum(_) => 16,
        Acc::Avg { sum: _, count: _ } => 24,
        Acc::Pick(value) => value_len(value),
    }
}
