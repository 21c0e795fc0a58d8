//! Groups of rows.
ghost use Rattle.std.specs.Prelude.{◌≡◌, ◌≤◌, [], ◌∷◌, length, IfSome, IfOk, OnOk};
ghost use Rattle.std.specs.List.{AllByRecursion};
ghost use Rattle.rows_core.specs.Value.{row_eq};
ghost use Rattle.row_blob.specs.Kept.{AreEach};
ghost use Rattle.plan_core.specs.Columns.{columns_of};
ghost use Rattle.plan_laws.specs.GrowthOfGroups.{groups_of, merged_groups};
ghost use Rattle.plan_laws.specs.GroupBounds.{IsAccOf, HasNumber, AreGroups, HaveAverages};
ghost use Rattle.indexmap.specs.IndexMap.{get};
ghost use Rattle.group_fold.specs.Numbers.{HaveNumbers};
ghost use Rattle.group_fold.specs.Table.{groups_in};

use crate::accumulate::{accs_of_row, columns_of, take_in};
use crate::table::{Table, groups_of};
use indexmap::IndexMap;
use plan_core::Agg;
use row_blob::GroupRow;
use rows_core::{Memory, Row};
use std::alloc::Global;

/// What is kept of the groups of rows with equal key columns, in the order in which their keys first occur:
/// `GroupBy` of LINQ to Objects. Each row costs one look-up, and an insertion where its key is new; no row is
/// copied. There are at most 4,294,967,295 rows, so that the groups are within the bounds of `merge` and
/// `finish`.
pub fn fold(
    alloc: Global,
    rows: &[Row],
    keys: &[u32],
    aggs: &[Agg],
) -> Result<Vec<GroupRow>, Memory>
    requires { length rows.now ≤ 4294967295 }
    ensures groups { IfOk result (λ groups. groups.items ≡ groups_of keys.now aggs.now rows.now) }
    ensures bounds { IfOk result (λ groups. AreGroups aggs.now groups.items) }
    ensures averages { IfOk result (λ groups. HaveAverages groups.items) }
    ensures numbers { OnOk result (HaveNumbers aggs.now rows.now) }
{
    let mut table = IndexMap::new(alloc);
    for row in rows {
        put_row(alloc, &mut table, row, keys, aggs)?;
    }
    groups_of(alloc, table)
}

/// Puts a row into its group.
fn put_row(
    alloc: Global,
    table: &mut Table,
    row: &Row,
    keys: &[u32],
    aggs: &[Agg],
) -> Result<(), Memory>
    requires { IfSome (get row_eq table.old (columns_of keys.now row.now))
        (λ accs. AreEach IsAccOf aggs.now accs.items) }
    ensures merged { OnOk result (groups_in (λ accs. accs.items) table.new.entries
        ≡ merged_groups aggs.now (groups_in (λ accs. accs.items) table.old.entries)
        (groups_of keys.now aggs.now (row.now ∷ []))) }
    ensures numbers { OnOk result (AllByRecursion (λ agg. HasNumber agg row.now) aggs.now) }
{
    let key = columns_of(alloc, row, keys)?;
    match table.get_index_of(&key) {
        Some(at) => take_in(alloc, &mut table[at], row, aggs),
        None => {
            let accs = accs_of_row(alloc, row, aggs)?;
            table.insert(key, accs)?;
            Ok(())
        }
    }
}
