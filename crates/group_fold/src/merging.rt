//! Groups of joined lists.
ghost use Rattle.std.specs.Prelude.{◌≡◌, ℕ, ◌+◌, ◌<◌, ◌≤◌, List, [], ◌∷◌, ◌++◌, length};
ghost use Rattle.std.specs.Prelude.{IfSome, IfOk, OnOk, OnErr};
ghost use Rattle.rows_core.specs.Value.{row_eq};
ghost use Rattle.row_blob.specs.Kept.{AreEach};
ghost use Rattle.plan_core.specs.Columns.{Rows};
ghost use Rattle.plan_laws.specs.GrowthOfGroups.{groups_of, merged_groups};
ghost use Rattle.plan_laws.specs.GroupBounds.{IsAccOf, AreGroups};
ghost use Rattle.indexmap.specs.IndexMap.{get, spare};
ghost use Rattle.group_fold.specs.Table.{groups_in};

use crate::joining::join_accs;
use crate::table::{Table, groups_of, table_of};
use plan_core::Agg;
use plan_laws::groups_of_joined_lists;
use row_blob::GroupRow;
use rows_core::Memory;
use std::alloc::Global;

/// The old groups, each with what the new group of the same key adds, and then the new groups with other
/// keys: where the two are the groups of two lists of rows, the groups of the joined list. The groups are
/// moved: an old one costs an insertion, a new one a look-up, and an insertion where its key is new. Within
/// the bounds no count and no sum wraps; those of the result may lie outside of them.
pub fn merge(
    alloc: Global,
    old: Vec<GroupRow>,
    new: Vec<GroupRow>,
    aggs: &[Agg],
) -> Result<Vec<GroupRow>, Memory>
    requires old { AreGroups aggs.now old.items }
    requires new { AreGroups aggs.now new.items }
    ensures merged { IfOk result (λ groups. groups.items
        ≡ merged_groups aggs.now old.items new.items) }
    ensures joined { IfOk result (λ groups. (keys : List ℕ) (first further : Rows)
        → old.items ≡ groups_of keys aggs.now first → new.items ≡ groups_of keys aggs.now further
        → groups.items ≡ groups_of keys aggs.now (first ++ further)) }
{
    groups_of_joined_lists();
    let mut table = table_of(alloc, old)?;
    take_groups(&mut table, new, aggs)?;
    groups_of(alloc, table)
}

/// Joins each group with that of the same key in the table, or puts it behind the others. `Memory` where
/// memory was asked for and refused; the table has the entries that it had then.
pub fn take_groups(table: &mut Table, groups: Vec<GroupRow>, aggs: &[Agg]) -> Result<(), Memory>
    requires old { AreGroups aggs.now (groups_in (λ accs. accs.items) table.old.entries) }
    requires new { AreGroups aggs.now groups.items }
    ensures merged { OnOk result (groups_in (λ accs. accs.items) table.new.entries
        ≡ merged_groups aggs.now (groups_in (λ accs. accs.items) table.old.entries) groups.items) }
    ensures refused { OnErr result (table.new.entries ≡ table.old.entries) }
{
    table.reserve(groups.len())?;
    put_groups(table, groups, aggs);
    Ok(())
}

// It takes no memory.
fn put_groups(table: &mut Table, groups: Vec<GroupRow>, aggs: &[Agg])
    requires room { length groups.items ≤ spare table.old }
    requires old { AreGroups aggs.now (groups_in (λ accs. accs.items) table.old.entries) }
    requires new { AreGroups aggs.now groups.items }
    ensures { groups_in (λ accs. accs.items) table.new.entries
        ≡ merged_groups aggs.now (groups_in (λ accs. accs.items) table.old.entries) groups.items }
{
    for group in groups {
        put_group(table, group, aggs);
    }
}

// Joins the group with that of the same key, or puts it behind the others.
fn put_group(table: &mut Table, group: GroupRow, aggs: &[Agg])
    requires room { 0 < spare table.old }
    requires old { IfSome (get row_eq table.old group.key) (λ accs. AreEach IsAccOf aggs.now accs.items) }
    requires new { AreEach IsAccOf aggs.now group.accs }
    ensures merged { groups_in (λ accs. accs.items) table.new.entries
        ≡ merged_groups aggs.now (groups_in (λ accs. accs.items) table.old.entries) (group ∷ []) }
    ensures room { spare table.old ≤ spare table.new + 1 }
{
    let GroupRow { key, accs } = group;
    match table.get_index_of(&key) {
        Some(at) => join_accs(&mut table[at], accs.into_vec(), aggs),
        None => match table.insert(key, accs.into_vec()) {
            Ok(_) => {}
            Err(_) => unreachable!(),
        },
    }
}
