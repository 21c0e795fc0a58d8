//! Groups by key, in the order in which their keys came.
ghost use Rattle.std.specs.Prelude.{◌≡◌, AllPairs, ◌≢◌, IfOk};
ghost use Rattle.row_blob.specs.Kept.{keys_of};
ghost use Rattle.group_fold.specs.Table.{groups_in};

use indexmap::IndexMap;
use row_blob::{Acc, GroupRow, copy_accs};
use rows_core::{Memory, Row, Seq};
use std::alloc::Global;

/// The accumulators of each key.
pub type Table = IndexMap<Row, Vec<Acc>>;

/// A table of these groups, whose keys differ.
pub fn table_of(alloc: Global, groups: Vec<GroupRow>) -> Result<Table, Memory>
    requires { AllPairs (λ a b. a ≢ b) (keys_of groups.items) }
    ensures { IfOk result (λ table. groups_in (λ accs. accs.items) table.entries ≡ groups.items) }
{
    let mut table = IndexMap::with_capacity(alloc, groups.len())?;
    for group in groups {
        let GroupRow { key, accs } = group;
        table.insert(key, accs.into_vec())?;
    }
    Ok(table)
}

/// The groups of a table.
pub fn groups_of(alloc: Global, table: Table) -> Result<Vec<GroupRow>, Memory>
    ensures { IfOk result (λ groups. groups.items ≡ groups_in (λ accs. accs.items) table.entries) }
{
    let groups = table
        .into_iter()
        .map(|(key, accs)| GroupRow {
            key,
            accs: Seq::new(accs),
        })
        .collect(alloc)?;
    Ok(groups)
}

/// A second list of the groups of a table.
pub fn copy_of_groups(alloc: Global, table: &Table) -> Result<Vec<GroupRow>, Memory>
    ensures { IfOk result (λ groups. groups.items ≡ groups_in (λ accs. accs.items) table.now.entries) }
{
    let mut groups = Vec::with_capacity(alloc, table.len())?;
    for (key, accs) in table.iter() {
        let group = copy_of_group(alloc, key, accs)?;
        groups.push(group)?;
    }
    Ok(groups)
}

fn copy_of_group(alloc: Global, key: &Row, accs: &[Acc]) -> Result<GroupRow, Memory>
    ensures { IfOk result (λ group. (group.key ≡ key.now) × (group.accs ≡ accs.now)) }
{
    let key = key.try_copy(alloc)?;
    let accs = copy_accs(alloc, accs)?;
    Ok(GroupRow {
        key,
        accs: Seq::new(accs),
    })
}
