//! Groups of lists of rows that come one after another.
ghost use Rattle.std.specs.Prelude.{◌≡◌, ◌≤◌, List, [], ◌++◌, length, IfOk, OnOk, OnErr};
ghost use Rattle.plan_core.specs.declared.agg.Agg.{Agg};
ghost use Rattle.plan_core.specs.Columns.{Rows};
ghost use Rattle.plan_laws.specs.GrowthOfGroups.{groups_of, merged_groups};
ghost use Rattle.plan_laws.specs.GroupBounds.{AreGroups, HaveAverages};
ghost use Rattle.group_fold.specs.Numbers.{HaveNumbers};

use crate::folding::fold;
use crate::merging::take_groups;
use crate::table::{Table, copy_of_groups, groups_of};
use indexmap::IndexMap;
use plan_core::Agg;
use plan_laws::groups_of_joined_lists;
use row_blob::GroupRow;
use rows_core::{Memory, Row};
use std::alloc::Global;
use std::marker::Model;

/// What is kept of the groups of the rows so far, found by their keys, in the order in which these came.
/// Contracts see the list of them.
#[derive(Drop)]
pub struct Groups {
    table: Table,
    alloc: Global,
}

impl Model for Groups {
    ghost use Rattle.std.specs.Prelude.{List};
    ghost use Rattle.row_blob.specs.declared.kept.GroupRow.{GroupRow};
    ghost use Rattle.group_fold.specs.Table.{groups_in};

    ghost Value = { List GroupRow };

    ghost view = { λ groups. groups_in (λ accs. accs.items) groups.table.entries };
}

impl Groups {
    /// No groups. It takes no memory.
    pub fn new(alloc: Global) -> Groups
        ensures empty { result ≡ [] }
        ensures bounds { (aggs : List Agg) → AreGroups aggs result }
        ensures averages { HaveAverages result }
    {
        Groups {
            table: IndexMap::new(alloc),
            alloc,
        }
    }

    /// How many groups there are. They are counted as they come, and not anew.
    pub fn len(&self) -> usize
        ensures { result ≡ length self.now }
    {
        self.table.len()
    }

    /// Takes the rows of one more list: each row goes into the group with its key, and groups with new keys
    /// come behind the others. Keys and aggregates are the same at each call. While there are at most
    /// 4,294,967,295 rows in all lists, the groups stay within the bounds of `merge` and `finish`. `Memory`
    /// where memory was asked for and refused; all stays as it was then.
    pub fn feed(&mut self, rows: &[Row], keys: &[u32], aggs: &[Agg]) -> Result<(), Memory>
        requires bounds { AreGroups aggs.now self.old }
        requires few { length rows.now ≤ 4294967295 }
        ensures merged { OnOk result (self.new
            ≡ merged_groups aggs.now self.old (groups_of keys.now aggs.now rows.now)) }
        ensures joined { OnOk result ((fed : Rows) → self.old ≡ groups_of keys.now aggs.now fed
            → self.new ≡ groups_of keys.now aggs.now (fed ++ rows.now)) }
        ensures numbers { OnOk result ((fed : Rows) → HaveNumbers aggs.now fed
            → HaveNumbers aggs.now (fed ++ rows.now)) }
        ensures bounds { OnOk result ((fed : Rows) → self.old ≡ groups_of keys.now aggs.now fed
            → HaveNumbers aggs.now fed → length (fed ++ rows.now) ≤ 4294967295
            → AreGroups aggs.now self.new) }
        ensures averages { OnOk result ((fed : Rows) → self.old ≡ groups_of keys.now aggs.now fed
            → HaveNumbers aggs.now fed → length (fed ++ rows.now) ≤ 4294967295
            → HaveAverages self.new) }
        ensures refused { OnErr result (self.new ≡ self.old) }
    {
        groups_of_joined_lists();
        let further = fold(self.alloc, rows, keys, aggs)?;
        take_groups(&mut self.table, further, aggs)
    }

    /// A second list of the groups.
    pub fn groups(&self, alloc: Global) -> Result<Vec<GroupRow>, Memory>
        ensures { IfOk result (λ groups. groups.items ≡ self.now) }
    {
        copy_of_groups(alloc, &self.table)
    }

    /// The groups, moved into a list.
    pub fn into_groups(self, alloc: Global) -> Result<Vec<GroupRow>, Memory>
        ensures { IfOk result (λ groups. groups.items ≡ self) }
    {
        let Groups { table, .. } = self;
        groups_of(alloc, table)
    }
}
