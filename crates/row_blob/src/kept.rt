//! What a file holds.
ghost use Rattle.std.specs.Prelude.{◌≡◌, IfOk};

use rows_core::{Memory, Row, Seq, Value, copy_rows};
use std::alloc::Global;

/// What a group keeps for one of its aggregates.
#[derive(Drop)]
pub enum Acc {
    /// How many rows the group has.
    Count(u64),
    /// The sum of a column's numbers.
    Sum(i128),
    /// The sum of a column's numbers, and how many they are.
    Avg { sum: i128, count: u64 },
    /// A value of one of the rows: the least, the greatest, the first or the last.
    Pick(Value),
}

/// The key of a group and what is kept for each of its aggregates.
#[derive(Drop)]
pub struct GroupRow {
    pub key: Row,
    pub accs: Seq<Acc>,
}

/// A row of a join, and the position of its left row in the left list.
#[derive(Drop)]
pub struct TaggedRow {
    pub left: u64,
    pub row: Row,
}

/// What a file holds: plain rows, the groups of a grouping, or the rows of a join with the length of its left
/// list.
#[derive(Drop)]
pub enum Kept {
    Rows(Seq<Row>),
    Groups(Seq<GroupRow>),
    Tagged { left: u64, rows: Seq<TaggedRow> },
}

impl Acc {
    /// A second one that equals this one.
    pub fn try_copy(&self, alloc: Global) -> Result<Acc, Memory>
        ensures { IfOk result (λ copy. copy ≡ self.now) }
    {
        Ok(match self {
            Acc::Count(count) => Acc::Count(*count),
            Acc::Sum(sum) => Acc::Sum(*sum),
            Acc::Avg { sum, count } => Acc::Avg {
                sum: *sum,
                count: *count,
            },
            Acc::Pick(value) => Acc::Pick(value.try_copy(alloc)?),
        })
    }
}

impl GroupRow {
    /// A second one that equals this one.
    pub fn try_copy(&self, alloc: Global) -> Result<GroupRow, Memory>
        ensures { IfOk result (λ copy. copy ≡ self.now) }
    {
        let key = self.key.try_copy(alloc)?;
        let accs = copy_accs(alloc, self.accs.items())?;
        Ok(GroupRow {
            key,
            accs: Seq::new(accs),
        })
    }
}

impl TaggedRow {
    /// A second one that equals this one.
    pub fn try_copy(&self, alloc: Global) -> Result<TaggedRow, Memory>
        ensures { IfOk result (λ copy. copy ≡ self.now) }
    {
        Ok(TaggedRow {
            left: self.left,
            row: self.row.try_copy(alloc)?,
        })
    }
}

impl Kept {
    /// A second one that equals this one.
    pub fn try_copy(&self, alloc: Global) -> Result<Kept, Memory>
        ensures { IfOk result (λ copy. copy ≡ self.now) }
    {
        Ok(match self {
            Kept::Rows(rows) => Kept::Rows(Seq::new(copy_rows(alloc, rows.items())?)),
            Kept::Groups(groups) => Kept::Groups(Seq::new(copy_groups(alloc, groups.items())?)),
            Kept::Tagged { left, rows } => Kept::Tagged {
                left: *left,
                rows: Seq::new(copy_tagged(alloc, rows.items())?),
            },
        })
    }
}

/// A second list of the same accumulators.
pub fn copy_accs(alloc: Global, accs: &[Acc]) -> Result<Vec<Acc>, Memory>
    ensures { IfOk result (λ copies. copies.items ≡ accs.now) }
{
    let mut copies = Vec::with_capacity(alloc, accs.len())?;
    for acc in accs {
        copies.push(acc.try_copy(alloc)?)?;
    }
    Ok(copies)
}

fn copy_groups(alloc: Global, groups: &[GroupRow]) -> Result<Vec<GroupRow>, Memory>
    ensures { IfOk result (λ copies. copies.items ≡ groups.now) }
{
    let mut copies = Vec::with_capacity(alloc, groups.len())?;
    for group in groups {
        copies.push(group.try_copy(alloc)?)?;
    }
    Ok(copies)
}

fn copy_tagged(alloc: Global, rows: &[TaggedRow]) -> Result<Vec<TaggedRow>, Memory>
    ensures { IfOk result (λ copies. copies.items ≡ rows.now) }
{
    let mut copies = Vec::with_capacity(alloc, rows.len())?;
    for row in rows {
        copies.push(row.try_copy(alloc)?)?;
    }
    Ok(copies)
}
