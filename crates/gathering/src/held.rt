//! What is held of the rows that have come.
ghost use Rattle.std.specs.Prelude.{◌≡◌, [], ◌++◌, OnOk, OnErr, IfOk};
ghost use Rattle.plan_core.specs.PlainPlan.{plan_of};
ghost use Rattle.result_ops.specs.Bounds.{limit};
ghost use Rattle.growth_laws.specs.Chains.{IsOneStream};
ghost use Rattle.gathering.specs.Gathered.{kept_length};
ghost use Rattle.gathering.specs.Holding.{kept_of_chain, kept_in, IsFormFor, AreMergeable, AreWithin};
ghost use Rattle.gathering.specs.Holding.{Joins, Sums};
ghost use Rattle.gathering.specs.declared.held.Held.TheVariants as held;

use group_fold::Groups;
use plan_core::Plan;
use row_blob::Kept;
use row_ops::Seen;
use rows_core::{Memory, Row, Seq, copy_rows};
use std::alloc::Global;

/// What the operator of a plan needs of the rows so far: all rows of filters and projections, the first of
/// equal rows of a distinct, the groups of a grouping.
#[derive(Drop)]
pub enum Held {
    Rows(Vec<Row>),
    Distinct(Seen),
    Groups(Groups),
}

impl Held {
    /// Of no rows. It takes no memory.
    pub fn new(alloc: Global, plan: &Plan) -> Held
        requires { IsOneStream (plan_of plan.now) }
        ensures form { IsFormFor (plan_of plan.now) result }
        ensures none { kept_in result ≡ kept_of_chain (plan_of plan.now) [] }
    {
        match plan {
            Plan::Distinct { .. } => Held::Distinct(Seen::new(alloc)),
            Plan::Group { .. } => Held::Groups(Groups::new(alloc)),
            _ => Held::Rows(Vec::new(alloc)),
        }
    }

    /// How many rows or groups there are.
    pub fn len(&self) -> u64
        ensures { result ≡ kept_length (kept_in self.now) }
    {
        match self {
            Held::Rows(rows) => rows.len() as u64,
            Held::Distinct(seen) => seen.len() as u64,
            Held::Groups(groups) => groups.len() as u64,
        }
    }

    /// Takes further rows that the plan's filters and projections give. `Memory` leaves all as it was.
    pub fn take(&mut self, plan: &Plan, rows: Vec<Row>) -> Result<(), Memory>
        requires form { IsFormFor (plan_of plan.now) self.old }
        requires mergeable { AreMergeable (plan_of plan.now) self.old }
        requires few { AreWithin (plan_of plan.now) rows.items limit }
        ensures form { IsFormFor (plan_of plan.now) self.new }
        ensures joined { OnOk result (Joins (plan_of plan.now) self.old self.new rows.items) }
        ensures summed { OnOk result (Sums (plan_of plan.now) rows.items) }
        ensures refused { OnErr result (kept_in self.new ≡ kept_in self.old) }
    {
        match self {
            Held::Rows(before) => join_rows(before, rows),
            Held::Distinct(seen) => seen.feed(rows),
            Held::Groups(groups) => feed_groups(groups, plan, &rows),
        }
    }

    /// A copy of what is kept of it.
    pub fn kept(&self, alloc: Global) -> Result<Kept, Memory>
        ensures { IfOk result (λ kept. kept ≡ kept_in self.now) }
    {
        match self {
            Held::Rows(rows) => Ok(Kept::Rows(Seq::new(copy_rows(alloc, rows)?))),
            Held::Distinct(seen) => Ok(Kept::Rows(Seq::new(seen.rows(alloc)?))),
            Held::Groups(groups) => Ok(Kept::Groups(Seq::new(groups.groups(alloc)?))),
        }
    }

    /// What is kept of it, by value.
    pub fn into_kept(self, alloc: Global) -> Result<Kept, Memory>
        ensures { IfOk result (λ kept. kept ≡ kept_in self) }
    {
        match self {
            Held::Rows(rows) => Ok(Kept::Rows(Seq::new(rows))),
            Held::Distinct(seen) => Ok(Kept::Rows(Seq::new(seen.into_rows(alloc)?))),
            Held::Groups(groups) => Ok(Kept::Groups(Seq::new(groups.into_groups(alloc)?))),
        }
    }
}

// Puts further rows behind the others.
fn join_rows(rows: &mut Vec<Row>, further: Vec<Row>) -> Result<(), Memory>
    ensures joined { OnOk result (rows.new.items ≡ rows.old.items ++ further.items) }
    ensures refused { OnErr result (rows.new.items ≡ rows.old.items) }
{
    let mut further = further;
    rows.append(&mut further)?;
    Ok(())
}

// Takes further rows into the groups of the plan, which is a grouping.
fn feed_groups(groups: &mut Groups, plan: &Plan, rows: &[Row]) -> Result<(), Memory>
    requires form { IsFormFor (plan_of plan.now) (held.Groups groups.old) }
    requires mergeable { AreMergeable (plan_of plan.now) (held.Groups groups.old) }
    requires few { AreWithin (plan_of plan.now) rows.now limit }
    ensures joined { OnOk result
        (Joins (plan_of plan.now) (held.Groups groups.old) (held.Groups groups.new) rows.now) }
    ensures summed { OnOk result (Sums (plan_of plan.now) rows.now) }
    ensures refused { OnErr result (groups.new ≡ groups.old) }
{
    let Plan::Group {
        child: _,
        keys,
        aggs,
    } = plan
    else {
        unreachable!()
    };
    groups.feed(rows, keys.items(), aggs.items())
}
