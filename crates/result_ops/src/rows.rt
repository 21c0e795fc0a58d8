//! The rows of results.
ghost use Rattle.std.specs.Prelude.{◌≡◌, ◌<◌, map, IfOk, IsSome, Ok};
ghost use Rattle.plan_core.specs.PlainPlan.{plan_of};
ghost use Rattle.plan_core.specs.PlanTyping.{Kinds};
ghost use Rattle.plan_laws.specs.KeptForm.{rows_of_kept};
ghost use Rattle.row_ops.specs.Operators.{Gives};
ghost use Rattle.growth_laws.specs.Making.{IsFormOf};
ghost use Rattle.result_ops.specs.Bounds.{IsBounded};
ghost use Rattle.result_ops.specs.Steps.{made_of, taken_of_one, Takes, Counts};

use crate::made::{Input, Made};
use crate::refusal::MakeRefusal;
use plan_core::{EvRefusal, Plan};
use row_blob::{Kept, TaggedRow};
use rows_core::limits::MAX_MACHINE_TIME;
use rows_core::{Memory, Row, Seq};
use std::alloc::Global;

/// The rows of what is kept of a plan's result: of a group its key and what its accumulators come to.
/// `Overflow` exactly where a sum is outside of i64.
pub fn rows_of(alloc: Global, plan: &Plan, kept: Kept) -> Result<Vec<Row>, EvRefusal>
    requires form { IsFormOf (plan_of plan.now) kept }
    requires bounded { IsBounded (plan_of plan.now) kept }
    ensures { Gives result (rows_of_kept kept) }
{
    match (plan, kept) {
        (Plan::Group { aggs, .. }, Kept::Groups(groups)) => {
            group_fold::finish(alloc, groups.items(), aggs.items())
        }
        (_, Kept::Rows(rows)) => Ok(rows.into_vec()),
        (_, Kept::Tagged { left: _, rows }) => Ok(rows_of_tagged(alloc, rows)?),
        (_, Kept::Groups(_)) => unreachable!(),
    }
}

/// The rows of a join without the positions of their left rows.
pub fn rows_of_tagged(alloc: Global, joined: Seq<TaggedRow>) -> Result<Vec<Row>, Memory>
    ensures { IfOk result (λ rows. rows.items ≡ map (λ tagged. tagged.row) joined) }
{
    let joined = joined.into_vec();
    let mut rows = Vec::with_capacity(alloc, joined.len())?;
    for tagged in joined {
        rows.push(tagged.row)?;
    }
    Ok(rows)
}

/// The rows of an input's result, as its operator takes them in. `Machine` exactly where these are so many
/// that the machine time is above its limit.
pub fn input_of(alloc: Global, plan: &Plan, made: Made) -> Result<Input, MakeRefusal>
    requires form { IsFormOf (plan_of plan.now) made.kept }
    requires bounded { IsBounded (plan_of plan.now) made.kept }
    ensures { Takes (made_of made) result }
{
    let Made { kept, taken_in } = made;
    let rows = rows_of(alloc, plan, kept)?;
    counted(rows, taken_in)
}

// Counts the rows as taken in.
pub fn counted(rows: Vec<Row>, taken_in: u64) -> Result<Input, MakeRefusal>
    ensures { Counts rows.items taken_in result }
{
    let taken_in = taken_in.saturating_add(rows.len() as u64);
    if taken_in >= MAX_MACHINE_TIME {
        return Err(MakeRefusal::Machine);
    }
    Ok(Input { rows, taken_in })
}
