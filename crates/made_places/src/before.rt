//! Marks of places at which nothing is made, and of what stands before a delta.
ghost use Rattle.std.specs.Prelude.{◌≡◌, ◌++◌, IfOk, OnOk};
ghost use Rattle.plan_core.specs.PlainPlan.{plan_of};
ghost use Rattle.growth_laws.specs.MadePlaces.{nowhere, before_tail};
ghost use Rattle.made_places.specs.Marks.{unmarked, tail_cuts};

use estimator::sides;
use plan_core::Plan;
use rows_core::{Cut, Memory};
use std::alloc::Global;

/// A mark for each place of the left input of a concatenation: nothing is made there.
pub fn before_tail(alloc: Global, plan: &Plan) -> Result<Vec<bool>, Memory>
    ensures { IfOk result (λ marks. marks.items ≡ unmarked (before_tail (plan_of plan.now))) }
{
    match plan {
        Plan::Concat { left, right: _ } => unmarked(alloc, left),
        _ => Ok(Vec::new(alloc)),
    }
}

/// The intervals of the input that a delta is of.
pub fn tail_cuts<'a>(plan: &Plan, cuts: &'a [Cut]) -> &'a [Cut]
    ensures { result.now ≡ tail_cuts (plan_of plan.now) cuts.now }
{
    match plan {
        Plan::Concat { left, right: _ } => {
            let (_lefts, rights) = sides(left, cuts);
            rights
        }
        _ => cuts,
    }
}

/// A mark for each place of a plan: nothing is made there.
pub fn unmarked(alloc: Global, plan: &Plan) -> Result<Vec<bool>, Memory>
    ensures { IfOk result (λ marks. marks.items ≡ unmarked (nowhere (plan_of plan.now))) }
{
    let mut marks = Vec::new(alloc);
    put_unmarked(plan, &mut marks)?;
    Ok(marks)
}

// Puts a mark for each place of a plan behind the others: nothing is made there.
#[tactic(auto, using(crate::proofs::Joined::of_joined))]
fn put_unmarked(plan: &Plan, to: &mut Vec<bool>) -> Result<(), Memory>
    ensures { OnOk result (to.new.items ≡ to.old.items ++ unmarked (nowhere (plan_of plan.now))) }
{
    match plan {
        Plan::Scan { stream: _ } => {}
        Plan::Filter { child, test: _ }
        | Plan::Project { child, columns: _ }
        | Plan::Distinct { child }
        | Plan::Group {
            child,
            keys: _,
            aggs: _,
        }
        | Plan::Order { child, keys: _ } => put_unmarked(child, to)?,
        Plan::Join { left, right, on: _ } | Plan::Concat { left, right } => {
            put_unmarked(left, to)?;
            put_unmarked(right, to)?;
        }
    }
    to.push(false)?;
    Ok(())
}
