//! The rewriting that computes each node.
ghost use Rattle.std.specs.Prelude.{◌≡◌, length, IfOk};
ghost use Rattle.plan_core.specs.PlainPlan.{plan_of, leaf_count};
ghost use Rattle.rewrite_core.specs.Computed.{computed};
ghost use Rattle.rewrite_core.specs.PlainRewriting.{Node, One, Two, rewriting_of, way_of};

use crate::rewriting::{Rewriting, Way};
use estimator::sides;
use plan_core::Plan;
use rows_core::{Cut, Memory, Seq};
use std::alloc::Global;

impl Rewriting {
    /// The rewriting that computes each node of the plan at this cut, which has an interval for each leaf.
    #[cycle(computed)]
    pub fn computed(alloc: Global, plan: &Plan, cuts: &[Cut]) -> Result<Rewriting, Memory>
        requires { length cuts.now ≡ leaf_count (plan_of plan.now) }
        ensures { IfOk result (λ tree. rewriting_of tree ≡ computed (plan_of plan.now) cuts.now) }
    {
        let way = way_computed(alloc, plan, cuts)?;
        Ok(Rewriting {
            plan: plan.try_copy(alloc)?,
            cuts: Seq::new(Vec::from_slice(alloc, cuts)?),
            way,
        })
    }
}

// The way of a node that is computed, and its inputs too.
#[cycle(computed)]
#[tactic(auto, using(crate::proofs::ComputedTrees::of_two_inputs))]
fn way_computed(alloc: Global, plan: &Plan, cuts: &[Cut]) -> Result<Way, Memory>
    requires { length cuts.now ≡ leaf_count (plan_of plan.now) }
    ensures { IfOk result
        (λ way. Node (plan_of plan.now) cuts.now (way_of way) ≡ computed (plan_of plan.now) cuts.now) }
{
    match plan {
        Plan::Scan { stream: _ } => Ok(Way::Scan),
        Plan::Filter { child, test: _ } => one(alloc, child, cuts),
        Plan::Project { child, columns: _ } => one(alloc, child, cuts),
        Plan::Distinct { child } => one(alloc, child, cuts),
        Plan::Group {
            child,
            keys: _,
            aggs: _,
        } => one(alloc, child, cuts),
        Plan::Order { child, keys: _ } => one(alloc, child, cuts),
        Plan::Join { left, right, on: _ } => {
            let (left_cuts, right_cuts) = sides(left, cuts);
            let left = Rewriting::computed(alloc, left, left_cuts)?;
            two(alloc, left, Rewriting::computed(alloc, right, right_cuts)?)
        }
        Plan::Concat { left, right } => {
            let (left_cuts, right_cuts) = sides(left, cuts);
            let left = Rewriting::computed(alloc, left, left_cuts)?;
            two(alloc, left, Rewriting::computed(alloc, right, right_cuts)?)
        }
    }
}

// The way over one input.
#[cycle(computed)]
fn one(alloc: Global, input: &Plan, cuts: &[Cut]) -> Result<Way, Memory>
    requires { length cuts.now ≡ leaf_count (plan_of input.now) }
    ensures { IfOk result (λ way. way_of way ≡ One (computed (plan_of input.now) cuts.now)) }
{
    let tree = Rewriting::computed(alloc, input, cuts)?;
    Ok(Way::One(Box::new(alloc, tree)?))
}

// The way over two inputs.
fn two(alloc: Global, left: Rewriting, right: Rewriting) -> Result<Way, Memory>
    ensures { IfOk result (λ way. way_of way ≡ Two (rewriting_of left) (rewriting_of right)) }
{
    Ok(Way::Two(Box::new(alloc, left)?, Box::new(alloc, right)?))
}
