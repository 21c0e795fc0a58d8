//! Which rewritings and deltas are gathered from the extents of one stream.
ghost use Rattle.std.specs.Prelude.{◌≡◌};
ghost use Rattle.rewrite_core.specs.PlainRewriting.{rewriting_of, delta_of};
ghost use Rattle.plan_core.specs.PlainPlan.{plan_of};
ghost use Rattle.growth_laws.specs.Pieces.{is_chain_of, is_gathered, is_chain_delta};
ghost use Rattle.executor.specs.Operators.{is_row_wise, gathers};

use plan_core::Plan;
use rewrite_core::{Delta, DeltaWay, Rewriting, Way};

// An operator that passes each row on by itself, or none.
fn is_row_wise(plan: &Plan) -> bool
    ensures { result ≡ is_row_wise (plan_of plan.now) }
{
    match plan {
        Plan::Filter { .. } => true,
        Plan::Project { .. } => true,
        _ => false,
    }
}

// Such an operator, a grouping or a distinct.
fn gathers(plan: &Plan) -> bool
    ensures { result ≡ gathers (plan_of plan.now) }
{
    match plan {
        Plan::Filter { .. } => true,
        Plan::Project { .. } => true,
        Plan::Distinct { .. } => true,
        Plan::Group { .. } => true,
        _ => false,
    }
}

// Whether the tree is a computed scan, with computed filters and projections over it, or none.
#[tactic(auto, using(crate::proofs::GatheredTrees::chain_one, crate::proofs::GatheredTrees::chain_grown))]
fn is_chain(tree: &Rewriting) -> bool
    ensures { result ≡ is_chain_of (rewriting_of tree.now) }
{
    match &tree.way {
        Way::Scan => true,
        Way::One(input) => is_row_wise(&tree.plan) && is_chain(input),
        Way::Two(_, _) => false,
        Way::Read(_) => false,
        Way::Grown { hit: _, parts: _ } => false,
    }
}

/// Whether it is one piece that is gathered from a stream's extents: a computed scan, with computed filters
/// and projections over it, or none, or a computed grouping or distinct over these.
#[tactic(auto, using(crate::proofs::GatheredTrees::of_gathered))]
pub fn is_gathered(tree: &Rewriting) -> bool
    ensures { result ≡ is_gathered (rewriting_of tree.now) }
{
    match &tree.way {
        Way::Scan => true,
        Way::One(input) => gathers(&tree.plan) && is_chain(input),
        Way::Two(_, _) => false,
        Way::Read(_) => false,
        Way::Grown { hit: _, parts: _ } => false,
    }
}

/// Whether it is one piece that is gathered from a stream's extents: new ones, with filters and projections
/// over them, or none.
pub fn is_chain_delta(delta: &Delta) -> bool
    ensures { result ≡ is_chain_delta (delta_of delta.now) }
{
    match &delta.way {
        DeltaWay::Scan => true,
        DeltaWay::Tail(input) => match &delta.plan {
            Plan::Filter { .. } | Plan::Project { .. } => is_chain_delta(input),
            _ => false,
        },
        _ => false,
    }
}
