//! What the operator of a plan takes in.
ghost use Rattle.std.specs.Prelude.{◌≡◌, length};
ghost use Rattle.plan_core.specs.PlainPlan.{plan_of, leaf_count};
ghost use Rattle.estimator.specs.Bytes.{Lengths, IsCutOf};
ghost use Rattle.rewrite_core.specs.Entries.{Entries};
ghost use Rattle.rewriter.specs.Growing.{Computes};
ghost use Rattle.rewriter.specs.Inputs.{HasTwo, IsLower};

use crate::inputs::{only_child, two_children};
use crate::parts::{Inputs, Part};
use crate::places::{first_input, second_input};
use estimator::sides;
use plan_core::Plan;

/// The inputs of the part's plan at its cut.
pub fn inputs_of<'p, 'c>(part: Part<'p, 'c>) -> Inputs<'p, 'c>
    requires { length part.cuts.now ≡ leaf_count (plan_of part.plan.now) }
    ensures { (entries : Entries) (lengths : Lengths)
        → IsCutOf lengths (plan_of part.entry.plan.now) part.entry.cuts.now
        → Computes entries lengths (plan_of part.entry.plan.now) part.entry.cuts.now result }
{
    match only_child(part.plan) {
        Some(child) => Inputs::One(Part {
            plan: child,
            place: first_input(part.place),
            cuts: part.cuts,
        }),
        None => match two_children(part.plan) {
            Some((left, right)) => both_inputs(part, left, right),
            None => Inputs::Stream,
        },
    }
}

fn both_inputs<'p, 'c>(part: Part<'p, 'c>, left: &'p Plan, right: &'p Plan) -> Inputs<'p, 'c>
    requires cuts { length part.cuts.now ≡ leaf_count (plan_of part.plan.now) }
    requires two { HasTwo (plan_of part.plan.now) (plan_of left.now) (plan_of right.now) }
    requires left { IsLower (plan_of left.now) (plan_of part.plan.now) }
    requires right { IsLower (plan_of right.now) (plan_of part.plan.now) }
    ensures { (entries : Entries) (lengths : Lengths)
        → IsCutOf lengths (plan_of part.entry.plan.now) part.entry.cuts.now
        → Computes entries lengths (plan_of part.entry.plan.now) part.entry.cuts.now result }
{
    let (lefts, rights) = sides(left, part.cuts);
    let first = Part {
        plan: left,
        place: first_input(part.place),
        cuts: lefts,
    };
    let second = Part {
        plan: right,
        place: second_input(part.place),
        cuts: rights,
    };
    Inputs::Two(first, second)
}
