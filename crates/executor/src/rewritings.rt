//! What rewritings make of loaded pieces.
ghost use Rattle.std.specs.Prelude.{◌≡◌, false};
ghost use Rattle.plan_core.specs.PlainPlan.{plan_of};
ghost use Rattle.growth_laws.specs.Pieces.{is_gathered, pieces_of, pieces_in};
ghost use Rattle.rewrite_core.specs.PlainRewriting.{Node, rewriting_of, way_of, grown_way};
ghost use Rattle.executor.specs.Evaluating.{IsReady, IsReadyWith};
ghost use Rattle.executor.specs.Evaluating.{TreeAnswers, WayAnswers, GrownAnswers};
ghost use Rattle.executor.specs.Parts.{IsFormed, pieces_behind};
ghost use Rattle.executor.specs.Recording.{recorded_of, recorded_below};

use crate::deltas::added;
use crate::evaluation_laws::results_are_made;
use crate::is_gathered;
use crate::loaded::{Loaded, taken};
use crate::recorded::recorded;
use crate::recording::Recording;
use plan_core::Plan;
use result_ops::{
    Made, MakeRefusal, made_of_both, made_of_grown, made_of_left, made_of_one, made_of_right,
    made_of_two,
};
use rewrite_core::{Hit, Parts, Rewriting, Way};
use rows_core::Cut;
use std::alloc::Global;

/// What a rewriting makes. It is recorded, if it counts below a root.
#[cycle(evaluation)]
#[tactic(none)]
pub fn made(
    alloc: Global,
    r: &Rewriting,
    pieces: &mut Vec<Loaded>,
    found: &mut Recording,
) -> Result<Made, MakeRefusal>
    requires formed { IsFormed (rewriting_of r.now) }
    requires ready { IsReady (plan_of r.now.plan) (pieces_of (rewriting_of r.now)) pieces.old.items }
    ensures { TreeAnswers (rewriting_of r.now) (recorded_of (rewriting_of r.now)) pieces.old.items
        pieces.new.items found.old found.new result }
{
    let made = made_unrecorded(alloc, r, pieces, found)?;
    recorded(alloc, r, made, found)
}

/// The same, with the results below it recorded alone.
#[cycle(evaluation)]
#[tactic(none)]
pub fn made_unrecorded(
    alloc: Global,
    r: &Rewriting,
    pieces: &mut Vec<Loaded>,
    found: &mut Recording,
) -> Result<Made, MakeRefusal>
    requires formed { IsFormed (rewriting_of r.now) }
    requires ready { IsReady (plan_of r.now.plan) (pieces_of (rewriting_of r.now)) pieces.old.items }
    ensures { TreeAnswers (rewriting_of r.now) (recorded_below (rewriting_of r.now)) pieces.old.items
        pieces.new.items found.old found.new result }
{
    results_are_made();
    if is_gathered(r) {
        taken(pieces)
    } else {
        made_in(alloc, &r.way, &r.plan, r.cuts.items(), pieces, found)
    }
}

// What it makes of its parts, or of a kept result.
#[cycle(evaluation)]
#[tactic(none)]
fn made_in(
    alloc: Global,
    way: &Way,
    plan: &Plan,
    cuts: &[Cut],
    pieces: &mut Vec<Loaded>,
    found: &mut Recording,
) -> Result<Made, MakeRefusal>
    requires formed { IsFormed (Node (plan_of plan.now) cuts.now (way_of way.now)) }
    requires parts { is_gathered (Node (plan_of plan.now) cuts.now (way_of way.now)) ≡ false }
    requires ready { IsReady (plan_of plan.now) (pieces_in (plan_of plan.now) (way_of way.now))
        pieces.old.items }
    ensures { WayAnswers (plan_of plan.now) cuts.now (way_of way.now) pieces.old.items pieces.new.items
        found.old found.new result }
{
    results_are_made();
    match way {
        Way::Scan => unreachable!(),
        Way::One(input) => {
            let input = made(alloc, input, pieces, found)?;
            made_of_one(alloc, plan, input)
        }
        Way::Two(left, right) => {
            let left = made(alloc, left, pieces, found)?;
            let right = made(alloc, right, pieces, found)?;
            made_of_two(alloc, plan, left, right)
        }
        Way::Read(_) => taken(pieces),
        Way::Grown { hit, parts } => {
            let old = taken(pieces)?;
            grown(alloc, parts, plan, cuts, hit, old, pieces, found)
        }
    }
}

// What is made of the earlier result and of what came since.
#[cycle(evaluation)]
#[tactic(none)]
fn grown(
    alloc: Global,
    parts: &Parts,
    plan: &Plan,
    _cuts: &[Cut],
    _hit: &Hit,
    old: Made,
    pieces: &mut Vec<Loaded>,
    found: &mut Recording,
) -> Result<Made, MakeRefusal>
    requires formed { IsFormed (Node (plan_of plan.now) _cuts.now (grown_way _hit.now parts.now)) }
    requires ready { IsReadyWith (plan_of plan.now) old (pieces_behind (grown_way _hit.now parts.now))
        pieces.old.items }
    ensures { GrownAnswers (plan_of plan.now) _cuts.now _hit.now (grown_way _hit.now parts.now) old
        pieces.old.items pieces.new.items found.old found.new result }
{
    results_are_made();
    match parts {
        Parts::Tail(delta) => {
            let added = added(alloc, delta, pieces, found)?;
            made_of_grown(alloc, plan, old, added)
        }
        Parts::LeftGrew { left, right } => {
            let added = added(alloc, left, pieces, found)?;
            let right = made(alloc, right, pieces, found)?;
            made_of_left(alloc, plan, old, added, right)
        }
        Parts::RightGrew { left, right } => {
            let left = made(alloc, left, pieces, found)?;
            let added = added(alloc, right, pieces, found)?;
            made_of_right(alloc, plan, old, left, added)
        }
        Parts::BothGrew {
            old_left,
            right_delta,
            left_delta,
            right,
        } => {
            let old_left = made(alloc, old_left, pieces, found)?;
            let right_added = added(alloc, right_delta, pieces, found)?;
            let left_added = added(alloc, left_delta, pieces, found)?;
            let right = made(alloc, right, pieces, found)?;
            made_of_both(alloc, plan, old, old_left, right_added, left_added, right)
        }
    }
}
