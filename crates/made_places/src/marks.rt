//! Marks of places: whether a rewriting makes a result there.
ghost use Rattle.std.specs.Prelude.{◌≡◌, ◌∷◌, [], ◌++◌, List, IfOk};
ghost use Rattle.std.specs.List.{list_any};
ghost use Rattle.plan_core.specs.PlainPlan.{plan_of};
ghost use Rattle.rewrite_core.specs.declared.rewriting.Hit.{Hit};
ghost use Rattle.rewrite_core.specs.PlainRewriting.{PlainRewriting, rewriting_of, way_of};
ghost use Rattle.rewrite_core.specs.PlainRewriting.{grown_way, delta_of};
ghost use Rattle.growth_laws.specs.MadePlaces.{place, places, is_made_at, standing_of, standing_in};
ghost use Rattle.growth_laws.specs.MadePlaces.{standing_of_delta};
ghost use Rattle.made_places.specs.Formed.{IsFormed, IsFormedWay, AreFormed, IsFormedDelta};
ghost use Rattle.made_places.specs.Marks.{marks, either};

use crate::before::{before_tail, tail_cuts, unmarked};
use estimator::{are_same_cuts, sides};
use plan_core::Plan;
use rewrite_core::{Delta, DeltaWay, Parts, Rewriting, Way};
use rows_core::{Cut, Memory};
use std::alloc::Global;

/// Of each place of the rewriting's plan, in post-order, whether a tree stands there that makes its result
/// at this cut.
#[cycle(marks)]
pub fn marked(alloc: Global, tree: &Rewriting, at: &[Cut]) -> Result<Vec<bool>, Memory>
    requires { IsFormed (rewriting_of tree.now) }
    ensures { IfOk result (λ found. found.items
        ≡ marks (places (plan_of tree.now.plan) at.now) (standing_of (rewriting_of tree.now))) }
{
    let own = are_same_cuts(tree.cuts.items(), at);
    marked_in(alloc, &tree.way, &tree.plan, at, own)
}

// The same of a way, with the mark of the tree at the root.
#[cycle(marks)]
fn marked_in(
    alloc: Global,
    way: &Way,
    plan: &Plan,
    at: &[Cut],
    own: bool,
) -> Result<Vec<bool>, Memory>
    requires { IsFormedWay (plan_of plan.now) (way_of way.now) }
    ensures { (root : List PlainRewriting)
        → list_any (is_made_at (place (plan_of plan.now) at.now)) root ≡ own → IfOk result (λ found.
        found.items ≡ marks (places (plan_of plan.now) at.now) (standing_in (plan_of plan.now)
        (way_of way.now) root)) }
{
    match way {
        Way::Scan => of_one(Vec::new(alloc), own),
        Way::One(input) => of_one(marked(alloc, input, at)?, own),
        Way::Two(left, right) => {
            let (lefts, rights) = sides(&left.plan, at);
            let left = marked(alloc, left, lefts)?;
            of_two(left, marked(alloc, right, rights)?, own)
        }
        Way::Read(_) => unmarked(alloc, plan),
        Way::Grown { hit: _, parts } => marked_in_grown(alloc, parts, plan, at, own),
    }
}

// The same of what is made beside an earlier result.
#[cycle(marks)]
fn marked_in_grown(
    alloc: Global,
    parts: &Parts,
    plan: &Plan,
    at: &[Cut],
    own: bool,
) -> Result<Vec<bool>, Memory>
    requires { AreFormed (plan_of plan.now) parts.now }
    ensures { (hit : Hit) (root : List PlainRewriting)
        → list_any (is_made_at (place (plan_of plan.now) at.now)) root ≡ own → IfOk result (λ found.
        found.items ≡ marks (places (plan_of plan.now) at.now) (standing_in (plan_of plan.now)
        (grown_way hit parts.now) root)) }
{
    match parts {
        Parts::Tail(delta) => {
            let before = before_tail(alloc, plan)?;
            of_two(
                before,
                marked_in_delta(alloc, delta, tail_cuts(plan, at))?,
                own,
            )
        }
        Parts::LeftGrew { left, right } => {
            let (lefts, rights) = sides(&left.plan, at);
            let left = marked_in_delta(alloc, left, lefts)?;
            of_two(left, marked(alloc, right, rights)?, own)
        }
        Parts::RightGrew { left, right } => {
            let (lefts, rights) = sides(&left.plan, at);
            let left = marked(alloc, left, lefts)?;
            of_two(left, marked_in_delta(alloc, right, rights)?, own)
        }
        Parts::BothGrew {
            old_left,
            right_delta,
            left_delta,
            right,
        } => {
            let (lefts, rights) = sides(&old_left.plan, at);
            let old = marked(alloc, old_left, lefts)?;
            let left = either(alloc, old, marked_in_delta(alloc, left_delta, lefts)?)?;
            let grown = marked_in_delta(alloc, right_delta, rights)?;
            let right = either(alloc, grown, marked(alloc, right, rights)?)?;
            of_two(left, right, own)
        }
    }
}

// The same of a delta; at its root no tree stands.
#[cycle(marks)]
fn marked_in_delta(alloc: Global, delta: &Delta, at: &[Cut]) -> Result<Vec<bool>, Memory>
    requires { IsFormedDelta (delta_of delta.now) }
    ensures { IfOk result (λ found. found.items
        ≡ marks (places (plan_of delta.now.plan) at.now) (standing_of_delta (delta_of delta.now))) }
{
    match &delta.way {
        DeltaWay::Unchanged => unmarked(alloc, &delta.plan),
        DeltaWay::Scan => unmarked(alloc, &delta.plan),
        DeltaWay::Tail(input) => {
            let before = before_tail(alloc, &delta.plan)?;
            let behind = marked_in_delta(alloc, input, tail_cuts(&delta.plan, at))?;
            of_two(before, behind, false)
        }
        DeltaWay::Distinct { old, child } => {
            let found = of_one(marked_in_delta(alloc, child, at)?, false)?;
            either(alloc, marked(alloc, old, at)?, found)
        }
        DeltaWay::Join { left, right } => {
            let (lefts, rights) = sides(&left.plan, at);
            let left = marked_in_delta(alloc, left, lefts)?;
            of_two(left, marked(alloc, right, rights)?, false)
        }
    }
}

// The marks of one input, and that of the root.
fn of_one(mut input: Vec<bool>, own: bool) -> Result<Vec<bool>, Memory>
    ensures { IfOk result (λ found. found.items ≡ input.items ++ own ∷ []) }
{
    input.push(own)?;
    Ok(input)
}

// The marks of two inputs, and that of the root.
#[tactic(auto, using(crate::proofs::Joined::of_joined))]
fn of_two(mut left: Vec<bool>, right: Vec<bool>, own: bool) -> Result<Vec<bool>, Memory>
    ensures { IfOk result (λ found. found.items ≡ left.items ++ (right.items ++ own ∷ [])) }
{
    left.extend_from_slice(right.as_slice())?;
    left.push(own)?;
    Ok(left)
}

// The marks of either.
fn either(alloc: Global, found: Vec<bool>, others: Vec<bool>) -> Result<Vec<bool>, Memory>
    ensures { IfOk result (λ both. both.items ≡ either found.items others.items) }
{
    let found = found.as_slice();
    let both = found.iter().zip(others.as_slice());
    Ok(both.map(|(mark, other)| *mark || *other).collect(alloc)?)
}
