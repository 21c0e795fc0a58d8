//! The picking of the marked places that count.
ghost use Rattle.std.specs.Prelude.{◌≡◌, ◌++◌, length, drop, IfOk, OnOk};
ghost use Rattle.plan_core.specs.PlainPlan.{plan_of};
ghost use Rattle.growth_laws.specs.MadePlaces.{place, places, counts_at_root};
ghost use Rattle.made_places.specs.Picking.{place_of, places_said, places_below, picked, if_marked};

use crate::counting::{counts_at_root, counts_below};
use crate::place::Place;
use estimator::sides;
use plan_core::Plan;
use rows_core::{Cut, Memory, Seq};
use std::alloc::Global;

/// Of the marked places those that count.
pub fn picked(
    alloc: Global,
    plan: &Plan,
    cuts: &[Cut],
    marks: &[bool],
) -> Result<Vec<Place>, Memory>
    ensures { IfOk result (λ found. places_said found.items
        ≡ picked (places_below (plan_of plan.now) cuts.now) marks.now
        ++ if_marked (counts_at_root (plan_of plan.now)) (place (plan_of plan.now) cuts.now)
        (drop (length (places_below (plan_of plan.now) cuts.now)) marks.now)) }
{
    let mut places = Vec::new(alloc);
    let root = put_below(alloc, plan, cuts, marks, &mut places)?;
    put_place(alloc, counts_at_root(plan), plan, cuts, root, &mut places)?;
    Ok(places)
}

// Puts those below the root behind the others, and gives the marks that are left.
#[cycle(picking)]
#[tactic(auto, using(crate::proofs::PickLemmas::of_picked))]
fn put_below<'a>(
    alloc: Global,
    plan: &Plan,
    cuts: &[Cut],
    marks: &'a [bool],
    to: &mut Vec<Place>,
) -> Result<&'a [bool], Memory>
    ensures places { OnOk result (places_said to.new.items ≡ places_said to.old.items
        ++ picked (places_below (plan_of plan.now) cuts.now) marks.now) }
    ensures rest { IfOk result (λ rest. rest.now
        ≡ drop (length (places_below (plan_of plan.now) cuts.now)) marks.now) }
{
    match plan {
        Plan::Scan { stream: _ } => Ok(marks),
        Plan::Filter { child, test: _ }
        | Plan::Project { child, columns: _ }
        | Plan::Distinct { child }
        | Plan::Group {
            child,
            keys: _,
            aggs: _,
        }
        | Plan::Order { child, keys: _ } => put_tree(alloc, child, cuts, marks, to),
        Plan::Join { left, right, on: _ } | Plan::Concat { left, right } => {
            let (lefts, rights) = sides(left, cuts);
            let behind = put_tree(alloc, left, lefts, marks, to)?;
            put_tree(alloc, right, rights, behind, to)
        }
    }
}

// Puts those of an input behind the others, and gives the marks that are left.
#[cycle(picking)]
#[tactic(auto, using(crate::proofs::PickLemmas::of_trees))]
fn put_tree<'a>(
    alloc: Global,
    plan: &Plan,
    cuts: &[Cut],
    marks: &'a [bool],
    to: &mut Vec<Place>,
) -> Result<&'a [bool], Memory>
    ensures places { OnOk result (places_said to.new.items ≡ places_said to.old.items
        ++ picked (places (plan_of plan.now) cuts.now) marks.now) }
    ensures rest { IfOk result (λ rest. rest.now
        ≡ drop (length (places (plan_of plan.now) cuts.now)) marks.now) }
{
    let root = put_below(alloc, plan, cuts, marks, to)?;
    put_place(alloc, counts_below(plan), plan, cuts, root, to)
}

// Puts the place behind the others, if it counts and the first mark says so, and gives the marks that are
// left.
#[tactic(auto, using(crate::proofs::Joined::of_joined))]
fn put_place<'a>(
    alloc: Global,
    counts: bool,
    plan: &Plan,
    cuts: &[Cut],
    marks: &'a [bool],
    to: &mut Vec<Place>,
) -> Result<&'a [bool], Memory>
    ensures places { OnOk result (places_said to.new.items ≡ places_said to.old.items
        ++ if_marked counts (place (plan_of plan.now) cuts.now) marks.now) }
    ensures rest { IfOk result (λ rest. rest.now ≡ drop 1 marks.now) }
{
    match marks {
        [] => Ok(marks),
        [mark, rest @ ..] => {
            if counts && *mark {
                to.push(copied(alloc, plan, cuts)?)?;
            }
            Ok(rest)
        }
    }
}

// The place with this node and this part of the cut.
fn copied(alloc: Global, plan: &Plan, cuts: &[Cut]) -> Result<Place, Memory>
    ensures { IfOk result (λ at. place_of at ≡ place (plan_of plan.now) cuts.now) }
{
    let plan = plan.try_copy(alloc)?;
    let cuts = Seq::new(Vec::from_slice(alloc, cuts)?);
    Ok(Place { plan, cuts })
}
