//! What is kept of the results that were made.
ghost use Rattle.std.specs.Prelude.{◌≡◌, ◌↔◌, ◌+◌, ◌∷◌, min, IsTrue, IfOk};
ghost use Rattle.std.specs.List.{AllByRecursion};
ghost use Rattle.std.specs.Option.{option_map};
ghost use Rattle.plan_core.specs.PlainPlan.{plan_of};
ghost use Rattle.growth_laws.specs.MadePlaces.{place, made_places};
ghost use Rattle.made_places.specs.Formed.{IsFormed};
ghost use Rattle.made_places.specs.Picking.{place_of, places_said};
ghost use Rattle.result_ops.specs.Bounds.{limit};
ghost use Rattle.rewrite_core.specs.PlainRewriting.{rewriting_of};
ghost use Rattle.executor.specs.Outcomes.{IsMadeAt, IsKeptOf, KeepEach, FindsAt, PutsKept, IsKeptFrom};
ghost use Rattle.executor.specs.Outcomes.{AreKeptFrom};

use crate::MadePlace;
use crate::outcome::KeptPlace;
use estimator::are_same_cuts;
use made_places::{Place, made_places};
use plan_core::Plan;
use rewrite_core::Rewriting;
use rows_core::limits::MAX_MACHINE_TIME;
use rows_core::{Cut, Memory};
use std::alloc::Global;

/// What is kept at each place that the rewriting makes, where a result of the place's plan was made at its
/// cut: `own` is the rewriting's own result, and `found` are those below it. Whatever these are, only what was
/// made at such a place is kept, with a machine time.
pub(crate) fn kept_places(
    alloc: Global,
    rewriting: &Rewriting,
    own: &MadePlace,
    found: &[MadePlace],
) -> Result<Vec<KeptPlace>, Memory>
    requires { IsFormed (rewriting_of rewriting.now) }
    ensures each { IfOk result (λ kept. KeepEach (own.now ∷ found.now)
        (made_places (plan_of rewriting.now.plan) rewriting.now.cuts (rewriting_of rewriting.now))
        kept.items) }
    ensures places { IfOk result (λ kept. AreKeptFrom (rewriting_of rewriting.now) kept.items) }
{
    let places = made_places(alloc, rewriting)?;
    kept_at_each(alloc, places, own, found)
}

// What is kept at each of these places.
fn kept_at_each(
    alloc: Global,
    places: Vec<Place>,
    own: &MadePlace,
    found: &[MadePlace],
) -> Result<Vec<KeptPlace>, Memory>
    ensures each { IfOk result
        (λ kept. KeepEach (own.now ∷ found.now) (places_said places.items) kept.items) }
    ensures places { IfOk result
        (λ kept. AllByRecursion (IsKeptFrom (places_said places.items)) kept.items) }
{
    let mut kept = Vec::new(alloc);
    for place in places {
        put_kept(alloc, place, own, found, &mut kept)?;
    }
    Ok(kept)
}

// What is kept of what was made at the place comes behind the others, which stay where nothing was made.
fn put_kept(
    alloc: Global,
    place: Place,
    own: &MadePlace,
    found: &[MadePlace],
    kept: &mut Vec<KeptPlace>,
) -> Result<(), Memory>
    ensures { IfOk result (λ _. PutsKept (own.now ∷ found.now) (place_of place) kept.old.items
        kept.new.items) }
{
    let Some(made) = made_at(own, found, &place.plan, place.cuts.items()) else {
        return Ok(());
    };
    kept.push(kept_of(alloc, place, made)?)?;
    Ok(())
}

// What is kept of a result that was made at the place.
fn kept_of(alloc: Global, place: Place, made: &MadePlace) -> Result<KeptPlace, Memory>
    ensures { IfOk result (IsKeptOf made.now (place_of place)) }
{
    let Place { plan, cuts } = place;
    let kept = made.made.kept.try_copy(alloc)?;
    let machine = machine_of(made.made.taken_in);
    Ok(KeptPlace {
        plan,
        cuts,
        kept,
        machine,
    })
}

// The machine time of a plan that takes so many rows in, cut at the greatest one.
fn machine_of(taken_in: u64) -> u32
    ensures { result ≡ min (taken_in + 1) limit }
{
    if taken_in >= MAX_MACHINE_TIME {
        u32::MAX
    } else {
        taken_in as u32 + 1
    }
}

// The first result that was made of this plan at this cut.
fn made_at<'a>(
    own: &'a MadePlace,
    found: &'a [MadePlace],
    plan: &Plan,
    cuts: &[Cut],
) -> Option<&'a MadePlace>
    ensures { FindsAt (own.now ∷ found.now) (place (plan_of plan.now) cuts.now)
        (option_map (λ made. made.now) result) }
{
    if is_at(own, plan, cuts) {
        Some(own)
    } else {
        found_at(found, plan, cuts)
    }
}

fn found_at<'a>(found: &'a [MadePlace], plan: &Plan, cuts: &[Cut]) -> Option<&'a MadePlace>
    ensures { FindsAt found.now (place (plan_of plan.now) cuts.now) (option_map (λ made. made.now) result) }
{
    match found {
        [] => None,
        [made, rest @ ..] => {
            if is_at(made, plan, cuts) {
                Some(made)
            } else {
                found_at(rest, plan, cuts)
            }
        }
    }
}

// Whether it was made of this plan at this cut.
fn is_at(made: &MadePlace, plan: &Plan, cuts: &[Cut]) -> bool
    ensures { IsTrue result ↔ IsMadeAt (place (plan_of plan.now) cuts.now) made.now }
{
    made.plan.is_same(plan) && are_same_cuts(made.cuts.items(), cuts)
}
