//! Results that are recorded on the way.
ghost use Rattle.std.specs.Prelude.{◌≡◌, IfOk, OnOk};
ghost use Rattle.rewrite_core.specs.PlainRewriting.{rewriting_of, way_of};
ghost use Rattle.executor.specs.Recording.{is_made, IsPlaceOf, HasPlaceOf, RecordsOne, RecordsOwn};

use crate::recording::{MadePlace, Recording};
use made_places::counts_below;
use result_ops::{Made, MakeRefusal};
use rewrite_core::{Rewriting, Way};
use rows_core::Memory;
use std::alloc::Global;

// A kept result that is read isn't made.
#[tactic(auto, using(crate::proofs::Records::made_grown))]
fn is_made(way: &Way) -> bool
    ensures { result ≡ is_made (way_of way.now) }
{
    match way {
        Way::Scan => true,
        Way::One(_) => true,
        Way::Two(_, _) => true,
        Way::Read(_) => false,
        Way::Grown { hit: _, parts: _ } => true,
    }
}

// A copy of the result, with its plan and its cut.
fn place_of(alloc: Global, r: &Rewriting, made: &Made) -> Result<MadePlace, Memory>
    ensures { IfOk result (λ place. IsPlaceOf (rewriting_of r.now) made.now place) }
{
    let plan = r.plan.try_copy(alloc)?;
    let cuts = r.cuts.try_copy(alloc)?;
    let kept = made.kept.try_copy(alloc)?;
    let taken_in = made.taken_in;
    Ok(MadePlace {
        plan,
        cuts,
        made: Made { kept, taken_in },
    })
}

fn push_place(
    alloc: Global,
    r: &Rewriting,
    made: &Made,
    places: &mut Vec<MadePlace>,
) -> Result<(), Memory>
    ensures { OnOk result (HasPlaceOf (rewriting_of r.now) made.now places.old.items places.new.items) }
{
    let place = place_of(alloc, r, made)?;
    places.push(place)?;
    Ok(())
}

fn record(alloc: Global, r: &Rewriting, made: &Made, found: &mut Recording) -> Result<(), Memory>
    ensures { OnOk result (RecordsOne (rewriting_of r.now) made.now found.old found.new) }
{
    match found {
        Recording::Off => Ok(()),
        Recording::On(places) => push_place(alloc, r, made, places),
    }
}

/// Records a copy of what a rewriting makes, if it is made and counts below the root.
pub fn recorded(
    alloc: Global,
    r: &Rewriting,
    made: Made,
    found: &mut Recording,
) -> Result<Made, MakeRefusal>
    ensures { RecordsOwn (rewriting_of r.now) made found.old found.new result }
{
    if is_made(&r.way) && counts_below(&r.plan) {
        record(alloc, r, &made, found)?;
    }
    Ok(made)
}
