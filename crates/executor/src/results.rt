//! What a rewriting makes of its loaded pieces.
ghost use Rattle.std.specs.Prelude.{◌≡◌, List, ◌++◌, IsSome, IfOk, OnOk, OnErr};
ghost use Rattle.plan_core.specs.PlainPlan.{plan_of};
ghost use Rattle.plan_core.specs.PlanTyping.{Kinds, plan_kinds};
ghost use Rattle.growth_laws.specs.KeptResults.{KeptResults};
ghost use Rattle.growth_laws.specs.Lists.{Extents};
ghost use Rattle.growth_laws.specs.Pieces.{pieces_of};
ghost use Rattle.growth_laws.specs.Trees.{made_by};
ghost use Rattle.rewrite_core.specs.PlainRewriting.{rewriting_of};
ghost use Rattle.result_ops.specs.Fitting.{IsFit};
ghost use Rattle.result_ops.specs.Steps.{Makes};
ghost use Rattle.executor.specs.Loading.{HoldAll, AreFit};
ghost use Rattle.executor.specs.Parts.{IsFormed};
ghost use Rattle.executor.specs.Passing.{Passes};
ghost use Rattle.executor.specs.Recording.{AreRecorded, HasRecorded, places_of, recorded_below};

use crate::loaded::Loaded;
use crate::recording::{MadePlace, Recording};
use crate::rewritings::made_unrecorded;
use result_ops::{Made, MakeRefusal};
use rewrite_core::Rewriting;
use rows_core::Memory;
use std::alloc::Global;

/// What a rewriting makes of its loaded pieces, in the order in which they are read. Whatever the extents and
/// the kept results hold of which these are: it is what the definitions give of them, with a machine time
/// within the limit and within the bounds. `Overflow` comes only where that is an overflow, and `Machine`,
/// over sound results with machine times within the limit, only where the machine time of the plan is above
/// it.
pub fn evaluate(
    alloc: Global,
    rewriting: &Rewriting,
    pieces: Vec<Loaded>,
) -> Result<Made, MakeRefusal>
    requires formed { IsFormed (rewriting_of rewriting.now) }
    requires fit { (schemas : List Kinds) × IsSome (plan_kinds schemas (plan_of rewriting.now.plan))
        × AreFit schemas (pieces_of (rewriting_of rewriting.now)) pieces.items }
    ensures { (extents : Extents) (results : KeptResults)
        → HoldAll extents results (pieces_of (rewriting_of rewriting.now)) pieces.items
        → Makes (Passes extents results (rewriting_of rewriting.now)) (plan_of rewriting.now.plan)
        (made_by extents results (rewriting_of rewriting.now)) result }
{
    let mut recording = Recording::Off;
    evaluated(alloc, rewriting, pieces, &mut recording)
}

/// The same. The results that were made below it, of the trees that count below a root, come behind those
/// that were there before, in the order in which they were made: each is what the definitions give of its
/// tree, with the tree's plan and cut. A refusal leaves those that were there. What is made of fit pieces is
/// fit, whatever they are of.
pub fn evaluate_recording(
    alloc: Global,
    rewriting: &Rewriting,
    pieces: Vec<Loaded>,
    found: &mut Vec<MadePlace>,
) -> Result<Made, MakeRefusal>
    requires formed { IsFormed (rewriting_of rewriting.now) }
    requires fit { (schemas : List Kinds) × IsSome (plan_kinds schemas (plan_of rewriting.now.plan))
        × AreFit schemas (pieces_of (rewriting_of rewriting.now)) pieces.items }
    ensures made { (extents : Extents) (results : KeptResults)
        → HoldAll extents results (pieces_of (rewriting_of rewriting.now)) pieces.items
        → Makes (Passes extents results (rewriting_of rewriting.now)) (plan_of rewriting.now.plan)
        (made_by extents results (rewriting_of rewriting.now)) result }
    ensures fit { (schemas : List Kinds) → IsSome (plan_kinds schemas (plan_of rewriting.now.plan))
        → AreFit schemas (pieces_of (rewriting_of rewriting.now)) pieces.items
        → IfOk result (λ made. IsFit schemas (plan_of rewriting.now.plan) made.kept) }
    ensures recorded { (extents : Extents) (results : KeptResults)
        → HoldAll extents results (pieces_of (rewriting_of rewriting.now)) pieces.items
        → OnOk result (AreRecorded extents results (recorded_below (rewriting_of rewriting.now))
        found.old.items found.new.items) }
    ensures behind { OnOk result ((below : List MadePlace) × (found.new.items ≡ found.old.items ++ below)) }
    ensures refused { OnErr result (found.new.items ≡ found.old.items) }
{
    let mut recording = Recording::On(Vec::new(alloc));
    let made = evaluated(alloc, rewriting, pieces, &mut recording)?;
    put_behind(found, recording)?;
    Ok(made)
}

// The same, with the results recorded in a recording.
fn evaluated(
    alloc: Global,
    rewriting: &Rewriting,
    pieces: Vec<Loaded>,
    found: &mut Recording,
) -> Result<Made, MakeRefusal>
    requires formed { IsFormed (rewriting_of rewriting.now) }
    requires fit { (schemas : List Kinds) × IsSome (plan_kinds schemas (plan_of rewriting.now.plan))
        × AreFit schemas (pieces_of (rewriting_of rewriting.now)) pieces.items }
    ensures made { (extents : Extents) (results : KeptResults)
        → HoldAll extents results (pieces_of (rewriting_of rewriting.now)) pieces.items
        → Makes (Passes extents results (rewriting_of rewriting.now)) (plan_of rewriting.now.plan)
        (made_by extents results (rewriting_of rewriting.now)) result }
    ensures fit { (schemas : List Kinds) → IsSome (plan_kinds schemas (plan_of rewriting.now.plan))
        → AreFit schemas (pieces_of (rewriting_of rewriting.now)) pieces.items
        → IfOk result (λ made. IsFit schemas (plan_of rewriting.now.plan) made.kept) }
    ensures recorded { (extents : Extents) (results : KeptResults)
        → HoldAll extents results (pieces_of (rewriting_of rewriting.now)) pieces.items
        → OnOk result (HasRecorded extents results (recorded_below (rewriting_of rewriting.now))
        found.old found.new) }
{
    let mut left = pieces;
    left.reverse();
    made_unrecorded(alloc, rewriting, &mut left, found)
}

// Puts what was recorded behind what was there.
fn put_behind(found: &mut Vec<MadePlace>, recording: Recording) -> Result<(), Memory>
    ensures put { OnOk result (found.new.items ≡ found.old.items ++ places_of recording) }
    ensures refused { OnErr result (found.new.items ≡ found.old.items) }
{
    match recording {
        Recording::Off => Ok(()),
        Recording::On(places) => append(found, places),
    }
}

fn append(found: &mut Vec<MadePlace>, places: Vec<MadePlace>) -> Result<(), Memory>
    ensures put { OnOk result (found.new.items ≡ found.old.items ++ places.items) }
    ensures refused { OnErr result (found.new.items ≡ found.old.items) }
{
    let mut places = places;
    found.append(&mut places)?;
    Ok(())
}
