//! The outcome of a rewriting, made of what was read of its pieces.
ghost use Rattle.std.specs.Prelude.{◌≡◌, List, IsSome, IfOk};
ghost use Rattle.plan_core.specs.PlainPlan.{plan_of};
ghost use Rattle.plan_core.specs.PlanTyping.{Kinds, plan_kinds};
ghost use Rattle.growth_laws.specs.KeptResults.{KeptResults};
ghost use Rattle.growth_laws.specs.Lists.{Extents};
ghost use Rattle.growth_laws.specs.MadePlaces.{place};
ghost use Rattle.growth_laws.specs.Making.{IsFormOf};
ghost use Rattle.growth_laws.specs.Pieces.{pieces_of};
ghost use Rattle.rewrite_core.specs.PlainRewriting.{rewriting_of};
ghost use Rattle.result_ops.specs.Bounds.{IsBounded};
ghost use Rattle.executor.specs.Loading.{HoldAll, AreFit};
ghost use Rattle.result_ops.specs.Fitting.{IsFit, FitRows};
ghost use Rattle.executor.specs.Parts.{IsFormed};
ghost use Rattle.executor.specs.Outcomes.{IsMadeAt, ComesTo, Finishes, AreKeptFrom};

use crate::keeping::kept_places;
use crate::made_laws::made_results_are_results;
use crate::outcome::Outcome;
use crate::{Loaded, MadePlace, evaluate_recording};
use growth_laws::results_of_rewritings;
use result_ops::{Made, MakeRefusal, rows_of};
use rewrite_core::Rewriting;
use rows_core::Memory;
use std::alloc::Global;

/// What a rewriting comes to, of its loaded pieces. Whatever these are of, the rows have the kinds of the
/// plan's columns, and what is kept is of places at which the rewriting makes a result.
pub(crate) fn outcome_of(
    alloc: Global,
    rewriting: &Rewriting,
    pieces: Vec<Loaded>,
) -> Result<Outcome, MakeRefusal>
    requires formed { IsFormed (rewriting_of rewriting.now) }
    requires fit { (schemas : List Kinds) × IsSome (plan_kinds schemas (plan_of rewriting.now.plan))
        × AreFit schemas (pieces_of (rewriting_of rewriting.now)) pieces.items }
    ensures finishes { (extents : Extents) (results : KeptResults)
        → HoldAll extents results (pieces_of (rewriting_of rewriting.now)) pieces.items
        → Finishes extents results (rewriting_of rewriting.now) result }
    ensures kinds { (schemas : List Kinds) → IsSome (plan_kinds schemas (plan_of rewriting.now.plan))
        → AreFit schemas (pieces_of (rewriting_of rewriting.now)) pieces.items
        → IfOk result (λ outcome. FitRows schemas outcome.rows.items (plan_of rewriting.now.plan)) }
    ensures places { IfOk result (λ outcome. AreKeptFrom (rewriting_of rewriting.now)
        outcome.made.items) }
{
    results_of_rewritings();
    made_results_are_results();
    let mut found = Vec::new(alloc);
    let made = evaluate_recording(alloc, rewriting, pieces, &mut found)?;
    outcome_of_made(alloc, rewriting, made, found.as_slice())
}

// What it comes to, of what was made.
fn outcome_of_made(
    alloc: Global,
    rewriting: &Rewriting,
    made: Made,
    found: &[MadePlace],
) -> Result<Outcome, MakeRefusal>
    requires formed { IsFormed (rewriting_of rewriting.now) }
    requires form { IsFormOf (plan_of rewriting.now.plan) made.kept }
    requires bounded { IsBounded (plan_of rewriting.now.plan) made.kept }
    ensures comes { ComesTo (rewriting_of rewriting.now) made found.now result }
    ensures kinds { (schemas : List Kinds) → IsFit schemas (plan_of rewriting.now.plan) made.kept
        → IfOk result (λ outcome. FitRows schemas outcome.rows.items (plan_of rewriting.now.plan)) }
    ensures places { IfOk result (λ outcome. AreKeptFrom (rewriting_of rewriting.now)
        outcome.made.items) }
{
    let own = own_place(alloc, rewriting, made)?;
    let kept = kept_places(alloc, rewriting, &own, found)?;
    let MadePlace { made, .. } = own;
    let rows = rows_of(alloc, &rewriting.plan, made.kept)?;
    Ok(Outcome { rows, made: kept })
}

// The rewriting's own result, as those below it are recorded.
fn own_place(alloc: Global, rewriting: &Rewriting, made: Made) -> Result<MadePlace, Memory>
    ensures at { IfOk result (IsMadeAt (place (plan_of rewriting.now.plan) rewriting.now.cuts)) }
    ensures made { IfOk result (λ own. own.made ≡ made) }
{
    let plan = rewriting.plan.try_copy(alloc)?;
    let cuts = rewriting.cuts.try_copy(alloc)?;
    Ok(MadePlace { plan, cuts, made })
}
