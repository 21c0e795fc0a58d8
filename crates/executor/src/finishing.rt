//! The result of a job of which no file is left.
ghost use Rattle.std.specs.Prelude.{◌≡◌, List, [], map, IfOk, IsSome};
ghost use Rattle.plan_core.specs.PlainPlan.{plan_of};
ghost use Rattle.plan_core.specs.PlanTyping.{Kinds, plan_kinds};
ghost use Rattle.growth_laws.specs.KeptResults.{KeptResults};
ghost use Rattle.growth_laws.specs.Lists.{Extents};
ghost use Rattle.growth_laws.specs.Pieces.{pieces_of};
ghost use Rattle.growth_laws.specs.Trees.{made_by};
ghost use Rattle.rewrite_core.specs.PlainRewriting.{rewriting_of};
ghost use Rattle.result_ops.specs.Fitting.{FitRows};
ghost use Rattle.result_ops.specs.Steps.{Makes};
ghost use Rattle.executor.specs.Parts.{IsFormed};
ghost use Rattle.executor.specs.Passing.{Passes};
ghost use Rattle.executor.specs.Loads.{load_of_rows, load_of_part};
ghost use Rattle.executor.specs.Outcomes.{AreReadAs, Finishes, AreKeptFrom};
ghost use Rattle.executor.specs.Progress.{files_left, left_in, ArePartsOf};

use crate::copying::copied_pieces;
use crate::job::Job;
use crate::making::outcome_of;
use crate::outcome::Outcome;
use crate::part::Part;
use crate::{Loaded, evaluate};
use gathering::Gathering;
use result_ops::{Made, MakeRefusal};
use rewrite_core::Rewriting;
use rows_core::Memory;
use std::alloc::Global;

/// What the rewriting makes, of a job of which no file is left. Where what was read is what these extents and
/// kept results are, it is what the definitions give of them, with a machine time within the limit and within
/// the bounds. `Overflow` comes only where that is an overflow, and `Machine`, over sound results with
/// machine times within the limit, only where the machine time of the plan is above it.
pub fn into_result(alloc: Global, job: Job) -> Result<Made, MakeRefusal>
    requires left { left_in job.parts.items ≡ [] }
    requires formed { IsFormed (rewriting_of job.rewriting) }
    requires parts { (schemas : List Kinds) × IsSome (plan_kinds schemas (plan_of job.rewriting.plan))
        × ArePartsOf schemas (pieces_of (rewriting_of job.rewriting)) job.parts.items }
    ensures { (schemas : List Kinds) (extents : Extents) (results : KeptResults)
        → AreReadAs schemas extents results (rewriting_of job.rewriting) job.parts.items
        → Makes (Passes extents results (rewriting_of job.rewriting)) (plan_of job.rewriting.plan)
        (made_by extents results (rewriting_of job.rewriting)) result }
{
    let Job {
        rewriting,
        parts,
        ..
    } = job;
    evaluated(alloc, &rewriting, parts)
}

// What a rewriting makes of parts of which no file is left.
fn evaluated(alloc: Global, rewriting: &Rewriting, parts: Vec<Part>) -> Result<Made, MakeRefusal>
    requires left { left_in parts.items ≡ [] }
    requires formed { IsFormed (rewriting_of rewriting.now) }
    requires parts { (schemas : List Kinds) × IsSome (plan_kinds schemas (plan_of rewriting.now.plan))
        × ArePartsOf schemas (pieces_of (rewriting_of rewriting.now)) parts.items }
    ensures { (schemas : List Kinds) (extents : Extents) (results : KeptResults)
        → AreReadAs schemas extents results (rewriting_of rewriting.now) parts.items
        → Makes (Passes extents results (rewriting_of rewriting.now)) (plan_of rewriting.now.plan)
        (made_by extents results (rewriting_of rewriting.now)) result }
{
    let pieces = loaded_pieces(alloc, parts)?;
    evaluate(alloc, rewriting, pieces)
}

/// The outcome of a job of which no file is left: the rows of its plan, and what may be kept of what was made
/// for them. Where what was read is what these extents and kept results are, the rows are those that the
/// definitions give of them; over sound results they are the plan's, with a machine time within the limit,
/// and what is kept is that of each place that the rewriting makes. `Overflow` comes only where the rows are
/// an overflow, and `Machine`, over sound results, only where the machine time is above its limit. Whatever
/// was read, the rows have the kinds of the plan's columns, and what is kept is of places at which the
/// rewriting makes a result. The job stays.
pub fn finish(alloc: Global, job: &Job) -> Result<Outcome, MakeRefusal>
    requires left { left_in job.now.parts.items ≡ [] }
    requires formed { IsFormed (rewriting_of job.now.rewriting) }
    requires parts { (schemas : List Kinds) × IsSome (plan_kinds schemas (plan_of job.now.rewriting.plan))
        × ArePartsOf schemas (pieces_of (rewriting_of job.now.rewriting)) job.now.parts.items }
    ensures finishes { (schemas : List Kinds) (extents : Extents) (results : KeptResults)
        → AreReadAs schemas extents results (rewriting_of job.now.rewriting) job.now.parts.items
        → Finishes extents results (rewriting_of job.now.rewriting) result }
    ensures kinds { (schemas : List Kinds) → IsSome (plan_kinds schemas (plan_of job.now.rewriting.plan))
        → ArePartsOf schemas (pieces_of (rewriting_of job.now.rewriting)) job.now.parts.items
        → IfOk result (λ outcome. FitRows schemas outcome.rows.items (plan_of job.now.rewriting.plan)) }
    ensures places { IfOk result (λ outcome. AreKeptFrom (rewriting_of job.now.rewriting)
        outcome.made.items) }
{
    let pieces = copied_pieces(alloc, job.parts.as_slice())?;
    outcome_of(alloc, &job.rewriting, pieces)
}

/// The same by value and without copies of what was read.
pub fn into_outcome(alloc: Global, job: Job) -> Result<Outcome, MakeRefusal>
    requires left { left_in job.parts.items ≡ [] }
    requires formed { IsFormed (rewriting_of job.rewriting) }
    requires parts { (schemas : List Kinds) × IsSome (plan_kinds schemas (plan_of job.rewriting.plan))
        × ArePartsOf schemas (pieces_of (rewriting_of job.rewriting)) job.parts.items }
    ensures finishes { (schemas : List Kinds) (extents : Extents) (results : KeptResults)
        → AreReadAs schemas extents results (rewriting_of job.rewriting) job.parts.items
        → Finishes extents results (rewriting_of job.rewriting) result }
    ensures kinds { (schemas : List Kinds) → IsSome (plan_kinds schemas (plan_of job.rewriting.plan))
        → ArePartsOf schemas (pieces_of (rewriting_of job.rewriting)) job.parts.items
        → IfOk result (λ outcome. FitRows schemas outcome.rows.items (plan_of job.rewriting.plan)) }
    ensures places { IfOk result (λ outcome. AreKeptFrom (rewriting_of job.rewriting)
        outcome.made.items) }
{
    let Job {
        rewriting,
        parts,
        ..
    } = job;
    let pieces = loaded_pieces(alloc, parts)?;
    outcome_of(alloc, &rewriting, pieces)
}

// What is loaded of each part, in order.
fn loaded_pieces(alloc: Global, parts: Vec<Part>) -> Result<Vec<Loaded>, Memory>
    requires { left_in parts.items ≡ [] }
    ensures { IfOk result (λ pieces. pieces.items ≡ map load_of_part parts.items) }
{
    let mut pieces = Vec::new(alloc);
    for part in parts {
        pieces.push(loaded_piece(alloc, part)?)?;
    }
    Ok(pieces)
}

fn loaded_piece(alloc: Global, part: Part) -> Result<Loaded, Memory>
    requires { files_left part ≡ [] }
    ensures { IfOk result (λ piece. piece ≡ load_of_part part) }
{
    match part {
        Part::Entry { loaded, .. } => match loaded {
            Some(loaded) => Ok(loaded),
            None => unreachable!(),
        },
        Part::Gathered { gathering, .. } => gathered_piece(alloc, gathering),
    }
}

fn gathered_piece(alloc: Global, gathering: Gathering) -> Result<Loaded, Memory>
    ensures { IfOk result (λ piece. piece ≡ load_of_rows gathering.came) }
{
    gathering.into_made(alloc)
}
