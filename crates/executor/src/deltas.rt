//! What deltas add of loaded pieces.
ghost use Rattle.std.specs.Prelude.{◌≡◌, false};
ghost use Rattle.plan_core.specs.PlainPlan.{plan_of};
ghost use Rattle.growth_laws.specs.Pieces.{is_chain_delta, pieces_of_delta, pieces_in_delta};
ghost use Rattle.growth_laws.specs.Making.{kept_rows, nothing_added};
ghost use Rattle.result_ops.specs.Steps.{added_of};
ghost use Rattle.rewrite_core.specs.PlainRewriting.{Change, delta_of, delta_way_of};
ghost use Rattle.executor.specs.Evaluating.{IsReady, DeltaAnswers, DeltaWayAnswers};
ghost use Rattle.executor.specs.Parts.{IsFormedDelta};

use crate::evaluation_laws::results_are_made;
use crate::is_chain_delta;
use crate::loaded::{Loaded, taken};
use crate::recording::Recording;
use crate::rewritings::made;
use plan_core::Plan;
use result_ops::{Added, Made, MakeRefusal, added_of_child, added_of_distinct, added_of_join};
use rewrite_core::{Delta, DeltaWay};
use row_blob::Kept;
use rows_core::Cut;
use std::alloc::Global;

/// What a delta adds.
#[cycle(evaluation)]
#[tactic(none)]
pub fn added(
    alloc: Global,
    delta: &Delta,
    pieces: &mut Vec<Loaded>,
    found: &mut Recording,
) -> Result<Added, MakeRefusal>
    requires formed { IsFormedDelta (delta_of delta.now) }
    requires ready { IsReady (plan_of delta.now.plan) (pieces_of_delta (delta_of delta.now))
        pieces.old.items }
    ensures { DeltaAnswers (delta_of delta.now) pieces.old.items pieces.new.items found.old found.new
        result }
{
    results_are_made();
    if is_chain_delta(delta) {
        Ok(rows_added(alloc, taken(pieces)?))
    } else {
        let (old, new) = (delta.old.items(), delta.new.items());
        added_in(alloc, &delta.way, &delta.plan, old, new, pieces, found)
    }
}

// What it adds of its parts.
#[cycle(evaluation)]
#[tactic(none)]
fn added_in(
    alloc: Global,
    way: &DeltaWay,
    plan: &Plan,
    _old: &[Cut],
    _new: &[Cut],
    pieces: &mut Vec<Loaded>,
    found: &mut Recording,
) -> Result<Added, MakeRefusal>
    requires formed { IsFormedDelta (Change (plan_of plan.now) _old.now _new.now (delta_way_of way.now)) }
    requires parts { is_chain_delta (Change (plan_of plan.now) _old.now _new.now (delta_way_of way.now))
        ≡ false }
    requires ready { IsReady (plan_of plan.now) (pieces_in_delta (delta_way_of way.now)) pieces.old.items }
    ensures { DeltaWayAnswers (plan_of plan.now) _old.now _new.now (delta_way_of way.now)
        pieces.old.items pieces.new.items found.old found.new result }
{
    results_are_made();
    match way {
        DeltaWay::Unchanged => Ok(nothing(alloc)),
        DeltaWay::Scan => unreachable!(),
        DeltaWay::Tail(input) => {
            let input = added(alloc, input, pieces, found)?;
            added_of_child(alloc, plan, input)
        }
        DeltaWay::Distinct { old, child } => {
            let old = made(alloc, old, pieces, found)?;
            let input = added(alloc, child, pieces, found)?;
            added_of_distinct(alloc, plan, old, input)
        }
        DeltaWay::Join { left, right } => {
            let input = added(alloc, left, pieces, found)?;
            let right = made(alloc, right, pieces, found)?;
            added_of_join(alloc, plan, input, right)
        }
    }
}

// No rows.
fn nothing(alloc: Global) -> Added
    ensures { added_of result ≡ nothing_added }
{
    Added {
        rows: Vec::new(alloc),
        taken_in: 0,
    }
}

// The rows that are kept, as added ones.
fn rows_added(alloc: Global, made: Made) -> Added
    ensures rows { result.rows.items ≡ kept_rows made.kept }
    ensures taken_in { result.taken_in ≡ made.taken_in }
{
    let Made { kept, taken_in } = made;
    let rows = match kept {
        Kept::Rows(rows) => rows.into_vec(),
        _ => Vec::new(alloc),
    };
    Added { rows, taken_in }
}
