//! Look-ups in a list of kept results.
ghost use Rattle.std.specs.Prelude.{◌↔◌, IsTrue, IfOk};
ghost use Rattle.plan_core.specs.PlainPlan.{plan_of};
ghost use Rattle.rewrite_core.specs.Entries.{AnswersWhole};
ghost use Rattle.postfix_plans.specs.Listed.{entry, entries_of};
ghost use Rattle.rewrite_core.specs.Looking.{IsAt, ComesBefore, IsFurther, IsBestOf};

use crate::results::ListedResult;
use estimator::{are_at_or_before, are_same_cuts, reach};
use plan_core::Plan;
use rewrite_core::Hit;
use rows_core::{Cut, Memory};
use std::alloc::Global;

/// The result of this plan and cut.
pub fn whole_in(
    alloc: Global,
    results: &[ListedResult],
    plan: &Plan,
    cuts: &[Cut],
) -> Result<Option<Hit>, Memory>
    ensures { IfOk result (AnswersWhole (entries_of results.now) (plan_of plan.now) cuts.now) }
{
    match results {
        [] => Ok(None),
        [first, others @ ..] => {
            if is_at(first, plan, cuts) {
                return Ok(Some(first.hit(alloc)?));
            }
            let found = whole_in(alloc, others, plan, cuts)?;
            Ok(found)
        }
    }
}

/// Of the results of this plan at earlier cuts the one that reaches furthest, and of those the one with the
/// least id.
pub fn best_in(
    alloc: Global,
    results: &[ListedResult],
    plan: &Plan,
    cuts: &[Cut],
) -> Result<Option<Hit>, Memory>
    ensures { IfOk result (IsBestOf (entries_of results.now) (plan_of plan.now) cuts.now) }
{
    match results {
        [] => Ok(None),
        [first, others @ ..] => {
            let best = best_in(alloc, others, plan, cuts)?;
            if comes_before(first, plan, cuts) && is_further(first, &best) {
                return Ok(Some(first.hit(alloc)?));
            }
            Ok(best)
        }
    }
}

/// Whether it is of this plan and cut.
pub fn is_at(listed: &ListedResult, plan: &Plan, cuts: &[Cut]) -> bool
    ensures { IsTrue result ↔ IsAt (entry listed.now) (plan_of plan.now) cuts.now }
{
    listed.plan.is_same(plan) && are_same_cuts(listed.cuts.items(), cuts)
}

fn comes_before(listed: &ListedResult, plan: &Plan, cuts: &[Cut]) -> bool
    ensures { IsTrue result ↔ ComesBefore (entry listed.now) (plan_of plan.now) cuts.now }
{
    let old = listed.cuts.items();
    listed.plan.is_same(plan) && !are_same_cuts(old, cuts) && are_at_or_before(old, cuts)
}

// Whether it reaches further than the best one, or as far with a smaller id.
fn is_further(listed: &ListedResult, best: &Option<Hit>) -> bool
    ensures { IsTrue result ↔ IsFurther (entry listed.now) best.now }
{
    match best {
        None => true,
        Some(best) => {
            let (new, old) = (reach(listed.cuts.items()), reach(best.cuts.items()));
            old < new || (old == new && listed.id < best.id)
        }
    }
}
