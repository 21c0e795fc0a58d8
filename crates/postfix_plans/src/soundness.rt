//! Whether a list of kept results is sound.
ghost use Rattle.std.specs.Prelude.{◌≡◌, ◌↔◌, IsTrue, IfOk};
ghost use Rattle.estimator.specs.Cuts.{AreIntervals};
ghost use Rattle.rewrite_core.specs.Entries.{AreSound};
ghost use Rattle.postfix_plans.specs.Listed.{entry, entries_of};
ghost use Rattle.postfix_plans.specs.Soundness.{IsApart, AreApart, IsOfLeaves};

use crate::looking::is_at;
use crate::results::ListedResult;
use rows_core::{Cut, Memory};
use std::alloc::Global;

/// Whether ids differ, no two results have the same plan and cut, and each cut has an interval for each leaf,
/// which begins at or before its end.
pub fn are_sound(alloc: Global, results: &[ListedResult]) -> Result<bool, Memory>
    ensures { IfOk result (λ sound. IsTrue sound → AreSound (entries_of results.now)) }
{
    match results {
        [] => Ok(true),
        [first, others @ ..] => {
            let formed = is_of_leaves(alloc, first)?;
            let sound = are_sound(alloc, others)?;
            if formed && sound && are_apart(first, others) {
                return Ok(true);
            }
            Ok(false)
        }
    }
}

fn are_apart(first: &ListedResult, others: &[ListedResult]) -> bool
    ensures { IsTrue result → AreApart (entry first.now) (entries_of others.now) }
{
    match others {
        [] => true,
        [other, others @ ..] => is_apart(first, other) && are_apart(first, others),
    }
}

fn is_apart(first: &ListedResult, other: &ListedResult) -> bool
    ensures { IsTrue result → IsApart (entry first.now) (entry other.now) }
{
    first.id != other.id && !is_at(first, &other.plan, other.cuts.items())
}

fn is_of_leaves(alloc: Global, listed: &ListedResult) -> Result<bool, Memory>
    ensures { IfOk result (λ formed. IsTrue formed → IsOfLeaves (entry listed.now)) }
{
    let leaves = listed.plan.leaves(alloc)?;
    let cuts = listed.cuts.items();
    Ok(leaves.len() == cuts.len() && are_intervals(cuts))
}

fn are_intervals(cuts: &[Cut]) -> bool
    ensures { IsTrue result ↔ AreIntervals cuts.now }
{
    match cuts {
        [] => true,
        [cut, cuts @ ..] => cut.from <= cut.to && are_intervals(cuts),
    }
}
