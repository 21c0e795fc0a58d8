//! Whether cuts and kept results have their files.
ghost use Rattle.std.specs.Prelude.{IsTrue};
ghost use Rattle.std.specs.List.{AllByRecursion};
ghost use Rattle.postfix_plans.specs.Listed.{entries_of};
ghost use Rattle.growth_laws.specs.There.{EndWithin, IsWithin};
ghost use Rattle.cases_executor.specs.Filed.{counts_of, IsFiled};

use crate::shelf::{KeptFile, Shelf, extents_at};
use plan_core::Typed;
use postfix_plans::ListedResult;
use rows_core::{Cut, FileRef, Seq};

/// Whether the cut has an interval for each leaf of the plan, which ends within the extents that have files.
pub fn is_within(typed: &Typed, cuts: &[Cut], shelf: &Shelf) -> bool
    ensures { IsTrue result → IsWithin (counts_of shelf.now.extents) typed.now.plan cuts.now }
{
    end_within(shelf.extents.items(), typed.leaves(), cuts)
}

/// Whether each of the kept results has a file.
pub fn all_filed(shelf: &Shelf) -> bool
    ensures { IsTrue result → AllByRecursion (IsFiled shelf.now.kept.items)
        (entries_of shelf.now.results.results.items) }
{
    are_filed(shelf.results.results.as_slice(), shelf.kept.as_slice())
}

// Whether there is an interval for each leaf, which ends within the extents of the leaf's stream.
fn end_within(extents: &[Seq<FileRef>], leaves: &[u32], cuts: &[Cut]) -> bool
    ensures { IsTrue result → EndWithin (counts_of extents.now) leaves.now cuts.now }
{
    match (leaves, cuts) {
        ([], []) => true,
        ([leaf, leaves @ ..], [cut, cuts @ ..]) => {
            let count = extents_at(extents, *leaf).len();
            cut.to as usize <= count && end_within(extents, leaves, cuts)
        }
        _ => false,
    }
}

// Whether each of the results has a file.
fn are_filed(results: &[ListedResult], kept: &[KeptFile]) -> bool
    ensures { IsTrue result → AllByRecursion (IsFiled kept.now) (entries_of results.now) }
{
    match results {
        [] => true,
        [first, others @ ..] => (first.id as usize) < kept.len() && are_filed(others, kept),
    }
}
