//! Kept results over the streams.
ghost use Rattle.std.specs.Prelude.{◌≡◌, ◌↔◌, IsTrue, IfOk, OnOk};
ghost use Rattle.std.specs.List.{AllByRecursion};
ghost use Rattle.plan_core.specs.PlainPlan.{plan_of};
ghost use Rattle.plan_spelling.specs.Spelling.{HasPlanSpelling};
ghost use Rattle.entry_table.specs.Tables.{kept_of, HasRoom, HasKeys};
ghost use Rattle.catalog_core.specs.Programs.{kinds_of_streams};
ghost use Rattle.catalog_core.specs.Results.{IsOver, IsResultOver, digests_of};
ghost use Rattle.catalog_core.specs.Streams.{states_of};

use crate::chains::{StreamChains, know_chains_of};
use crate::program::{are_cuts, typed_over};
use crate::stream::CatalogStream;
use catalog_types::NewEntry;
use entry_table::EntryTable;
use plan_core::{Plan, Schemas};
use plan_spelling::typed_plan_has_spelling;
use rows_core::{Cut, Memory};
use std::alloc::Global;

/// Whether each of these results is of a plan that has a typing over the streams, and of one interval for
/// each leaf, up to the present extents at most. A plan that has a typing has a spelling. There may be more of
/// them than may be kept.
pub(crate) fn are_over(
    alloc: Global,
    streams: &[CatalogStream],
    schemas: &Schemas,
    kept: &[NewEntry],
) -> Result<bool, Memory>
    requires { schemas.now.kinds ≡ kinds_of_streams (states_of streams.now) }
    ensures over { IfOk result (λ are. IsTrue are
        ↔ AllByRecursion (IsResultOver (states_of streams.now)) kept.now) }
    ensures spelled { IfOk result (λ are. IsTrue are
        → AllByRecursion (λ new. HasPlanSpelling new.plan) kept.now) }
{
    let mut rest = kept;
    while let [new, others @ ..] = rest {
        if !is_over(alloc, streams, schemas, &new.plan, new.cuts.items())? {
            return Ok(false);
        }
        rest = others;
    }
    Ok(true)
}

/// Whether the plan has a typing over the streams, and the cuts are one interval for each of its leaves, up to
/// the present extents at most. A plan that has a typing has a spelling.
pub(crate) fn is_over(
    alloc: Global,
    streams: &[CatalogStream],
    schemas: &Schemas,
    plan: &Plan,
    cuts: &[Cut],
) -> Result<bool, Memory>
    requires { schemas.now.kinds ≡ kinds_of_streams (states_of streams.now) }
    ensures over { IfOk result (λ is. IsTrue is
        ↔ IsOver (states_of streams.now) (plan_of plan.now) cuts.now) }
    ensures spelled { IfOk result (λ is. IsTrue is → HasPlanSpelling (plan_of plan.now)) }
{
    let copy = plan.try_copy(alloc)?;
    match typed_over(alloc, schemas, copy) {
        Ok(Some(typed)) => {
            typed_plan_has_spelling(&typed);
            Ok(are_cuts(streams, typed.leaves(), cuts))
        }
        Ok(None) => Ok(false),
        Err(Memory) => Err(Memory),
    }
}

/// Takes all the memory that keeping these results wants, and that of the chains up to the ends of their cuts. The
/// streams and the entries stay in each case.
pub(crate) fn make_room_for_results(
    alloc: Global,
    streams: &mut Vec<CatalogStream>,
    table: &mut EntryTable,
    kept: &[NewEntry],
) -> Result<(), Memory>
    requires { AllByRecursion (λ new. HasPlanSpelling new.plan) kept.now }
    ensures streams { states_of streams.new.items ≡ states_of streams.old.items }
    ensures same { kept_of table.new ≡ kept_of table.old }
    ensures room { OnOk result (HasRoom kept.now table.new) }
    ensures keys { OnOk result
        (HasKeys (digests_of (states_of streams.new.items)) kept.now table.new) }
{
    know_chains_of_results(alloc, streams, kept)?;
    table.prepare_work(&StreamChains::new(streams.as_slice()), kept)
}

// Makes the chains known that the keys of these results are made of.
fn know_chains_of_results(
    alloc: Global,
    streams: &mut Vec<CatalogStream>,
    kept: &[NewEntry],
) -> Result<(), Memory>
    ensures { states_of streams.new.items ≡ states_of streams.old.items }
{
    let mut rest = kept;
    while let [new, others @ ..] = rest {
        know_chains_of(alloc, streams, &new.plan, new.cuts.items())?;
        rest = others;
    }
    Ok(())
}
