//! Fetches of plans that were run.
ghost use Rattle.std.specs.Prelude.{◌≡◌, ◌⊎◌, Ok, Err, IfOk, IfErr, IsErrOf};
ghost use Rattle.catalog_core.specs.Catalogs.{table_of};
ghost use Rattle.catalog_core.specs.Stored.{IsStoredPlan};
ghost use Rattle.catalog_types.specs.declared.program.Program as plain;
ghost use Rattle.planning.specs.Fetching.{IsFetching, IsFetchOf};
ghost use Rattle.planning.specs.Running.{Target, IsPlanned};

use crate::program::whole_cuts;
use catalog_core::{Catalog, StoredPlan};
use plan_binder::bind_laws;
use plan_core::Typed;
use rows_core::limits::MAX_TICKS;
use rows_core::{Cut, Memory, Name, Seq};
use script_text::{LimitKind, Refusal};
use std::alloc::Global;

/// A fetch of a plan.
#[derive(Drop)]
pub struct FetchPlan {
    /// The plan, and its typing.
    pub typed: Typed,
    /// The extents that it is worked off at: one interval for each leaf, from the left.
    pub cuts: Seq<Cut>,
}

/// A fetch of the plan that goes by the name, at all extents of the table or, `as_run`, at those of its last
/// run, or why it is refused: `Unknown` where no plan goes by the name, else the limit of commands where as
/// many are recorded as may be. Each comes exactly where it holds and none before it does, unless memory is
/// wanted.
pub fn plan_fetch(
    alloc: Global,
    catalog: &Catalog,
    name: Name,
    as_run: bool,
) -> Result<FetchPlan, Refusal>
    ensures ok { IfOk result (λ p. (target : Target)
        × IsFetching (table_of catalog.now) name as_run (Ok target)
        × IsPlanned (table_of catalog.now) target p.typed p.cuts) }
    ensures err { IfErr result (λ why.
        IsFetching (table_of catalog.now) name as_run (Err why) ⊎ (why ≡ Refusal.Memory)) }
    ensures no_fault { IsErrOf result Refusal.Fault → ⊥ }
{
    match catalog.stored_plan(alloc, &name) {
        Ok(Some(stored)) => fetch_of(alloc, catalog, stored, as_run),
        Ok(None) => Err(Refusal::Unknown(name)),
        Err(Memory) => Err(Refusal::Memory),
    }
}

// A fetch of the plan of a program.
fn fetch_of(
    alloc: Global,
    catalog: &Catalog,
    stored: StoredPlan,
    as_run: bool,
) -> Result<FetchPlan, Refusal>
    requires { (program : plain.Program) × IsStoredPlan (table_of catalog.now) program stored }
    ensures ok { (program : plain.Program) → IsStoredPlan (table_of catalog.now) program stored
        → IfOk result (λ p. (target : Target) × IsFetchOf (table_of catalog.now) as_run program (Ok target)
        × IsPlanned (table_of catalog.now) target p.typed p.cuts) }
    ensures err { (program : plain.Program) → IsStoredPlan (table_of catalog.now) program stored
        → IfErr result (λ why. IsFetchOf (table_of catalog.now) as_run program (Err why)
        ⊎ (why ≡ Refusal.Memory)) }
    ensures no_fault { IsErrOf result Refusal.Fault → ⊥ }
{
    bind_laws::counts_are_of_the_written_plan();
    if catalog.tick() >= MAX_TICKS {
        return Err(Refusal::Limit(LimitKind::Commands));
    }
    let StoredPlan { typed, cuts } = stored;
    if as_run {
        return Ok(FetchPlan { typed, cuts });
    }
    match whole_cuts(alloc, catalog.streams(), typed.leaves()) {
        Ok(cuts) => Ok(FetchPlan {
            typed,
            cuts: Seq::new(cuts),
        }),
        Err(Memory) => Err(Refusal::Memory),
    }
}
