//! Runs of plans.
ghost use Rattle.std.specs.Prelude.{◌≡◌, ◌⊎◌, Ok, Err, IfOk, IfErr, IsErrOf};
ghost use Rattle.plan_core.specs.TypedPlan.{IsTypedOver};
ghost use Rattle.plan_text.specs.Counts.{IsWithinLimits};
ghost use Rattle.catalog_core.specs.Catalogs.{table_of};
ghost use Rattle.catalog_core.specs.Programs.{kinds_of_streams};
ghost use Rattle.planning.specs.Running.{Run, bound_plan, running, storing, run_of, IsRunPlan};

use crate::program::{limit_of_program, program_of};
use crate::typing::typed_plan;
use catalog_core::Catalog;
use catalog_types::Program;
use plan_binder::bind_laws;
use plan_core::Typed;
use plan_text::NamedPlan;
use rows_core::Name;
use script_text::Refusal;
use std::alloc::Global;

/// A run of a plan.
#[derive(Drop)]
pub struct RunPlan {
    /// The plan with numbers for its names, and its typing.
    pub typed: Typed,
    /// What it is stored as.
    pub program: Program,
}

/// A run of this plan over all extents of the table, which is stored by the name, or why it is refused:
/// `Unknown` with the first stream from the left that isn't there, else `IllTyped` where a column isn't there
/// or the plan has no typing, else the first limit that is passed, of columns, the program's text, programs
/// and commands. Each comes exactly where it holds and none before it does, unless memory is wanted.
pub fn plan_run(
    alloc: Global,
    catalog: &Catalog,
    name: Name,
    plan: &NamedPlan,
) -> Result<RunPlan, Refusal>
    requires { IsWithinLimits plan.now }
    ensures ok { IfOk result (λ p. (r : Run) × (running (table_of catalog.now) name plan.now ≡ Ok r)
        × IsRunPlan (table_of catalog.now) r p.typed p.program) }
    ensures err { IfErr result (λ why.
        (running (table_of catalog.now) name plan.now ≡ Err why) ⊎ (why ≡ Refusal.Memory)) }
    ensures no_fault { IsErrOf result Refusal.Fault → ⊥ }
{
    match typed_plan(alloc, catalog, plan) {
        Ok(typed) => run_typed(alloc, catalog, name, plan, typed),
        Err(refusal) => Err(refusal),
    }
}

// A run of a plan that has a typing.
fn run_typed(
    alloc: Global,
    catalog: &Catalog,
    name: Name,
    plan: &NamedPlan,
    typed: Typed,
) -> Result<RunPlan, Refusal>
    requires limits { IsWithinLimits plan.now }
    requires bound { bound_plan (table_of catalog.now).streams plan.now ≡ Ok typed.plan }
    requires typed { IsTypedOver (kinds_of_streams (table_of catalog.now).streams) typed }
    ensures ok { IfOk result (λ _. storing (table_of catalog.now)
        (run_of (table_of catalog.now).streams name plan.now typed.plan)
        ≡ Ok (run_of (table_of catalog.now).streams name plan.now typed.plan)) }
    ensures plan { IfOk result (λ p. IsRunPlan (table_of catalog.now)
        (run_of (table_of catalog.now).streams name plan.now typed.plan) p.typed p.program) }
    ensures err { IfErr result (λ why. (storing (table_of catalog.now)
        (run_of (table_of catalog.now).streams name plan.now typed.plan) ≡ Err why)
        ⊎ (why ≡ Refusal.Memory)) }
{
    bind_laws::counts_are_of_the_written_plan();
    let Ok(program) = program_of(alloc, catalog.streams(), name, plan, typed.leaves()) else {
        return Err(Refusal::Memory);
    };
    match limit_of_program(catalog, &program) {
        Some(kind) => Err(Refusal::Limit(kind)),
        None => Ok(RunPlan { typed, program }),
    }
}
