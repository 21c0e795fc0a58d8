//! The opening of jobs.
ghost use Rattle.std.specs.Prelude.{◌≡◌, ◌⊎◌, ◌≤◌, length, Ok, Err, IfOk, IfErr, IfSome, IfNone, IsErrOf};
ghost use Rattle.plan_core.specs.TypedPlan.{IsTypedOver};
ghost use Rattle.plan_text.specs.Counts.{IsWithinLimits};
ghost use Rattle.catalog_core.specs.Catalogs.{table_of};
ghost use Rattle.catalog_core.specs.Programs.{kinds_of_streams};
ghost use Rattle.script_text.specs.declared.answer.Refusal.TheVariants.{Limit};
ghost use Rattle.planning.specs.Running.{Run, bound_plan, run_of};
ghost use Rattle.planning.specs.Opening.{opening, refused_job, admitting, IsOpenPlan};

use crate::program::{is_long, program_of};
use crate::running::RunPlan;
use crate::typing::typed_plan;
use catalog_core::Catalog;
use catalog_types::Program;
use plan_binder::bind_laws;
use plan_core::Typed;
use plan_text::NamedPlan;
use rows_core::Name;
use script_text::{LimitKind, Refusal};
use std::alloc::Global;

/// The most open jobs.
const MAX_JOBS: usize = 64;

/// The open jobs, as the opening of one more sees them.
#[derive(Clone, Copy)]
pub struct OpenJobs {
    /// Whether a job of the new one's name is open.
    pub exists: bool,
    /// How many jobs are open.
    pub count: usize,
}

/// The plan that a job is opened with, over all extents of the table, and the program that it is stored as
/// once the job is closed, or why no job is opened: `Unknown` with the first stream from the left that isn't
/// there, else `Exists` where a job of this name is open, else `IllTyped` where a column isn't there or the
/// plan has no typing, else the first limit that is passed, of columns, the program's text and open jobs. Each
/// comes exactly where it holds and none before it does, unless memory is wanted.
pub fn plan_open(
    alloc: Global,
    catalog: &Catalog,
    jobs: OpenJobs,
    job: Name,
    name: Name,
    plan: &NamedPlan,
) -> Result<RunPlan, Refusal>
    requires { IsWithinLimits plan.now }
    ensures ok { IfOk result (λ p. (r : Run)
        × (opening (table_of catalog.now) jobs.exists jobs.count job name plan.now ≡ Ok r)
        × IsOpenPlan (table_of catalog.now) r p.typed p.program) }
    ensures err { IfErr result (λ why.
        (opening (table_of catalog.now) jobs.exists jobs.count job name plan.now ≡ Err why)
        ⊎ (why ≡ Refusal.Memory)) }
    ensures no_fault { IsErrOf result Refusal.Fault → ⊥ }
{
    match typed_plan(alloc, catalog, plan) {
        Ok(_) if jobs.exists => Err(Refusal::Exists(job)),
        Ok(typed) => open_typed(alloc, catalog, jobs.count, name, plan, typed),
        Err(refusal) => Err(refused_job(jobs.exists, job, refusal)),
    }
}

// Why no job is opened with a plan that is refused for this.
fn refused_job(exists: bool, job: Name, refusal: Refusal) -> Refusal
    ensures { result ≡ refused_job exists job refusal }
{
    match refusal {
        Refusal::Unknown(stream) => Refusal::Unknown(stream),
        Refusal::Memory => Refusal::Memory,
        _ if exists => Refusal::Exists(job),
        other => other,
    }
}

// The opening of a job of a new name with a plan that has a typing.
fn open_typed(
    alloc: Global,
    catalog: &Catalog,
    count: usize,
    name: Name,
    plan: &NamedPlan,
    typed: Typed,
) -> Result<RunPlan, Refusal>
    requires limits { IsWithinLimits plan.now }
    requires bound { bound_plan (table_of catalog.now).streams plan.now ≡ Ok typed.plan }
    requires typed { IsTypedOver (kinds_of_streams (table_of catalog.now).streams) typed }
    ensures ok { IfOk result (λ _. admitting count
        (run_of (table_of catalog.now).streams name plan.now typed.plan)
        ≡ Ok (run_of (table_of catalog.now).streams name plan.now typed.plan)) }
    ensures plan { IfOk result (λ p. IsOpenPlan (table_of catalog.now)
        (run_of (table_of catalog.now).streams name plan.now typed.plan) p.typed p.program) }
    ensures err { IfErr result (λ why. (admitting count
        (run_of (table_of catalog.now).streams name plan.now typed.plan) ≡ Err why)
        ⊎ (why ≡ Refusal.Memory)) }
{
    bind_laws::counts_are_of_the_written_plan();
    let Ok(program) = program_of(alloc, catalog.streams(), name, plan, typed.leaves()) else {
        return Err(Refusal::Memory);
    };
    match limit_of_job(count, &program) {
        Some(kind) => Err(Refusal::Limit(kind)),
        None => Ok(RunPlan { typed, program }),
    }
}

// The first limit that a job with this program passes, where so many are open.
fn limit_of_job(count: usize, program: &Program) -> Option<LimitKind>
    ensures some { (run : Run) → run.program ≡ program.now → IfSome result (λ kind.
        admitting count run ≡ Err (Limit kind)) }
    ensures none { (run : Run) → run.program ≡ program.now → IfNone result (admitting count run ≡ Ok run) }
    ensures text { IfNone result (length program.now.text ≤ 65536) }
{
    if is_long(program) {
        return Some(LimitKind::PlanText);
    }
    if count >= MAX_JOBS {
        return Some(LimitKind::Jobs);
    }
    None
}
