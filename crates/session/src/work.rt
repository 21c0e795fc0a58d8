//! Work that is open: how it is opened, read on and closed for a command.
ghost use Rattle.std.specs.Prelude.{◌≡◌, ◌⊎◌, ◌≤◌, ◌<◌, ℕ, List, [], Some, Ok, Err, length, IsTrue};
ghost use Rattle.std.specs.Prelude.{IfOk, IfErr, OnOk};
ghost use Rattle.outside_traits.specs.View.{View, Counts};
ghost use Rattle.outside_traits.specs.Calls.{MayRaiseReads};
ghost use Rattle.outside_traits.specs.Runs.{Narrows};
ghost use Rattle.plan_core.specs.PlainPlan.{PlainPlan};
ghost use Rattle.plan_text.specs.Counts.{IsWithinLimits};
ghost use Rattle.catalog_core.specs.Catalogs.{table_of};
ghost use Rattle.folder.specs.Left.{IsLeft};
ghost use Rattle.folder.specs.Sound.{Care};
ghost use Rattle.folder.specs.State.{State, table};
ghost use Rattle.planning.specs.Opening.{opening};
ghost use Rattle.planning.specs.Running.{Run};
ghost use Rattle.script_text.specs.declared.answer.Refusal.{Refusal};
ghost use Rattle.script_text.specs.Answer.{IsNarrow};
ghost use Rattle.folder_session.specs.Working.{IsPlannedOver, answer_of};
ghost use Rattle.work_run.specs.Opened.{HasRead, files_left};
ghost use Rattle.work_turns.specs.Ends.{those_among};
ghost use Rattle.job_turns.specs.Ends.{ComesAtLast};
ghost use Rattle.job_turns.specs.Jobs.{IsJob};
ghost use Rattle.job_turns.specs.Turns.{Reads};
ghost use Rattle.session.specs.Work.{IsOpened, StepsOn, ReadsOn, IsWithin, IsNotClosed};

use catalog_core::{Catalog, know_table};
use executor::RunRefusal;
use folder_session::{NormalChoice, chosen, refusal_of};
use job_turns::{JobWork, open_job};
use outside_traits::Store;
use plan_choice::{results_are_left_out, serving_rewritings};
use plan_text::NamedPlan;
use planning::{OpenJobs, RunPlan, plan_close, plan_open};
use rows_core::{Memory, Name};
use script_text::{Answer, Refusal};
use std::alloc::Global;
use work_turns::WorkInTurns;

/// Work of a plan on all extents that is opened as a job, or why it is refused.
pub(crate) fn opened(
    alloc: Global,
    catalog: &Catalog,
    jobs: OpenJobs,
    job: Name,
    name: Name,
    plan: &NamedPlan,
) -> Result<JobWork, Refusal>
    requires { IsWithinLimits plan.now }
    ensures ok { IfOk result (λ work. (run : Run)
        × (opening (table_of catalog.now) jobs.exists jobs.count job name plan.now ≡ Ok run)
        × IsOpened (table_of catalog.now) run work) }
    ensures err { IfErr result (λ why.
        (opening (table_of catalog.now) jobs.exists jobs.count job name plan.now ≡ Err why)
        ⊎ (why ≡ Refusal.Memory)) }
{
    results_are_left_out();
    let RunPlan { typed, program } = match plan_open(alloc, catalog, jobs, job, name, plan) {
        Ok(plan) => plan,
        Err(refusal) => return Err(refusal),
    };
    let Ok(taken) = chosen(alloc, catalog, typed, program.cuts.items()) else {
        return Err(Refusal::Memory);
    };
    let NormalChoice { normal, choice } = taken;
    match open_job(alloc, catalog, program, normal, choice) {
        Ok(work) => Ok(work),
        Err(Memory) => Err(Refusal::Memory),
    }
}

/// Reads the next file of the work, where one is left, and tells how many are left then. Where it is that of a
/// kept result and shows damage, the result is noted, and the files that are left are those of another
/// rewriting. A refusal leaves the work as it was.
pub(crate) fn read_file<D: Store>(
    alloc: Global,
    work: &mut JobWork,
    store: &mut D,
    catalog: &Catalog,
) -> Answer
    requires { (plan : PlainPlan) × IsJob (table_of catalog.now) plan work.old }
    ensures job { (plan : PlainPlan) → IsJob (table_of catalog.now) plan work.old
        → IsJob (table_of catalog.now) plan work.new }
    ensures told { (plan : PlainPlan) → IsJob (table_of catalog.now) plan work.old
        → StepsOn D.tells (table_of catalog.now) plan work.old work.new (D.counts store.old)
        (D.counts store.new) result }
    ensures reads { (plan : PlainPlan) → IsJob (table_of catalog.now) plan work.old
        → ReadsOn D.tells (table_of catalog.now) (D.view store.old) plan work.old work.new
        (D.counts store.old) (D.counts store.new) result }
    ensures narrows { Narrows (D.view store.old) (D.view store.new) }
    ensures counts { MayRaiseReads (D.counts store.old) (D.counts store.new) }
{
    serving_rewritings();
    results_are_left_out();
    know_table(catalog);
    if work.left() == 0 {
        return Answer::Left(0);
    }
    match work.step(alloc, store, catalog) {
        Ok(_) => Answer::Left(work.left()),
        Err(refusal) => Answer::Refused(refusal_of(RunRefusal::from(refusal))),
    }
}

/// Closes the work, unless a limit of programs or commands is passed: its files that are left are read, where
/// kept results may be noted, and its rows made, and what is recorded of it. The noted results that are still
/// there are dropped by that. A refusal leaves the work, with what it has read and noted.
pub(crate) fn close_work<D: Store>(
    alloc: Global,
    work: &mut JobWork,
    store: &mut D,
    catalog: &Catalog,
) -> Result<WorkInTurns, Refusal>
    requires { (plan : PlainPlan) × IsJob (table_of catalog.now) plan work.old }
    ensures job { (plan : PlainPlan) → IsJob (table_of catalog.now) plan work.old
        → IsJob (table_of catalog.now) plan work.new }
    ensures within { OnOk result (IsWithin (table_of catalog.now) work.old) }
    ensures reads { (plan : PlainPlan) → IsJob (table_of catalog.now) plan work.old
        → OnOk result (Reads D.tells (table_of catalog.now) (D.view store.old) plan work.old work.new
        (D.counts store.old) (D.counts store.new)) }
    ensures whole { OnOk result (files_left work.new.work ≡ []) }
    ensures ok { IsTrue D.tells → (care : Care) (s : State) (plan : PlainPlan)
        → IsLeft care (D.view store.old) s s → table_of catalog.now ≡ table s → HasRead s work.old.work
        → IsJob (table_of catalog.now) plan work.old
        → IfOk result (λ done. ComesAtLast s plan work.new done.work) }
    ensures err { (plan : PlainPlan) → IsJob (table_of catalog.now) plan work.old
        → IfErr result (IsNotClosed D.tells (table_of catalog.now) (D.view store.old) plan work.old work.new
        (D.counts store.old) (D.counts store.new)) }
    ensures planned { IfOk result (IsPlannedOver (table_of catalog.now)) }
    ensures dropped { IfOk result (λ done. done.dropped.items
        ≡ those_among work.new.noted.items (table_of catalog.now).entries) }
    ensures narrow { IfOk result (λ done. IsNarrow (answer_of done.work)) }
    ensures narrows { Narrows (D.view store.old) (D.view store.new) }
    ensures counts { MayRaiseReads (D.counts store.old) (D.counts store.new) }
{
    serving_rewritings();
    results_are_left_out();
    know_table(catalog);
    if let Some(kind) = plan_close(catalog, &work.work.program) {
        return Err(Refusal::Limit(kind));
    }
    match work.close(alloc, store, catalog) {
        Ok(done) => Ok(done),
        Err(refusal) => Err(refusal_of(refusal)),
    }
}
