//! Closing a job.
ghost use Rattle.std.specs.Prelude.{◌≡◌, ◌<◌, ◌≤◌, ◌+◌, List, [], Some, length, IsTrue, IfOk, IfErr, OnOk};
ghost use Rattle.outside_traits.specs.View.{View, Counts};
ghost use Rattle.outside_traits.specs.Calls.{MayRaiseReads};
ghost use Rattle.outside_traits.specs.Runs.{Narrows};
ghost use Rattle.plan_core.specs.PlainPlan.{PlainPlan};
ghost use Rattle.estimator.specs.Bytes.{capped};
ghost use Rattle.catalog_core.specs.Catalogs.{table_of};
ghost use Rattle.catalog_core.specs.Table.{FitsProgram};
ghost use Rattle.rows_core.specs.Limits.{most_ticks};
ghost use Rattle.admission.specs.Admitting.{MadeResult};
ghost use Rattle.executor.specs.Runs.{of_making};
ghost use Rattle.folder.specs.Left.{IsLeft};
ghost use Rattle.folder.specs.Sound.{Care};
ghost use Rattle.folder.specs.State.{State, IsValid, table};
ghost use Rattle.work_plan.specs.Planning.{IsWorkPlan};
ghost use Rattle.work_run.specs.Ends.{HaveFewValues, IsRefusedWork};
ghost use Rattle.work_run.specs.Opened.{HasRead, files_left};
ghost use Rattle.work_turns.specs.Ends.{files_among, those_among};
ghost use Rattle.job_turns.specs.Ends.{ComesAtLast, IsReadFor};
ghost use Rattle.job_turns.specs.Jobs.{IsJob};
ghost use Rattle.job_turns.specs.Turns.{Reads, Halts};

use crate::choosing::joined;
use crate::job::JobWork;
use catalog_core::{Catalog, kept_results_of_tables, know_table};
use executor::{Outcome, RunRefusal, finish};
use outside_traits::Store;
use plan_choice::{results_are_left_out, serving_rewritings, taken_rewritings};
use plan_laws::kept_forms_have_their_shape;
use result_ops::MakeRefusal;
use rows_core::Memory;
use std::alloc::Global;
use work_plan::places_of_fit_plans;
use work_turns::{LastTurn, Turn, WorkInTurns, work_of_turns};

impl JobWork {
    /// Reads the files that are left, where results may be noted, and makes the rows of the plan and what is
    /// recorded; nothing is written. The noted results that are still there are dropped by what is recorded. The
    /// job stays, with the files that were read whole read and the results that were noted noted, so that it can
    /// be closed anew after a refusal. The refusals are those of running work; `Damaged` and `Unreadable` come for
    /// extents alone.
    pub fn close<D: Store>(
        &mut self,
        alloc: Global,
        store: &mut D,
        catalog: &Catalog,
    ) -> Result<WorkInTurns, RunRefusal>
        requires job { (plan : PlainPlan) × IsJob (table_of catalog.now) plan self.old }
        requires program { FitsProgram (Some self.old.work.program) (table_of catalog.now) }
        requires counted { (table_of catalog.now).tick < most_ticks }
        ensures job { (plan : PlainPlan) → IsJob (table_of catalog.now) plan self.old
            → IsJob (table_of catalog.now) plan self.new }
        ensures reads { (plan : PlainPlan) → IsJob (table_of catalog.now) plan self.old
            → OnOk result (Reads D.tells (table_of catalog.now) (D.view store.old) plan self.old self.new
            (D.counts store.old) (D.counts store.new)) }
        ensures halts { (plan : PlainPlan) → IsJob (table_of catalog.now) plan self.old
            → IfErr result (Halts D.tells (table_of catalog.now) (D.view store.old) plan self.old self.new
            (D.counts store.old) (D.counts store.new)) }
        // With a result, and with a refusal that hangs on what the files hold, all are read.
        ensures whole { OnOk result (files_left self.new.work ≡ []) }
        ensures made { IfErr result (IsReadFor self.new.work) }
        ensures ok { IsTrue D.tells → (care : Care) (s : State) (plan : PlainPlan)
            → IsLeft care (D.view store.old) s s → table_of catalog.now ≡ table s → HasRead s self.old.work
            → IsJob (table_of catalog.now) plan self.old
            → IfOk result (λ done. ComesAtLast s plan self.new done.work) }
        // On every store what is recorded fits the table, the rows have few values, and few results are used.
        ensures recorded { IfOk result (λ done. (mades : List MadeResult) × IsWorkPlan (table_of catalog.now)
            (Some self.old.work.program) done.work.used.items
            (those_among self.new.noted.items (table_of catalog.now).entries) mades
            done.work.plan) }
        ensures dropped { IfOk result (λ done. done.dropped.items
            ≡ those_among self.new.noted.items (table_of catalog.now).entries) }
        ensures gone { IfOk result (λ done. done.gone.items ≡ files_among
            (those_among self.new.noted.items (table_of catalog.now).entries)
            (table_of catalog.now).entries) }
        ensures narrow { IfOk result
            (λ done. HaveFewValues done.work.rows.items × (length done.work.used.items ≤ 4096)) }
        ensures narrows { Narrows (D.view store.old) (D.view store.new) }
        ensures counts { MayRaiseReads (D.counts store.old) (D.counts store.new) }
    {
        self.read_rest(alloc, store, catalog)?;
        Ok(self.ended(alloc, catalog)?)
    }

    // The rows and what is recorded, of a job of which no file is left. It stays.
    fn ended(&self, alloc: Global, catalog: &Catalog) -> Result<WorkInTurns, MakeRefusal>
        requires left { files_left self.now.work ≡ [] }
        requires job { (plan : PlainPlan) × IsJob (table_of catalog.now) plan self.now }
        requires program { FitsProgram (Some self.now.work.program) (table_of catalog.now) }
        requires counted { (table_of catalog.now).tick < most_ticks }
        ensures ok { (s : State) (plan : PlainPlan) → IsValid s → table_of catalog.now ≡ table s
            → HasRead s self.now.work → IsJob (table_of catalog.now) plan self.now
            → IfOk result (λ done. ComesAtLast s plan self.now done.work) }
        ensures err { (care : Care) (s : State) (plan : PlainPlan) → IsValid s
            → table_of catalog.now ≡ table s → HasRead s self.now.work
            → IsJob (table_of catalog.now) plan self.now
            → IfErr result (λ why. IsRefusedWork care s plan self.now.work.program.cuts (of_making why)) }
        ensures recorded { IfOk result (λ done. (mades : List MadeResult) × IsWorkPlan (table_of catalog.now)
            (Some self.now.work.program) done.work.used.items
            (those_among self.now.noted.items (table_of catalog.now).entries) mades
            done.work.plan) }
        ensures dropped { IfOk result (λ done. done.dropped.items
            ≡ those_among self.now.noted.items (table_of catalog.now).entries) }
        ensures gone { IfOk result (λ done. done.gone.items ≡ files_among
            (those_among self.now.noted.items (table_of catalog.now).entries)
            (table_of catalog.now).entries) }
        ensures narrow { IfOk result
            (λ done. HaveFewValues done.work.rows.items × (length done.work.used.items ≤ 4096)) }
    {
        kept_results_of_tables();
        taken_rewritings();
        serving_rewritings();
        results_are_left_out();
        places_of_fit_plans();
        kept_forms_have_their_shape();
        know_table(catalog);
        let outcome = finish(alloc, &self.work.job)?;
        let program = self.work.program.try_copy(alloc)?;
        let last = self.last_turn(alloc, outcome)?;
        Ok(work_of_turns(alloc, catalog, Some(program), last)?)
    }

    // The last turn, of which this is the outcome.
    fn last_turn(&self, alloc: Global, outcome: Outcome) -> Result<LastTurn, Memory>
        ensures outcome { IfOk result (λ last. last.turn.outcome ≡ outcome) }
        ensures used { IfOk result (λ last. last.turn.used.items ≡ self.now.work.used.items) }
        ensures read { IfOk result (λ last. last.read ≡ capped (self.now.before + self.now.work.read)) }
        ensures lost { IfOk result (λ last. last.lost.items ≡ self.now.noted.items) }
    {
        let used = joined(alloc, &self.work.used, &[])?;
        let lost = joined(alloc, &self.noted, &[])?;
        Ok(LastTurn {
            turn: Turn {
                outcome,
                used,
                read: self.work.read,
            },
            read: self.before.saturating_add(self.work.read),
            lost,
        })
    }
}
