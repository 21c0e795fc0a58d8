//! Choosing a job's rewriting.
ghost use Rattle.std.specs.Prelude.{◌≡◌, ◌++◌, ◌∷◌, [], ℕ, List, IfOk, OnOk, OnErr};
ghost use Rattle.std.specs.List.{list_any};
ghost use Rattle.plan_core.specs.PlainPlan.{PlainPlan};
ghost use Rattle.catalog_core.specs.Catalogs.{table_of};
ghost use Rattle.catalog_core.specs.Programs.{IsProgram, kinds_of_streams};
ghost use Rattle.entry_table.specs.Ids.{is_among};
ghost use Rattle.rewrite_core.specs.PlainRewriting.{rewriting_of};
ghost use Rattle.executor.specs.Pieces.{HasTyping};
ghost use Rattle.work_run.specs.Opened.{opened_rewriting};
ghost use Rattle.work_turns.specs.Turns.{IsChosenOf};
ghost use Rattle.job_turns.specs.Jobs.{Suits, IsJob, IsFresh, IsOpened, IsChosenAgain, IsNextWithout};
ghost use Rattle.job_turns.specs.Steps.{Notes};

use crate::job::JobWork;
use catalog_core::{Catalog, know_table};
use catalog_types::Program;
use executor::prepare;
use plan_choice::{
    Choice, choose_without, results_are_left_out, serving_rewritings, taken_rewritings,
};
use plan_core::{PlanRefusal, Typed, type_plan};
use rows_core::Memory;
use std::alloc::Global;
use work_run::OpenWork;

/// Opens a job of a plan that is stored as this program, by its normal form and a choice of that over all the
/// catalogue's kept results: none of its files is read yet.
pub fn open_job(
    alloc: Global,
    catalog: &Catalog,
    program: Program,
    normal: Typed,
    choice: Choice,
) -> Result<JobWork, Memory>
    requires program { IsProgram (table_of catalog.now).streams program }
    requires chosen { (plan : PlainPlan)
        × IsChosenOf (table_of catalog.now) [] plan normal.plan program.cuts choice }
    ensures opened { IfOk result (λ job. (plan : PlainPlan)
        → IsChosenOf (table_of catalog.now) [] plan normal.plan program.cuts choice
        → IsOpened (table_of catalog.now) plan normal.plan program job) }
    ensures job { IfOk result (λ job. (plan : PlainPlan)
        → IsChosenOf (table_of catalog.now) [] plan normal.plan program.cuts choice
        → IsJob (table_of catalog.now) plan job) }
    ensures rewriting { IfOk result (λ job. opened_rewriting job.work ≡ rewriting_of choice.rewriting) }
{
    let work = begun(alloc, catalog, program, choice)?;
    Ok(JobWork {
        work,
        normal,
        noted: Vec::new(alloc),
        before: 0,
    })
}

impl JobWork {
    /// What comes of the job where these kept results are dropped. It is `None` where its rewriting reads none of
    /// them: then the job stays. Where it reads one it is the same job by a least rewriting over the others but
    /// the noted ones, of which no file is read; the bytes of the files that were read are counted.
    pub fn next_without(
        &self,
        alloc: Global,
        catalog: &Catalog,
        dropped: &[u32],
    ) -> Result<Option<JobWork>, Memory>
        requires { (plan : PlainPlan) × IsJob (table_of catalog.now) plan self.now }
        ensures { IfOk result (IsNextWithout (table_of catalog.now) dropped.now self.now) }
    {
        if !has_one_of(&self.work.used, dropped) {
            return Ok(None);
        }
        Ok(Some(self.chosen_again(alloc, catalog, dropped)?))
    }

    // The same job by another rewriting.
    fn chosen_again(
        &self,
        alloc: Global,
        catalog: &Catalog,
        dropped: &[u32],
    ) -> Result<JobWork, Memory>
        requires { (plan : PlainPlan) × IsJob (table_of catalog.now) plan self.now }
        ensures again { IfOk result (λ job. (plan : PlainPlan) → IsJob (table_of catalog.now) plan self.now
            → IsChosenAgain (table_of catalog.now) plan dropped.now self.now job) }
        ensures job { IfOk result (λ job. (plan : PlainPlan) → IsJob (table_of catalog.now) plan self.now
            → IsJob (table_of catalog.now) plan job) }
    {
        taken_rewritings();
        serving_rewritings();
        results_are_left_out();
        know_table(catalog);
        let normal = typed_copy(alloc, catalog, &self.normal)?;
        let noted = joined(alloc, &self.noted, &[])?;
        let left_out = joined(alloc, &self.noted, dropped)?;
        let program = self.work.program.try_copy(alloc)?;
        let work = fresh(alloc, catalog, program, &normal, &left_out)?;
        Ok(JobWork {
            work,
            normal,
            noted,
            before: self.before.saturating_add(self.work.job.taken()),
        })
    }

    // Notes a kept result, whose file gave so many bytes, and takes a least rewriting without it.
    pub(crate) fn note(
        &mut self,
        alloc: Global,
        catalog: &Catalog,
        id: u32,
        given: u64,
    ) -> Result<(), Memory>
        requires { (plan : PlainPlan) × IsJob (table_of catalog.now) plan self.old }
        ensures notes { OnOk result ((plan : PlainPlan) → IsJob (table_of catalog.now) plan self.old
            → Notes (table_of catalog.now) plan id given self.old self.new) }
        ensures job { OnOk result ((plan : PlainPlan) → IsJob (table_of catalog.now) plan self.old
            → IsJob (table_of catalog.now) plan self.new) }
        ensures refused { OnErr result (self.new ≡ self.old) }
    {
        results_are_left_out();
        know_table(catalog);
        let noted = joined(alloc, &self.noted, &[id])?;
        let program = self.work.program.try_copy(alloc)?;
        let work = fresh(alloc, catalog, program, &self.normal, &noted)?;
        let counted = self.before.saturating_add(self.work.job.taken());
        self.work = work;
        self.noted = noted;
        self.before = counted.saturating_add(given);
        Ok(())
    }
}

// The work of a program, by a least rewriting of this normal form without these kept results.
fn fresh(
    alloc: Global,
    catalog: &Catalog,
    program: Program,
    normal: &Typed,
    left_out: &[u32],
) -> Result<OpenWork, Memory>
    requires program { IsProgram (table_of catalog.now).streams program }
    requires suits { (plan : PlainPlan) × Suits (table_of catalog.now) plan normal.now.plan program.cuts }
    ensures { IfOk result (λ work. (plan : PlainPlan)
        → Suits (table_of catalog.now) plan normal.now.plan program.cuts
        → IsFresh (table_of catalog.now) left_out.now plan normal.now.plan program work) }
{
    taken_rewritings();
    let choice = choose_without(alloc, catalog, normal, program.cuts.items(), left_out)?;
    Ok(begun(alloc, catalog, program, choice)?)
}

// The work of a program, by this choice where some kept results are left out.
fn begun(
    alloc: Global,
    catalog: &Catalog,
    program: Program,
    choice: Choice,
) -> Result<OpenWork, Memory>
    requires program { IsProgram (table_of catalog.now).streams program }
    requires chosen { (left_out : List ℕ) × (plan : PlainPlan) × (form : PlainPlan)
        × IsChosenOf (table_of catalog.now) left_out plan form program.cuts choice }
    ensures fresh { IfOk result (λ work. (left_out : List ℕ) (plan form : PlainPlan)
        → IsChosenOf (table_of catalog.now) left_out plan form program.cuts choice
        → IsFresh (table_of catalog.now) left_out plan form program work) }
    ensures rewriting { IfOk result (λ work. opened_rewriting work ≡ rewriting_of choice.rewriting) }
{
    taken_rewritings();
    serving_rewritings();
    know_table(catalog);
    let Choice {
        rewriting,
        used,
        read,
    } = choice;
    let job = prepare(alloc, rewriting)?;
    Ok(OpenWork {
        program,
        job,
        used,
        read,
    })
}

// The same typed plan once more.
fn typed_copy(alloc: Global, catalog: &Catalog, typed: &Typed) -> Result<Typed, Memory>
    requires { HasTyping (kinds_of_streams (table_of catalog.now).streams) typed.now.plan }
    ensures { IfOk result (λ copy. copy.plan ≡ typed.now.plan) }
{
    match type_plan(alloc, typed.plan().try_copy(alloc)?, catalog.schemas()) {
        Ok(copy) => Ok(copy),
        Err(PlanRefusal::Memory) => Err(Memory),
        Err(_) => unreachable!(),
    }
}

// Whether one of these ids is among the others.
fn has_one_of(ids: &[u32], others: &[u32]) -> bool
    ensures { result ≡ list_any (is_among others.now) ids.now }
{
    ids.iter().any(|id| others.contains(id))
}

// The ids of both lists.
pub(crate) fn joined(alloc: Global, front: &[u32], back: &[u32]) -> Result<Vec<u32>, Memory>
    ensures { IfOk result (λ ids. ids.items ≡ front.now ++ back.now) }
{
    let mut ids = Vec::new(alloc);
    ids.extend_from_slice(front)?;
    ids.extend_from_slice(back)?;
    Ok(ids)
}
