//! Recording work: that of a run, of a fetch, or of a job that is closed.
ghost use Rattle.std.specs.Prelude.{◌≡◌, ◌<◌, ℕ, List, Option, length};
ghost use Rattle.std.specs.Prelude.{IsTrue, IfOk, IfSome, OnOk, OnErr};
ghost use Rattle.outside_traits.specs.Counts.{Rose};
ghost use Rattle.outside_traits.specs.View.{View, Counts};
ghost use Rattle.outside_traits.specs.Calls.{Rises};
ghost use Rattle.row_blob.specs.Kept.{AreEach};
ghost use Rattle.catalog_types.specs.PlainEntry.{PlainNewEntry};
ghost use Rattle.catalog_types.specs.declared.change.Change.TheVariants as change;
ghost use Rattle.catalog_types.specs.declared.program.Program.{Program};
ghost use Rattle.catalog_core.specs.Catalogs.{IsReady, table_of};
ghost use Rattle.catalog_core.specs.IsTable.{IsTable};
ghost use Rattle.folder.specs.Folders.{catalog_of, journal_of, table_in, FolderStands};
ghost use Rattle.folder.specs.Next.{with_work};
ghost use Rattle.folder.specs.Sound.{Care};
ghost use Rattle.folder.specs.State.{State};
ghost use Rattle.later_states.specs.Later.{AreFree, IsLater};
ghost use Rattle.work_run.specs.Ends.{AreNewFiles};
ghost use Rattle.job_turns.specs.Jobs.{IsNextWithout};
ghost use Rattle.folder_session.specs.Standing.{AreGoneSince, LeavesWhereRefused, WorkChangesAtMost};
ghost use Rattle.folder_session.specs.Standing as folder;
ghost use Rattle.folder_session.specs.Working.{IsPlannedOver};
ghost use Rattle.session.specs.Jobs.{OpenJobs, AreHeldOver, AreLeftBehind};
ghost use Rattle.session.specs.Work.{IsEnded, IsRecorded, IsSameWhereRefused};

use crate::session::Session;
use catalog_core::{Catalog, know_table};
use job_table::OpenJob;
use job_turns::{JobWork, job_work_stays};
use outside_traits::{Failed, Store};
use rows_core::Memory;
use script_text::{Answer, Refusal};
use std::alloc::Global;
use work_turns::WorkInTurns;

impl Session {
    ghost use Rattle.session.specs.Standing.{HoldsJobs, folder_of, jobs_of};

    /// Records work and answers it. Each job whose rewriting reads one of the kept results that the work drops is
    /// chosen again, and the job at this place, where one is given, is closed. All memory is taken before the
    /// first write; where it is refused, nothing is changed. No file is read.
    pub(crate) fn record<D: Store>(
        self,
        store: &mut D,
        done: WorkInTurns,
        closed: Option<usize>,
    ) -> Result<(Session, Answer), Failed>
        requires planned { IsPlannedOver (table_in (folder_of self)) done }
        requires holds { HoldsJobs self }
        requires closed { IfSome closed (λ at. at < length (jobs_of self)) }
        ensures holds { IfOk result (λ next. HoldsJobs next.0) }
        ensures ended { IfOk result (λ next. IsEnded (table_in (folder_of self)) done closed (jobs_of self)
            (jobs_of next.0) next.1) }
        ensures ok { IsTrue D.tells → (care : Care) (s : State) (program : Option Program)
            (dropped : List ℕ) (news : List PlainNewEntry)
            → folder.Stands care (D.view store.old) self.base s
            → done.work.plan.change ≡ change.Work program done.work.used.items dropped news
            → AreNewFiles s.streams news done.work.plan.files.items
            → IfOk result (λ next. IsRecorded care (D.view store.old) (D.view store.new) next.0.base s
            (with_work s program done.work.used.items dropped news) next.1) }
        ensures err { IsTrue D.tells → (care : Care) (s : State) (program : Option Program)
            (dropped : List ℕ) (news : List PlainNewEntry)
            → folder.Stands care (D.view store.old) self.base s
            → done.work.plan.change ≡ change.Work program done.work.used.items dropped news
            → AreNewFiles s.streams news done.work.plan.files.items
            → OnErr result (folder.KeepsNot care (D.view store.old) (D.view store.new) s
            (with_work s program done.work.used.items dropped news)) }
        // Where the store fails so would the jobs be left.
        ensures left { OnErr result ((news : OpenJobs) × AreLeftBehind (table_in (folder_of self))
            done.dropped.items closed (jobs_of self) news) }
        ensures later { (held : List ℕ) → AreFree held done.dropped.items → IfOk result (λ next.
            IsLater held (table_in (folder_of self)) (table_in (folder_of next.0))) }
        ensures same { IfOk result (λ next. IsSameWhereRefused (table_in (folder_of self))
            (table_in (folder_of next.0)) next.1) }
        ensures table { IfOk result (λ next. IsTable (table_in (folder_of next.0))) }
        ensures alone { WorkChangesAtMost (folder_of self) (D.view store.old) (D.view store.new) }
        ensures gone { IsTrue D.tells → IfOk result (λ next. AreGoneSince (table_in (folder_of self))
            (table_in (folder_of next.0)) (D.view store.new) (D.counts store.old) (D.counts store.new)) }
        ensures cause { OnErr result (Rose (D.counts store.old).writes (D.counts store.new).writes) }
        ensures no_fault { OnOk result ((D.counts store.new).writes ≡ (D.counts store.old).writes) }
        ensures refused { IfOk result
            (λ next. LeavesWhereRefused next.1 (D.view store.old) (D.view store.new)) }
        ensures crash { IsTrue D.tells → FolderStands (D.view store.old) (folder_of self)
            → IfOk result (λ next. FolderStands (D.view store.new) (folder_of next.0)) }
        ensures reads { (D.counts store.new).reads ≡ (D.counts store.old).reads }
        ensures taken { (D.counts store.new).taken ≡ (D.counts store.old).taken }
        ensures counts { Rises (D.counts store.old) (D.counts store.new) }
    {
        job_work_stays();
        know_table(self.base.catalog());
        let mut session = self;
        match session.make_ready(&done, closed) {
            Ok(()) => {
                let Session { base, jobs, alloc } = session;
                let WorkInTurns { work, gone, .. } = done;
                match base.record_work(store, work, &gone) {
                    Ok((base, answer)) => {
                        know_table(base.catalog());
                        Ok((Session { base, jobs, alloc }, answer))
                    }
                    Err(Failed) => Err(Failed),
                }
            }
            Err(Memory) => {
                know_table(session.base.catalog());
                Ok((session, Answer::Refused(Refusal::Memory)))
            }
        }
    }

    // Makes the session ready for work to be recorded: takes the memory that this wants, chooses jobs again and closes
    // the one at this place. Where memory is refused the jobs are as they were.
    fn make_ready(&mut self, done: &WorkInTurns, closed: Option<usize>) -> Result<(), Memory>
        requires planned { IsPlannedOver (table_in (folder_of self.old)) done.now }
        requires holds { HoldsJobs self.old }
        requires closed { IfSome closed (λ at. at < length (jobs_of self.old)) }
        ensures jobs { OnOk result (AreLeftBehind (table_in (folder_of self.old)) done.now.dropped.items closed
            (jobs_of self.old) (jobs_of self.new)) }
        ensures same { OnErr result (jobs_of self.new ≡ jobs_of self.old) }
        ensures table { table_in (folder_of self.new) ≡ table_in (folder_of self.old) }
        ensures journal { journal_of (folder_of self.new) ≡ journal_of (folder_of self.old) }
        ensures ready { OnOk result
            (IsReady (catalog_of (folder_of self.new)) done.now.work.plan.change) }
    {
        let nexts = nexts_without(
            self.alloc,
            self.base.catalog(),
            &self.jobs.jobs,
            &done.dropped,
        )?;
        self.base.prepare(&done.work.plan.change)?;
        self.jobs.put_each(nexts);
        if let Some(at) = closed {
            self.jobs.remove_at(at);
        }
        Ok(())
    }
}

// What comes of each job where these kept results are dropped.
fn nexts_without(
    alloc: Global,
    catalog: &Catalog,
    jobs: &[OpenJob<JobWork>],
    dropped: &[u32],
) -> Result<Vec<Option<JobWork>>, Memory>
    requires { AreHeldOver (table_of catalog.now) jobs.now }
    ensures { IfOk result (λ nexts. AreEach (λ opened next.
        IsNextWithout (table_of catalog.now) dropped.now opened.job next) jobs.now nexts.items) }
{
    let mut nexts = Vec::new(alloc);
    for opened in jobs {
        nexts.push(opened.job.next_without(alloc, catalog, dropped)?)?;
    }
    Ok(nexts)
}
