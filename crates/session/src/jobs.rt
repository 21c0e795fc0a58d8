//! Commands on jobs.
ghost use Rattle.std.specs.Prelude.{◌≡◌, ◌<◌, Some};
ghost use Rattle.std.specs.Prelude.{IsTrue, IfOk, OnOk, OnErr};
ghost use Rattle.outside_traits.specs.Counts.{Rose};
ghost use Rattle.outside_traits.specs.View.{View, Counts};
ghost use Rattle.outside_traits.specs.Calls.{Rises, MayRaiseReads};
ghost use Rattle.outside_traits.specs.Runs.{Narrows};
ghost use Rattle.plan_text.specs.Counts.{IsWithinLimits};
ghost use Rattle.folder.specs.Folders.{table_in, FolderStands};
ghost use Rattle.folder.specs.Sound.{Care};
ghost use Rattle.script_text.specs.Answer.{IsNarrow};
ghost use Rattle.script_text.specs.declared.answer.Refusal.{Refusal};
ghost use Rattle.script_text.specs.declared.item.Command.TheVariants as command;
ghost use Rattle.folder_session.specs.Causes.{TellsOfNoFile};
ghost use Rattle.folder_session.specs.Standing.{AreGoneSince, LeavesWhereRefused, WorkChangesAtMost};
ghost use Rattle.session.specs.Causes.{HasByteCause};
ghost use Rattle.session.specs.Jobs.{IsAdmitted, held_of};
ghost use Rattle.session.specs.Machine.{Machine};
ghost use Rattle.session.specs.Taken.{TakesAsTold, TakesFor};

use crate::session::Session;
use crate::work::{close_work, opened, read_file};
use catalog_core::know_table;
use folder::left_stores;
use job_table::OpenJob;
use job_turns::{JobWork, job_work_stays};
use outside_traits::{Failed, Store};
use plan_text::NamedPlan;
use planning::OpenJobs;
use rows_core::{Memory, Name};
use script_text::{Answer, Refusal};
use std::alloc::Global;

impl Session {
    ghost use Rattle.session.specs.Standing.{Stands, Performs, Breaks, HoldsJobs, folder_of, jobs_of};

    /// Opens a job of a plan on all extents: takes a rewriting of it, and holds the kept results that this
    /// reads.
    pub(crate) fn open_job<D: Store>(
        self,
        job: Name,
        name: Name,
        plan: &NamedPlan,
    ) -> (Session, Answer)
        requires limits { IsWithinLimits plan.now }
        requires holds { HoldsJobs self }
        ensures holds { HoldsJobs result.0 }
        ensures base { result.0.base ≡ self.base }
        ensures ok { (care : Care) (store : D) (m : Machine) → Stands care (D.view store) self m
            → Performs care (D.view store) (D.view store) result.0 m (command.OpenJob job name plan.now)
            result.1 }
        ensures narrow { IsNarrow result.1 }
        ensures of_no_file { TellsOfNoFile result.1 }
    {
        let jobs = OpenJobs {
            exists: self.jobs.place_of(&job).is_some(),
            count: self.jobs.count(),
        };
        let Ok(asked) = job.try_copy(self.alloc) else {
            return (self, Answer::Refused(Refusal::Memory));
        };
        match opened(self.alloc, self.base.catalog(), jobs, asked, name, plan) {
            Ok(work) => self.admit(job, work),
            Err(refusal) => (self, Answer::Refused(refusal)),
        }
    }

    // Takes open work up as the job of this name, behind the others.
    fn admit(self, name: Name, work: JobWork) -> (Session, Answer)
        ensures base { result.0.base ≡ self.base }
        ensures admitted { IsAdmitted name work (jobs_of self) (jobs_of result.0) result.1 }
    {
        let mut session = self;
        let steps = work.left();
        match session.jobs.admit(name, work) {
            Ok(()) => (session, Answer::Ready(steps)),
            Err(_) => (session, Answer::Refused(Refusal::Memory)),
        }
    }

    /// Reads the next file of a job, where one is left, or notes the kept result that it is of. A refusal leaves
    /// the job as it was.
    pub(crate) fn read_next<D: Store>(self, store: &mut D, name: Name) -> (Session, Answer)
        requires holds { HoldsJobs self }
        ensures holds { HoldsJobs result.0 }
        ensures base { result.0.base ≡ self.base }
        ensures ok { IsTrue D.tells → (care : Care) (m : Machine) → Stands care (D.view store.old) self m
            → Performs care (D.view store.old) (D.view store.new) result.0 m (command.Step name) result.1 }
        ensures narrow { IsNarrow result.1 }
        ensures narrows { Narrows (D.view store.old) (D.view store.new) }
        ensures fault { result.1 ≡ Answer.Refused Refusal.Fault
            → Rose (D.counts store.old).reads (D.counts store.new).reads }
        ensures only_fault { (result.1 ≡ Answer.Refused Refusal.Fault → ⊥)
            → (D.counts store.new).reads ≡ (D.counts store.old).reads }
        ensures found { IsTrue D.tells → HasByteCause (table_in (folder_of self)) (jobs_of self)
            (command.Step name) (D.view store.old).files result.1 }
        ensures taken { IsTrue D.tells → (care : Care) (m : Machine) → Stands care (D.view store.old) self m
            → TakesAsTold (table_in (folder_of self)) (jobs_of self) (command.Step name) result.1
            (D.counts store.old) (D.counts store.new) }
        ensures most { IsTrue D.tells → TakesFor (table_in (folder_of self)) (jobs_of self)
            (command.Step name) (D.counts store.old) (D.counts store.new) }
        ensures counts { MayRaiseReads (D.counts store.old) (D.counts store.new) }
    {
        left_stores::<D>();
        let Session {
            base,
            mut jobs,
            alloc,
        } = self;
        let answer = match jobs.place_of(&name) {
            Some(at) => read_file(alloc, &mut jobs.jobs[at].job, store, base.catalog()),
            None => Answer::Refused(Refusal::Unknown(name)),
        };
        (Session { base, jobs, alloc }, answer)
    }

    /// Closes a job: its work is done on the extents of its opening, and recorded. The kept results that it noted
    /// are dropped, and each other job that reads one of them is chosen again.
    pub(crate) fn close<D: Store>(
        self,
        store: &mut D,
        name: Name,
    ) -> Result<(Session, Answer), Failed>
        requires holds { HoldsJobs self }
        ensures holds { IfOk result (λ next. HoldsJobs next.0) }
        ensures ok { IsTrue D.tells → (care : Care) (m : Machine) → Stands care (D.view store.old) self m
            → IfOk result (λ next. Performs care (D.view store.old) (D.view store.new) next.0 m
            (command.Close name) next.1) }
        ensures err { IsTrue D.tells → (care : Care) (m : Machine) → Stands care (D.view store.old) self m
            → OnErr result (Breaks care (D.view store.old) (D.view store.new) m (command.Close name)) }
        ensures narrow { IfOk result (λ next. IsNarrow next.1) }
        ensures alone { WorkChangesAtMost (folder_of self) (D.view store.old) (D.view store.new) }
        ensures gone { IsTrue D.tells → IfOk result (λ next. AreGoneSince (table_in (folder_of self))
            (table_in (folder_of next.0)) (D.view store.new) (D.counts store.old) (D.counts store.new)) }
        ensures cause { OnErr result (Rose (D.counts store.old).writes (D.counts store.new).writes) }
        ensures no_fault { OnOk result ((D.counts store.new).writes ≡ (D.counts store.old).writes) }
        ensures refused { IfOk result
            (λ next. LeavesWhereRefused next.1 (D.view store.old) (D.view store.new)) }
        ensures fault { IfOk result (λ next. next.1 ≡ Answer.Refused Refusal.Fault
            → Rose (D.counts store.old).reads (D.counts store.new).reads) }
        ensures only_fault { IfOk result (λ next. (next.1 ≡ Answer.Refused Refusal.Fault → ⊥)
            → (D.counts store.new).reads ≡ (D.counts store.old).reads) }
        ensures looks { OnErr result ((D.counts store.new).reads ≡ (D.counts store.old).reads) }
        ensures found { IsTrue D.tells → IfOk result (λ next. HasByteCause (table_in (folder_of self))
            (jobs_of self) (command.Close name) (D.view store.old).files next.1) }
        ensures taken { IsTrue D.tells → (care : Care) (m : Machine) → Stands care (D.view store.old) self m
            → IfOk result (λ next. TakesAsTold (table_in (folder_of self)) (jobs_of self) (command.Close name)
            next.1 (D.counts store.old) (D.counts store.new)) }
        ensures most { IsTrue D.tells → TakesFor (table_in (folder_of self)) (jobs_of self)
            (command.Close name) (D.counts store.old) (D.counts store.new) }
        ensures crash { IsTrue D.tells → FolderStands (D.view store.old) (folder_of self)
            → IfOk result (λ next. FolderStands (D.view store.new) (folder_of next.0)) }
        ensures counts { Rises (D.counts store.old) (D.counts store.new) }
    {
        left_stores::<D>();
        job_work_stays();
        know_table(self.base.catalog());
        let Session {
            base,
            mut jobs,
            alloc,
        } = self;
        let Some(at) = jobs.place_of(&name) else {
            let session = Session { base, jobs, alloc };
            return Ok((session, Answer::Refused(Refusal::Unknown(name))));
        };
        let job = &mut jobs.jobs[at].job;
        let closed = close_work(alloc, job, store, base.catalog());
        let session = Session { base, jobs, alloc };
        match closed {
            Ok(done) => session.record(store, done, Some(at)),
            Err(refusal) => Ok((session, Answer::Refused(refusal))),
        }
    }

    /// Gives a job up. It takes no memory.
    pub(crate) fn drop_job<D: Store>(self, name: Name) -> (Session, Answer)
        requires holds { HoldsJobs self }
        ensures holds { HoldsJobs result.0 }
        ensures base { result.0.base ≡ self.base }
        ensures ok { (care : Care) (store : D) (m : Machine) → Stands care (D.view store) self m
            → Performs care (D.view store) (D.view store) result.0 m (command.DropJob name) result.1 }
        ensures narrow { IsNarrow result.1 }
        ensures of_no_file { TellsOfNoFile result.1 }
    {
        let mut session = self;
        let answer = match session.jobs.give(&name) {
            Some(_) => Answer::Ok,
            None => Answer::Refused(Refusal::Unknown(name)),
        };
        (session, answer)
    }
}

/// The ids of all kept results that these jobs hold.
pub(crate) fn held_ids(alloc: Global, jobs: &[OpenJob<JobWork>]) -> Result<Vec<u32>, Memory>
    ensures { IfOk result (λ held. held.items ≡ held_of jobs.now) }
{
    let mut held = Vec::new(alloc);
    for opened in jobs {
        held.extend_from_slice(&opened.job.work.used)?;
    }
    Ok(held)
}
