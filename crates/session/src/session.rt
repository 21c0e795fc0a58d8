//! The session: a folder that was loaded, and the commands performed over it.
ghost use Rattle.std.specs.Prelude.{◌≡◌, ◌⊎◌, ℕ, ◌+◌, ◌≤◌, List, [], length};
ghost use Rattle.std.specs.Prelude.{IsTrue, IfOk, IsErrOf, OnOk, OnErr};
ghost use Rattle.outside_traits.specs.Counts.{Rose};
ghost use Rattle.outside_traits.specs.View.{View, Counts};
ghost use Rattle.outside_traits.specs.Calls.{Rises};
ghost use Rattle.outside_traits.specs.Runs.{Narrows};
ghost use Rattle.folder.specs.Folders.{table_in, FolderStands};
ghost use Rattle.folder.specs.InUse.{IsInUse, IsLoadedAsItIs};
ghost use Rattle.folder.specs.Unnamed.{HasRoot, HasOnlyNamed, ChangesUnnamed, ChangesLogsOrUnnamed};
ghost use Rattle.folder.specs.Left.{IsLeft, IsLeftWith, LeavesAlone, Since};
ghost use Rattle.folder.specs.Replay.{ReadsAs, StopsReading};
ghost use Rattle.folder.specs.Sound.{Care};
ghost use Rattle.folder.specs.State.{State};
ghost use Rattle.journal_store.specs.Readings.{generation_file, users_file, HaveBodies, LogHasAtMost};
ghost use Rattle.script_text.specs.Answer.{IsNarrow};
ghost use Rattle.script_text.specs.Script.{IsWhole};
ghost use Rattle.script_text.specs.declared.answer.Refusal.{Refusal};
ghost use Rattle.folder_session.specs.Machine.{IsOfJobs, IsWork};
ghost use Rattle.folder_session.specs.Standing.{LeavesWhereRefused, ChangesAtMost, AreGoneSince};
ghost use Rattle.session.specs.Causes.{HasByteCause};
ghost use Rattle.session.specs.Machine.{Machine, without_jobs};
ghost use Rattle.session.specs.Taken.{TakesAsTold, TakesFor};

use crate::jobs::held_ids;
use catalog_core::know_table;
use folder::left_stores;
use folder_session::{FolderSession, LoadRefusal};
use job_table::JobTable;
use job_turns::{JobWork, job_work_stays};
use outside_traits::{Failed, Store};
use rows_core::Memory;
use script_text::{Answer, Command, Refusal};
use std::alloc::Global;

/// A folder that was loaded, and the jobs that are open over it, which end with the process. What it holds in
/// memory is the folder's table, and what was read for jobs: the rows of extents stand in their files alone.
#[derive(Drop)]
pub struct Session {
    pub(crate) base: FolderSession,
    pub(crate) jobs: JobTable<JobWork>,
    pub(crate) alloc: Global,
}

impl Session {
    ghost use Rattle.session.specs.Standing.{Stands, Performs, Breaks, HoldsJobs, folder_of, jobs_of};

    /// Loads a folder, which is made where its making isn't finished. `NotAStore` comes exactly where its log
    /// files have no reading, with the first byte where reading stops, unless the store fails or memory is
    /// refused first; `Fault` only where the store failed. No file is read but the logs, and no more is taken
    /// than their bytes. Where the root named a generation, each file that the folder doesn't name is removed;
    /// a removal that fails is let pass. No job is open.
    pub fn load<D: Store>(alloc: Global, store: &mut D) -> Result<Session, LoadRefusal>
        ensures stands { IsTrue D.tells → (care : Care) (a b : State) → IsLeft care (D.view store.old) a b
            → IfOk result (λ session. Stands care (D.view store.new) session (without_jobs a)) }
        // On every store that tells its files the table is what they read as, and what each crash now leaves
        // reads as.
        ensures reading { IsTrue D.tells
            → IfOk result (λ session. ReadsAs (D.view store.old).files (table_in (folder_of session))) }
        ensures crash { IsTrue D.tells
            → IfOk result (λ session. FolderStands (D.view store.new) (folder_of session)) }
        ensures since { IsTrue D.tells → (care : Care) (a b : State) → IsLeft care (D.view store.old) a b
            → Since care a b (D.view store.old) (D.view store.new) }
        ensures left { IsTrue D.tells → (care : Care) (a b : State) → IsLeft care (D.view store.old) a b
            → OnErr result (IsLeftWith care (D.view store.new) a b) }
        ensures not_a_store { IsTrue D.tells → (file at : ℕ) → IsErrOf result (LoadRefusal.NotAStore file at)
            → StopsReading (D.view store.old).files file at × Narrows (D.view store.old) (D.view store.new) }
        // The generation in use is the one that was, unless that has more than 1,024 bodies, is of an older
        // form or is newly made; then it is the next one, with the checkpoint of the table as its one body.
        ensures generation { IsTrue D.tells → (g : ℕ) (bodies : List (List ℕ))
            → HaveBodies (D.view store.old).files g bodies
            → IfOk result (λ session. IsInUse (D.view store.new) (folder_of session) g bodies) }
        // Only logs are changed, and files that the folder doesn't name; where the log stays these alone.
        ensures alone { IsTrue D.tells → ChangesLogsOrUnnamed (D.view store.old) (D.view store.new) }
        ensures users { IsTrue D.tells → LeavesAlone users_file (D.view store.old) (D.view store.new) }
        ensures finished { IsTrue D.tells → IsLoadedAsItIs (D.view store.old).files
            → ChangesUnnamed (D.view store.old) (D.view store.new) }
        // After `Ok` a folder that had a root has only named files, unless a removal failed.
        ensures only_named { IsTrue D.tells → HasRoot (D.view store.old).files → IfOk result
            (λ session. Rose (D.counts store.old).removes (D.counts store.new).removes
            ⊎ HasOnlyNamed (D.view store.new) (folder_of session)) }
        ensures only { IsTrue D.tells → (file at : ℕ) → StopsReading (D.view store.old).files file at
            → IsErrOf result (LoadRefusal.NotAStore file at) ⊎ (IsErrOf result LoadRefusal.Fault
            ⊎ IsErrOf result LoadRefusal.Memory) }
        ensures cause { IsErrOf result LoadRefusal.Fault
            → Rose (D.counts store.old).reads (D.counts store.new).reads
            ⊎ Rose (D.counts store.old).writes (D.counts store.new).writes }
        ensures no_fault { OnOk result
            (((D.counts store.new).reads ≡ (D.counts store.old).reads)
            × ((D.counts store.new).writes ≡ (D.counts store.old).writes)) }
        ensures taken { IsTrue D.tells → (g : ℕ) (bodies : List (List ℕ))
            → HaveBodies (D.view store.old).files g bodies → (D.counts store.new).taken
            ≤ (D.counts store.old).taken + length ((D.view store.old).files 0)
            + length ((D.view store.old).files (generation_file g)) }
        // Never are more bytes taken than those of the root and of the log that it names.
        ensures most_taken { IsTrue D.tells → (most : ℕ) → LogHasAtMost (D.view store.old).files most
            → (D.counts store.new).taken
            ≤ (D.counts store.old).taken + length ((D.view store.old).files 0) + most }
        ensures no_jobs { IfOk result (λ session. jobs_of session ≡ []) }
        ensures holds { IfOk result HoldsJobs }
        ensures counts { Rises (D.counts store.old) (D.counts store.new) }
    {
        match FolderSession::load(alloc, store) {
            Ok(base) => Ok(Session {
                base,
                jobs: JobTable::new(alloc),
                alloc,
            }),
            Err(refusal) => Err(refusal),
        }
    }

    /// Performs a command, and answers it. A refused command changes nothing, but that a job whose close is
    /// refused has read and noted what it did. All memory is taken before the first write; from then on only a failed
    /// write or sync ends the command, which is `Failed`: then the store is left with the state before the
    /// command and the one after it. No answer but those of commands on jobs changes a job, and no job is in
    /// the store.
    pub fn step<D: Store>(
        self,
        store: &mut D,
        command: Command,
    ) -> Result<(Session, Answer), Failed>
        requires whole { IsWhole command }
        requires holds { HoldsJobs self }
        ensures holds { IfOk result (λ next. HoldsJobs next.0) }
        ensures ok { IsTrue D.tells → (care : Care) (m : Machine) → Stands care (D.view store.old) self m
            → IfOk result
            (λ next. Performs care (D.view store.old) (D.view store.new) next.0 m command next.1) }
        ensures err { IsTrue D.tells → (care : Care) (m : Machine) → Stands care (D.view store.old) self m
            → OnErr result (Breaks care (D.view store.old) (D.view store.new) m command) }
        ensures narrow { IfOk result (λ next. IsNarrow next.1) }
        // Whatever the answer, only the log in use and files that no state names yet are written, by an
        // append the next one alone, and only files of kept results are removed.
        ensures alone { ChangesAtMost (folder_of self) command (D.view store.old) (D.view store.new) }
        // No file of a kept result that went is there, unless a removal failed.
        ensures gone { IsTrue D.tells → IfOk result (λ next. AreGoneSince (table_in (folder_of self))
            (table_in (folder_of next.0)) (D.view store.new) (D.counts store.old) (D.counts store.new)) }
        ensures cause { OnErr result (Rose (D.counts store.old).writes (D.counts store.new).writes) }
        ensures no_fault { OnOk result ((D.counts store.new).writes ≡ (D.counts store.old).writes) }
        // A refused command changes no file: at most it has read.
        ensures refused { IfOk result
            (λ next. LeavesWhereRefused next.1 (D.view store.old) (D.view store.new)) }
        ensures fault { IfOk result (λ next. next.1 ≡ Answer.Refused Refusal.Fault
            → Rose (D.counts store.old).reads (D.counts store.new).reads) }
        // A failed look is told: after any other answer, and after `Failed`, none has failed.
        ensures only_fault { IfOk result (λ next. (next.1 ≡ Answer.Refused Refusal.Fault → ⊥)
            → (D.counts store.new).reads ≡ (D.counts store.old).reads) }
        ensures looks { OnErr result ((D.counts store.new).reads ≡ (D.counts store.old).reads) }
        // Where the store tells its files, damage and unreadable bytes are those of a file that the command
        // reads.
        ensures found { IsTrue D.tells → IfOk result (λ next. HasByteCause (table_in (folder_of self))
            (jobs_of self) command (D.view store.old).files next.1) }
        // A result has taken the bytes that it tells, but for those that a job's steps took before, and no
        // command more than the files that it reads have.
        ensures taken { IsTrue D.tells → (care : Care) (m : Machine) → Stands care (D.view store.old) self m
            → IfOk result (λ next. TakesAsTold (table_in (folder_of self)) (jobs_of self) command next.1
            (D.counts store.old) (D.counts store.new)) }
        ensures most { IsTrue D.tells → TakesFor (table_in (folder_of self)) (jobs_of self) command
            (D.counts store.old) (D.counts store.new) }
        // Also on a store that isn't left each crash leaves logs that read as the session's table.
        ensures crash { IsTrue D.tells → FolderStands (D.view store.old) (folder_of self)
            → IfOk result (λ next. FolderStands (D.view store.new) (folder_of next.0)) }
        ensures counts { Rises (D.counts store.old) (D.counts store.new) }
    {
        left_stores::<D>();
        match command {
            Command::OpenJob { job, name, plan } => Ok(self.open_job::<D>(job, name, &plan)),
            Command::Step { job } => Ok(self.read_next(store, job)),
            Command::Close { job } => self.close(store, job),
            Command::DropJob { job } => Ok(self.drop_job::<D>(job)),
            command @ (Command::Run { .. } | Command::Fetch { .. }) => self.work(store, command),
            command => self.perform(store, command),
        }
    }

    // Performs a run or a fetch.
    fn work<D: Store>(self, store: &mut D, command: Command) -> Result<(Session, Answer), Failed>
        requires whole { IsWhole command }
        requires work { IsWork command }
        requires holds { HoldsJobs self }
        ensures holds { IfOk result (λ next. HoldsJobs next.0) }
        ensures ok { IsTrue D.tells → (care : Care) (m : Machine) → Stands care (D.view store.old) self m
            → IfOk result
            (λ next. Performs care (D.view store.old) (D.view store.new) next.0 m command next.1) }
        ensures err { IsTrue D.tells → (care : Care) (m : Machine) → Stands care (D.view store.old) self m
            → OnErr result (Breaks care (D.view store.old) (D.view store.new) m command) }
        ensures narrow { IfOk result (λ next. IsNarrow next.1) }
        ensures alone { ChangesAtMost (folder_of self) command (D.view store.old) (D.view store.new) }
        ensures gone { IsTrue D.tells → IfOk result (λ next. AreGoneSince (table_in (folder_of self))
            (table_in (folder_of next.0)) (D.view store.new) (D.counts store.old) (D.counts store.new)) }
        ensures cause { OnErr result (Rose (D.counts store.old).writes (D.counts store.new).writes) }
        ensures no_fault { OnOk result ((D.counts store.new).writes ≡ (D.counts store.old).writes) }
        ensures refused { IfOk result
            (λ next. LeavesWhereRefused next.1 (D.view store.old) (D.view store.new)) }
        ensures fault { IfOk result (λ next. next.1 ≡ Answer.Refused Refusal.Fault
            → Rose (D.counts store.old).reads (D.counts store.new).reads) }
        ensures only_fault { IfOk result (λ next. (next.1 ≡ Answer.Refused Refusal.Fault → ⊥)
            → (D.counts store.new).reads ≡ (D.counts store.old).reads) }
        ensures looks { OnErr result ((D.counts store.new).reads ≡ (D.counts store.old).reads) }
        ensures found { IsTrue D.tells → IfOk result (λ next. HasByteCause (table_in (folder_of self))
            (jobs_of self) command (D.view store.old).files next.1) }
        ensures taken { IsTrue D.tells → (care : Care) (m : Machine) → Stands care (D.view store.old) self m
            → IfOk result (λ next. TakesAsTold (table_in (folder_of self)) (jobs_of self) command next.1
            (D.counts store.old) (D.counts store.new)) }
        ensures most { IsTrue D.tells → TakesFor (table_in (folder_of self)) (jobs_of self) command
            (D.counts store.old) (D.counts store.new) }
        ensures crash { IsTrue D.tells → FolderStands (D.view store.old) (folder_of self)
            → IfOk result (λ next. FolderStands (D.view store.new) (folder_of next.0)) }
        ensures counts { Rises (D.counts store.old) (D.counts store.new) }
    {
        left_stores::<D>();
        job_work_stays();
        know_table(self.base.catalog());
        match self.base.work_off(store, command) {
            Ok(done) => self.record(store, done, None),
            Err(refusal) => Ok((self, Answer::Refused(refusal))),
        }
    }

    // Performs a command that concerns no job and works nothing off.
    fn perform<D: Store>(self, store: &mut D, command: Command) -> Result<(Session, Answer), Failed>
        requires whole { IsWhole command }
        requires of_folder { IsOfJobs command → ⊥ }
        requires no_work { IsWork command → ⊥ }
        requires holds { HoldsJobs self }
        ensures holds { IfOk result (λ next. HoldsJobs next.0) }
        ensures ok { IsTrue D.tells → (care : Care) (m : Machine) → Stands care (D.view store.old) self m
            → IfOk result
            (λ next. Performs care (D.view store.old) (D.view store.new) next.0 m command next.1) }
        ensures err { IsTrue D.tells → (care : Care) (m : Machine) → Stands care (D.view store.old) self m
            → OnErr result (Breaks care (D.view store.old) (D.view store.new) m command) }
        ensures narrow { IfOk result (λ next. IsNarrow next.1) }
        ensures alone { ChangesAtMost (folder_of self) command (D.view store.old) (D.view store.new) }
        ensures gone { IsTrue D.tells → IfOk result (λ next. AreGoneSince (table_in (folder_of self))
            (table_in (folder_of next.0)) (D.view store.new) (D.counts store.old) (D.counts store.new)) }
        ensures cause { OnErr result (Rose (D.counts store.old).writes (D.counts store.new).writes) }
        ensures no_fault { OnOk result ((D.counts store.new).writes ≡ (D.counts store.old).writes) }
        ensures refused { IfOk result
            (λ next. LeavesWhereRefused next.1 (D.view store.old) (D.view store.new)) }
        ensures fault { IfOk result (λ next. next.1 ≡ Answer.Refused Refusal.Fault
            → Rose (D.counts store.old).reads (D.counts store.new).reads) }
        ensures only_fault { IfOk result (λ next. (next.1 ≡ Answer.Refused Refusal.Fault → ⊥)
            → (D.counts store.new).reads ≡ (D.counts store.old).reads) }
        ensures looks { OnErr result ((D.counts store.new).reads ≡ (D.counts store.old).reads) }
        ensures found { IsTrue D.tells → IfOk result (λ next. HasByteCause (table_in (folder_of self))
            (jobs_of self) command (D.view store.old).files next.1) }
        ensures taken { IsTrue D.tells → (care : Care) (m : Machine) → Stands care (D.view store.old) self m
            → IfOk result (λ next. TakesAsTold (table_in (folder_of self)) (jobs_of self) command next.1
            (D.counts store.old) (D.counts store.new)) }
        ensures most { IsTrue D.tells → TakesFor (table_in (folder_of self)) (jobs_of self) command
            (D.counts store.old) (D.counts store.new) }
        ensures crash { IsTrue D.tells → FolderStands (D.view store.old) (folder_of self)
            → IfOk result (λ next. FolderStands (D.view store.new) (folder_of next.0)) }
        ensures counts { Rises (D.counts store.old) (D.counts store.new) }
    {
        job_work_stays();
        know_table(self.base.catalog());
        let Session { base, jobs, alloc } = self;
        let held = match held_ids(alloc, &jobs.jobs) {
            Ok(held) => held,
            Err(Memory) => {
                let session = Session { base, jobs, alloc };
                return Ok((session, Answer::Refused(Refusal::Memory)));
            }
        };
        match base.step(store, command, &held) {
            Ok((base, answer)) => {
                know_table(base.catalog());
                Ok((Session { base, jobs, alloc }, answer))
            }
            Err(Failed) => Err(Failed),
        }
    }
}
