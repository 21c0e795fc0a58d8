//! Plans that are worked off.
ghost use Rattle.std.specs.Prelude.{ℕ, ◌≡◌, ◌⊎◌, List, Option, IsTrue, IfOk, IfErr, IsErrOf, OnOk, OnErr};
ghost use Rattle.outside_traits.specs.Counts.{Rose};
ghost use Rattle.outside_traits.specs.View.{View, Counts};
ghost use Rattle.outside_traits.specs.Calls.{Rises, MayRaiseReads};
ghost use Rattle.outside_traits.specs.Runs.{Narrows};
ghost use Rattle.catalog_types.specs.PlainEntry.{PlainNewEntry};
ghost use Rattle.catalog_types.specs.declared.change.Change.TheVariants as change;
ghost use Rattle.catalog_types.specs.declared.program.Program.{Program};
ghost use Rattle.catalog_core.specs.Catalogs.{IsReady};
ghost use Rattle.catalog_core.specs.Table.{after};
ghost use Rattle.admission.specs.Admitting.{MadeResult};
ghost use Rattle.folder.specs.Folders.{catalog_of, table_in, FolderStands};
ghost use Rattle.folder.specs.Next.{with_work};
ghost use Rattle.folder.specs.Removing.{AreGone};
ghost use Rattle.folder.specs.Sound.{Care};
ghost use Rattle.folder.specs.State.{State};
ghost use Rattle.later_states.specs.Later.{IsLater, SparesHeld};
ghost use Rattle.script_text.specs.Answer.{IsNarrow};
ghost use Rattle.script_text.specs.Script.{IsWhole};
ghost use Rattle.script_text.specs.declared.answer.Answer.TheVariants as answer;
ghost use Rattle.script_text.specs.declared.answer.Refusal.{Refusal};
ghost use Rattle.work_plan.specs.Planning.{IsWorkPlan};
ghost use Rattle.work_run.specs.Ends.{AreNewFiles, CountsRead};
ghost use Rattle.work_turns.specs.Ends.{files_among};
ghost use Rattle.folder_session.specs.Causes.{HasByteCause};
ghost use Rattle.folder_session.specs.Machine.{IsWork, Step};
ghost use Rattle.folder_session.specs.Taken.{TakesFor};
ghost use Rattle.folder_session.specs.Working.{IsPlannedOver, IsWorkedOff, answer_of};

use crate::session::FolderSession;
use crate::turning::read_in_turns;
use crate::wanting::Wanted;
use catalog_core::{files_of_tables, know_table};
use folder::{left_stores, next_states};
use outside_traits::{Failed, Store};
use planning::Recording;
use rows_core::{Memory, Seq};
use script_text::{Answer, Command, Refusal};
use work_plan::WorkPlan;
use work_run::Work;
use work_turns::{WorkInTurns, work_of_turns};

impl FolderSession {
    ghost use Rattle.folder_session.specs.Standing.{Stands, Records, KeepsNot, folder_of};
    ghost use Rattle.folder_session.specs.Standing.{WritesAndRemoves};

    /// Works off what a run or a fetch asks for: takes a least rewriting of its plan, reads its files, in turns
    /// where those of kept results show damage, and makes the rows and what is recorded; nothing is written. The
    /// results whose files showed damage are dropped by what is recorded. `Damaged` and `Unreadable` come for
    /// extents alone.
    pub fn work_off<D: Store>(
        &self,
        store: &mut D,
        command: Command,
    ) -> Result<WorkInTurns, Refusal>
        requires whole { IsWhole command }
        requires work { IsWork command }
        ensures ok { IsTrue D.tells → (care : Care) (s : State) → Stands care (D.view store.old) self.now s
            → IfOk result (IsWorkedOff care s command) }
        ensures err { IsTrue D.tells → (care : Care) (s : State) → Stands care (D.view store.old) self.now s
            → IfErr result (λ why. (held : List ℕ) → Step care held s command (answer.Refused why) s) }
        // On every store what is recorded fits the table, the rows have few values, and few results are used.
        ensures planned { IfOk result (IsPlannedOver (table_in (folder_of self.now))) }
        ensures narrow { IfOk result (λ done. IsNarrow (answer_of done.work)) }
        ensures fault { IsErrOf result Refusal.Fault
            → Rose (D.counts store.old).reads (D.counts store.new).reads }
        // A failed look is told: with any other answer none has failed.
        ensures only_fault { (IsErrOf result Refusal.Fault → ⊥)
            → (D.counts store.new).reads ≡ (D.counts store.old).reads }
        // Where the store tells its files, damage and unreadable bytes are those of an extent's file that is
        // read.
        ensures found { IsTrue D.tells → IfErr result (λ why. HasByteCause (table_in (folder_of self.now))
            command (D.view store.old).files (answer.Refused why)) }
        // A result has taken the bytes that it tells, and no command more than the files that it reads in its
        // turns have.
        ensures taken { IsTrue D.tells → (care : Care) (s : State) → Stands care (D.view store.old) self.now s
            → IfOk result (λ done. CountsRead done.work.read (D.counts store.old) (D.counts store.new)) }
        ensures most { IsTrue D.tells → TakesFor (table_in (folder_of self.now)) command (D.counts store.old)
            (D.counts store.new) }
        ensures narrows { Narrows (D.view store.old) (D.view store.new) }
        ensures counts { MayRaiseReads (D.counts store.old) (D.counts store.new) }
    {
        let Wanted { typed, purpose } = match self.wanted(command) {
            Ok(wanted) => wanted,
            Err(refusal) => return Err(refusal),
        };
        let catalog = self.folder.catalog();
        match read_in_turns(self.alloc, store, catalog, typed, purpose.cuts()) {
            Ok(last) => match work_of_turns(self.alloc, catalog, purpose.program(), last) {
                Ok(done) => Ok(done),
                Err(Memory) => Err(Refusal::Memory),
            },
            Err(refusal) => Err(refusal),
        }
    }

    /// Writes the files of the new results, for which the folder is ready, then records the work, and then removes
    /// the files of the results that it drops, which have these numbers.
    pub fn record_work<D: Store>(
        self,
        store: &mut D,
        work: Work,
        gone: &[u64],
    ) -> Result<(FolderSession, Answer), Failed>
        requires ready { IsReady (catalog_of (folder_of self)) work.plan.change }
        requires planned { (program : Option Program) × (dropped : List ℕ) × (mades : List MadeResult)
            × IsWorkPlan (table_in (folder_of self)) program work.used.items dropped mades work.plan
            × (gone.now ≡ files_among dropped (table_in (folder_of self)).entries) }
        ensures ok { IsTrue D.tells → (care : Care) (s : State) (program : Option Program) (dropped : List ℕ)
            (news : List PlainNewEntry) → Stands care (D.view store.old) self s
            → work.plan.change ≡ change.Work program work.used.items dropped news
            → AreNewFiles s.streams news work.plan.files.items
            → IfOk result (λ next. Records care (D.view store.old) (D.view store.new) next.0 s
            (with_work s program work.used.items dropped news)) }
        ensures err { IsTrue D.tells → (care : Care) (s : State) (program : Option Program) (dropped : List ℕ)
            (news : List PlainNewEntry) → Stands care (D.view store.old) self s
            → work.plan.change ≡ change.Work program work.used.items dropped news
            → AreNewFiles s.streams news work.plan.files.items
            → OnErr result (KeepsNot care (D.view store.old) (D.view store.new) s
            (with_work s program work.used.items dropped news)) }
        ensures answer { IfOk result (λ next. next.1 ≡ answer_of work) }
        ensures table { IfOk result (λ next. table_in (folder_of next.0)
            ≡ after work.plan.change (table_in (folder_of self))) }
        ensures alone { WritesAndRemoves (folder_of self) gone.now (D.view store.old) (D.view store.new) }
        ensures gone { IsTrue D.tells → OnOk result (Rose (D.counts store.old).removes (D.counts store.new).removes
            ⊎ AreGone (D.view store.new) gone.now) }
        ensures later { (held : List ℕ) → SparesHeld held work.plan.change → IfOk result (λ next.
            IsLater held (table_in (folder_of self)) (table_in (folder_of next.0))) }
        ensures cause { OnErr result (Rose (D.counts store.old).writes (D.counts store.new).writes) }
        ensures no_fault { OnOk result ((D.counts store.new).writes ≡ (D.counts store.old).writes) }
        ensures crash { IsTrue D.tells → FolderStands (D.view store.old) (folder_of self)
            → IfOk result (λ next. FolderStands (D.view store.new) (folder_of next.0)) }
        ensures reads { (D.counts store.new).reads ≡ (D.counts store.old).reads }
        ensures taken { (D.counts store.new).taken ≡ (D.counts store.old).taken }
        ensures counts { Rises (D.counts store.old) (D.counts store.new) }
    {
        next_states::<D>();
        left_stores::<D>();
        files_of_tables();
        know_table(self.folder.catalog());
        let Work {
            rows,
            used,
            read,
            plan,
        } = work;
        let WorkPlan {
            change,
            body,
            files,
            kept,
        } = plan;
        let answer = Answer::Result {
            rows: Seq::new(rows),
            used: Seq::new(used),
            kept: Seq::new(kept),
            read,
        };
        match self.folder.write_files(store, 0, &files) {
            Ok(()) => self.record_and_remove(store, Recording { change, body }, answer, gone),
            Err(Failed) => Err(Failed),
        }
    }
}
