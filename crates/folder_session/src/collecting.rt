//! Kept results that go.
ghost use Rattle.std.specs.Prelude.{List, ◌≡◌, ◌⊎◌, ℕ, [], IsTrue, IfOk, OnOk, OnErr, map};
ghost use Rattle.outside_traits.specs.Counts.{Rose};
ghost use Rattle.outside_traits.specs.View.{View, Counts};
ghost use Rattle.outside_traits.specs.Calls.{Rises};
ghost use Rattle.catalog_core.specs.Catalogs.{IsReady};
ghost use Rattle.planning.specs.Collecting.{IsCollectionPlan};
ghost use Rattle.folder.specs.Folders.{catalog_of, table_in, FolderStands};
ghost use Rattle.folder.specs.Next.{with_collection};
ghost use Rattle.folder.specs.Sound.{Care};
ghost use Rattle.folder.specs.State.{State};
ghost use Rattle.later_states.specs.Later.{IsLater, SparesHeld};
ghost use Rattle.script_text.specs.Answer.{IsNarrow};
ghost use Rattle.script_text.specs.declared.item.Command.TheVariants as command;
ghost use Rattle.folder_session.specs.Causes.{TellsOfNoFile};
ghost use Rattle.folder_session.specs.WorkRefusals.{collection_refusal};

use crate::refusals::collection_refusal;
use crate::session::FolderSession;
use catalog_core::know_table;
use folder::{files_that_went, next_states};
use outside_traits::{Failed, Store};
use planning::{CollectionPlan, Recording, plan_collection};
use rows_core::Seq;
use script_text::{Answer, Refusal};

impl FolderSession {
    ghost use Rattle.folder_session.specs.Standing.{Stands, Performs, Breaks, Records, KeepsNot, folder_of};
    ghost use Rattle.folder_session.specs.Standing.{LeavesWhereRefused, ChangesAtMost, AreGoneSince};

    /// Evicts kept results that aren't held until their files had so many bytes together, or none is left
    /// that may go.
    pub(crate) fn collect<D: Store>(
        self,
        store: &mut D,
        reclaim: u64,
        held: &[u32],
    ) -> Result<(FolderSession, Answer), Failed>
        ensures ok { IsTrue D.tells → (care : Care) (s : State) → Stands care (D.view store.old) self s
            → IfOk result (λ next. Performs care (D.view store.old) (D.view store.new) held.now next.0 s
            (command.Collect reclaim) next.1) }
        ensures err { IsTrue D.tells → (care : Care) (s : State) → Stands care (D.view store.old) self s
            → OnErr result (Breaks care (D.view store.old) (D.view store.new) held.now s (command.Collect reclaim)) }
        ensures narrow { IfOk result (λ next. IsNarrow next.1) }
        ensures alone { ChangesAtMost (folder_of self) (command.Collect reclaim) (D.view store.old)
            (D.view store.new) }
        ensures gone { IsTrue D.tells → IfOk result (λ next. AreGoneSince (table_in (folder_of self))
            (table_in (folder_of next.0)) (D.view store.new) (D.counts store.old) (D.counts store.new)) }
        ensures later { IfOk result (λ next.
            IsLater held.now (table_in (folder_of self)) (table_in (folder_of next.0))) }
        ensures cause { OnErr result (Rose (D.counts store.old).writes (D.counts store.new).writes) }
        ensures no_fault { OnOk result ((D.counts store.new).writes ≡ (D.counts store.old).writes) }
        ensures refused { IfOk result
            (λ next. LeavesWhereRefused next.1 (D.view store.old) (D.view store.new)) }
        ensures of_no_file { IfOk result (λ next. TellsOfNoFile next.1) }
        ensures crash { IsTrue D.tells → FolderStands (D.view store.old) (folder_of self)
            → IfOk result (λ next. FolderStands (D.view store.new) (folder_of next.0)) }
        ensures reads { (D.counts store.new).reads ≡ (D.counts store.old).reads }
        ensures taken { (D.counts store.new).taken ≡ (D.counts store.old).taken }
        ensures counts { Rises (D.counts store.old) (D.counts store.new) }
    {
        let mut session = self;
        let plan = match plan_collection(session.alloc, session.folder.catalog(), reclaim, held) {
            Ok(plan) => plan,
            Err(refusal) => return Ok((session, Answer::Refused(collection_refusal(refusal)))),
        };
        match session.prepare(&plan.change) {
            Ok(()) => session.record_collection(store, plan),
            Err(Memory) => Ok((session, Answer::Refused(Refusal::Memory))),
        }
    }

    // Records a collection for which the folder is ready, and then removes the files of the results that
    // went.
    fn record_collection<D: Store>(
        self,
        store: &mut D,
        plan: CollectionPlan,
    ) -> Result<(FolderSession, Answer), Failed>
        requires ready { IsReady (catalog_of (folder_of self)) plan.change }
        requires planned { (held : List ℕ) × (reclaim : ℕ)
            × IsCollectionPlan (table_in (folder_of self)) held reclaim plan }
        ensures ok { IsTrue D.tells → (care : Care) (s : State) → Stands care (D.view store.old) self s
            → IfOk result (λ next. Records care (D.view store.old) (D.view store.new) next.0 s
            (with_collection s plan.ids.items)) }
        ensures err { IsTrue D.tells → (care : Care) (s : State) → Stands care (D.view store.old) self s
            → OnErr result (KeepsNot care (D.view store.old) (D.view store.new) s
            (with_collection s plan.ids.items)) }
        ensures answer { IfOk result (λ next. next.1 ≡ Answer.Evicted plan.ids.items plan.bytes) }
        ensures alone { (reclaim : ℕ) → ChangesAtMost (folder_of self) (command.Collect reclaim)
            (D.view store.old) (D.view store.new) }
        ensures gone { IsTrue D.tells → IfOk result (λ next. AreGoneSince (table_in (folder_of self))
            (table_in (folder_of next.0)) (D.view store.new) (D.counts store.old) (D.counts store.new)) }
        ensures later { (held : List ℕ) → SparesHeld held plan.change → IfOk result (λ next.
            IsLater held (table_in (folder_of self)) (table_in (folder_of next.0))) }
        ensures cause { OnErr result (Rose (D.counts store.old).writes (D.counts store.new).writes) }
        ensures no_fault { OnOk result ((D.counts store.new).writes ≡ (D.counts store.old).writes) }
        ensures crash { IsTrue D.tells → FolderStands (D.view store.old) (folder_of self)
            → IfOk result (λ next. FolderStands (D.view store.new) (folder_of next.0)) }
        ensures reads { (D.counts store.new).reads ≡ (D.counts store.old).reads }
        ensures taken { (D.counts store.new).taken ≡ (D.counts store.old).taken }
        ensures counts { Rises (D.counts store.old) (D.counts store.new) }
    {
        next_states::<D>();
        files_that_went();
        let CollectionPlan {
            change,
            body,
            ids,
            files,
            bytes,
        } = plan;
        know_table(self.folder.catalog());
        let answer = Answer::Evicted {
            ids: Seq::new(ids),
            bytes,
        };
        self.record_and_remove(store, Recording { change, body }, answer, &files)
    }
}
