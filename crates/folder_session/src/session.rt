//! A folder that was loaded, and the commands performed over it that concern no job.
ghost use Rattle.std.specs.Prelude.{◌≡◌, ◌⊎◌, ℕ, ◌+◌, ◌<◌, ◌≤◌, ◌^◌, false, List, length};
ghost use Rattle.std.specs.Prelude.{IsTrue, IfOk, IsErrOf, OnOk, OnErr};
ghost use Rattle.std.specs.List.{All};
ghost use Rattle.outside_traits.specs.Counts.{Rose};
ghost use Rattle.outside_traits.specs.View.{View, Counts, Now, Only};
ghost use Rattle.outside_traits.specs.Calls.{Rises, MayRaiseReads, MayRaiseWrites};
ghost use Rattle.outside_traits.specs.Runs.{ChangesOnly, Narrows};
ghost use Rattle.catalog_types.specs.declared.change.Change.{Change};
ghost use Rattle.catalog_core.specs.Catalogs.{IsReady, table_of};
ghost use Rattle.catalog_core.specs.Table.{Fits, after};
ghost use Rattle.folder.specs.Folders.{catalog_of, journal_of, table_in, FolderStands};
ghost use Rattle.folder.specs.InUse.{IsInUse, IsLoadedAsItIs};
ghost use Rattle.folder.specs.Unnamed.{HasRoot, HasOnlyNamed, ChangesUnnamed, ChangesLogsOrUnnamed};
ghost use Rattle.folder.specs.Left.{IsLeft, IsLeftWith, LeavesAlone, Since};
ghost use Rattle.folder.specs.Removing.{AreGone, IsFree};
ghost use Rattle.folder.specs.Replay.{ReadsAs, StopsReading, is_checkpoint};
ghost use Rattle.folder.specs.Sound.{Care};
ghost use Rattle.folder.specs.Standing.{IsNext};
ghost use Rattle.folder.specs.State.{State, table};
ghost use Rattle.journal_store.specs.Journals.{generation_of};
ghost use Rattle.later_states.specs.Later.{IsLater, SparesHeld};
ghost use Rattle.journal_store.specs.Readings.{generation_file, users_file, HaveBodies, LogHasAtMost};
ghost use Rattle.planning.specs.Appending.{Append, append_change, file_bytes};
ghost use Rattle.planning.specs.Recorded.{IsRecordOf};
ghost use Rattle.folder.specs.Next.{with_rows, AreRowsOf};
ghost use Rattle.script_text.specs.Answer.{IsNarrow};
ghost use Rattle.script_text.specs.Script.{IsWhole};
ghost use Rattle.script_text.specs.declared.answer.Refusal.{Refusal};
ghost use Rattle.script_text.specs.declared.item.Command.TheVariants as command;
ghost use Rattle.folder_session.specs.Machine.{IsOfJobs, IsWork};
ghost use Rattle.folder_session.specs.Causes.{TellsOfNoFile};

use catalog_core::{Catalog, CatalogRefusal};
use catalog_types::Change;
use folder::{Folder, LoadRefusal, left_stores, next_states};
use later_states::later_tables;
use outside_traits::{Failed, Store};
use planning::{AppendPlan, Recording, plan_append, plan_stream};
use rows_core::{Column, Memory, Name, Seq, Text};
use script_text::{Answer, Command, Refusal};
use std::alloc::Global;

/// A folder that was loaded. What it holds in memory is the folder's table: the rows of extents stand in
/// their files alone.
#[derive(Drop)]
pub struct FolderSession {
    pub(crate) folder: Folder,
    pub(crate) alloc: Global,
}

impl FolderSession {
    ghost use Rattle.folder_session.specs.Standing.{Stands, Performs, Breaks, Records, KeepsNot, folder_of};
    ghost use Rattle.folder_session.specs.Standing.{LeavesWhereRefused, ChangesAtMost, AreGoneSince};

    /// Loads a folder, which is made where its making isn't finished. `NotAStore` comes exactly where its log
    /// files have no reading, with the first byte where reading stops, unless the store fails or memory is
    /// refused first; `Fault` only where the store failed. No file is read but the logs, and no more is taken
    /// than their bytes. Where the root named a generation, each file that the folder doesn't name is removed;
    /// a removal that fails is let pass.
    pub fn load<D: Store>(alloc: Global, store: &mut D) -> Result<FolderSession, LoadRefusal>
        ensures stands { IsTrue D.tells → (care : Care) (a b : State) → IsLeft care (D.view store.old) a b
            → IfOk result (λ session. Stands care (D.view store.new) session a) }
        // On every store that tells its files the table is what they read as, and what each crash now leaves
        // reads as.
        ensures reading { IsTrue D.tells
            → IfOk result (λ session. ReadsAs (D.view store.old).files (table_in (folder_of session))) }
        ensures crash { IsTrue D.tells
            → IfOk result (λ session. FolderStands (D.view store.new) (folder_of session)) }
        ensures since { IsTrue D.tells → (care : Care) (a b : State) → IsLeft care (D.view store.old) a b
            → Since care a b (D.view store.old) (D.view store.new) }
        ensures left { IsTrue D.tells → (care : Care) (a b : State) → IsLeft care (D.view store.old) a b
            → OnErr result (IsLeftWith care (D.view store.new) a b) }
        ensures not_a_store { IsTrue D.tells → (file at : ℕ) → IsErrOf result (LoadRefusal.NotAStore file at)
            → StopsReading (D.view store.old).files file at × Narrows (D.view store.old) (D.view store.new) }
        // The generation in use is the one that was, unless that has more than 1,024 bodies, is of an older
        // form or is newly made; then it is the next one, with the checkpoint of the table as its one body.
        ensures generation { IsTrue D.tells → (g : ℕ) (bodies : List (List ℕ))
            → HaveBodies (D.view store.old).files g bodies
            → IfOk result (λ session. IsInUse (D.view store.new) (folder_of session) g bodies) }
        // Only logs are changed, and files that the folder doesn't name; where the log stays these alone.
        ensures alone { IsTrue D.tells → ChangesLogsOrUnnamed (D.view store.old) (D.view store.new) }
        ensures users { IsTrue D.tells → LeavesAlone users_file (D.view store.old) (D.view store.new) }
        ensures finished { IsTrue D.tells → IsLoadedAsItIs (D.view store.old).files
            → ChangesUnnamed (D.view store.old) (D.view store.new) }
        // After `Ok` a folder that had a root has only named files, unless a removal failed.
        ensures only_named { IsTrue D.tells → HasRoot (D.view store.old).files → IfOk result
            (λ session. Rose (D.counts store.old).removes (D.counts store.new).removes
            ⊎ HasOnlyNamed (D.view store.new) (folder_of session)) }
        ensures only { IsTrue D.tells → (file at : ℕ) → StopsReading (D.view store.old).files file at
            → IsErrOf result (LoadRefusal.NotAStore file at) ⊎ (IsErrOf result LoadRefusal.Fault
            ⊎ IsErrOf result LoadRefusal.Memory) }
        ensures cause { IsErrOf result LoadRefusal.Fault
            → Rose (D.counts store.old).reads (D.counts store.new).reads
            ⊎ Rose (D.counts store.old).writes (D.counts store.new).writes }
        ensures no_fault { OnOk result
            (((D.counts store.new).reads ≡ (D.counts store.old).reads)
            × ((D.counts store.new).writes ≡ (D.counts store.old).writes)) }
        ensures taken { IsTrue D.tells → (g : ℕ) (bodies : List (List ℕ))
            → HaveBodies (D.view store.old).files g bodies → (D.counts store.new).taken
            ≤ (D.counts store.old).taken + length ((D.view store.old).files 0)
            + length ((D.view store.old).files (generation_file g)) }
        // Never are more bytes taken than those of the root and of the log that it names.
        ensures most_taken { IsTrue D.tells → (most : ℕ) → LogHasAtMost (D.view store.old).files most
            → (D.counts store.new).taken
            ≤ (D.counts store.old).taken + length ((D.view store.old).files 0) + most }
        ensures counts { Rises (D.counts store.old) (D.counts store.new) }
    {
        left_stores::<D>();
        match Folder::load(alloc, store) {
            Ok(folder) => Ok(FolderSession { folder, alloc }),
            Err(refusal) => Err(refusal),
        }
    }

    /// What the folder holds.
    pub fn catalog(&self) -> &Catalog
        ensures { table_of result.now ≡ table_in (folder_of self.now) }
    {
        self.folder.catalog()
    }

    /// Performs a command that concerns no job and works nothing off, while jobs hold the kept results with these
    /// ids, and answers it. A refused command changes nothing. All memory is taken before the first write; from
    /// then on only a failed write or sync ends the command, which is `Failed`: then the store is left with the
    /// state before the command and the one after it. It takes no byte of a file, and no look fails.
    pub fn step<D: Store>(
        self,
        store: &mut D,
        command: Command,
        held: &[u32],
    ) -> Result<(FolderSession, Answer), Failed>
        requires whole { IsWhole command }
        requires of_folder { IsOfJobs command → ⊥ }
        requires no_work { IsWork command → ⊥ }
        ensures ok { IsTrue D.tells → (care : Care) (s : State) → Stands care (D.view store.old) self s
            → IfOk result
            (λ next. Performs care (D.view store.old) (D.view store.new) held.now next.0 s command next.1) }
        ensures err { IsTrue D.tells → (care : Care) (s : State) → Stands care (D.view store.old) self s
            → OnErr result (Breaks care (D.view store.old) (D.view store.new) held.now s command) }
        ensures narrow { IfOk result (λ next. IsNarrow next.1) }
        // Whatever the answer, only the log in use is written and, by an append, the next file, and only files
        // of kept results are removed.
        ensures alone { ChangesAtMost (folder_of self) command (D.view store.old) (D.view store.new) }
        // No file of a kept result that went is there, unless a removal failed.
        ensures gone { IsTrue D.tells → IfOk result (λ next. AreGoneSince (table_in (folder_of self))
            (table_in (folder_of next.0)) (D.view store.new) (D.counts store.old) (D.counts store.new)) }
        // What stands in the table goes on standing in it, and so do the kept results that are held.
        ensures later { IfOk result (λ next.
            IsLater held.now (table_in (folder_of self)) (table_in (folder_of next.0))) }
        ensures cause { OnErr result (Rose (D.counts store.old).writes (D.counts store.new).writes) }
        ensures no_fault { OnOk result ((D.counts store.new).writes ≡ (D.counts store.old).writes) }
        // A refused command changes no file: at most it has read.
        ensures refused { IfOk result
            (λ next. LeavesWhereRefused next.1 (D.view store.old) (D.view store.new)) }
        ensures of_no_file { IfOk result (λ next. TellsOfNoFile next.1) }
        // Also on a store that isn't left each crash leaves logs that read as the session's table.
        ensures crash { IsTrue D.tells → FolderStands (D.view store.old) (folder_of self)
            → IfOk result (λ next. FolderStands (D.view store.new) (folder_of next.0)) }
        ensures reads { (D.counts store.new).reads ≡ (D.counts store.old).reads }
        ensures taken { (D.counts store.new).taken ≡ (D.counts store.old).taken }
        ensures counts { Rises (D.counts store.old) (D.counts store.new) }
    {
        match command {
            Command::Stream { name, columns } => self.make(store, name, columns),
            Command::Append { name, lines } => self.append(store, name, lines),
            Command::Collect { bytes } => self.collect(store, bytes, held),
            Command::Entries => Ok(self.tell_entries()),
            Command::Catalog => Ok(self.tell_catalog()),
            Command::Run { .. }
            | Command::Fetch { .. }
            | Command::OpenJob { .. }
            | Command::Step { .. }
            | Command::Close { .. }
            | Command::DropJob { .. } => unreachable!(),
        }
    }

    // Makes a stream.
    fn make<D: Store>(
        self,
        store: &mut D,
        name: Name,
        columns: Seq<Column>,
    ) -> Result<(FolderSession, Answer), Failed>
        requires { 0 < length columns }
        ensures ok { IsTrue D.tells → (care : Care) (held : List ℕ) (s : State) → Stands care (D.view store.old) self s
            → IfOk result (λ next. Performs care (D.view store.old) (D.view store.new) held next.0 s
            (command.Stream name columns) next.1) }
        ensures err { IsTrue D.tells → (care : Care) (held : List ℕ) (s : State) → Stands care (D.view store.old) self s
            → OnErr result (Breaks care (D.view store.old) (D.view store.new) held s
            (command.Stream name columns)) }
        ensures narrow { IfOk result (λ next. IsNarrow next.1) }
        ensures alone { ChangesAtMost (folder_of self) (command.Stream name columns) (D.view store.old)
            (D.view store.new) }
        ensures later { (held : List ℕ) → IfOk result (λ next.
            IsLater held (table_in (folder_of self)) (table_in (folder_of next.0))) }
        ensures cause { OnErr result (Rose (D.counts store.old).writes (D.counts store.new).writes) }
        ensures no_fault { OnOk result ((D.counts store.new).writes ≡ (D.counts store.old).writes) }
        ensures refused { IfOk result
            (λ next. LeavesWhereRefused next.1 (D.view store.old) (D.view store.new)) }
        ensures of_no_file { IfOk result (λ next. TellsOfNoFile next.1) }
        ensures crash { IsTrue D.tells → FolderStands (D.view store.old) (folder_of self)
            → IfOk result (λ next. FolderStands (D.view store.new) (folder_of next.0)) }
        ensures counts { MayRaiseWrites (D.counts store.old) (D.counts store.new) }
    {
        next_states::<D>();
        let mut session = self;
        let recording = match plan_stream(session.alloc, session.folder.catalog(), name, columns) {
            Ok(recording) => recording,
            Err(refusal) => return Ok((session, Answer::Refused(refusal))),
        };
        match session.prepare(&recording.change) {
            Ok(()) => session.record(store, recording, Answer::Ok),
            Err(Memory) => Ok((session, Answer::Refused(Refusal::Memory))),
        }
    }

    // Appends the rows that these lines spell: their file is written and made stable, and then recorded.
    fn append<D: Store>(
        self,
        store: &mut D,
        name: Name,
        lines: Seq<Text>,
    ) -> Result<(FolderSession, Answer), Failed>
        requires { 0 < length lines }
        ensures ok { IsTrue D.tells → (care : Care) (held : List ℕ) (s : State) → Stands care (D.view store.old) self s
            → IfOk result (λ next. Performs care (D.view store.old) (D.view store.new) held next.0 s
            (command.Append name lines) next.1) }
        ensures err { IsTrue D.tells → (care : Care) (held : List ℕ) (s : State) → Stands care (D.view store.old) self s
            → OnErr result (Breaks care (D.view store.old) (D.view store.new) held s (command.Append name lines)) }
        ensures narrow { IfOk result (λ next. IsNarrow next.1) }
        ensures alone { ChangesAtMost (folder_of self) (command.Append name lines) (D.view store.old)
            (D.view store.new) }
        ensures later { (held : List ℕ) → IfOk result (λ next.
            IsLater held (table_in (folder_of self)) (table_in (folder_of next.0))) }
        ensures cause { OnErr result (Rose (D.counts store.old).writes (D.counts store.new).writes) }
        ensures no_fault { OnOk result ((D.counts store.new).writes ≡ (D.counts store.old).writes) }
        ensures refused { IfOk result
            (λ next. LeavesWhereRefused next.1 (D.view store.old) (D.view store.new)) }
        ensures of_no_file { IfOk result (λ next. TellsOfNoFile next.1) }
        ensures crash { IsTrue D.tells → FolderStands (D.view store.old) (folder_of self)
            → IfOk result (λ next. FolderStands (D.view store.new) (folder_of next.0)) }
        ensures counts { MayRaiseWrites (D.counts store.old) (D.counts store.new) }
    {
        let mut session = self;
        let plan = match plan_append(session.alloc, session.folder.catalog(), name, lines) {
            Ok(plan) => plan,
            Err(refusal) => return Ok((session, Answer::Refused(refusal))),
        };
        match session.prepare(&plan.recording.change) {
            Ok(()) => session.record_file(store, plan),
            Err(Memory) => Ok((session, Answer::Refused(Refusal::Memory))),
        }
    }
}

impl FolderSession {
    ghost use Rattle.folder_session.specs.Standing.{Stands, Performs, Breaks, Records, KeepsNot, folder_of};
    ghost use Rattle.folder_session.specs.Standing.{AppendsAtMost, RecordsAndRemoves};

    // Records a change for which the folder is ready.
    pub(crate) fn record<D: Store>(
        self,
        store: &mut D,
        recording: Recording,
        answer: Answer,
    ) -> Result<(FolderSession, Answer), Failed>
        requires ready { IsReady (catalog_of (folder_of self)) recording.change }
        requires record { IsRecordOf (table_in (folder_of self)) recording.change recording.body.items }
        requires no_checkpoint { is_checkpoint recording.change ≡ false }
        ensures ok { IsTrue D.tells → (care : Care) (s new : State) → Stands care (D.view store.old) self s
            → IsNext care (D.view store.old) s recording.change new
            → IfOk result (λ next. Records care (D.view store.old) (D.view store.new) next.0 s new) }
        ensures err { IsTrue D.tells → (care : Care) (s new : State) → Stands care (D.view store.old) self s
            → IsNext care (D.view store.old) s recording.change new
            → OnErr result (KeepsNot care (D.view store.old) (D.view store.new) s new) }
        ensures answer { IfOk result (λ next. next.1 ≡ answer) }
        ensures table { IfOk result (λ next. table_in (folder_of next.0)
            ≡ after recording.change (table_in (folder_of self))) }
        ensures later { (held : List ℕ) → SparesHeld held recording.change → IfOk result (λ next.
            IsLater held (table_in (folder_of self)) (table_in (folder_of next.0))) }
        ensures alone { ChangesOnly (generation_file (generation_of (journal_of (folder_of self))))
            (D.view store.old) (D.view store.new) }
        ensures cause { OnErr result (Rose (D.counts store.old).writes (D.counts store.new).writes) }
        ensures no_fault { OnOk result ((D.counts store.new).writes ≡ (D.counts store.old).writes) }
        ensures crash { IsTrue D.tells → FolderStands (D.view store.old) (folder_of self)
            → IfOk result (λ next. FolderStands (D.view store.new) (folder_of next.0)) }
        ensures counts { MayRaiseWrites (D.counts store.old) (D.counts store.new) }
    {
        left_stores::<D>();
        later_tables();
        let FolderSession { folder, alloc } = self;
        let Recording { change, body } = recording;
        match folder.record(store, change, &body) {
            Ok(folder) => Ok((FolderSession { folder, alloc }, answer)),
            Err(Failed) => Err(Failed),
        }
    }

    /// Records a change for which the folder is ready, and then removes these files, which the table after it
    /// names no more.
    pub(crate) fn record_and_remove<D: Store>(
        self,
        store: &mut D,
        recording: Recording,
        answer: Answer,
        files: &[u64],
    ) -> Result<(FolderSession, Answer), Failed>
        requires ready { IsReady (catalog_of (folder_of self)) recording.change }
        requires record { IsRecordOf (table_in (folder_of self)) recording.change recording.body.items }
        requires no_checkpoint { is_checkpoint recording.change ≡ false }
        requires free { All (IsFree (after recording.change (table_in (folder_of self)))) files.now }
        ensures ok { IsTrue D.tells → (care : Care) (s new : State) → Stands care (D.view store.old) self s
            → IsNext care (D.view store.old) s recording.change new
            → IfOk result (λ next. Records care (D.view store.old) (D.view store.new) next.0 s new) }
        ensures err { IsTrue D.tells → (care : Care) (s new : State) → Stands care (D.view store.old) self s
            → IsNext care (D.view store.old) s recording.change new
            → OnErr result (KeepsNot care (D.view store.old) (D.view store.new) s new) }
        ensures answer { IfOk result (λ next. next.1 ≡ answer) }
        ensures table { IfOk result (λ next. table_in (folder_of next.0)
            ≡ after recording.change (table_in (folder_of self))) }
        ensures later { (held : List ℕ) → SparesHeld held recording.change → IfOk result (λ next.
            IsLater held (table_in (folder_of self)) (table_in (folder_of next.0))) }
        ensures alone { RecordsAndRemoves (folder_of self) files.now (D.view store.old) (D.view store.new) }
        ensures gone { IsTrue D.tells → OnOk result (Rose (D.counts store.old).removes (D.counts store.new).removes
            ⊎ AreGone (D.view store.new) files.now) }
        ensures cause { OnErr result (Rose (D.counts store.old).writes (D.counts store.new).writes) }
        ensures no_fault { OnOk result ((D.counts store.new).writes ≡ (D.counts store.old).writes) }
        ensures crash { IsTrue D.tells → FolderStands (D.view store.old) (folder_of self)
            → IfOk result (λ next. FolderStands (D.view store.new) (folder_of next.0)) }
        ensures reads { (D.counts store.new).reads ≡ (D.counts store.old).reads }
        ensures taken { (D.counts store.new).taken ≡ (D.counts store.old).taken }
        ensures counts { Rises (D.counts store.old) (D.counts store.new) }
    {
        left_stores::<D>();
        match self.record(store, recording, answer) {
            Ok((session, answer)) => {
                session.folder.remove_files(store, files);
                Ok((session, answer))
            }
            Err(Failed) => Err(Failed),
        }
    }

    // Writes the file of an append, for which the folder is ready, and then records it.
    fn record_file<D: Store>(
        self,
        store: &mut D,
        plan: AppendPlan,
    ) -> Result<(FolderSession, Answer), Failed>
        requires ready { IsReady (catalog_of (folder_of self)) plan.recording.change }
        requires record { IsRecordOf (table_in (folder_of self)) plan.recording.change
            plan.recording.body.items }
        requires append { (a : Append)
            × (plan.recording.change ≡ append_change (table_in (folder_of self)) a)
            × (plan.bytes.items ≡ file_bytes a.rows) }
        ensures ok { IsTrue D.tells → (care : Care) (s : State) (a : Append)
            → Stands care (D.view store.old) self s → AreRowsOf s a.place a.rows
            → plan.recording.change ≡ append_change (table s) a → plan.bytes.items ≡ file_bytes a.rows
            → IfOk result (λ next. Records care (D.view store.old) (D.view store.new) next.0 s
            (with_rows s a.place a.rows)) }
        ensures err { IsTrue D.tells → (care : Care) (s : State) (a : Append)
            → Stands care (D.view store.old) self s → AreRowsOf s a.place a.rows
            → plan.recording.change ≡ append_change (table s) a → plan.bytes.items ≡ file_bytes a.rows
            → OnErr result (KeepsNot care (D.view store.old) (D.view store.new) s
            (with_rows s a.place a.rows)) }
        ensures answer { IfOk result (λ next. next.1 ≡ Answer.Held plan.held) }
        ensures later { (held : List ℕ) → IfOk result (λ next.
            IsLater held (table_in (folder_of self)) (table_in (folder_of next.0))) }
        ensures alone { AppendsAtMost (folder_of self) (D.view store.old) (D.view store.new) }
        ensures cause { OnErr result (Rose (D.counts store.old).writes (D.counts store.new).writes) }
        ensures no_fault { OnOk result ((D.counts store.new).writes ≡ (D.counts store.old).writes) }
        ensures crash { IsTrue D.tells → FolderStands (D.view store.old) (folder_of self)
            → IfOk result (λ next. FolderStands (D.view store.new) (folder_of next.0)) }
        ensures counts { MayRaiseWrites (D.counts store.old) (D.counts store.new) }
    {
        next_states::<D>();
        left_stores::<D>();
        match self.folder.write_next(store, 0, &plan.bytes) {
            Ok(()) => self.record(store, plan.recording, Answer::Held(plan.held)),
            Err(Failed) => Err(Failed),
        }
    }

    /// Takes all the memory that recording the change wants, which is no checkpoint.
    pub fn prepare(&mut self, change: &Change) -> Result<(), Memory>
        requires fits { Fits change.now (table_in (folder_of self.old)) }
        requires no_checkpoint { is_checkpoint change.now ≡ false }
        ensures table { table_in (folder_of self.new) ≡ table_in (folder_of self.old) }
        ensures journal { journal_of (folder_of self.new) ≡ journal_of (folder_of self.old) }
        ensures ready { OnOk result (IsReady (catalog_of (folder_of self.new)) change.now) }
    {
        match self.folder.prepare(change) {
            Ok(()) => Ok(()),
            Err(CatalogRefusal::Misfit) => unreachable!(),
            Err(CatalogRefusal::Memory) => Err(Memory),
        }
    }
}
