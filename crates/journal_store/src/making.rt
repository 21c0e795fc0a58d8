//! The making of a generation. Where that of the journal isn't finished, generation 0 is made, then the root,
//! and then the root names it.
ghost use Rattle.std.specs.Prelude.{◌≡◌, ◌≢◌, ℕ, ◌+◌, ◌<◌, ◌≤◌, true, false, List, [], ◌∷◌, length, IsTrue};
ghost use Rattle.std.specs.Prelude.{IfOk, OnOk, OnErr, ◌⊎◌};
ghost use Rattle.outside_traits.specs.Counts.{Rose};
ghost use Rattle.outside_traits.specs.View.{Now, Only};
ghost use Rattle.outside_traits.specs.Calls.{MayRaiseWrites, Rises};
ghost use Rattle.outside_traits.specs.Runs.{Spans, Narrows, ChangesOnly};
ghost use Rattle.gated_log.specs.Logs.{sealed, IsBody};
ghost use Rattle.gated_log.specs.Stands.{file_of, end_of, Stands};
ghost use Rattle.journal_store.specs.Readings.{generation_file, IsJournalFile, HaveBodies};
ghost use Rattle.journal_store.specs.Making.{Names, AreStable};

use crate::root::number_bytes;
use gated_log::Log;
use outside_traits::{Failed, Store};

/// The log of generation 0; that of each later one is the file behind.
pub(crate) const GENERATION_0: u64 = 4_294_967_296;

/// How long an empty log is.
const EMPTY: u64 = 9;

/// The root, and the log that it names.
#[derive(Drop)]
pub(crate) struct Made {
    pub(crate) root: Log,
    pub(crate) log: Log,
}

// Makes the root stable, and says whether it is at most as long as an empty log. It is made stable before its
// length is taken: what an unfinished commit left may be longer after a crash than what is read.
pub(crate) fn root_is_short<D: Store>(store: &mut D) -> Result<bool, Failed>
    ensures short { IsTrue D.tells → IfOk result
        (λ short. short ≡ true → (x : List ℕ) → Now (D.view store.new) 0 x → length x ≤ 9) }
    ensures read { IsTrue D.tells
        → IfOk result (λ short. short ≡ true → length ((D.view store.old).files 0) ≤ 9) }
    ensures long { IsTrue D.tells
        → IfOk result (λ short. short ≡ false → 9 < length ((D.view store.old).files 0)) }
    ensures narrows { Narrows (D.view store.old) (D.view store.new) }
    ensures cause { OnErr result (Rose (D.counts store.old).reads (D.counts store.new).reads
        ⊎ Rose (D.counts store.old).writes (D.counts store.new).writes) }
    ensures no_fault { OnOk result
        (((D.counts store.new).reads ≡ (D.counts store.old).reads)
        × ((D.counts store.new).writes ≡ (D.counts store.old).writes)) }
    ensures counts { Rises (D.counts store.old) (D.counts store.new) }
    ensures removes { (D.counts store.new).removes ≡ (D.counts store.old).removes }
    ensures taken { (D.counts store.new).taken ≡ (D.counts store.old).taken }
{
    store.sync(0)?;
    let size = store.size(0)?;
    Ok(size <= EMPTY)
}

// Makes the journal where the root is short.
pub(crate) fn make_short<D: Store>(store: &mut D) -> Result<Made, Failed>
    ensures root { IfOk result (λ made. file_of made.root ≡ 0) }
    ensures root_end { IfOk result (λ made. end_of made.root ≡ 22) }
    ensures file { IfOk result (λ made. file_of made.log ≡ generation_file 0) }
    ensures end { IfOk result (λ made. end_of made.log ≡ 9) }
    ensures made { IsTrue D.tells
        → ((x : List ℕ) → Now (D.view store.old) 0 x → length x ≤ 9)
        → IfOk result (λ made. Names (D.view store.new) 0 made.log []) }
    ensures stable { IsTrue D.tells → OnOk result (AreStable (D.view store.new) 0) }
    ensures crash { IsTrue D.tells
        → ((x : List ℕ) → Now (D.view store.old) 0 x → length x ≤ 9)
        → Spans IsJournalFile (λ image. HaveBodies image 0 []) (D.view store.old) (D.view store.new) }
    ensures cause { OnErr result (Rose (D.counts store.old).writes (D.counts store.new).writes) }
    ensures no_fault { OnOk result ((D.counts store.new).writes ≡ (D.counts store.old).writes) }
    ensures counts { MayRaiseWrites (D.counts store.old) (D.counts store.new) }
{
    let log = Log::create(store, GENERATION_0)?;
    let root = Log::create(store, 0)?;
    name(store, root, log)
}

// Makes the journal where the root is an empty log.
pub(crate) fn make_behind<D: Store>(store: &mut D, root: Log) -> Result<Made, Failed>
    requires root { file_of root ≡ 0 }
    requires room { end_of root ≡ 9 }
    ensures root { IfOk result (λ made. file_of made.root ≡ 0) }
    ensures root_end { IfOk result (λ made. end_of made.root ≡ 22) }
    ensures file { IfOk result (λ made. file_of made.log ≡ generation_file 0) }
    ensures end { IfOk result (λ made. end_of made.log ≡ 9) }
    ensures made { IsTrue D.tells → Stands (D.view store.old) root []
        → IfOk result (λ made. Names (D.view store.new) 0 made.log []) }
    ensures stable { IsTrue D.tells → Stands (D.view store.old) root []
        → OnOk result (AreStable (D.view store.new) 0) }
    ensures crash { IsTrue D.tells → Stands (D.view store.old) root []
        → Spans IsJournalFile (λ image. HaveBodies image 0 []) (D.view store.old) (D.view store.new) }
    ensures cause { OnErr result (Rose (D.counts store.old).writes (D.counts store.new).writes) }
    ensures no_fault { OnOk result ((D.counts store.new).writes ≡ (D.counts store.old).writes) }
    ensures counts { MayRaiseWrites (D.counts store.old) (D.counts store.new) }
{
    let log = Log::create(store, GENERATION_0)?;
    name(store, root, log)
}

// Makes the root, which is empty, name the log of generation 0.
fn name<D: Store>(store: &mut D, root: Log, log: Log) -> Result<Made, Failed>
    requires root { file_of root ≡ 0 }
    requires room { end_of root ≡ 9 }
    requires file { file_of log ≡ generation_file 0 }
    ensures root { IfOk result (λ made. file_of made.root ≡ 0) }
    ensures root_end { IfOk result (λ made. end_of made.root ≡ 22) }
    ensures same { IfOk result (λ made. made.log ≡ log) }
    ensures made { IsTrue D.tells → Stands (D.view store.old) root [] → Stands (D.view store.old) log []
        → IfOk result (λ made. Names (D.view store.new) 0 made.log []) }
    ensures stable { IsTrue D.tells → Stands (D.view store.old) root []
        → Only ((D.view store.old).files (generation_file 0)) (Now (D.view store.old) (generation_file 0))
        → OnOk result (AreStable (D.view store.new) 0) }
    ensures crash { IsTrue D.tells → Stands (D.view store.old) root [] → Stands (D.view store.old) log []
        → Spans IsJournalFile (λ image. HaveBodies image 0 []) (D.view store.old) (D.view store.new) }
    ensures cause { OnErr result (Rose (D.counts store.old).writes (D.counts store.new).writes) }
    ensures no_fault { OnOk result ((D.counts store.new).writes ≡ (D.counts store.old).writes) }
    ensures counts { MayRaiseWrites (D.counts store.old) (D.counts store.new) }
{
    let root = root.commit(store, &number_bytes(0))?;
    Ok(Made { root, log })
}

// Makes the file a log whose one body is this.
pub(crate) fn make_log<D: Store>(store: &mut D, file: u64, body: &[u8]) -> Result<Log, Failed>
    requires size { IsBody body.now }
    ensures file { IfOk result (λ log. file_of log ≡ file) }
    ensures end { IfOk result (λ log. end_of log ≡ length body.now + 14) }
    ensures made { IsTrue D.tells → IfOk result (λ log. Stands (D.view store.new) log (body.now ∷ [])) }
    ensures bytes { IsTrue D.tells
        → OnOk result ((D.view store.new).files file ≡ sealed (body.now ∷ []) []) }
    ensures stable { IsTrue D.tells
        → OnOk result (Only ((D.view store.new).files file) (Now (D.view store.new) file)) }
    ensures alone { ChangesOnly file (D.view store.old) (D.view store.new) }
    ensures cause { OnErr result (Rose (D.counts store.old).writes (D.counts store.new).writes) }
    ensures no_fault { OnOk result ((D.counts store.new).writes ≡ (D.counts store.old).writes) }
    ensures counts { MayRaiseWrites (D.counts store.old) (D.counts store.new) }
{
    let log = Log::create(store, file)?;
    log.commit(store, body)
}
