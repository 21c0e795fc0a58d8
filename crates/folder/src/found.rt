//! What reading the logs of a folder gives.
ghost use Rattle.std.specs.Prelude.{◌≡◌, ℕ, ◌+◌, ◌^◌, ◌<◌, ◌≤◌, List, length, IsTrue, IfOk, OnOk, OnErr};
ghost use Rattle.std.specs.Prelude.{IsErrOf, ◌⊎◌, ◌↔◌};
ghost use Rattle.outside_traits.specs.Counts.{Rose};
ghost use Rattle.outside_traits.specs.Calls.{Rises};
ghost use Rattle.outside_traits.specs.Runs.{Narrows, Spans};
ghost use Rattle.gated_log.specs.Logs.{front, contents};
ghost use Rattle.catalog_core.specs.Table.{Table};
ghost use Rattle.folder.specs.Spelled.{IsSpelledTable};
ghost use Rattle.journal_store.specs.Journals.{generation_of, had_root_of, end_of, Keeps};
ghost use Rattle.journal_store.specs.Readings.{HaveBodies, IsJournalFile, IsUnfinished, LogHasAtMost};
ghost use Rattle.folder.specs.Folders.{journal_of, table_in, FoundMeans, FoundStands, Gives};
ghost use Rattle.folder.specs.Left.{IsLeft, IsLeftWith, Since};
ghost use Rattle.folder.specs.Replay.{ReadsAs, StopsReading, form_in};
ghost use Rattle.folder.specs.Sound.{Care};
ghost use Rattle.folder.specs.State.{State};
ghost use Rattle.folder.specs.Unnamed.{HasRoot};

use crate::folder::Folder;
use crate::refusal::{LoadRefusal, of_journal};
use crate::replay::form_in;
use journal_store::{Journal, JournalRefusal};
use outside_traits::Store;
use record_codec::Form;
use std::alloc::Global;

/// A folder as its logs were read, before one that is long or of an older form is replaced.
#[derive(Drop)]
pub struct Found {
    pub(crate) folder: Folder,
    /// The form of its log.
    pub(crate) form: Form,
    /// How many bodies its log has.
    pub(crate) bodies: usize,
}

impl Found {
    // Reads the logs of a folder, which is made where its making isn't finished. The table is what they read
    // as. `NotAStore` comes only where they read as none, with the first byte where reading stops, and leaves
    // each file as it was. `Fault` comes only where the store failed. No file is read but the logs, each once.
    pub(crate) fn read<D: Store>(alloc: Global, store: &mut D) -> Result<Found, LoadRefusal>
        ensures reading { IsTrue D.tells
            → IfOk result (λ found. ReadsAs (D.view store.old).files (table_in found.folder)) }
        ensures stands { IsTrue D.tells
            → IfOk result (λ found. FoundStands (D.view store.new) found) }
        ensures crash { IsTrue D.tells → (care : Care) (a b : State) → IsLeft care (D.view store.old) a b
            → Since care a b (D.view store.old) (D.view store.new) }
        ensures means { IsTrue D.tells → (care : Care) (a b : State) → IsLeft care (D.view store.old) a b
            → IfOk result (λ found. FoundMeans care (D.view store.new) found a) }
        ensures left { IsTrue D.tells → (care : Care) (a b : State) → IsLeft care (D.view store.old) a b
            → OnErr result (IsLeftWith care (D.view store.new) a b) }
        // The generation that the logs have in use, and its bodies, whose number and form are told.
        ensures bodies { IsTrue D.tells → (g : ℕ) (bodies : List (List ℕ))
            → HaveBodies (D.view store.old).files g bodies
            → IfOk result (λ found. (generation_of (journal_of found.folder) ≡ g)
            × Keeps (D.view store.new) (journal_of found.folder) g bodies × (found.bodies ≡ length bodies)
            × (found.form ≡ form_in bodies)) }
        ensures named { IfOk result (λ found. generation_of (journal_of found.folder) < 2 ^ 60) }
        ensures had_root { IsTrue D.tells → IfOk result (λ found.
            IsTrue (had_root_of (journal_of found.folder)) ↔ HasRoot (D.view store.old).files) }
        ensures alone { IsTrue D.tells
            → Spans IsJournalFile (λ image. Unit {0}) (D.view store.old) (D.view store.new) }
        ensures spelled { IfOk result (λ found. IsSpelledTable (table_in found.folder)) }
        ensures not_a_store { IsTrue D.tells → (file at : ℕ)
            → IsErrOf result (LoadRefusal.NotAStore file at) → StopsReading (D.view store.old).files file at }
        // Where the making is finished no file is changed, nor before `NotAStore`.
        ensures finished { IsTrue D.tells → (IsUnfinished ((D.view store.old).files 0) → ⊥)
            → Narrows (D.view store.old) (D.view store.new) }
        ensures unchanged { IsTrue D.tells → (file at : ℕ) → IsErrOf result (LoadRefusal.NotAStore file at)
            → Narrows (D.view store.old) (D.view store.new) }
        ensures cause { IsErrOf result LoadRefusal.Fault
            → Rose (D.counts store.old).reads (D.counts store.new).reads
            ⊎ Rose (D.counts store.old).writes (D.counts store.new).writes }
        ensures no_fault { OnOk result
            (((D.counts store.new).reads ≡ (D.counts store.old).reads)
            × ((D.counts store.new).writes ≡ (D.counts store.old).writes)) }
        ensures most_taken { IsTrue D.tells → (most : ℕ) → LogHasAtMost (D.view store.old).files most
            → (D.counts store.new).taken
            ≤ (D.counts store.old).taken + length ((D.view store.old).files 0) + most }
        ensures removes { (D.counts store.new).removes ≡ (D.counts store.old).removes }
        ensures counts { Rises (D.counts store.old) (D.counts store.new) }
    {
        let read = Journal::load(alloc, store);
        Found::over_read(alloc, read)
    }

    // What was read of the journal, if that was loaded.
    fn over_read(
        alloc: Global,
        read: Result<(Journal, Vec<Vec<u8>>), JournalRefusal>,
    ) -> Result<Found, LoadRefusal>
        requires end { IfOk read (λ r. end_of r.0 ≡ length (front (contents r.1.items)) + 1) }
        requires bound { IfOk read (λ r. end_of r.0 < 2 ^ 63) }
        ensures { Gives read result }
    {
        match read {
            Ok((journal, bodies)) => match Folder::over(alloc, journal, &bodies) {
                Ok(folder) => Ok(Found {
                    folder,
                    form: form_in(&bodies),
                    bodies: bodies.len(),
                }),
                Err(refusal) => Err(refusal),
            },
            Err(refusal) => Err(of_journal(refusal)),
        }
    }
}
