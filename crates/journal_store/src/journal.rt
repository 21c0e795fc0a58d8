//! Journals in a store.
ghost use Rattle.std.specs.Prelude.{◌≡◌, ◌⊎◌, ◌↔◌, ℕ, ◌+◌, ◌^◌, ◌<◌, ◌≤◌, List, [], ◌∷◌, ◌++◌, length, take};
ghost use Rattle.std.specs.Prelude.{drop, true, false, ◌*◌, IsTrue, IfOk, IsErrOf, OnOk, OnErr};
ghost use Rattle.std.specs.List.{All};
ghost use Rattle.outside_traits.specs.Counts.{Rose};
ghost use Rattle.outside_traits.specs.View.{Now, Only};
ghost use Rattle.outside_traits.specs.Calls.{CountsTaken, MayRaiseWrites, Rises};
ghost use Rattle.outside_traits.specs.Runs.{Touches, ChangesOnly, Spans, Narrows};
ghost use Rattle.gated_log.specs.Logs.{front, sealed, contents, IsBody, Reads, StopsAt};
ghost use Rattle.gated_log.specs.Stands.{file_of, end_of as end_of_log, IsBeforeOrAfter};
ghost use Rattle.journal_store.specs.Readings.{
  generation_file,
  generations,
  IsJournalFile,
  LogHasAtMost,
  IsUnfinished,
  IsMade,
  HaveBodies,
  StopsReading,
};
ghost use Rattle.journal_store.specs.Making.{AreStable, IsLoading};
ghost use Rattle.journal_store.specs.Checkpoints.{MayRaiseWritesOrRemoves};

use crate::making::{GENERATION_0, Made, make_behind, make_log, make_short, root_is_short};
use crate::refusal::{JournalRefusal, in_file};
use crate::root::{generation_in_use, number_bytes};
use gated_log::Log;
use outside_traits::{Failed, Store};
use std::alloc::Global;

/// The file that is kept for the users. The logs of generations end before it, and a journal never touches it.
pub const USERS_FILE: u64 = 9_223_372_036_854_775_808;

/// The generation in use, the root that names it, and its log.
#[derive(Drop)]
pub struct Journal {
    generation: u64,
    /// Whether the root named a generation when loading began.
    had_root: bool,
    root: Log,
    log: Log,
    ghost in_range: { generation < 2 ^ 62 },
    ghost is_root: { file_of root ≡ 0 },
    ghost root_end: { end_of_log root ≡ 13 * (generation + 1) + 9 },
    ghost is_file: { file_of log ≡ generation_file generation },
}

impl Journal {
    ghost use Rattle.journal_store.specs.Journals.{
      generation_of,
      had_root_of,
      end_of,
      Keeps,
      HaveBeforeOrAfter,
      HaveFormerOrNext,
    };

    /// Loads the journal: its bodies, and what it takes to add further ones. Where its making isn't
    /// finished it is made, and has none. `NotAStore` comes exactly where the files are no journal, with the
    /// first byte where reading stops, and leaves each file as it was. `Fault` comes only where the store
    /// failed. The root and the log are read once each.
    pub fn load<D: Store>(
        alloc: Global,
        store: &mut D,
    ) -> Result<(Journal, Vec<Vec<u8>>), JournalRefusal>
        ensures end { IfOk result (λ r. end_of r.0 ≡ length (front (contents r.1.items)) + 1) }
        ensures bound { IfOk result (λ r. end_of r.0 < 2 ^ 63) }
        ensures named { IfOk result (λ r. generation_of r.0 < 2 ^ 60) }
        ensures sizes { IfOk result (λ r. All IsBody (contents r.1.items)) }
        ensures reading { IsTrue D.tells → IfOk result
            (λ r. HaveBodies (D.view store.old).files (generation_of r.0) (contents r.1.items)) }
        ensures keeps { IsTrue D.tells
            → IfOk result (λ r. Keeps (D.view store.new) r.0 (generation_of r.0) (contents r.1.items)) }
        ensures stable { IsTrue D.tells
            → IfOk result (λ r. AreStable (D.view store.new) (generation_of r.0)) }
        // It had a root exactly where that named a generation.
        ensures had_root { IsTrue D.tells → IfOk result
            (λ r. IsTrue (had_root_of r.0) ↔ (IsUnfinished ((D.view store.old).files 0) → ⊥)) }
        ensures crash { IsTrue D.tells
            → Spans IsJournalFile (IsLoading (D.view store.old)) (D.view store.old) (D.view store.new) }
        // Where the making is finished no file is changed, nor before `NotAStore`.
        ensures finished { IsTrue D.tells → (IsUnfinished ((D.view store.old).files 0) → ⊥)
            → Narrows (D.view store.old) (D.view store.new) }
        ensures unchanged { (file at : ℕ) → IsErrOf result (JournalRefusal.NotAStore file at)
            → Narrows (D.view store.old) (D.view store.new) }
        ensures not_a_store { IsTrue D.tells → (file at : ℕ)
            → IsErrOf result (JournalRefusal.NotAStore file at)
            → StopsReading (D.view store.old).files file at }
        // What has bodies is a store, and what stops is answered with its place, unless a fault or want of
        // memory comes first.
        ensures store { IsTrue D.tells → (generation : ℕ) (bodies : List (List ℕ))
            → HaveBodies (D.view store.old).files generation bodies
            → (file at : ℕ) → IsErrOf result (JournalRefusal.NotAStore file at) → ⊥ }
        ensures exactly { IsTrue D.tells → (file at : ℕ) → StopsReading (D.view store.old).files file at
            → OnOk result ⊥ }
        ensures place { IsTrue D.tells → (file at g b : ℕ) → StopsReading (D.view store.old).files file at
            → IsErrOf result (JournalRefusal.NotAStore g b) → (g ≡ file) × (b ≡ at) }
        ensures cause { IsErrOf result JournalRefusal.Fault
            → Rose (D.counts store.old).reads (D.counts store.new).reads
            ⊎ Rose (D.counts store.old).writes (D.counts store.new).writes }
        ensures no_fault { OnOk result
            (((D.counts store.new).reads ≡ (D.counts store.old).reads)
            × ((D.counts store.new).writes ≡ (D.counts store.old).writes)) }
        ensures taken { IsTrue D.tells → IfOk result (λ r.
            IsMade (D.view store.old).files (generation_of r.0) (contents r.1.items)
            → CountsTaken (length ((D.view store.old).files 0)
            + length ((D.view store.old).files (generation_file (generation_of r.0))))
            (D.counts store.old) (D.counts store.new)) }
        ensures root_taken { IsTrue D.tells → 9 < length ((D.view store.old).files 0)
            → Reads [] ((D.view store.old).files 0)
            → OnOk result (CountsTaken (length ((D.view store.old).files 0))
            (D.counts store.old) (D.counts store.new)) }
        ensures none_taken { IsTrue D.tells → length ((D.view store.old).files 0) ≤ 9
            → (D.counts store.new).taken ≡ (D.counts store.old).taken }
        // Never are more bytes taken than those of the root and of the log that it names.
        ensures most_taken { IsTrue D.tells → (most : ℕ) → LogHasAtMost (D.view store.old).files most
            → (D.counts store.new).taken
            ≤ (D.counts store.old).taken + length ((D.view store.old).files 0) + most }
        ensures counts { Rises (D.counts store.old) (D.counts store.new) }
        ensures removes { (D.counts store.new).removes ≡ (D.counts store.old).removes }
    {
        let short = root_is_short(store)?;
        if short {
            let Made { root, log } = make_short(store)?;
            let journal = Journal {
                generation: 0,
                had_root: false,
                root,
                log,
            };
            return Ok((journal, Vec::new(alloc)));
        }
        Journal::load_long(alloc, store)
    }

    // Loads the journal whose root is longer than an empty log.
    fn load_long<D: Store>(
        alloc: Global,
        store: &mut D,
    ) -> Result<(Journal, Vec<Vec<u8>>), JournalRefusal>
        ensures end { IfOk result (λ r. end_of r.0 ≡ length (front (contents r.1.items)) + 1) }
        ensures bound { IfOk result (λ r. end_of r.0 < 2 ^ 63) }
        ensures named { IfOk result (λ r. generation_of r.0 < 2 ^ 60) }
        ensures sizes { IfOk result (λ r. All IsBody (contents r.1.items)) }
        ensures reading { IsTrue D.tells → IfOk result
            (λ r. HaveBodies (D.view store.old).files (generation_of r.0) (contents r.1.items)) }
        ensures keeps { IsTrue D.tells
            → IfOk result (λ r. Keeps (D.view store.new) r.0 (generation_of r.0) (contents r.1.items)) }
        ensures stable { IsTrue D.tells
            → IfOk result (λ r. AreStable (D.view store.new) (generation_of r.0)) }
        ensures had_root { IsTrue D.tells → 9 < length ((D.view store.old).files 0) → IfOk result
            (λ r. IsTrue (had_root_of r.0) ↔ (IsUnfinished ((D.view store.old).files 0) → ⊥)) }
        ensures crash { IsTrue D.tells
            → Spans IsJournalFile (IsLoading (D.view store.old)) (D.view store.old) (D.view store.new) }
        ensures finished { IsTrue D.tells → (IsUnfinished ((D.view store.old).files 0) → ⊥)
            → Narrows (D.view store.old) (D.view store.new) }
        ensures unchanged { (file at : ℕ) → IsErrOf result (JournalRefusal.NotAStore file at)
            → Narrows (D.view store.old) (D.view store.new) }
        ensures not_a_store { IsTrue D.tells → 9 < length ((D.view store.old).files 0) → (file at : ℕ)
            → IsErrOf result (JournalRefusal.NotAStore file at)
            → StopsReading (D.view store.old).files file at }
        ensures cause { IsErrOf result JournalRefusal.Fault
            → Rose (D.counts store.old).reads (D.counts store.new).reads
            ⊎ Rose (D.counts store.old).writes (D.counts store.new).writes }
        ensures no_fault { OnOk result
            (((D.counts store.new).reads ≡ (D.counts store.old).reads)
            × ((D.counts store.new).writes ≡ (D.counts store.old).writes)) }
        ensures taken { IsTrue D.tells → IfOk result (λ r.
            IsMade (D.view store.old).files (generation_of r.0) (contents r.1.items)
            → CountsTaken (length ((D.view store.old).files 0)
            + length ((D.view store.old).files (generation_file (generation_of r.0))))
            (D.counts store.old) (D.counts store.new)) }
        ensures root_taken { IsTrue D.tells → Reads [] ((D.view store.old).files 0)
            → OnOk result (CountsTaken (length ((D.view store.old).files 0))
            (D.counts store.old) (D.counts store.new)) }
        ensures most_taken { IsTrue D.tells → (most : ℕ) → LogHasAtMost (D.view store.old).files most
            → (D.counts store.new).taken
            ≤ (D.counts store.old).taken + length ((D.view store.old).files 0) + most }
        ensures counts { Rises (D.counts store.old) (D.counts store.new) }
        ensures removes { (D.counts store.new).removes ≡ (D.counts store.old).removes }
    {
        let (root, roots) = match Log::read(alloc, store, 0) {
            Ok(read) => read,
            Err(refusal) => return Err(in_file(0, refusal)),
        };
        if roots.is_empty() {
            let Made { root, log } = make_behind(store, root)?;
            let journal = Journal {
                generation: 0,
                had_root: false,
                root,
                log,
            };
            return Ok((journal, Vec::new(alloc)));
        }
        let generation = generation_in_use(&roots)?;
        Journal::load_generation(alloc, store, root, generation)
    }

    // Reads the log of the generation in use. No file is changed.
    fn load_generation<D: Store>(
        alloc: Global,
        store: &mut D,
        root: Log,
        generation: u64,
    ) -> Result<(Journal, Vec<Vec<u8>>), JournalRefusal>
        requires root { file_of root ≡ 0 }
        requires root_end { end_of_log root ≡ 13 * (generation + 1) + 9 }
        requires bound { end_of_log root < 2 ^ 63 }
        ensures generation { IfOk result (λ r. generation_of r.0 ≡ generation) }
        ensures had_root { IfOk result (λ r. had_root_of r.0 ≡ true) }
        ensures end { IfOk result (λ r. end_of r.0 ≡ length (front (contents r.1.items)) + 1) }
        ensures bound { IfOk result (λ r. end_of r.0 < 2 ^ 63) }
        ensures named { IfOk result (λ r. generation_of r.0 < 2 ^ 60) }
        ensures sizes { IfOk result (λ r. All IsBody (contents r.1.items)) }
        ensures bodies { IsTrue D.tells → IfOk result
            (λ r. Reads (contents r.1.items) ((D.view store.old).files (generation_file generation))) }
        ensures keeps { IsTrue D.tells
            → ((x : List ℕ) → Now (D.view store.old) 0 x → Reads (generations generation) x)
            → IfOk result (λ r. Keeps (D.view store.new) r.0 generation (contents r.1.items)) }
        ensures stable { IsTrue D.tells → Only ((D.view store.old).files 0) (Now (D.view store.old) 0)
            → OnOk result (AreStable (D.view store.new) generation) }
        ensures not_a_store { IsTrue D.tells → (file at : ℕ)
            → IsErrOf result (JournalRefusal.NotAStore file at)
            → (file ≡ generation_file generation) × StopsAt at ((D.view store.old).files file) }
        ensures cause { IsErrOf result JournalRefusal.Fault
            → Rose (D.counts store.old).reads (D.counts store.new).reads
            ⊎ Rose (D.counts store.old).writes (D.counts store.new).writes }
        ensures no_fault { OnOk result
            (((D.counts store.new).reads ≡ (D.counts store.old).reads)
            × ((D.counts store.new).writes ≡ (D.counts store.old).writes)) }
        ensures taken { IsTrue D.tells
            → OnOk result (CountsTaken (length ((D.view store.old).files (generation_file generation)))
            (D.counts store.old) (D.counts store.new)) }
        ensures most_taken { IsTrue D.tells → (D.counts store.new).taken
            ≤ (D.counts store.old).taken + length ((D.view store.old).files (generation_file generation)) }
        ensures narrows { Narrows (D.view store.old) (D.view store.new) }
        ensures counts { Rises (D.counts store.old) (D.counts store.new) }
        ensures removes { (D.counts store.new).removes ≡ (D.counts store.old).removes }
    {
        let file = GENERATION_0 + generation;
        let (log, bodies) = match Log::read(alloc, store, file) {
            Ok(read) => read,
            Err(refusal) => return Err(in_file(file, refusal)),
        };
        let journal = Journal {
            generation,
            had_root: true,
            root,
            log,
        };
        Ok((journal, bodies))
    }

    /// Adds a body. From the start of the call each crash leaves the bodies without the new one or with it,
    /// and after `Ok` with it. `Failed` comes only where the store failed in a write or sync. It takes no
    /// memory.
    pub fn commit<D: Store>(self, store: &mut D, body: &[u8]) -> Result<Journal, Failed>
        requires size { IsBody body.now }
        requires room { end_of self + length body.now + 5 < 2 ^ 64 }
        ensures generation { IfOk result (λ journal. generation_of journal ≡ generation_of self) }
        ensures had_root { IfOk result (λ journal. had_root_of journal ≡ had_root_of self) }
        ensures end { IfOk result (λ journal. end_of journal ≡ end_of self + length body.now + 5) }
        ensures committed { IsTrue D.tells → (g : ℕ) (bodies : List (List ℕ))
            → Keeps (D.view store.old) self g bodies
            → IfOk result (λ journal. Keeps (D.view store.new) journal g (bodies ++ body.now ∷ [])) }
        // The log's bodies, the new one, a closed gate 0, and what stood behind.
        ensures bytes { IsTrue D.tells → (g : ℕ) (bodies : List (List ℕ))
            → Keeps (D.view store.old) self g bodies
            → OnOk result ((D.view store.new).files (generation_file g) ≡ sealed (bodies ++ body.now ∷ [])
            (drop (end_of self + length body.now + 5) ((D.view store.old).files (generation_file g)))) }
        ensures stable { IsTrue D.tells → (g : ℕ) (bodies : List (List ℕ))
            → Keeps (D.view store.old) self g bodies → AreStable (D.view store.old) g
            → OnOk result (AreStable (D.view store.new) g) }
        ensures crash { IsTrue D.tells → (g : ℕ) (bodies : List (List ℕ))
            → Keeps (D.view store.old) self g bodies
            → Touches (generation_file g) (IsBeforeOrAfter bodies body.now)
            (D.view store.old) (D.view store.new) }
        ensures images { IsTrue D.tells → (g : ℕ) (bodies : List (List ℕ))
            → Keeps (D.view store.old) self g bodies
            → Spans IsJournalFile (λ image. HaveBeforeOrAfter image g bodies body.now)
            (D.view store.old) (D.view store.new) }
        ensures alone { ChangesOnly (generation_file (generation_of self))
            (D.view store.old) (D.view store.new) }
        ensures cause { OnErr result (Rose (D.counts store.old).writes (D.counts store.new).writes) }
        ensures no_fault { OnOk result ((D.counts store.new).writes ≡ (D.counts store.old).writes) }
        ensures counts { MayRaiseWrites (D.counts store.old) (D.counts store.new) }
    {
        let log = self.log.commit(store, body)?;
        Ok(Journal {
            generation: self.generation,
            had_root: self.had_root,
            root: self.root,
            log,
        })
    }

    /// Makes the next generation, whose one body is this, the one in use, and removes the log of the former; a
    /// removal that fails is let pass. From the start of the call each crash leaves the former generation with
    /// its bodies, or the next one with this body, and after `Ok` the next one. `Failed` comes only where the
    /// store failed in a write or sync. It takes no memory.
    pub fn checkpoint<D: Store>(self, store: &mut D, body: &[u8]) -> Result<Journal, Failed>
        requires size { IsBody body.now }
        requires room { generation_of self < 2 ^ 60 }
        ensures generation { IfOk result (λ journal. generation_of journal ≡ generation_of self + 1) }
        ensures had_root { IfOk result (λ journal. had_root_of journal ≡ had_root_of self) }
        ensures end { IfOk result (λ journal. end_of journal ≡ length body.now + 14) }
        ensures committed { IsTrue D.tells → (g : ℕ) (bodies : List (List ℕ))
            → Keeps (D.view store.old) self g bodies
            → IfOk result (λ journal. Keeps (D.view store.new) journal (g + 1) (body.now ∷ [])) }
        // The log has the body and a closed gate 0, and nothing behind it.
        ensures bytes { IsTrue D.tells
            → OnOk result ((D.view store.new).files (generation_file (generation_of self + 1))
            ≡ sealed (body.now ∷ []) []) }
        // The root has the numbers up to the next one, a closed gate 0, and what stood behind.
        ensures root_bytes { IsTrue D.tells → (g : ℕ) (bodies : List (List ℕ))
            → Keeps (D.view store.old) self g bodies
            → OnOk result ((D.view store.new).files 0 ≡ sealed (generations (g + 1))
            (drop (length (front (generations (g + 1))) + 1) ((D.view store.old).files 0))) }
        ensures stable { IsTrue D.tells → (g : ℕ) (bodies : List (List ℕ))
            → Keeps (D.view store.old) self g bodies
            → OnOk result (AreStable (D.view store.new) (g + 1)) }
        ensures images { IsTrue D.tells → (g : ℕ) (bodies : List (List ℕ))
            → Keeps (D.view store.old) self g bodies
            → Spans IsJournalFile (λ image. HaveFormerOrNext image g bodies body.now)
            (D.view store.old) (D.view store.new) }
        // The former log isn't there, unless its removal failed.
        ensures gone { IsTrue D.tells
            → OnOk result (Rose (D.counts store.old).removes (D.counts store.new).removes
            ⊎ ((D.view store.new).there (generation_file (generation_of self)) ≡ false)) }
        ensures cause { OnErr result (Rose (D.counts store.old).writes (D.counts store.new).writes) }
        ensures no_fault { OnOk result ((D.counts store.new).writes ≡ (D.counts store.old).writes) }
        ensures no_removal { OnErr result ((D.counts store.new).removes ≡ (D.counts store.old).removes) }
        ensures counts { MayRaiseWritesOrRemoves (D.counts store.old) (D.counts store.new) }
    {
        let former = self.file();
        let next = self.name_next(store, body)?;
        let _ = store.remove(former);
        Ok(next)
    }

    // Makes the log of the next generation, and then the root name it. No file is removed.
    fn name_next<D: Store>(self, store: &mut D, body: &[u8]) -> Result<Journal, Failed>
        requires size { IsBody body.now }
        requires room { generation_of self < 2 ^ 60 }
        ensures generation { IfOk result (λ journal. generation_of journal ≡ generation_of self + 1) }
        ensures had_root { IfOk result (λ journal. had_root_of journal ≡ had_root_of self) }
        ensures end { IfOk result (λ journal. end_of journal ≡ length body.now + 14) }
        ensures committed { IsTrue D.tells → (g : ℕ) (bodies : List (List ℕ))
            → Keeps (D.view store.old) self g bodies
            → IfOk result (λ journal. Keeps (D.view store.new) journal (g + 1) (body.now ∷ [])) }
        ensures bytes { IsTrue D.tells
            → OnOk result ((D.view store.new).files (generation_file (generation_of self + 1))
            ≡ sealed (body.now ∷ []) []) }
        ensures root_bytes { IsTrue D.tells → (g : ℕ) (bodies : List (List ℕ))
            → Keeps (D.view store.old) self g bodies
            → OnOk result ((D.view store.new).files 0 ≡ sealed (generations (g + 1))
            (drop (length (front (generations (g + 1))) + 1) ((D.view store.old).files 0))) }
        ensures stable { IsTrue D.tells → (g : ℕ) (bodies : List (List ℕ))
            → Keeps (D.view store.old) self g bodies
            → OnOk result (AreStable (D.view store.new) (g + 1)) }
        ensures images { IsTrue D.tells → (g : ℕ) (bodies : List (List ℕ))
            → Keeps (D.view store.old) self g bodies
            → Spans IsJournalFile (λ image. HaveFormerOrNext image g bodies body.now)
            (D.view store.old) (D.view store.new) }
        ensures cause { OnErr result (Rose (D.counts store.old).writes (D.counts store.new).writes) }
        ensures no_fault { OnOk result ((D.counts store.new).writes ≡ (D.counts store.old).writes) }
        ensures counts { MayRaiseWrites (D.counts store.old) (D.counts store.new) }
    {
        let generation = self.generation + 1;
        let log = make_log(store, GENERATION_0 + generation, body)?;
        let root = self.root.commit(store, &number_bytes(generation))?;
        Ok(Journal {
            generation,
            had_root: self.had_root,
            root,
            log,
        })
    }

    /// Where body i begins in the log of these bodies.
    pub fn place(bodies: &[Vec<u8>], i: usize) -> u64
        requires in_range { i < length bodies.now }
        requires fits { length (front (contents (take i bodies.now))) + 5 < 2 ^ 64 }
        ensures { result ≡ length (front (contents (take i bodies.now))) + 5 }
    {
        Log::place(bodies, i)
    }

    /// The number of the generation in use.
    pub fn generation(&self) -> u64
        ensures { result ≡ generation_of self.now }
    {
        self.generation
    }

    /// Whether the root named a generation when loading began: where it named none, the journal was made then.
    pub fn had_root(&self) -> bool
        ensures { result ≡ had_root_of self.now }
    {
        self.had_root
    }

    /// The file of the generation in use.
    pub fn file(&self) -> u64
        ensures { result ≡ generation_file (generation_of self.now) }
    {
        GENERATION_0 + self.generation
    }

    /// The place after the last gate of the log in use.
    pub fn end(&self) -> u64
        ensures end { result ≡ end_of self.now }
        ensures header { 9 ≤ result }
    {
        self.log.end()
    }
}
