//! Logs in a store.
ghost use Rattle.std.specs.Prelude.{◌≡◌, ℕ, ◌+◌, ◌^◌, ◌<◌, ◌≤◌, List, [], ◌∷◌, ◌++◌, ◌⊎◌, length, take, drop};
ghost use Rattle.std.specs.Prelude.{IsTrue, IfOk, IsErrOf, OnOk, OnErr};
ghost use Rattle.std.specs.List.{All};
ghost use Rattle.outside_traits.specs.Counts.{Rose};
ghost use Rattle.outside_traits.specs.View.{Now, Only};
ghost use Rattle.outside_traits.specs.Calls.{CountsTaken, MayRaiseWrites, Rises};
ghost use Rattle.outside_traits.specs.Runs.{Touches, ChangesOnly, Narrows};
ghost use Rattle.gated_log.specs.Logs.{front, sealed, length_bytes, contents, IsBody, Reads, StopsAt};

use crate::reading::{Parsed, length_of_front, parse};
use crate::refusal::LogRefusal;
use byteorder::{BigEndian, ByteOrder};
use outside_traits::{Failed, Store, read_front};
use std::alloc::Global;

/// `NXL1`, four zero bytes and a closed gate.
const EMPTY: [u8; 9] = [78, 88, 76, 49, 0, 0, 0, 0, 0];

const OPEN: u8 = 1;

const CLOSED: u8 = 0;

/// A log, by its file and the place after its last gate.
#[derive(Drop)]
pub struct Log {
    file: u64,
    end: u64,
    ghost has_header: { 9 ≤ end },
}

impl Log {
    ghost use Rattle.gated_log.specs.Stands.{file_of, end_of, Stands, IsBeforeOrAfter, IsStaged};

    /// Makes an empty log of the file: it is cut to nothing and made stable, and then written and made
    /// stable. After `Ok` the file is the header and one closed gate.
    pub fn create<D: Store>(store: &mut D, file: u64) -> Result<Log, Failed>
        ensures file { IfOk result (λ log. file_of log ≡ file) }
        ensures end { IfOk result (λ log. end_of log ≡ 9) }
        ensures made { IsTrue D.tells → IfOk result (λ log. Stands (D.view store.new) log []) }
        ensures bytes { IsTrue D.tells → OnOk result ((D.view store.new).files file ≡ sealed [] []) }
        ensures stable { IsTrue D.tells → OnOk result (Only (sealed [] []) (Now (D.view store.new) file)) }
        // A file that was short stays short, also where the call fails.
        ensures crash { (n : ℕ) → 9 ≤ n → ((x : List ℕ) → Now (D.view store.old) file x → length x ≤ n)
            → Touches file (λ x. length x ≤ n) (D.view store.old) (D.view store.new) }
        ensures alone { ChangesOnly file (D.view store.old) (D.view store.new) }
        ensures cause { OnErr result (Rose (D.counts store.old).writes (D.counts store.new).writes) }
        ensures no_fault { OnOk result ((D.counts store.new).writes ≡ (D.counts store.old).writes) }
        ensures counts { MayRaiseWrites (D.counts store.old) (D.counts store.new) }
    {
        clear(store, file)?;
        store.write(file, 0, &EMPTY)?;
        store.sync(file)?;
        Ok(Log { file, end: 9 })
    }

    /// Reads a log: the file is made stable first, and then read whole. `NotLog` comes exactly where its
    /// bytes are no log, with the first byte where reading stops, and `Fault` only where the store failed. No
    /// file is changed. After `Ok` the file's bytes were taken once, and after a refusal at most once.
    pub fn read<D: Store>(
        alloc: Global,
        store: &mut D,
        file: u64,
    ) -> Result<(Log, Vec<Vec<u8>>), LogRefusal>
        ensures file { IfOk result (λ read. file_of read.0 ≡ file) }
        ensures end { IfOk result (λ read. end_of read.0 ≡ length (front (contents read.1.items)) + 1) }
        ensures bound { IfOk result (λ read. end_of read.0 < 2 ^ 63) }
        ensures sizes { IfOk result (λ read. All IsBody (contents read.1.items)) }
        ensures bodies { IsTrue D.tells
            → IfOk result (λ read. Reads (contents read.1.items) ((D.view store.old).files file)) }
        ensures stands { IsTrue D.tells
            → IfOk result (λ read. Stands (D.view store.new) read.0 (contents read.1.items)) }
        ensures stable { IsTrue D.tells
            → OnOk result (Only ((D.view store.old).files file) (Now (D.view store.new) file)) }
        ensures not_log { IsTrue D.tells → (at : ℕ) → IsErrOf result (LogRefusal.NotLog at)
            → StopsAt at ((D.view store.old).files file) }
        ensures fault { IsErrOf result LogRefusal.Fault
            → Rose (D.counts store.old).reads (D.counts store.new).reads
            ⊎ Rose (D.counts store.old).writes (D.counts store.new).writes }
        ensures no_fault { OnOk result
            (((D.counts store.new).reads ≡ (D.counts store.old).reads)
            × ((D.counts store.new).writes ≡ (D.counts store.old).writes)) }
        ensures taken { IsTrue D.tells
            → OnOk result (CountsTaken (length ((D.view store.old).files file)) (D.counts store.old)
            (D.counts store.new)) }
        ensures most_taken { IsTrue D.tells
            → OnErr result ((D.counts store.new).taken ≤ (D.counts store.old).taken + length
            ((D.view store.old).files file)) }
        ensures narrows { Narrows (D.view store.old) (D.view store.new) }
        ensures counts { Rises (D.counts store.old) (D.counts store.new) }
        ensures removes { (D.counts store.new).removes ≡ (D.counts store.old).removes }
    {
        let bytes = read_stable(alloc, store, file)?;
        let Parsed { bodies, end } = parse(alloc, &bytes)?;
        let end = end as u64;
        Ok((Log { file, end }, bodies))
    }

    /// Where body i begins in a log of these bodies.
    pub fn place(bodies: &[Vec<u8>], i: usize) -> u64
        requires in_range { i < length bodies.now }
        requires fits { length (front (contents (take i bodies.now))) + 5 < 2 ^ 64 }
        ensures { result ≡ length (front (contents (take i bodies.now))) + 5 }
    {
        length_of_front(&bodies[..i]) + 5
    }

    /// The place after the last gate.
    pub fn end(&self) -> u64
        ensures end { result ≡ end_of self.now }
        ensures header { 9 ≤ result }
    {
        self.end
    }

    // Writes a body and a closed gate behind the last gate, and makes them stable.
    fn stage<D: Store>(&self, store: &mut D, body: &[u8]) -> Result<(), Failed>
        requires size { IsBody body.now }
        requires room { end_of self.now + length body.now + 5 < 2 ^ 64 }
        ensures staged { IsTrue D.tells → (bodies : List (List ℕ)) → Stands (D.view store.old) self.now bodies
            → OnOk result ((x : List ℕ) → Now (D.view store.new) (file_of self.now) x
            → IsStaged bodies body.now
            (drop (end_of self.now + length body.now + 5) ((D.view store.old).files (file_of self.now))) x) }
        ensures crash { (bodies : List (List ℕ)) → Stands (D.view store.old) self.now bodies
            → Touches (file_of self.now) (Reads bodies) (D.view store.old) (D.view store.new) }
        ensures alone { ChangesOnly (file_of self.now) (D.view store.old) (D.view store.new) }
        ensures cause { OnErr result (Rose (D.counts store.old).writes (D.counts store.new).writes) }
        ensures no_fault { OnOk result ((D.counts store.new).writes ≡ (D.counts store.old).writes) }
        ensures counts { MayRaiseWrites (D.counts store.old) (D.counts store.new) }
    {
        let len = length_bytes(body.len() as u32);
        store.write(self.file, self.end, &len)?;
        store.write(self.file, self.end + 4, body)?;
        store.write(self.file, self.end + 4 + body.len() as u64, &[CLOSED])?;
        store.sync(self.file)?;
        Ok(())
    }

    // Opens the last gate, and makes that stable.
    fn open_gate<D: Store>(&self, store: &mut D) -> Result<(), Failed>
        ensures opened { IsTrue D.tells → (bodies : List (List ℕ)) (body rest : List ℕ)
            → end_of self.now ≡ length (front bodies) + 1
            → ((x : List ℕ) → Now (D.view store.old) (file_of self.now) x → IsStaged bodies body rest x)
            → OnOk result (Only (sealed (bodies ++ body ∷ []) rest)
            (Now (D.view store.new) (file_of self.now))) }
        ensures crash { (bodies : List (List ℕ)) (body rest : List ℕ)
            → end_of self.now ≡ length (front bodies) + 1
            → ((x : List ℕ) → Now (D.view store.old) (file_of self.now) x → IsStaged bodies body rest x)
            → Touches (file_of self.now) (IsBeforeOrAfter bodies body) (D.view store.old) (D.view store.new) }
        ensures alone { ChangesOnly (file_of self.now) (D.view store.old) (D.view store.new) }
        ensures cause { OnErr result (Rose (D.counts store.old).writes (D.counts store.new).writes) }
        ensures no_fault { OnOk result ((D.counts store.new).writes ≡ (D.counts store.old).writes) }
        ensures counts { MayRaiseWrites (D.counts store.old) (D.counts store.new) }
    {
        store.write(self.file, self.end - 1, &[OPEN])?;
        store.sync(self.file)?;
        Ok(())
    }

    /// Adds a body. From the start of the call each crash leaves the bodies without the new one or with it,
    /// and after `Ok` with it. `Failed` comes only where the store failed in a write or sync. It takes no
    /// memory.
    pub fn commit<D: Store>(self, store: &mut D, body: &[u8]) -> Result<Log, Failed>
        requires size { IsBody body.now }
        requires room { end_of self + length body.now + 5 < 2 ^ 64 }
        ensures file { IfOk result (λ log. file_of log ≡ file_of self) }
        ensures end { IfOk result (λ log. end_of log ≡ end_of self + length body.now + 5) }
        ensures committed { IsTrue D.tells → (bodies : List (List ℕ)) → Stands (D.view store.old) self bodies
            → IfOk result (λ log. Stands (D.view store.new) log (bodies ++ body.now ∷ [])) }
        // The bodies, the new one, a closed gate 0, and what stood behind; a crash leaves these bytes too.
        ensures bytes { IsTrue D.tells → (bodies : List (List ℕ)) → Stands (D.view store.old) self bodies
            → OnOk result ((D.view store.new).files (file_of self)
            ≡ sealed (bodies ++ body.now ∷ [])
            (drop (end_of self + length body.now + 5) ((D.view store.old).files (file_of self)))) }
        ensures stable { IsTrue D.tells → (bodies : List (List ℕ)) → Stands (D.view store.old) self bodies
            → OnOk result (Only ((D.view store.new).files (file_of self))
            (Now (D.view store.new) (file_of self))) }
        ensures crash { IsTrue D.tells → (bodies : List (List ℕ)) → Stands (D.view store.old) self bodies
            → Touches (file_of self) (IsBeforeOrAfter bodies body.now) (D.view store.old) (D.view store.new) }
        ensures alone { ChangesOnly (file_of self) (D.view store.old) (D.view store.new) }
        ensures cause { OnErr result (Rose (D.counts store.old).writes (D.counts store.new).writes) }
        ensures no_fault { OnOk result ((D.counts store.new).writes ≡ (D.counts store.old).writes) }
        ensures counts { MayRaiseWrites (D.counts store.old) (D.counts store.new) }
    {
        self.stage(store, body)?;
        self.open_gate(store)?;
        Ok(Log {
            file: self.file,
            end: self.end + body.len() as u64 + 5,
        })
    }
}

// A length as it stands in front of a body.
#[tactic(auto, unfolding(crate::specs::Logs::length_bytes))]
fn length_bytes(len: u32) -> [u8; 4]
    ensures { result ≡ length_bytes len }
{
    let mut bytes = [0; 4];
    BigEndian::write_u32(&mut bytes, len);
    bytes
}

// Makes a file stable, and reads it whole.
fn read_stable<D: Store>(alloc: Global, store: &mut D, file: u64) -> Result<Vec<u8>, LogRefusal>
    ensures bytes { IsTrue D.tells → IfOk result (λ bytes. bytes.items ≡ (D.view store.old).files file) }
    ensures stable { IsTrue D.tells
        → OnOk result (Only ((D.view store.old).files file) (Now (D.view store.new) file)) }
    ensures fault { IsErrOf result LogRefusal.Fault
        → Rose (D.counts store.old).reads (D.counts store.new).reads
        ⊎ Rose (D.counts store.old).writes (D.counts store.new).writes }
    ensures no_reading { (at : ℕ) → IsErrOf result (LogRefusal.NotLog at) → ⊥ }
    ensures no_fault { OnOk result
        (((D.counts store.new).reads ≡ (D.counts store.old).reads)
        × ((D.counts store.new).writes ≡ (D.counts store.old).writes)) }
    ensures taken { IfOk result
        (λ bytes. CountsTaken (length bytes.items) (D.counts store.old) (D.counts store.new)) }
    ensures none_taken { OnErr result ((D.counts store.new).taken ≡ (D.counts store.old).taken) }
    ensures narrows { Narrows (D.view store.old) (D.view store.new) }
    ensures counts { Rises (D.counts store.old) (D.counts store.new) }
    ensures removes { (D.counts store.new).removes ≡ (D.counts store.old).removes }
{
    store.sync(file)?;
    Ok(read_front(alloc, store, file, u64::MAX)?)
}

// Cuts a file to nothing and makes that stable, so that nothing of what stood there comes back behind the
// header.
fn clear<D: Store>(store: &mut D, file: u64) -> Result<(), Failed>
    ensures stable { IsTrue D.tells → OnOk result (Only [] (Now (D.view store.new) file)) }
    ensures crash { (n : ℕ) → ((x : List ℕ) → Now (D.view store.old) file x → length x ≤ n)
        → Touches file (λ x. length x ≤ n) (D.view store.old) (D.view store.new) }
    ensures alone { ChangesOnly file (D.view store.old) (D.view store.new) }
    ensures cause { OnErr result (Rose (D.counts store.old).writes (D.counts store.new).writes) }
    ensures no_fault { OnOk result ((D.counts store.new).writes ≡ (D.counts store.old).writes) }
    ensures counts { MayRaiseWrites (D.counts store.old) (D.counts store.new) }
{
    store.cut(file, 0)?;
    store.sync(file)?;
    Ok(())
}
