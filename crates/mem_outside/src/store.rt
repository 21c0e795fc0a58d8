//! A store in memory.
ghost use Rattle.std.specs.Prelude.{◌≡◌, ◌≢◌, ◌⊎◌, ℕ, ◌+◌, ◌^◌, ◌-◌, ◌/◌, ◌%◌, ◌==◌, ◌<◌, ◌≤◌, true, false};
ghost use Rattle.std.specs.Prelude.{List, [], length, take, map, min, None, IsTrue, IfOk, IfSome, OnOk};
ghost use Rattle.std.specs.Prelude.{OnErr, if◌then◌else◌};
ghost use Rattle.std.specs.List.{list_all};
ghost use Rattle.mem_outside.specs.Shown.{Shown};
ghost use Rattle.mem_outside.specs.Outcomes.{is_sound, state_in, stable_file, written, shortened, synced};
ghost use Rattle.mem_outside.specs.Outcomes.{numbers_differ, removed, kept, left_of};
ghost use Rattle.mem_outside.specs.Moments.{view_of};
ghost use Rattle.mem_outside.specs.History.{current_of, past_of, is_history};
ghost use Rattle.mem_outside.specs.Laws.{state_reads, state_absent};
ghost use Rattle.mem_outside.specs.Schedule.{Schedule, next_fails, called, from_call};
ghost use Rattle.mem_outside.specs.Refused.{LeavesFailed, one_more};
ghost use Rattle.outside_traits.specs.View.{Counts, Now, Only, IsImageAt};
ghost use Rattle.outside_traits.specs.Calls.{
  overlaid,
  Torn,
  Shortened,
  Same,
  Gone,
  Acts,
  Idles,
  Passes,
  StayGone,
  NextIs,
  IsRead,
  MayRaiseReads,
  MayRaiseWrites,
  MayRaiseRemoves,
  CountsTaken,
};

use crate::files;
use crate::history::History;
use crate::schedule::next_call_fails;
use outside_traits::{Failed, Store};
use rows_core::Memory;
use std::alloc::Global;

/// A store in memory, which keeps what a crash may have left at each moment. Its calls are numbered from 0; a
/// call fails where its number is listed, where it is at or above that of `fail_from`, or where it finds no
/// memory. Each change makes one moment, and so does a write or cut that was to fail, where it finds memory;
/// nothing else makes one. A changing call costs a look-up and what the file that it changes takes, however
/// many other files there are.
#[derive(Drop)]
pub struct MemStore {
    alloc: Global,
    history: History,
    fails: Vec<u64>,
    fail_from: Option<u64>,
    next_call: u64,
    reads: u64,
    writes: u64,
    removes: u64,
    taken: u64,
    refused: u64,
    ghost kept: { IsTrue (is_history history) },
    ghost sound: { IsTrue (list_all is_sound (current_of history)) },
    ghost differ: { IsTrue (numbers_differ (current_of history)) },
}

impl MemStore {
    /// An empty store in which the calls of these numbers fail.
    pub fn new(alloc: Global, fails: Vec<u64>) -> MemStore
        ensures files { (file : ℕ) → (⟦<MemStore as Store>⟧.view result).files file ≡ [] }
        ensures there { (file : ℕ) → (⟦<MemStore as Store>⟧.view result).there file ≡ false }
        ensures moment { (⟦<MemStore as Store>⟧.view result).moment ≡ 0 }
        ensures counts { ⟦<MemStore as Store>⟧.counts result
            ≡ record { reads = 0; writes = 0; removes = 0; taken = 0 } }
        ensures shown { ⟦<MemStore as InMemory>⟧.shown result ≡ [] }
        ensures refused { ⟦<MemStore as InMemory>⟧.refused result ≡ 0 }
        ensures schedule { ⟦<MemStore as InMemory>⟧.schedule result
            ≡ record { listed = fails.items; from = None; next = 0 } }
    {
        MemStore {
            alloc,
            history: files::empty(alloc),
            fails,
            fail_from: None,
            next_call: 0,
            reads: 0,
            writes: 0,
            removes: 0,
            taken: 0,
            refused: 0,
        }
    }

    /// Each call of this number or a higher one fails.
    pub fn fail_from(&mut self, call: u64)
        ensures view { Idles (⟦<MemStore as Store>⟧.view self.old) (⟦<MemStore as Store>⟧.view self.new) }
        ensures counts { ⟦<MemStore as Store>⟧.counts self.new ≡ ⟦<MemStore as Store>⟧.counts self.old }
        ensures shown { ⟦<MemStore as InMemory>⟧.shown self.new ≡ ⟦<MemStore as InMemory>⟧.shown self.old }
        ensures moment { (⟦<MemStore as Store>⟧.view self.new).moment
            ≡ (⟦<MemStore as Store>⟧.view self.old).moment }
        ensures refused { ⟦<MemStore as InMemory>⟧.refused self.new
            ≡ ⟦<MemStore as InMemory>⟧.refused self.old }
        ensures schedule { ⟦<MemStore as InMemory>⟧.schedule self.new
            ≡ from_call call (⟦<MemStore as InMemory>⟧.schedule self.old) }
    {
        self.fail_from = Some(call);
    }

    /// Makes the file be there with these bytes, which are stable. It is no call of the store and doesn't
    /// fail as one.
    pub fn put(&mut self, file: u64, bytes: &[u8]) -> Result<(), Memory>
        ensures bytes { OnOk result ((⟦<MemStore as Store>⟧.view self.new).files file ≡ bytes.now) }
        ensures there { OnOk result ((⟦<MemStore as Store>⟧.view self.new).there file ≡ true) }
        ensures stable { OnOk result (Only bytes.now (Now (⟦<MemStore as Store>⟧.view self.new) file)) }
        ensures others { (g : ℕ) → g ≢ file
            → state_in (⟦<MemStore as InMemory>⟧.shown self.new) g
            ≡ state_in (⟦<MemStore as InMemory>⟧.shown self.old) g }
        ensures time { Passes (⟦<MemStore as Store>⟧.view self.old) (⟦<MemStore as Store>⟧.view self.new) }
        ensures moment { OnOk result
            ((⟦<MemStore as Store>⟧.view self.new).moment
            ≡ (⟦<MemStore as Store>⟧.view self.old).moment + 1) }
        // Nothing changes where it finds no memory.
        ensures memory { OnErr result
            ((⟦<MemStore as InMemory>⟧.shown self.new ≡ ⟦<MemStore as InMemory>⟧.shown self.old)
            × ((⟦<MemStore as Store>⟧.view self.new).moment ≡ (⟦<MemStore as Store>⟧.view self.old).moment)) }
        ensures counts { ⟦<MemStore as Store>⟧.counts self.new ≡ ⟦<MemStore as Store>⟧.counts self.old }
        ensures refused { ⟦<MemStore as InMemory>⟧.refused self.new
            ≡ ⟦<MemStore as InMemory>⟧.refused self.old }
        ensures shown { OnOk result
            (state_in (⟦<MemStore as InMemory>⟧.shown self.new) file ≡ stable_file file bytes.now) }
        ensures schedule { ⟦<MemStore as InMemory>⟧.schedule self.new
            ≡ ⟦<MemStore as InMemory>⟧.schedule self.old }
    {
        files::put(self.alloc, &mut self.history, file, bytes)?;
        Ok(())
    }

    /// The store after a crash now, without faults: one of the images. Bit 0 of `pick` takes each file's
    /// greatest length in place of its least, bit 1 makes each byte that may be anything 1 in place of 0, and
    /// bit 2 keeps the removed files that may still be there.
    pub fn image(&self, pick: u64) -> Result<MemStore, Memory>
        ensures image { IfOk result
            (λ store. IsImageAt (⟦<MemStore as Store>⟧.view self.now)
            (⟦<MemStore as Store>⟧.view self.now).moment (⟦<MemStore as Store>⟧.view store).files) }
        ensures counts { IfOk result
            (λ store. ⟦<MemStore as Store>⟧.counts store
            ≡ record { reads = 0; writes = 0; removes = 0; taken = 0 }) }
        ensures shown { IfOk result
            (λ store. ⟦<MemStore as InMemory>⟧.shown store
            ≡ map (left_of (pick % 2 == 1) (pick / 2 % 2) (pick / 4 % 2 == 1))
            (⟦<MemStore as InMemory>⟧.shown self.now)) }
        ensures files { IfOk result
            (λ store. (g : ℕ)
            → (⟦<MemStore as Store>⟧.view store).files g
            ≡ (left_of (pick % 2 == 1) (pick / 2 % 2) (pick / 4 % 2 == 1)
            (state_in (⟦<MemStore as InMemory>⟧.shown self.now) g)).bytes) }
        ensures moment { IfOk result (λ store. (⟦<MemStore as Store>⟧.view store).moment ≡ 0) }
        ensures refused { IfOk result (λ store. ⟦<MemStore as InMemory>⟧.refused store ≡ 0) }
        ensures schedule { IfOk result
            (λ store. ⟦<MemStore as InMemory>⟧.schedule store
            ≡ record { listed = []; from = None; next = 0 }) }
    {
        let greatest = pick % 2 == 1;
        let filler = (pick / 2 % 2) as u8;
        let removed_too = pick / 4 % 2 == 1;
        let history = files::left(self.alloc, &self.history, greatest, filler, removed_too)?;
        Ok(MemStore {
            alloc: self.alloc,
            history,
            fails: Vec::new(self.alloc),
            fail_from: None,
            next_call: 0,
            reads: 0,
            writes: 0,
            removes: 0,
            taken: 0,
            refused: 0,
        })
    }

    /// The bytes that reads have taken.
    pub fn taken(&self) -> u64
        ensures { result ≡ (⟦<MemStore as Store>⟧.counts self.now).taken }
    {
        self.taken
    }

    /// The file's bytes; none where it isn't there.
    pub fn bytes(&self, file: u64) -> &[u8]
        ensures { result.now ≡ (⟦<MemStore as Store>⟧.view self.now).files file }
    {
        files::bytes_in(&self.history, file)
    }
}

/// A store in memory, of which contracts see more than of each store.
pub trait InMemory {
    // The files, as they read, with what a crash now may leave of each.
    ghost shown: { Self → List Shown };

    // Which calls fail.
    ghost schedule: { Self → Schedule };

    // How many calls have found no memory. The count stands still at the greatest u64.
    ghost refused: { Self → ℕ };
}

impl InMemory for MemStore {
    ghost shown = { λ s. current_of s.history };

    ghost schedule = { λ s. record { listed = s.fails.items; from = s.fail_from; next = s.next_call } };

    ghost refused = { λ s. s.refused };
}

impl Store for MemStore {
    ghost tells = { true };

    ghost view = { λ s. view_of (past_of s.history) (current_of s.history) };

    ghost counts = { λ s. record {
      reads = s.reads;
      writes = s.writes;
      removes = s.removes;
      taken = s.taken;
    } };

    ghost reads_outcome = { λ s file. state_reads (past_of s.history) (current_of s.history) s.sound file };

    ghost absent_is_empty = { λ s file gone. state_absent (current_of s.history) s.sound file gone };

    fn attach(&mut self, _folder: &str) -> Result<(), Failed>
        ensures idles { Idles (⟦<MemStore as Store>⟧.view self.old) (⟦<MemStore as Store>⟧.view self.new) }
        ensures cause { OnErr result
            ((⟦<MemStore as Store>⟧.counts self.new).reads
            ≡ one_more (⟦<MemStore as Store>⟧.counts self.old).reads) }
        ensures no_fault { OnOk result
            ((⟦<MemStore as Store>⟧.counts self.new).reads ≡ (⟦<MemStore as Store>⟧.counts self.old).reads) }
        ensures counts { MayRaiseReads (⟦<MemStore as Store>⟧.counts self.old)
            (⟦<MemStore as Store>⟧.counts self.new) }
        ensures taken { (⟦<MemStore as Store>⟧.counts self.new).taken
            ≡ (⟦<MemStore as Store>⟧.counts self.old).taken }
        ensures fails { IsTrue (next_fails (⟦<MemStore as InMemory>⟧.schedule self.old)) → OnOk result ⊥ }
        ensures no_other { OnErr result (IsTrue (next_fails (⟦<MemStore as InMemory>⟧.schedule self.old))) }
        ensures same { (⟦<MemStore as InMemory>⟧.shown self.new ≡ ⟦<MemStore as InMemory>⟧.shown self.old)
            × (⟦<MemStore as InMemory>⟧.refused self.new ≡ ⟦<MemStore as InMemory>⟧.refused self.old) }
        ensures moment { (⟦<MemStore as Store>⟧.view self.new).moment
            ≡ (⟦<MemStore as Store>⟧.view self.old).moment }
        ensures schedule { ⟦<MemStore as InMemory>⟧.schedule self.new
            ≡ called (⟦<MemStore as InMemory>⟧.schedule self.old) }
    {
        let fails = next_call_fails(&self.fails, self.fail_from, &mut self.next_call);
        if fails {
            self.reads = self.reads.saturating_add(1);
            return Err(Failed);
        }
        Ok(())
    }

    fn size(&mut self, file: u64) -> Result<u64, Failed>
        ensures size { IfOk result
            (λ size. size ≡ length ((⟦<MemStore as Store>⟧.view self.old).files file)) }
        ensures idles { Idles (⟦<MemStore as Store>⟧.view self.old) (⟦<MemStore as Store>⟧.view self.new) }
        ensures cause { OnErr result
            ((⟦<MemStore as Store>⟧.counts self.new).reads
            ≡ one_more (⟦<MemStore as Store>⟧.counts self.old).reads) }
        ensures no_fault { OnOk result
            ((⟦<MemStore as Store>⟧.counts self.new).reads ≡ (⟦<MemStore as Store>⟧.counts self.old).reads) }
        ensures counts { MayRaiseReads (⟦<MemStore as Store>⟧.counts self.old)
            (⟦<MemStore as Store>⟧.counts self.new) }
        ensures taken { (⟦<MemStore as Store>⟧.counts self.new).taken
            ≡ (⟦<MemStore as Store>⟧.counts self.old).taken }
        ensures fails { IsTrue (next_fails (⟦<MemStore as InMemory>⟧.schedule self.old)) → OnOk result ⊥ }
        ensures no_other { OnErr result (IsTrue (next_fails (⟦<MemStore as InMemory>⟧.schedule self.old))) }
        ensures same { (⟦<MemStore as InMemory>⟧.shown self.new ≡ ⟦<MemStore as InMemory>⟧.shown self.old)
            × (⟦<MemStore as InMemory>⟧.refused self.new ≡ ⟦<MemStore as InMemory>⟧.refused self.old) }
        ensures moment { (⟦<MemStore as Store>⟧.view self.new).moment
            ≡ (⟦<MemStore as Store>⟧.view self.old).moment }
        ensures schedule { ⟦<MemStore as InMemory>⟧.schedule self.new
            ≡ called (⟦<MemStore as InMemory>⟧.schedule self.old) }
    {
        let fails = next_call_fails(&self.fails, self.fail_from, &mut self.next_call);
        if fails {
            self.reads = self.reads.saturating_add(1);
            return Err(Failed);
        }
        Ok(files::bytes_in(&self.history, file).len() as u64)
    }

    fn read(&mut self, file: u64, at: u64, buf: &mut [u8]) -> Result<usize, Failed>
        ensures bound { IfOk result (λ n. n ≤ length buf.new) }
        ensures bytes { IfOk result
            (λ n. IsRead ((⟦<MemStore as Store>⟧.view self.old).files file) at (length buf.old) n buf.new) }
        ensures idles { Idles (⟦<MemStore as Store>⟧.view self.old) (⟦<MemStore as Store>⟧.view self.new) }
        ensures cause { OnErr result
            ((⟦<MemStore as Store>⟧.counts self.new).reads
            ≡ one_more (⟦<MemStore as Store>⟧.counts self.old).reads) }
        ensures no_fault { OnOk result
            ((⟦<MemStore as Store>⟧.counts self.new).reads ≡ (⟦<MemStore as Store>⟧.counts self.old).reads) }
        ensures counts { MayRaiseReads (⟦<MemStore as Store>⟧.counts self.old)
            (⟦<MemStore as Store>⟧.counts self.new) }
        ensures taken { IfOk result
            (λ n. CountsTaken n (⟦<MemStore as Store>⟧.counts self.old)
            (⟦<MemStore as Store>⟧.counts self.new)) }
        ensures none_taken { OnErr result
            ((⟦<MemStore as Store>⟧.counts self.new).taken ≡ (⟦<MemStore as Store>⟧.counts self.old).taken) }
        ensures fails { IsTrue (next_fails (⟦<MemStore as InMemory>⟧.schedule self.old)) → OnOk result ⊥ }
        ensures no_other { OnErr result (IsTrue (next_fails (⟦<MemStore as InMemory>⟧.schedule self.old))) }
        ensures same { (⟦<MemStore as InMemory>⟧.shown self.new ≡ ⟦<MemStore as InMemory>⟧.shown self.old)
            × (⟦<MemStore as InMemory>⟧.refused self.new ≡ ⟦<MemStore as InMemory>⟧.refused self.old) }
        ensures moment { (⟦<MemStore as Store>⟧.view self.new).moment
            ≡ (⟦<MemStore as Store>⟧.view self.old).moment }
        ensures schedule { ⟦<MemStore as InMemory>⟧.schedule self.new
            ≡ called (⟦<MemStore as InMemory>⟧.schedule self.old) }
    {
        let fails = next_call_fails(&self.fails, self.fail_from, &mut self.next_call);
        if fails {
            self.reads = self.reads.saturating_add(1);
            return Err(Failed);
        }
        let count = copy_front(files::bytes_in(&self.history, file), at, buf);
        self.taken = self.taken.saturating_add(count as u64);
        Ok(count)
    }

    fn write(&mut self, file: u64, at: u64, bytes: &[u8]) -> Result<(), Failed>
        requires { at + length bytes.now < 2 ^ 64 }
        ensures written { OnOk result
            ((⟦<MemStore as Store>⟧.view self.new).files file
            ≡ overlaid ((⟦<MemStore as Store>⟧.view self.old).files file) at bytes.now) }
        ensures there { OnOk result ((⟦<MemStore as Store>⟧.view self.new).there file ≡ true) }
        ensures acts { Acts file (Torn at (length bytes.now)) (⟦<MemStore as Store>⟧.view self.old)
            (⟦<MemStore as Store>⟧.view self.new) }
        ensures cause { OnErr result
            ((⟦<MemStore as Store>⟧.counts self.new).writes
            ≡ one_more (⟦<MemStore as Store>⟧.counts self.old).writes) }
        ensures no_fault { OnOk result
            ((⟦<MemStore as Store>⟧.counts self.new).writes
            ≡ (⟦<MemStore as Store>⟧.counts self.old).writes) }
        ensures counts { MayRaiseWrites (⟦<MemStore as Store>⟧.counts self.old)
            (⟦<MemStore as Store>⟧.counts self.new) }
        ensures fails { IsTrue (next_fails (⟦<MemStore as InMemory>⟧.schedule self.old)) → OnOk result ⊥ }
        ensures shown { OnOk result
            (state_in (⟦<MemStore as InMemory>⟧.shown self.new) file
            ≡ written at bytes.now true (state_in (⟦<MemStore as InMemory>⟧.shown self.old) file)) }
        ensures moment { OnOk result
            ((⟦<MemStore as Store>⟧.view self.new).moment
            ≡ (⟦<MemStore as Store>⟧.view self.old).moment + 1) }
        ensures tried { OnErr result
            (LeavesFailed (next_fails (⟦<MemStore as InMemory>⟧.schedule self.old))
            (written at bytes.now false) file (⟦<MemStore as InMemory>⟧.shown self.old)
            (⟦<MemStore as InMemory>⟧.shown self.new) (⟦<MemStore as Store>⟧.view self.old).moment
            (⟦<MemStore as Store>⟧.view self.new).moment (⟦<MemStore as InMemory>⟧.refused self.old)
            (⟦<MemStore as InMemory>⟧.refused self.new)) }
        ensures no_refusal { OnOk result
            (⟦<MemStore as InMemory>⟧.refused self.new ≡ ⟦<MemStore as InMemory>⟧.refused self.old) }
        ensures others { (g : ℕ) → g ≢ file
            → state_in (⟦<MemStore as InMemory>⟧.shown self.new) g
            ≡ state_in (⟦<MemStore as InMemory>⟧.shown self.old) g }
        ensures schedule { ⟦<MemStore as InMemory>⟧.schedule self.new
            ≡ called (⟦<MemStore as InMemory>⟧.schedule self.old) }
    {
        let fails = next_call_fails(&self.fails, self.fail_from, &mut self.next_call);
        match files::write(self.alloc, &mut self.history, file, at, bytes, !fails) {
            Ok(()) if !fails => Ok(()),
            Ok(()) => {
                self.writes = self.writes.saturating_add(1);
                Err(Failed)
            }
            Err(Memory) => {
                self.refused = self.refused.saturating_add(1);
                self.writes = self.writes.saturating_add(1);
                Err(Failed)
            }
        }
    }

    fn cut(&mut self, file: u64, len: u64) -> Result<(), Failed>
        ensures cut { OnOk result
            ((⟦<MemStore as Store>⟧.view self.new).files file
            ≡ take len ((⟦<MemStore as Store>⟧.view self.old).files file)) }
        ensures failed { OnErr result
            (((⟦<MemStore as Store>⟧.view self.new).files file
            ≡ (⟦<MemStore as Store>⟧.view self.old).files file)
            ⊎ ((⟦<MemStore as Store>⟧.view self.new).files file
            ≡ take len ((⟦<MemStore as Store>⟧.view self.old).files file))) }
        ensures there { (⟦<MemStore as Store>⟧.view self.new).there file
            ≡ (⟦<MemStore as Store>⟧.view self.old).there file }
        ensures acts { Acts file (Shortened len) (⟦<MemStore as Store>⟧.view self.old)
            (⟦<MemStore as Store>⟧.view self.new) }
        ensures cause { OnErr result
            ((⟦<MemStore as Store>⟧.counts self.new).writes
            ≡ one_more (⟦<MemStore as Store>⟧.counts self.old).writes) }
        ensures no_fault { OnOk result
            ((⟦<MemStore as Store>⟧.counts self.new).writes
            ≡ (⟦<MemStore as Store>⟧.counts self.old).writes) }
        ensures counts { MayRaiseWrites (⟦<MemStore as Store>⟧.counts self.old)
            (⟦<MemStore as Store>⟧.counts self.new) }
        ensures fails { IsTrue (next_fails (⟦<MemStore as InMemory>⟧.schedule self.old)) → OnOk result ⊥ }
        ensures shown { OnOk result
            (state_in (⟦<MemStore as InMemory>⟧.shown self.new) file
            ≡ shortened len true (state_in (⟦<MemStore as InMemory>⟧.shown self.old) file)) }
        ensures moment { OnOk result
            ((⟦<MemStore as Store>⟧.view self.new).moment
            ≡ (⟦<MemStore as Store>⟧.view self.old).moment + 1) }
        ensures tried { OnErr result
            (LeavesFailed (next_fails (⟦<MemStore as InMemory>⟧.schedule self.old)) (shortened len false) file
            (⟦<MemStore as InMemory>⟧.shown self.old) (⟦<MemStore as InMemory>⟧.shown self.new)
            (⟦<MemStore as Store>⟧.view self.old).moment (⟦<MemStore as Store>⟧.view self.new).moment
            (⟦<MemStore as InMemory>⟧.refused self.old) (⟦<MemStore as InMemory>⟧.refused self.new)) }
        ensures no_refusal { OnOk result
            (⟦<MemStore as InMemory>⟧.refused self.new ≡ ⟦<MemStore as InMemory>⟧.refused self.old) }
        ensures others { (g : ℕ) → g ≢ file
            → state_in (⟦<MemStore as InMemory>⟧.shown self.new) g
            ≡ state_in (⟦<MemStore as InMemory>⟧.shown self.old) g }
        ensures schedule { ⟦<MemStore as InMemory>⟧.schedule self.new
            ≡ called (⟦<MemStore as InMemory>⟧.schedule self.old) }
    {
        let fails = next_call_fails(&self.fails, self.fail_from, &mut self.next_call);
        match files::cut(self.alloc, &mut self.history, file, len, !fails) {
            Ok(()) if !fails => Ok(()),
            Ok(()) => {
                self.writes = self.writes.saturating_add(1);
                Err(Failed)
            }
            Err(Memory) => {
                self.refused = self.refused.saturating_add(1);
                self.writes = self.writes.saturating_add(1);
                Err(Failed)
            }
        }
    }

    fn sync(&mut self, file: u64) -> Result<(), Failed>
        ensures stable { OnOk result
            (Only ((⟦<MemStore as Store>⟧.view self.old).files file)
            (Now (⟦<MemStore as Store>⟧.view self.new) file)) }
        ensures removals { OnOk result (StayGone (⟦<MemStore as Store>⟧.view self.new)) }
        ensures there { (⟦<MemStore as Store>⟧.view self.new).there file
            ≡ (⟦<MemStore as Store>⟧.view self.old).there file }
        ensures acts { Acts file Same (⟦<MemStore as Store>⟧.view self.old)
            (⟦<MemStore as Store>⟧.view self.new) }
        ensures cause { OnErr result
            ((⟦<MemStore as Store>⟧.counts self.new).writes
            ≡ one_more (⟦<MemStore as Store>⟧.counts self.old).writes) }
        ensures no_fault { OnOk result
            ((⟦<MemStore as Store>⟧.counts self.new).writes
            ≡ (⟦<MemStore as Store>⟧.counts self.old).writes) }
        ensures counts { MayRaiseWrites (⟦<MemStore as Store>⟧.counts self.old)
            (⟦<MemStore as Store>⟧.counts self.new) }
        ensures fails { IsTrue (next_fails (⟦<MemStore as InMemory>⟧.schedule self.old)) → OnOk result ⊥ }
        ensures shown { OnOk result
            (state_in (⟦<MemStore as InMemory>⟧.shown self.new) file
            ≡ synced (state_in (⟦<MemStore as InMemory>⟧.shown self.old) file)) }
        ensures moment { OnOk result
            ((⟦<MemStore as Store>⟧.view self.new).moment
            ≡ (⟦<MemStore as Store>⟧.view self.old).moment + 1) }
        ensures unchanged { OnErr result
            ((⟦<MemStore as InMemory>⟧.shown self.new ≡ ⟦<MemStore as InMemory>⟧.shown self.old)
            × ((⟦<MemStore as Store>⟧.view self.new).moment ≡ (⟦<MemStore as Store>⟧.view self.old).moment)) }
        ensures refused { OnErr result
            (⟦<MemStore as InMemory>⟧.refused self.new
            ≡ (if next_fails (⟦<MemStore as InMemory>⟧.schedule self.old)
            then ⟦<MemStore as InMemory>⟧.refused self.old
            else one_more (⟦<MemStore as InMemory>⟧.refused self.old))) }
        ensures no_refusal { OnOk result
            (⟦<MemStore as InMemory>⟧.refused self.new ≡ ⟦<MemStore as InMemory>⟧.refused self.old) }
        ensures others { OnOk result
            ((g : ℕ) → g ≢ file
            → state_in (⟦<MemStore as InMemory>⟧.shown self.new) g
            ≡ kept false (state_in (⟦<MemStore as InMemory>⟧.shown self.old) g)) }
        ensures schedule { ⟦<MemStore as InMemory>⟧.schedule self.new
            ≡ called (⟦<MemStore as InMemory>⟧.schedule self.old) }
    {
        let fails = next_call_fails(&self.fails, self.fail_from, &mut self.next_call);
        if fails {
            self.writes = self.writes.saturating_add(1);
            return Err(Failed);
        }
        match files::sync(self.alloc, &mut self.history, file) {
            Ok(()) => Ok(()),
            Err(Memory) => {
                self.refused = self.refused.saturating_add(1);
                self.writes = self.writes.saturating_add(1);
                Err(Failed)
            }
        }
    }

    fn remove(&mut self, file: u64) -> Result<(), Failed>
        ensures removed { OnOk result ((⟦<MemStore as Store>⟧.view self.new).there file ≡ false) }
        ensures acts { Acts file Gone (⟦<MemStore as Store>⟧.view self.old)
            (⟦<MemStore as Store>⟧.view self.new) }
        ensures cause { OnErr result
            ((⟦<MemStore as Store>⟧.counts self.new).removes
            ≡ one_more (⟦<MemStore as Store>⟧.counts self.old).removes) }
        ensures no_fault { OnOk result
            ((⟦<MemStore as Store>⟧.counts self.new).removes
            ≡ (⟦<MemStore as Store>⟧.counts self.old).removes) }
        ensures counts { MayRaiseRemoves (⟦<MemStore as Store>⟧.counts self.old)
            (⟦<MemStore as Store>⟧.counts self.new) }
        ensures fails { IsTrue (next_fails (⟦<MemStore as InMemory>⟧.schedule self.old)) → OnOk result ⊥ }
        ensures shown { OnOk result
            (state_in (⟦<MemStore as InMemory>⟧.shown self.new) file
            ≡ removed (state_in (⟦<MemStore as InMemory>⟧.shown self.old) file)) }
        ensures moment { OnOk result
            ((⟦<MemStore as Store>⟧.view self.new).moment
            ≡ (⟦<MemStore as Store>⟧.view self.old).moment + 1) }
        ensures unchanged { OnErr result
            ((⟦<MemStore as InMemory>⟧.shown self.new ≡ ⟦<MemStore as InMemory>⟧.shown self.old)
            × ((⟦<MemStore as Store>⟧.view self.new).moment ≡ (⟦<MemStore as Store>⟧.view self.old).moment)) }
        ensures refused { OnErr result
            (⟦<MemStore as InMemory>⟧.refused self.new
            ≡ (if next_fails (⟦<MemStore as InMemory>⟧.schedule self.old)
            then ⟦<MemStore as InMemory>⟧.refused self.old
            else one_more (⟦<MemStore as InMemory>⟧.refused self.old))) }
        ensures no_refusal { OnOk result
            (⟦<MemStore as InMemory>⟧.refused self.new ≡ ⟦<MemStore as InMemory>⟧.refused self.old) }
        ensures others { (g : ℕ) → g ≢ file
            → state_in (⟦<MemStore as InMemory>⟧.shown self.new) g
            ≡ state_in (⟦<MemStore as InMemory>⟧.shown self.old) g }
        ensures schedule { ⟦<MemStore as InMemory>⟧.schedule self.new
            ≡ called (⟦<MemStore as InMemory>⟧.schedule self.old) }
    {
        let fails = next_call_fails(&self.fails, self.fail_from, &mut self.next_call);
        if fails {
            self.removes = self.removes.saturating_add(1);
            return Err(Failed);
        }
        match files::remove(self.alloc, &mut self.history, file) {
            Ok(()) => Ok(()),
            Err(Memory) => {
                self.refused = self.refused.saturating_add(1);
                self.removes = self.removes.saturating_add(1);
                Err(Failed)
            }
        }
    }

    fn next_file(&mut self, from: u64) -> Result<Option<u64>, Failed>
        ensures bound { IfOk result (λ next. IfSome next (λ file. from ≤ file)) }
        ensures next { IfOk result (NextIs (⟦<MemStore as Store>⟧.view self.old).there from) }
        ensures idles { Idles (⟦<MemStore as Store>⟧.view self.old) (⟦<MemStore as Store>⟧.view self.new) }
        ensures cause { OnErr result
            ((⟦<MemStore as Store>⟧.counts self.new).reads
            ≡ one_more (⟦<MemStore as Store>⟧.counts self.old).reads) }
        ensures no_fault { OnOk result
            ((⟦<MemStore as Store>⟧.counts self.new).reads ≡ (⟦<MemStore as Store>⟧.counts self.old).reads) }
        ensures counts { MayRaiseReads (⟦<MemStore as Store>⟧.counts self.old)
            (⟦<MemStore as Store>⟧.counts self.new) }
        ensures taken { (⟦<MemStore as Store>⟧.counts self.new).taken
            ≡ (⟦<MemStore as Store>⟧.counts self.old).taken }
        ensures fails { IsTrue (next_fails (⟦<MemStore as InMemory>⟧.schedule self.old)) → OnOk result ⊥ }
        ensures no_other { OnErr result (IsTrue (next_fails (⟦<MemStore as InMemory>⟧.schedule self.old))) }
        ensures same { (⟦<MemStore as InMemory>⟧.shown self.new ≡ ⟦<MemStore as InMemory>⟧.shown self.old)
            × (⟦<MemStore as InMemory>⟧.refused self.new ≡ ⟦<MemStore as InMemory>⟧.refused self.old) }
        ensures moment { (⟦<MemStore as Store>⟧.view self.new).moment
            ≡ (⟦<MemStore as Store>⟧.view self.old).moment }
        ensures schedule { ⟦<MemStore as InMemory>⟧.schedule self.new
            ≡ called (⟦<MemStore as InMemory>⟧.schedule self.old) }
    {
        let fails = next_call_fails(&self.fails, self.fail_from, &mut self.next_call);
        if fails {
            self.reads = self.reads.saturating_add(1);
            return Err(Failed);
        }
        Ok(files::next_from(&self.history, from))
    }
}

// Copies what stands from `at` on, as much as `buf` takes, and says how much that is.
fn copy_front(bytes: &[u8], at: u64, buf: &mut [u8]) -> usize
    ensures bound { result ≤ length buf.new }
    ensures read { IsRead bytes.now at (length buf.old) result buf.new }
{
    let at = (at as usize).min(bytes.len());
    let count = buf.len().min(bytes.len() - at);
    buf[..count].copy_from_slice(&bytes[at..at + count]);
    count
}
