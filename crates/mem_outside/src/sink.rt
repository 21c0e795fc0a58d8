//! A sink in memory.
ghost use Rattle.std.specs.Prelude.{◌≡◌, ℕ, ◌<◌, ◌≤◌, [], take, length, None, Some, IsTrue, IfOk, OnOk};
ghost use Rattle.std.specs.Prelude.{OnErr};
ghost use Rattle.std.specs.Io.KnownBytes.{Appends, Keeps};
ghost use Rattle.outside_traits.specs.Counts.{Rose};
ghost use Rattle.mem_outside.specs.Schedule.{next_fails, from_call};
ghost use Rattle.mem_outside.specs.Streams.{after_write, after_failed_write};

use crate::schedule::next_call_fails;
use outside_traits::{Failed, Sink};
use std::alloc::Global;
use std::marker::Model;

/// A sink in memory, which takes all that it is given. Its writes are numbered from 0; a write fails where
/// its number is listed, where it is at or above that of `fail_from`, or where it finds no memory. Contracts
/// see the bytes that were written, which writes fail, and how many have failed.
#[derive(Drop)]
pub struct MemSink {
    written: Vec<u8>,
    fails: Vec<u64>,
    fail_from: Option<u64>,
    next_call: u64,
    faults: u64,
}

impl Model for MemSink {
    ghost use Rattle.mem_outside.specs.Streams.{Taken};

    ghost Value = { Taken };

    ghost view = { λ s. record {
      written = s.written.items;
      schedule = record { listed = s.fails.items; from = s.fail_from; next = s.next_call };
      faults = s.faults;
    } };
}

impl MemSink {
    /// A sink that has taken nothing; the writes of these numbers fail.
    pub fn new(alloc: Global, fails: Vec<u64>) -> MemSink
        ensures { result ≡ record {
          written = [];
          schedule = record { listed = fails.items; from = None; next = 0 };
          faults = 0;
        } }
    {
        MemSink {
            written: Vec::new(alloc),
            fails,
            fail_from: None,
            next_call: 0,
            faults: 0,
        }
    }

    /// Each write of this number or a higher one fails.
    pub fn fail_from(&mut self, call: u64)
        ensures { self.new ≡ record {
          written = self.old.written;
          schedule = from_call call self.old.schedule;
          faults = self.old.faults;
        } }
    {
        self.fail_from = Some(call);
    }

    /// The bytes that were written.
    pub fn written(&self) -> &[u8]
        ensures { result.now ≡ self.now.written }
    {
        &self.written
    }
}

impl Sink for MemSink {
    ghost written = { λ s. Some s.written };

    ghost faults = { λ s. s.faults };

    fn write(&mut self, bytes: &[u8]) -> Result<usize, Failed>
        requires { 0 < length bytes.now }
        ensures some { IfOk result (λ n. 0 < n) }
        ensures bound { IfOk result (λ n. n ≤ length bytes.now) }
        ensures bytes { IfOk result
            (λ n. Appends (⟦<MemSink as Sink>⟧.written self.old) (⟦<MemSink as Sink>⟧.written self.new)
            (take n bytes.now)) }
        ensures failed { OnErr result
            (Keeps (⟦<MemSink as Sink>⟧.written self.old) (⟦<MemSink as Sink>⟧.written self.new)) }
        ensures cause { OnErr result
            (Rose (⟦<MemSink as Sink>⟧.faults self.old) (⟦<MemSink as Sink>⟧.faults self.new)) }
        ensures no_fault { OnOk result
            (⟦<MemSink as Sink>⟧.faults self.new ≡ ⟦<MemSink as Sink>⟧.faults self.old) }
        ensures counts { ⟦<MemSink as Sink>⟧.faults self.old ≤ ⟦<MemSink as Sink>⟧.faults self.new }
        ensures fails { IsTrue (next_fails self.old.schedule) → OnOk result ⊥ }
        ensures all { IfOk result (λ n. n ≡ length bytes.now) }
        ensures ok { OnOk result (self.new ≡ after_write self.old bytes.now) }
        ensures err { OnErr result (self.new ≡ after_failed_write self.old) }
    {
        let fails = next_call_fails(&self.fails, self.fail_from, &mut self.next_call);
        if fails {
            self.faults = self.faults.saturating_add(1);
            return Err(Failed);
        }
        match self.written.extend_from_slice(bytes) {
            Ok(()) => Ok(bytes.len()),
            Err(_) => {
                self.faults = self.faults.saturating_add(1);
                Err(Failed)
            }
        }
    }
}
