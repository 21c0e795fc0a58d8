//! A source in memory.
ghost use Rattle.std.specs.Prelude.{◌≡◌, ◌↔◌, ℕ, ◌<◌, ◌≤◌, min, take, length, None, Some, IsTrue, IsErr};
ghost use Rattle.std.specs.Prelude.{IfOk, OnOk, OnErr};
ghost use Rattle.std.specs.Io.KnownBytes.{Consumes, IsAtEnd};
ghost use Rattle.outside_traits.specs.Counts.{Rose};
ghost use Rattle.outside_traits.specs.Bytes.{KeepsOrForgets};
ghost use Rattle.mem_outside.specs.Schedule.{next_fails};
ghost use Rattle.mem_outside.specs.Streams.{next_piece, after_read, after_failed_read};

use crate::schedule::next_call_fails;
use outside_traits::{Failed, Source};
use std::marker::Model;

/// A source in memory, which gives its bytes in pieces. Its reads are numbered from 0; a read fails exactly
/// where its number is listed. Contracts see the bytes that are left, the piece's length, the list with the
/// number of the next read, and how many reads have failed.
#[derive(Drop)]
pub struct MemSource {
    bytes: Vec<u8>,
    at: usize,
    piece: usize,
    fails: Vec<u64>,
    next_call: u64,
    faults: u64,
}

impl Model for MemSource {
    ghost use Rattle.std.specs.Prelude.{◌<◌, ◌≤◌, drop, length, None};
    ghost use Rattle.mem_outside.specs.Streams.{Given};

    ghost Value = { Given };

    ghost view = { λ s. record {
      left = drop s.at s.bytes.items;
      piece = s.piece;
      schedule = record { listed = s.fails.items; from = None; next = s.next_call };
      faults = s.faults;
    } };

    ghost invariant = { λ s. (s.at ≤ length s.bytes.items) × (0 < s.piece) };
}

impl MemSource {
    /// A source of these bytes, of which a read gives at most `piece`; the reads of these numbers fail.
    pub fn new(bytes: Vec<u8>, piece: usize, fails: Vec<u64>) -> MemSource
        requires { 0 < piece }
        ensures { result ≡ record {
          left = bytes.items;
          piece = piece;
          schedule = record { listed = fails.items; from = None; next = 0 };
          faults = 0;
        } }
    {
        MemSource {
            bytes,
            at: 0,
            piece,
            fails,
            next_call: 0,
            faults: 0,
        }
    }
}

impl Source for MemSource {
    ghost left = { λ s. Some s.left };

    ghost faults = { λ s. s.faults };

    fn read(&mut self, buf: &mut [u8]) -> Result<usize, Failed>
        requires { 0 < length buf.old }
        ensures bound { IfOk result (λ n. n ≤ length buf.new) }
        ensures bytes { IfOk result
            (λ n. Consumes (⟦<MemSource as Source>⟧.left self.old) (⟦<MemSource as Source>⟧.left self.new)
            (take n buf.new)) }
        ensures end { IfOk result (λ n. n ≡ 0 → IsAtEnd (⟦<MemSource as Source>⟧.left self.new)) }
        ensures failed { OnErr result
            (KeepsOrForgets (⟦<MemSource as Source>⟧.left self.old) (⟦<MemSource as Source>⟧.left self.new)) }
        ensures cause { OnErr result
            (Rose (⟦<MemSource as Source>⟧.faults self.old) (⟦<MemSource as Source>⟧.faults self.new)) }
        ensures no_fault { OnOk result
            (⟦<MemSource as Source>⟧.faults self.new ≡ ⟦<MemSource as Source>⟧.faults self.old) }
        ensures counts { ⟦<MemSource as Source>⟧.faults self.old ≤ ⟦<MemSource as Source>⟧.faults self.new }
        ensures fails { IsErr result ↔ IsTrue (next_fails self.old.schedule) }
        ensures piece { IfOk result (λ n. n ≡ next_piece self.old (length buf.old)) }
        ensures ok { OnOk result (self.new ≡ after_read self.old (length buf.old)) }
        ensures err { OnErr result (self.new ≡ after_failed_read self.old) }
    {
        let fails = next_call_fails(&self.fails, None, &mut self.next_call);
        if fails {
            self.faults = self.faults.saturating_add(1);
            return Err(Failed);
        }
        let count = copy_piece(&self.bytes[self.at..], self.piece, buf);
        self.at += count;
        Ok(count)
    }
}

// Copies the front of what is left, and says how much that is.
fn copy_piece(left: &[u8], piece: usize, buf: &mut [u8]) -> usize
    ensures count { result ≡ min (min piece (length buf.old)) (length left.now) }
    ensures len { length buf.new ≡ length buf.old }
    ensures bytes { take result buf.new ≡ take result left.now }
{
    let count = piece.min(buf.len()).min(left.len());
    buf[..count].copy_from_slice(&left[..count]);
    count
}
