//! What the root's bodies name.
ghost use Rattle.std.specs.Prelude.{◌≡◌, ◌≢◌, ◌↔◌, ◌+◌, ◌^◌, ◌<◌, ◌≤◌, ℕ, List, length, take};
ghost use Rattle.std.specs.Prelude.{IsTrue, IfOk, IsErrOf};
ghost use Rattle.gated_log.specs.Logs.{front, contents};
ghost use Rattle.journal_store.specs.Readings.{
  number_bytes,
  numbers_below,
  generations,
  HaveBodies,
  StopsAtNumber,
  StopsReading,
};

use crate::refusal::JournalRefusal;
use byteorder::{BigEndian, ByteOrder};
use gated_log::Log;

// A generation's number as the root has it.
#[tactic(auto, unfolding(crate::specs::Readings::number_bytes))]
pub(crate) fn number_bytes(generation: u64) -> [u8; 8]
    ensures { result ≡ number_bytes generation }
{
    let mut bytes = [0; 8];
    BigEndian::write_u64(&mut bytes, generation);
    bytes
}

// The generation in use, by the root's bodies, or the first byte of a body that isn't the next number.
pub(crate) fn generation_in_use(bodies: &[Vec<u8>]) -> Result<u64, JournalRefusal>
    requires some { 0 < length bodies.now }
    requires bound { length (front (contents bodies.now)) < 2 ^ 63 }
    ensures bound { IfOk result (λ generation. generation < 2 ^ 63) }
    ensures names { IfOk result (λ generation. contents bodies.now ≡ generations generation) }
    ensures stops { (file at : ℕ) → IsErrOf result (JournalRefusal.NotAStore file at)
        → (file ≡ 0) × (i : ℕ) × StopsAtNumber i (contents bodies.now) at }
    ensures no_fault { IsErrOf result JournalRefusal.Fault → ⊥ }
    ensures no_memory { IsErrOf result JournalRefusal.Memory → ⊥ }
{
    let agreed = numbers_agree(bodies);
    if agreed < bodies.len() {
        let at = Log::place(bodies, agreed);
        return Err(JournalRefusal::NotAStore { file: 0, at });
    }
    Ok(bodies.len() as u64 - 1)
}

// How many of the first bodies are the numbers from 0 on.
fn numbers_agree(bodies: &[Vec<u8>]) -> usize
    ensures bound { result ≤ length bodies.now }
    ensures same { take result (contents bodies.now) ≡ numbers_below result }
    ensures differs { result < length bodies.now
        → take (result + 1) (contents bodies.now) ≢ numbers_below (result + 1) }
{
    for i in 0..bodies.len() {
        if !is_number(&bodies[i], i as u64) {
            return i;
        }
    }
    bodies.len()
}

// Whether a body is this generation's number.
fn is_number(body: &[u8], generation: u64) -> bool
    ensures { IsTrue result ↔ (body.now ≡ number_bytes generation) }
{
    let number = number_bytes(generation);
    body == number.as_slice()
}

/// The files have one generation in use with its bodies, or reading them stops at one place, and never both.
pub fn one_journal()
    ensures bodies { (files : ℕ → List ℕ) (g h : ℕ) (ps qs : List (List ℕ))
        → HaveBodies files g ps → HaveBodies files h qs → (g ≡ h) × (ps ≡ qs) }
    ensures place { (files : ℕ → List ℕ) (file at g b : ℕ)
        → StopsReading files file at → StopsReading files g b → (file ≡ g) × (at ≡ b) }
    ensures not_both { (files : ℕ → List ℕ) (g : ℕ) (ps : List (List ℕ)) (file at : ℕ)
        → HaveBodies files g ps → StopsReading files file at → ⊥ }
{}
