//! What bytes read as.
ghost use Rattle.std.specs.Prelude.{◌≡◌, ◌≢◌, ◌+◌, ◌^◌, ◌<◌, ◌≤◌, ◌++◌, ℕ, List, length, take, IfOk, IsErrOf};
ghost use Rattle.std.specs.Prelude.{MatchOption};
ghost use Rattle.std.specs.List.{All};
ghost use Rattle.gated_log.specs.Logs.{header, front, spelled, contents, IsBody, NoBody, Reads, StopsAt};

use crate::refusal::LogRefusal;
use std::alloc::Global;

/// `NXL1` and four zero bytes.
const HEADER: [u8; 8] = [78, 88, 76, 49, 0, 0, 0, 0];

const OPEN: u8 = 1;

/// What a log's bytes hold.
#[derive(Drop)]
pub(crate) struct Parsed {
    pub(crate) bodies: Vec<Vec<u8>>,
    /// The place after the last gate.
    pub(crate) end: usize,
}

// The bodies of a log, or the first byte where reading stops.
pub(crate) fn parse(alloc: Global, bytes: &[u8]) -> Result<Parsed, LogRefusal>
    ensures bodies { IfOk result (λ parsed. Reads (contents parsed.bodies.items) bytes.now) }
    ensures sizes { IfOk result (λ parsed. All IsBody (contents parsed.bodies.items)) }
    ensures end { IfOk result (λ parsed. parsed.end ≡ length (front (contents parsed.bodies.items)) + 1) }
    ensures bound { IfOk result (λ parsed. parsed.end ≤ length bytes.now) }
    ensures not_log { (at : ℕ) → IsErrOf result (LogRefusal.NotLog at) → StopsAt at bytes.now }
    ensures no_fault { IsErrOf result LogRefusal.Fault → ⊥ }
{
    let agreed = header_agrees(bytes);
    if agreed < 8 {
        return Err(LogRefusal::NotLog { at: agreed as u64 });
    }
    parse_blocks(alloc, bytes)
}

// How many of the first bytes are those of the header.
fn header_agrees(bytes: &[u8]) -> usize
    ensures bound { result ≤ 8 }
    ensures same { take result bytes.now ≡ take result header }
    ensures differs { result < 8 → take (result + 1) bytes.now ≢ take (result + 1) header }
{
    for i in 0..8 {
        if i >= bytes.len() || bytes[i] != HEADER[i] {
            return i;
        }
    }
    8
}

// The bodies behind the header.
fn parse_blocks(alloc: Global, bytes: &[u8]) -> Result<Parsed, LogRefusal>
    requires { take 8 bytes.now ≡ header }
    ensures bodies { IfOk result (λ parsed. Reads (contents parsed.bodies.items) bytes.now) }
    ensures sizes { IfOk result (λ parsed. All IsBody (contents parsed.bodies.items)) }
    ensures end { IfOk result (λ parsed. parsed.end ≡ length (front (contents parsed.bodies.items)) + 1) }
    ensures bound { IfOk result (λ parsed. parsed.end ≤ length bytes.now) }
    ensures not_log { (at : ℕ) → IsErrOf result (LogRefusal.NotLog at) → StopsAt at bytes.now }
    ensures no_fault { IsErrOf result LogRefusal.Fault → ⊥ }
{
    let mut bodies = Vec::new(alloc);
    let mut rest = &bytes[8..];
    while let [gate, more @ ..] = rest {
        if *gate != OPEN {
            let end = bytes.len() - more.len();
            return Ok(Parsed { bodies, end });
        }
        match first_body(more) {
            Some((body, after)) => {
                bodies.push(Vec::from_slice(alloc, body)?)?;
                rest = after;
            }
            None => {
                let at = (bytes.len() - rest.len()) as u64;
                return Err(LogRefusal::NotLog { at });
            }
        }
    }
    let at = bytes.len() as u64;
    Err(LogRefusal::NotLog { at })
}

// The body at the front of these bytes, and what stands behind it.
fn first_body(bytes: &[u8]) -> Option<(&[u8], &[u8])>
    ensures { MatchOption result (NoBody bytes.now)
        (λ parts. IsBody parts.0.now × (bytes.now ≡ spelled parts.0.now ++ parts.1.now)) }
{
    match bytes {
        [a, b, c, d, more @ ..] => {
            let len = u32::from_be_bytes([*a, *b, *c, *d]) as usize;
            if len == 0 || more.len() < len {
                return None;
            }
            Some(more.split_at(len))
        }
        _ => None,
    }
}

/// Each file has one reading, or it stops at one place, and never both.
pub fn one_reading()
    ensures bodies { (ps qs : List (List ℕ)) (file : List ℕ) → Reads ps file → Reads qs file → ps ≡ qs }
    ensures place { (a b : ℕ) (file : List ℕ) → StopsAt a file → StopsAt b file → a ≡ b }
    ensures not_both { (ps : List (List ℕ)) (at : ℕ) (file : List ℕ) → Reads ps file → StopsAt at file → ⊥ }
{}

// How long a log of these bodies is up to its last gate.
pub(crate) fn length_of_front(bodies: &[Vec<u8>]) -> u64
    requires { length (front (contents bodies.now)) < 2 ^ 64 }
    ensures { result ≡ length (front (contents bodies.now)) }
{
    let mut len = 8;
    for body in bodies {
        len += 5 + body.len() as u64;
    }
    len
}
