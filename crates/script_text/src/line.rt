//! The line that is being read.
ghost use Rattle.std.specs.Prelude.{◌≡◌, ◌<◌, ◌≤◌, List, ℕ, [], ◌++◌, Bool, true, false, nat_lt, IfOk};
ghost use Rattle.std.specs.Prelude.{vec_len, vec_capacity};
ghost use Rattle.script_text.specs.Line.{Holds, counted};
ghost use Rattle.script_text.specs.Script.{longest_line};

use crate::words::trim_start;
use rows_core::Memory;
use std::alloc::Global;

/// The most bytes of a line, without its LF.
const MAX_LINE_LEN: usize = 65_536;

/// What is kept of a line: as many bytes as a line may have, and the line's length. Outside of a block the
/// spaces at its front aren't kept.
#[derive(Drop)]
pub struct Line {
    pub text: Vec<u8>,
    pub len: usize,
    ghost room: { longest_line ≤ vec_capacity text },
    ghost bound: { vec_len text ≤ longest_line },
}

impl Line {
    /// An empty line, with all the memory that it will need.
    pub fn new(alloc: Global) -> Result<Line, Memory>
        ensures { IfOk result (λ line. (outside : Bool) → Holds outside line.text.items line.len []) }
    {
        Ok(Line {
            text: Vec::with_capacity(alloc, MAX_LINE_LEN)?,
            len: 0,
        })
    }

    /// The line goes on with these bytes.
    pub fn push(&mut self, piece: &[u8], outside: bool)
        ensures { (bytes : List ℕ) → Holds outside self.old.text.items self.old.len bytes
            → Holds outside self.new.text.items self.new.len (bytes ++ piece.now) }
    {
        let counted = counted_part(&self.text, piece, outside);
        let room = MAX_LINE_LEN - self.text.len();
        let front = &counted[..counted.len().min(room)];
        match self.text.extend_from_slice(front) {
            Ok(()) => self.len = self.len.saturating_add(piece.len()),
            Err(_) => unreachable!(),
        }
    }

    /// A new line begins.
    pub fn clear(&mut self)
        ensures { (outside : Bool) → Holds outside self.new.text.items self.new.len [] }
    {
        self.text.clear();
        self.len = 0;
    }

    pub fn is_too_long(&self) -> bool
        ensures { result ≡ nat_lt longest_line self.now.len }
    {
        self.len > MAX_LINE_LEN
    }
}

// What the next bytes add to a line of which this much counts.
fn counted_part<'a>(text: &[u8], piece: &'a [u8], outside: bool) -> &'a [u8]
    ensures { result.now ≡ counted outside text.now piece.entry.now }
{
    match text {
        [] if outside => trim_start(piece),
        _ => piece,
    }
}
