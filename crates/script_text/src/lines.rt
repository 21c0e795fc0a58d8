//! The reader of a script, which takes its bytes in pieces of any length.
ghost use Rattle.std.specs.Prelude.{◌≡◌, ℕ, ◌+◌, ◌<◌, ◌≤◌, List, [], ◌∷◌, ◌++◌, take, length, IfOk, IfSome};
ghost use Rattle.std.specs.Prelude.{IfNone};
ghost use Rattle.script_text.specs.Script.{items, all_items, Given, Completes, IsWholeItem};
ghost use Rattle.script_text.specs.Reader.{IsUnbroken, Stands};

use crate::item::Item;
use crate::line::Line;
use crate::place::Place;
use memchr::memchr;
use rows_core::Memory;
use std::alloc::Global;
use std::mem;

/// Reads a script. It keeps of an unfinished command what is needed to give it, and nothing of what is passed
/// over.
#[derive(Drop)]
pub struct Lines {
    place: Place,
    line: Line,
    alloc: Global,
}

impl Lines {
    /// A reader that has taken nothing. It has the memory for a line; only names, columns and row lines ask
    /// for more.
    pub fn new(alloc: Global) -> Result<Lines, Memory>
        ensures { IfOk result (λ lines. Stands lines []) }
    {
        Ok(Lines {
            place: Place::Outside,
            line: Line::new(alloc)?,
            alloc,
        })
    }

    /// Takes bytes up to the end of the first command, or all of them, and says how many. A command for which
    /// memory was refused comes as that refusal, and the rest of it is passed over without memory.
    pub fn take(&mut self, bytes: &[u8]) -> (usize, Option<Item>)
        ensures bound { result.0 ≤ length bytes.now }
        ensures takes { 0 < length bytes.now → 0 < result.0 }
        ensures all { IfNone result.1 (result.0 ≡ length bytes.now) }
        ensures stands { IfNone result.1
            ((before : List ℕ) → Stands self.old before → Stands self.new (before ++ bytes.now)) }
        ensures item { IfSome result.1 (λ item. (before : List ℕ) → Stands self.old before
            → Stands self.new [] × Completes (before ++ take result.0 bytes.now) item) }
        ensures whole { IfSome result.1 IsWholeItem }
        ensures first { IfSome result.1 (λ _. (before : List ℕ) → Stands self.old before
            → (k : ℕ) → k < result.0 → items (before ++ take k bytes.now) ≡ []) }
    {
        let mut taken = 0;
        while taken < bytes.len() {
            let (count, item) = self.take_line(&bytes[taken..]);
            taken += count;
            if item.is_some() {
                return (taken, item);
            }
        }
        (taken, None)
    }

    /// The script ends here: the item of its last line or of the block that it doesn't end. None exactly
    /// where no command has begun.
    pub fn finish(self) -> Option<Item>
        ensures none { IfNone result ((before : List ℕ) → Stands self before → all_items before ≡ []) }
        ensures item { IfSome result (λ item. (before : List ℕ) → Stands self before
            → (spelled : Item) × Given spelled item × (all_items before ≡ spelled ∷ [])) }
        ensures whole { IfSome result IsWholeItem }
    {
        let Lines { place, line, alloc } = self;
        if line.len == 0 {
            return place.unended();
        }
        let (place, item) = place.after_line(alloc, &line);
        match item {
            Some(item) => Some(item),
            None => place.unended(),
        }
    }

    // Takes bytes up to the end of the line, or all of them.
    fn take_line(&mut self, bytes: &[u8]) -> (usize, Option<Item>)
        requires { 0 < length bytes.now }
        ensures bound { (0 < result.0) × (result.0 ≤ length bytes.now) }
        ensures stands { IfNone result.1 ((before : List ℕ) → Stands self.old before
            → Stands self.new (before ++ take result.0 bytes.now)) }
        ensures item { IfSome result.1 (λ item. (before : List ℕ) → Stands self.old before
            → Stands self.new [] × Completes (before ++ take result.0 bytes.now) item) }
        ensures whole { IfSome result.1 IsWholeItem }
        ensures first { (before : List ℕ) → Stands self.old before
            → (k : ℕ) → k < result.0 → items (before ++ take k bytes.now) ≡ [] }
    {
        match line_len(bytes) {
            Some(len) => {
                let item = self.end_line(&bytes[..len]);
                (len + 1, item)
            }
            None => {
                self.push(bytes);
                (bytes.len(), None)
            }
        }
    }

    // The line goes on with these bytes.
    fn push(&mut self, piece: &[u8])
        requires { IsUnbroken piece.now }
        ensures { (before : List ℕ) → Stands self.old before → Stands self.new (before ++ piece.now) }
    {
        let outside = self.place.is_outside();
        self.line.push(piece, outside);
    }

    // The line ends with these bytes and an LF.
    fn end_line(&mut self, rest: &[u8]) -> Option<Item>
        requires { IsUnbroken rest.now }
        ensures stands { IfNone result ((before : List ℕ) → Stands self.old before
            → Stands self.new (before ++ (rest.now ++ 10 ∷ []))) }
        ensures item { IfSome result (λ item. (before : List ℕ) → Stands self.old before
            → Stands self.new [] × Completes (before ++ (rest.now ++ 10 ∷ [])) item) }
        ensures whole { IfSome result IsWholeItem }
    {
        self.push(rest);
        let place = mem::replace(&mut self.place, Place::Outside);
        let (place, item) = place.after_line(self.alloc, &self.line);
        self.place = place;
        self.line.clear();
        item
    }
}

// The bytes before the first LF, if there is one.
fn line_len(bytes: &[u8]) -> Option<usize>
    ensures none { IfNone result (IsUnbroken bytes.now) }
    ensures some { IfSome result (λ len. IsUnbroken (take len bytes.now) × (len < length bytes.now)
        × (take (len + 1) bytes.now ≡ take len bytes.now ++ 10 ∷ [])) }
{
    memchr(b'\n', bytes)
}
