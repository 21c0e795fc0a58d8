//! A block that is being read.
ghost use Rattle.std.specs.Prelude.{◌≡◌, true, false, ℕ, ◌≢◌, ◌∷◌, [], List, Some, None, Err, codes};
ghost use Rattle.script_text.specs.Line.{Holds};
ghost use Rattle.script_text.specs.Script.{Block, block_item, block_limit, spelled_item, append_with, Given};
ghost use Rattle.script_text.specs.Script.{IsWholeItem};
ghost use Rattle.script_text.specs.Words.{behind_word, behind_append, head_name};
ghost use Rattle.script_text.specs.Reader.{IsOf, IsSizeOf, Keeps, with_rows};
ghost use Rattle.script_text.specs.Spelled.{or_syntax};
ghost use Rattle.script_text.specs.declared.answer.Refusal.TheVariants.{Syntax};
ghost use Rattle.script_text.specs.declared.item.Item.TheVariants.{Refused};

use crate::answer::{LimitKind, Refusal};
use crate::item::{Command, Item};
use crate::line::Line;
use crate::words::only_name;
use rows_core::{Memory, Name, Seq, Text};
use std::alloc::Global;

/// The most bytes of a block's row lines, with their LFs.
const MAX_BLOCK_LEN: usize = 67_108_864;

/// What counts for the limits of a block.
#[derive(Clone, Copy)]
pub struct Size {
    /// Whether no line is too long.
    pub lines_fit: bool,
    /// The bytes of the row lines, with their LFs.
    pub len: usize,
}

/// What is kept of a block.
#[derive(Drop)]
pub enum Kept {
    /// The name of the stream and the row lines.
    Append { name: Name, rows: Vec<Text> },
    /// Nothing: the head line has no name, or a limit is passed.
    Nothing,
    /// Nothing, since memory was refused.
    NoMemory,
}

/// A block that isn't ended.
#[derive(Drop)]
pub struct OpenBlock {
    pub size: Size,
    pub kept: Kept,
}

impl Size {
    fn with_row(self, line: &Line) -> Size
        ensures { (block : Block) (bytes : List ℕ) → IsSizeOf self block
            → Holds false line.now.text.items line.now.len bytes
            → IsSizeOf result (with_rows block (bytes ∷ [])) }
    {
        Size {
            lines_fit: self.lines_fit && !line.is_too_long(),
            len: self.len.saturating_add(line.len).saturating_add(1),
        }
    }

    // The limit that is passed, if one is.
    fn limit(self) -> Option<LimitKind>
        ensures { (block : Block) → IsSizeOf self block → result ≡ block_limit block }
    {
        if !self.lines_fit {
            return Some(LimitKind::Line);
        }
        if self.len > MAX_BLOCK_LEN {
            return Some(LimitKind::Block);
        }
        None
    }
}

impl OpenBlock {
    /// The block that begins with this line, of which this stands behind `append`.
    pub fn new(alloc: Global, line: &Line, rest: &[u8]) -> OpenBlock
        requires { behind_word (codes "append") line.now.text.items ≡ Some rest.now }
        ensures { (bytes : List ℕ) → Holds true line.now.text.items line.now.len bytes
            → IsOf result (record { head = bytes; rows = [] }) }
    {
        if line.is_too_long() {
            let size = Size {
                lines_fit: false,
                len: 0,
            };
            let kept = Kept::Nothing;
            return OpenBlock { size, kept };
        }
        let size = Size {
            lines_fit: true,
            len: 0,
        };
        let kept = kept_head(alloc, rest);
        OpenBlock { size, kept }
    }

    /// The block with one more row line.
    pub fn with_row(self, alloc: Global, line: &Line) -> OpenBlock
        ensures { (block : Block) (bytes : List ℕ) → IsOf self block
            → Holds false line.now.text.items line.now.len bytes
            → IsOf result (with_rows block (bytes ∷ [])) }
    {
        let OpenBlock { size, kept } = self;
        let size = size.with_row(line);
        match size.limit() {
            Some(_) => {
                let kept = kept.without_rows();
                OpenBlock { size, kept }
            }
            None => {
                let kept = kept.with_row(alloc, &line.text);
                OpenBlock { size, kept }
            }
        }
    }

    /// What the block gives that is ended.
    pub fn ended(self) -> Item
        ensures given { (block : Block) → IsOf self block → Given (block_item block) result }
        ensures whole { IsWholeItem result }
    {
        let OpenBlock { size, kept } = self;
        match size.limit() {
            Some(kind) => kept.refused(Refusal::Limit(kind)),
            None => kept.into_item(),
        }
    }

    /// What the block gives where the script doesn't end it.
    pub fn unended(&self) -> Item
        ensures given { (block : Block) → IsOf self.now block
            → Given (spelled_item (block_limit block) (Err Syntax)) result }
        ensures whole { IsWholeItem result }
    {
        match self.size.limit() {
            Some(kind) => self.kept.refused(Refusal::Limit(kind)),
            None => self.kept.refused(Refusal::Syntax),
        }
    }
}

impl Kept {
    // What a block gives that is refused: this refusal, or that for want of memory.
    fn refused(&self, refusal: Refusal) -> Item
        ensures given { Given (Refused refusal) result }
        ensures whole { IsWholeItem result }
    {
        match self {
            Kept::NoMemory => Item::Refused(Refusal::Memory),
            Kept::Append { .. } | Kept::Nothing => Item::Refused(refusal),
        }
    }

    // What a block gives that passes no limit.
    fn into_item(self) -> Item
        ensures given { (block : Block) → Keeps self block → block_limit block ≡ None
            → Given (block_item block) result }
        ensures whole { IsWholeItem result }
    {
        match self {
            Kept::Append { name, rows } => append_item(name, rows),
            Kept::Nothing => Item::Refused(Refusal::Syntax),
            Kept::NoMemory => Item::Refused(Refusal::Memory),
        }
    }

    // One more row line, where no limit is passed.
    fn with_row(self, alloc: Global, row: &[u8]) -> Kept
        ensures { (block : Block) → Keeps self block → Keeps result (with_rows block (row.now ∷ [])) }
    {
        match self {
            Kept::Append { name, rows } => with_copy(alloc, name, rows, row),
            Kept::Nothing => Kept::Nothing,
            Kept::NoMemory => Kept::NoMemory,
        }
    }

    // What is still to be kept where a limit is passed.
    fn without_rows(self) -> Kept
        ensures { (block : Block) → block_limit block ≢ None → Keeps result block }
    {
        match self {
            Kept::NoMemory => Kept::NoMemory,
            Kept::Append { .. } | Kept::Nothing => Kept::Nothing,
        }
    }
}

// What is kept of a head line that has this behind `append`.
fn kept_head(alloc: Global, rest: &[u8]) -> Kept
    ensures { (head : List ℕ) → behind_append head ≡ Some rest.now
        → Keeps result (record { head = head; rows = [] }) }
{
    match only_name(alloc, rest) {
        Ok(Some(name)) => Kept::Append {
            name,
            rows: Vec::new(alloc),
        },
        Ok(None) => Kept::Nothing,
        Err(Memory) => Kept::NoMemory,
    }
}

// The row lines with a copy of this one.
fn with_copy(alloc: Global, name: Name, mut rows: Vec<Text>, row: &[u8]) -> Kept
    ensures { (block : Block) → head_name block.head ≡ Some name → rows.items ≡ block.rows
        → Keeps result (with_rows block (row.now ∷ [])) }
{
    let Ok(copy) = Vec::from_slice(alloc, row) else {
        return Kept::NoMemory;
    };
    match rows.push(Seq::new(copy)) {
        Ok(()) => Kept::Append { name, rows },
        Err(_) => Kept::NoMemory,
    }
}

// The append of these row lines; there is one or more.
fn append_item(name: Name, rows: Vec<Text>) -> Item
    ensures item { result ≡ spelled_item None (or_syntax (append_with (Some name) rows.items)) }
    ensures whole { IsWholeItem result }
{
    if rows.is_empty() {
        return Item::Refused(Refusal::Syntax);
    }
    let lines = Seq::new(rows);
    Item::Command(Command::Append { name, lines })
}
