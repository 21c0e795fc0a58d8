//! Where the reader of a script is, from line to line.
ghost use Rattle.std.specs.Prelude.{◌≡◌, true, false, ℕ, List, Option, Some, None, is_none, IfSome};
ghost use Rattle.script_text.specs.Line.{Holds};
ghost use Rattle.script_text.specs.Script.{Block, is_end, unended_item, command_item, Given, IsWholeItem};
ghost use Rattle.script_text.specs.Reader.{is_outside, StandsFor, GivenIfAny, AfterLine};

use crate::answer::{LimitKind, Refusal};
use crate::block::OpenBlock;
use crate::dispatch::line_command;
use crate::item::Item;
use crate::line::Line;
use crate::words::{behind_append, is_empty_or_remark};
use std::alloc::Global;

/// Where the reader is after a line.
#[derive(Drop)]
pub enum Place {
    /// Outside of a block.
    Outside,
    /// In a block.
    Block(OpenBlock),
}

impl Place {
    pub fn is_outside(&self) -> bool
        ensures { result ≡ is_outside self.now }
    {
        matches!(self, Place::Outside)
    }

    /// The place after this line, and the item that the line ends.
    pub fn after_line(self, alloc: Global, line: &Line) -> (Place, Option<Item>)
        ensures after { (block : Option Block) (bytes : List ℕ) → StandsFor self block
            → Holds (is_none block) line.now.text.items line.now.len bytes
            → AfterLine block bytes result.0 result.1 }
        ensures whole { IfSome result.1 IsWholeItem }
    {
        match self {
            Place::Outside => after_outside(alloc, line),
            Place::Block(block) if is_end(line) => (Place::Outside, Some(block.ended())),
            Place::Block(block) => (Place::Block(block.with_row(alloc, line)), None),
        }
    }

    /// What a block gives that the script doesn't end.
    pub fn unended(&self) -> Option<Item>
        ensures given { (block : Option Block) → StandsFor self.now block
            → GivenIfAny (unended_item block) result }
        ensures whole { IfSome result IsWholeItem }
    {
        match self {
            Place::Outside => None,
            Place::Block(block) => Some(block.unended()),
        }
    }
}

// The place after a line outside of a block, and the item that the line ends.
fn after_outside(alloc: Global, line: &Line) -> (Place, Option<Item>)
    ensures after { (bytes : List ℕ) → Holds true line.now.text.items line.now.len bytes
        → AfterLine None bytes result.0 result.1 }
    ensures whole { IfSome result.1 IsWholeItem }
{
    if is_empty_or_remark(&line.text) {
        return (Place::Outside, None);
    }
    match behind_append(&line.text) {
        Some(rest) => (Place::Block(OpenBlock::new(alloc, line, rest)), None),
        None => (Place::Outside, Some(command_item(alloc, line))),
    }
}

// What a line gives that is neither passed over nor of a block.
fn command_item(alloc: Global, line: &Line) -> Item
    ensures given { (bytes : List ℕ) → Holds true line.now.text.items line.now.len bytes
        → Given (command_item bytes) result }
    ensures whole { IsWholeItem result }
{
    if line.is_too_long() {
        return Item::Refused(Refusal::Limit(LimitKind::Line));
    }
    match line_command(alloc, &line.text) {
        Ok(command) => Item::Command(command),
        Err(refusal) => Item::Refused(refusal),
    }
}

// Whether this row line ends its block.
fn is_end(line: &Line) -> bool
    ensures { (bytes : List ℕ) → Holds false line.now.text.items line.now.len bytes → result ≡ is_end bytes }
{
    !line.is_too_long() && line.text.as_slice() == b"end".as_slice()
}
