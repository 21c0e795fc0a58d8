//! A catalogue as its line tells it.

use collector::Candidate;
use rows_core::{Name, Schema, Seq, Text};

/// A catalogue: its streams in the order of making, its programs in the byte order of their names, its kept
/// results in the order in which a collection at the next tick takes them, and its tick.
#[derive(Drop)]
pub struct Catalogue {
    pub streams: Vec<StreamLine>,
    pub programs: Vec<ProgramLine>,
    pub results: Vec<Kept>,
    pub tick: u32,
}

/// A stream: its columns, how many extents it has, and the rows of all of them.
#[derive(Drop)]
pub struct StreamLine {
    pub name: Name,
    pub schema: Schema,
    pub extents: u64,
    pub rows: u64,
}

/// A stored program: its name and the text of its plan.
#[derive(Drop)]
pub struct ProgramLine {
    pub name: Name,
    pub text: Text,
}

/// A program with the key of its plan in hexadecimal digits, where it has one.
#[derive(Drop)]
pub struct Keyed {
    pub name: Name,
    pub text: Text,
    pub key: Option<Text>,
}

/// The extents of one leaf of a plan that a result is of: those of this stream from `from` on and below `to`.
#[derive(Drop)]
pub struct LeafCut {
    pub stream: Name,
    pub from: u64,
    pub to: u64,
}

/// A kept result.
#[derive(Drop)]
pub struct Kept {
    /// Its id, the bytes of its file, and both parts of its ratio at the next tick.
    pub standing: Candidate,
    /// Of each leaf of its plan, from the left.
    pub cuts: Seq<LeafCut>,
    /// The key of its plan, in hexadecimal digits.
    pub key: Text,
    pub machine: u32,
    pub uses: u32,
    /// The tick of its last use.
    pub last: u32,
    /// The tick of its making.
    pub made: u32,
}
