//! What a reader expects of a file.

use rows_core::{Kind, Seq};

/// What kind of accumulator an aggregate keeps.
#[derive(Clone, Copy, PartialEq, Eq)]
pub enum AccKind {
    Count,
    Sum,
    Avg,
    /// A value of this kind.
    Pick(Kind),
}

/// The form of what a file holds, with the kinds of its columns.
#[derive(Drop)]
pub enum Shape {
    Rows(Seq<Kind>),
    Groups { keys: Seq<Kind>, accs: Seq<AccKind> },
    Tagged(Seq<Kind>),
}
