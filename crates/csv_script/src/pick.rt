//! Where a column's values stand in the records of a file.

use rows_core::Kind;

/// The place of a column in the header, counted from 0, and the kind of its values.
#[derive(Clone, Copy)]
pub struct Pick {
    pub place: usize,
    pub kind: Kind,
}
