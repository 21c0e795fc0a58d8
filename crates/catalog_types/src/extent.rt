//! Extents.

use rows_core::FileRef;

/// Rows that were appended to a stream together: the file that they stand in, and how many they are.
#[derive(Clone, Copy, PartialEq, Eq)]
pub struct Extent {
    pub file: FileRef,
    pub rows: u32,
}
