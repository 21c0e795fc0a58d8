//! Results that are to be kept.

use catalog_types::NewEntry;
use rows_core::Seq;

/// A result that is to be kept: what is recorded of it, and the bytes of its file.
#[derive(Drop)]
pub struct NewResult {
    pub entry: NewEntry,
    pub bytes: Seq<u8>,
}
