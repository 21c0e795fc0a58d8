//! What is known of the streams.

use rows_core::{Kind, Seq};

/// The kinds of the columns of each stream, by its number.
#[derive(Drop)]
pub struct Schemas {
    pub kinds: Seq<Seq<Kind>>,
}
