//! Kept forms: how rows, groups and tagged joins stand in a file.
#![tactic(auto)]

pub mod decoding;
pub mod encoding;
mod groups;
pub mod kept;
pub mod length;
mod number;
mod put;
pub mod refusal;
mod rows;
pub mod shape;
mod tagged;

pub use decoding::{decode, one_place, one_spelling, told_by_all};
pub use encoding::encode;
pub use kept::{Acc, GroupRow, Kept, TaggedRow, copy_accs};
pub use length::encoded_len;
pub use refusal::BlobRefusal;
pub use shape::{AccKind, Shape};
