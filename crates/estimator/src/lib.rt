//! What the bytes under a plan come to: of the extents of its leaves, and of those that are new since an
//! earlier cut. It takes no memory.
#![tactic(auto)]

pub mod bytes;
pub mod cuts;
pub mod sizes;

pub use bytes::{new_bytes, sides, whole_bytes};
pub use cuts::{are_at_or_before, are_same_cuts, reach};
pub use sizes::Sizes;
