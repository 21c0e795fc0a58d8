//! Why bytes are no change.

use thiserror::Error;

/// Why bytes were not taken as a change.
#[derive(Clone, Copy, Debug, PartialEq, Eq, Error)]
pub enum ChangeRefusal {
    /// No change is spelled so, and reading stops at this byte.
    #[error("no change: byte {at}")]
    NotChange { at: u64 },
    #[error("out of memory")]
    Memory,
}
