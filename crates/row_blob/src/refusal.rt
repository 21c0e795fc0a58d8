//! Why bytes could not be read.

use thiserror::Error;

/// Why bytes were not taken as a kept form.
#[derive(Clone, Copy, Debug, PartialEq, Eq, Error)]
pub enum BlobRefusal {
    /// No kept form of the shape is spelled so, and reading stops at this byte.
    #[error("no kept form: byte {at}")]
    NotBlob { at: u64 },
    #[error("out of memory")]
    Memory,
}
