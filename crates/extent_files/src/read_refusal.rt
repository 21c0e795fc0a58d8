//! Why a kept form isn't given.
ghost use Rattle.std.specs.Prelude.{◌≡◌};
ghost use Rattle.extent_files.specs.declared.read_refusal.ReadRefusal.TheVariants as read;
ghost use Rattle.extent_files.specs.Refusals.{file_as, blob_as};

use crate::FileRefusal;
use row_blob::BlobRefusal;
use rows_core::{Digest, Memory};
use thiserror::Error;

/// Why the kept form of a file isn't given.
#[derive(Clone, Copy, Debug, PartialEq, Eq, Error)]
pub enum ReadRefusal {
    /// The store failed.
    #[error("the store failed")]
    Fault,
    /// The file's bytes have the digest `found` where `kept` was kept; so many of them were taken.
    #[error("file {file} is damaged")]
    Damaged {
        file: u64,
        kept: Digest,
        found: Digest,
        taken: u64,
    },
    /// The file's bytes are the kept ones, and spell no form of the shape: reading stops at byte `at`. So many
    /// of them were taken.
    #[error("file {file} is unreadable: byte {at}")]
    Unreadable {
        file: u64,
        at: u64,
        taken: u64,
    },
    /// Memory was refused.
    #[error("out of memory")]
    Memory,
}

impl From<Memory> for ReadRefusal {
    ghost from_gives = { λ _ e. e ≡ read.Memory };

    fn from(_memory: Memory) -> ReadRefusal {
        ReadRefusal::Memory
    }
}

// Why a form isn't read, where its file isn't.
pub(crate) fn of_file(file: u64, refusal: FileRefusal) -> ReadRefusal
    ensures { result ≡ file_as file refusal }
{
    match refusal {
        FileRefusal::Fault => ReadRefusal::Fault,
        FileRefusal::Damaged { kept, found, taken } => ReadRefusal::Damaged {
            file,
            kept,
            found,
            taken,
        },
        FileRefusal::Memory => ReadRefusal::Memory,
    }
}

// Why a form isn't read, where the bytes that were taken of its file spell none.
pub(crate) fn of_blob(file: u64, taken: u64, refusal: BlobRefusal) -> ReadRefusal
    ensures { result ≡ blob_as file taken refusal }
{
    match refusal {
        BlobRefusal::NotBlob { at } => ReadRefusal::Unreadable { file, at, taken },
        BlobRefusal::Memory => ReadRefusal::Memory,
    }
}
