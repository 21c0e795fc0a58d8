//! The first bytes of a file, in one read.
ghost use Rattle.std.specs.Prelude.{◌≡◌, ◌^◌, ◌<◌, ◌≤◌, length, take, IsTrue, IfOk, IsErrOf, OnOk, OnErr};
ghost use Rattle.outside_traits.specs.Counts.{Rose};
ghost use Rattle.outside_traits.specs.Calls.{Idles, MayRaiseReads, CountsTaken};
ghost use Rattle.outside_traits.specs.declared.front.Unread.TheVariants.{Fault, Memory};

use crate::failed::Failed;
use crate::store::Store;
use std::alloc::{AllocError, Global};
use thiserror::Error;

/// Why a file's bytes weren't read.
#[derive(Clone, Copy, Debug, PartialEq, Eq, Error)]
pub enum Unread {
    /// The store failed.
    #[error("the store failed")]
    Fault,
    /// Memory was refused.
    #[error("out of memory")]
    Memory,
}

impl From<Failed> for Unread {
    ghost from_gives = { λ _ e. e ≡ Fault };

    fn from(_failed: Failed) -> Unread {
        Unread::Fault
    }
}

impl From<AllocError> for Unread {
    ghost from_gives = { λ _ e. e ≡ Memory };

    fn from(_error: AllocError) -> Unread {
        Unread::Memory
    }
}

/// The file's first `len` bytes, or all where it is shorter. `Fault` comes only where the store failed in a
/// size or read. The bytes that are given are taken, once, and none after a refusal.
pub fn read_front<D: Store>(
    alloc: Global,
    store: &mut D,
    file: u64,
    len: u64,
) -> Result<Vec<u8>, Unread>
    ensures bytes { IsTrue D.tells
        → IfOk result (λ bytes. bytes.items ≡ take len ((D.view store.old).files file)) }
    ensures length { IfOk result (λ bytes. length bytes.items ≤ len) }
    // No file has more bytes than a u64 counts, so the greatest one as `len` reads all.
    ensures fits { IsTrue D.tells → OnOk result (length ((D.view store.old).files file) < 2 ^ 64) }
    ensures fault { IsErrOf result Unread.Fault → Rose (D.counts store.old).reads (D.counts store.new).reads }
    ensures no_fault { OnOk result ((D.counts store.new).reads ≡ (D.counts store.old).reads) }
    ensures memory { IsErrOf result Unread.Memory → (D.counts store.new).reads ≡ (D.counts store.old).reads }
    ensures idles { Idles (D.view store.old) (D.view store.new) }
    ensures counts { MayRaiseReads (D.counts store.old) (D.counts store.new) }
    ensures taken { IfOk result
        (λ bytes. CountsTaken (length bytes.items) (D.counts store.old) (D.counts store.new)) }
    ensures none_taken { OnErr result ((D.counts store.new).taken ≡ (D.counts store.old).taken) }
{
    let size = store.size(file)?;
    let mut bytes = vec![in alloc; 0u8; size.min(len) as usize]?;
    let count = store.read(file, 0, bytes.as_mut_slice())?;
    bytes.truncate(count);
    Ok(bytes)
}
