//! Whole files: written, read back and removed.
ghost use Rattle.std.specs.Prelude.{◌≡◌, ℕ, ◌≤◌, true, false, List, length, take, IsTrue, IfOk, IfErr};
ghost use Rattle.std.specs.Prelude.{IsErrOf, OnOk, OnErr};
ghost use Rattle.outside_traits.specs.Counts.{Rose};
ghost use Rattle.outside_traits.specs.View.{View, Counts, Now, Only};
ghost use Rattle.outside_traits.specs.Calls.{Acts, Gone, Idles, StayGone, MayRaiseReads, MayRaiseWrites};
ghost use Rattle.outside_traits.specs.Calls.{MayRaiseRemoves, CountsTaken};
ghost use Rattle.outside_traits.specs.Runs.{ChangesOnly};
ghost use Rattle.extent_files.specs.Files.{digest_of, HasCause, FoundIn};

use crate::digest::digest_of;
use crate::refusal::FileRefusal;
use outside_traits::{Failed, Store, read_front};
use rows_core::FileRef;
use std::alloc::Global;

/// Writes these bytes as the whole file and makes it stable: after `Ok` each crash leaves it so. `Failed`
/// comes only where the store failed in a write, cut or sync, and says nothing of the file. It takes no
/// memory.
pub fn write_file<D: Store>(store: &mut D, file: u64, bytes: &[u8]) -> Result<(), Failed>
    ensures written { IsTrue D.tells → OnOk result ((D.view store.new).files file ≡ bytes.now) }
    ensures there { IsTrue D.tells → OnOk result ((D.view store.new).there file ≡ true) }
    ensures stable { IsTrue D.tells → OnOk result (Only bytes.now (Now (D.view store.new) file)) }
    ensures removals { IsTrue D.tells → OnOk result (StayGone (D.view store.new)) }
    // all other files are left alone
    ensures alone { ChangesOnly file (D.view store.old) (D.view store.new) }
    ensures cause { OnErr result (Rose (D.counts store.old).writes (D.counts store.new).writes) }
    ensures no_fault { OnOk result ((D.counts store.new).writes ≡ (D.counts store.old).writes) }
    ensures counts { MayRaiseWrites (D.counts store.old) (D.counts store.new) }
{
    store.cut(file, 0)?;
    store.write(file, 0, bytes)?;
    store.sync(file)?;
    Ok(())
}

/// Removes the file. `Failed` comes only where the store failed in a remove, and the file is then there or
/// not.
pub fn drop_file<D: Store>(store: &mut D, file: u64) -> Result<(), Failed>
    ensures removed { IsTrue D.tells → OnOk result ((D.view store.new).there file ≡ false) }
    ensures acts { Acts file Gone (D.view store.old) (D.view store.new) }
    ensures cause { OnErr result (Rose (D.counts store.old).removes (D.counts store.new).removes) }
    ensures no_fault { OnOk result ((D.counts store.new).removes ≡ (D.counts store.old).removes) }
    ensures counts { MayRaiseRemoves (D.counts store.old) (D.counts store.new) }
{
    store.remove(file)
}

/// The file's first bytes, as many as count, or all where it is shorter, if their digest is the kept one.
/// `Fault` comes only where the store failed in a size or read, and `Damaged` exactly where the digests
/// differ; it tells how many bytes were read. The bytes are taken once, and none where `Fault` or `Memory` is
/// the answer.
pub fn read_file<D: Store>(
    alloc: Global,
    store: &mut D,
    at: &FileRef,
) -> Result<Vec<u8>, FileRefusal>
    ensures bytes { IsTrue D.tells
        → IfOk result (λ bytes. bytes.items ≡ take at.now.len ((D.view store.old).files at.now.file)) }
    ensures length { IfOk result (λ bytes. length bytes.items ≤ at.now.len) }
    ensures digest { IfOk result (λ bytes. digest_of bytes.items ≡ at.now.digest) }
    ensures cause { IfErr result (HasCause at.now.digest (D.counts store.old) (D.counts store.new)) }
    ensures no_fault { OnOk result ((D.counts store.new).reads ≡ (D.counts store.old).reads) }
    ensures found { IsTrue D.tells
        → IfErr result (FoundIn (take at.now.len ((D.view store.old).files at.now.file))) }
    ensures idles { Idles (D.view store.old) (D.view store.new) }
    ensures counts { MayRaiseReads (D.counts store.old) (D.counts store.new) }
    ensures taken { IfOk result
        (λ bytes. CountsTaken (length bytes.items) (D.counts store.old) (D.counts store.new)) }
{
    let bytes = read_front(alloc, store, at.file, at.len)?;
    let found = digest_of(&bytes);
    if found == at.digest {
        Ok(bytes)
    } else {
        Err(FileRefusal::Damaged {
            kept: at.digest,
            found,
            taken: bytes.len() as u64,
        })
    }
}
