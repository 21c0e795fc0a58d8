//! A kept form, read from its file.
ghost use Rattle.std.specs.Prelude.{◌≡◌, ℕ, length, take, IsTrue, IfOk, IfErr, OnOk, MatchResult};
ghost use Rattle.row_blob.specs.Kept.{IsKept};
ghost use Rattle.row_blob.specs.Spelling.{kept_spelling};
ghost use Rattle.row_blob.specs.declared.kept.Kept.{Kept};
ghost use Rattle.outside_traits.specs.View.{View, Counts};
ghost use Rattle.outside_traits.specs.Calls.{Idles, MayRaiseReads, CountsTaken};
ghost use Rattle.extent_files.specs.Files.{digest_of};
ghost use Rattle.extent_files.specs.Reads.{Spells, IsFaultOrMemory, HasCause, FoundIn};

use crate::read_file;
use crate::read_refusal::{ReadRefusal, of_blob, of_file};
use outside_traits::Store;
use row_blob::{Kept, Shape, decode};
use rows_core::FileRef;
use std::alloc::Global;

/// The kept form of this shape that the first bytes of the file spell, as many as count. `Damaged` comes
/// exactly where these haven't the kept digest, `Unreadable` exactly where they have it and no form of the
/// shape is spelled so, both with how many bytes were read, and `Fault` only where the store failed. The bytes
/// are taken once, and none before a fault.
pub fn read_kept<D: Store>(
    alloc: Global,
    store: &mut D,
    at: &FileRef,
    shape: &Shape,
) -> Result<Kept, ReadRefusal>
    ensures spelled { IsTrue D.tells → IfOk result
        (Spells shape.now (take at.now.len ((D.view store.old).files at.now.file))) }
    // What is spelled so, in bytes of the kept digest, is read.
    ensures read { IsTrue D.tells → (kept : Kept)
        → Spells shape.now (take at.now.len ((D.view store.old).files at.now.file)) kept
        → digest_of (kept_spelling kept) ≡ at.now.digest
        → MatchResult result (λ found. found ≡ kept) IsFaultOrMemory }
    // On every store what is given is of the shape, and has the kept digest as a file.
    ensures kept { IfOk result (IsKept shape.now) }
    ensures digest { IfOk result (λ kept. digest_of (kept_spelling kept) ≡ at.now.digest) }
    ensures cause { IfErr result (HasCause at.now (D.counts store.old) (D.counts store.new)) }
    ensures found { IsTrue D.tells → IfErr result (FoundIn shape.now at.now
        (take at.now.len ((D.view store.old).files at.now.file)) (D.counts store.old) (D.counts store.new)) }
    ensures no_fault { OnOk result ((D.counts store.new).reads ≡ (D.counts store.old).reads) }
    ensures taken { IfOk result
        (λ kept. CountsTaken (length (kept_spelling kept)) (D.counts store.old) (D.counts store.new)) }
    ensures idles { Idles (D.view store.old) (D.view store.new) }
    ensures counts { MayRaiseReads (D.counts store.old) (D.counts store.new) }
{
    let file = at.file;
    match read_file(alloc, store, at) {
        Ok(bytes) => match decode(alloc, &bytes, shape) {
            Ok(kept) => Ok(kept),
            Err(refusal) => Err(of_blob(file, bytes.len() as u64, refusal)),
        },
        Err(refusal) => Err(of_file(file, refusal)),
    }
}
