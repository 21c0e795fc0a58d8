//! What a crash leaves of what was written just before it.
ghost use Rattle.std.specs.Prelude.{◌≡◌, ◌⊎◌, ◌==◌, ◌/◌, ◌%◌, ℕ, false, [], ◌∷◌, length, take, IsTrue, IfOk};
ghost use Rattle.std.specs.Prelude.{IsErrOf};
ghost use Rattle.outside_traits.specs.Counts.{Rose};
ghost use Rattle.outside_traits.specs.View.{IsImageAt};
ghost use Rattle.outside_traits.specs.Calls.{MayRaiseWrites, CountsTaken};
ghost use Rattle.outside_traits.specs.Runs.{ChangesOnly};
ghost use Rattle.rows_core.specs.declared.file_ref.Digest.{Digest};
ghost use Rattle.gated_log.specs.Logs.{IsBody, Reads, contents};
ghost use Rattle.mem_outside.specs.Outcomes.{left_of, state_in};
ghost use Rattle.cases_store.specs.Counting.{none};

use extent_files::{FileRefusal, digest_of, read_file, write_file};
use gated_log::{Log, LogRefusal, one_reading};
use mem_outside::MemStore;
use mem_outside::store::InMemory;
use outside_traits::{Failed, Store, Unread};
use rows_core::{FileRef, Memory};
use std::alloc::Global;

/// One of the images that a crash may leave, and the file that was read of it.
#[derive(Drop)]
pub struct FileLeft {
    pub image: MemStore,
    pub read: Result<Vec<u8>, FileRefusal>,
}

/// One of the images that a crash may leave, whether the body was committed, and the bodies that were read of
/// the image.
#[derive(Drop)]
pub struct LogLeft {
    pub image: MemStore,
    pub committed: bool,
    pub read: Result<Vec<Vec<u8>>, LogRefusal>,
}

/// Writes a file, and reads it back from what a crash then leaves, whichever image `pick` takes: its bytes,
/// and never `Damaged`. `Fault` is the answer where a call of the store failed, and what the image's reading
/// answers where one of its own did. All other files are left alone.
pub fn file_after_a_crash(
    alloc: Global,
    store: &mut MemStore,
    file: u64,
    bytes: &[u8],
    pick: u64,
) -> Result<FileLeft, Unread>
    ensures image { IfOk result
        (λ left. IsImageAt (⟦<MemStore as Store>⟧.view store.new)
        (⟦<MemStore as Store>⟧.view store.new).moment (⟦<MemStore as Store>⟧.view left.image).files) }
    // It is the image of the three bits of `pick`.
    ensures picked { IfOk result
        (λ left. (g : ℕ)
        → (⟦<MemStore as Store>⟧.view left.image).files g
        ≡ (left_of (pick % 2 == 1) (pick / 2 % 2) (pick / 4 % 2 == 1)
        (state_in (⟦<MemStore as InMemory>⟧.shown store.new) g)).bytes) }
    // What is read is of the image: it tells that its bytes were taken, and the store that none were.
    ensures read { IfOk result
        (λ left. IfOk left.read
        (λ read. read.items ≡ take (length bytes.now) ((⟦<MemStore as Store>⟧.view left.image).files file))) }
    ensures taken { IfOk result
        (λ left. IfOk left.read
        (λ read. CountsTaken (length read.items) none (⟦<MemStore as Store>⟧.counts left.image))) }
    ensures bytes { IfOk result (λ left. IfOk left.read (λ read. read.items ≡ bytes.now)) }
    ensures damaged { IfOk result
        (λ left. (kept found : Digest) (taken : ℕ)
        → IsErrOf left.read (FileRefusal.Damaged kept found taken) → ⊥) }
    ensures image_fault { IfOk result
        (λ left. IsErrOf left.read FileRefusal.Fault
        → Rose 0 (⟦<MemStore as Store>⟧.counts left.image).reads) }
    ensures fault { IsErrOf result Unread.Fault
        → Rose (⟦<MemStore as Store>⟧.counts store.old).writes
        (⟦<MemStore as Store>⟧.counts store.new).writes }
    ensures counts { MayRaiseWrites (⟦<MemStore as Store>⟧.counts store.old)
        (⟦<MemStore as Store>⟧.counts store.new) }
    ensures alone { ChangesOnly file (⟦<MemStore as Store>⟧.view store.old)
        (⟦<MemStore as Store>⟧.view store.new) }
{
    write_file(store, file, bytes)?;
    let digest = digest_of(bytes);
    let at = FileRef {
        file,
        len: bytes.len() as u64,
        digest,
    };
    let mut image = match store.image(pick) {
        Ok(image) => image,
        Err(Memory) => return Err(Unread::Memory),
    };
    let read = read_file(alloc, &mut image, &at);
    Ok(FileLeft { image, read })
}

/// Makes a log and commits a body to it, and reads the log from what a crash then leaves, whichever image
/// `pick` takes: whether the body was committed, and the bodies that are left. These are none or the body,
/// and the body where it was committed; never is what is left no log. `Fault` is the answer where a call
/// failed before the commit, and what the image's reading answers where one of its own did.
pub fn log_after_a_crash(
    alloc: Global,
    store: &mut MemStore,
    file: u64,
    body: &[u8],
    pick: u64,
) -> Result<LogLeft, Unread>
    requires size { IsBody body.now }
    ensures image { IfOk result
        (λ left. IsImageAt (⟦<MemStore as Store>⟧.view store.new)
        (⟦<MemStore as Store>⟧.view store.new).moment (⟦<MemStore as Store>⟧.view left.image).files) }
    // It is the image of the three bits of `pick`.
    ensures picked { IfOk result
        (λ left. (g : ℕ)
        → (⟦<MemStore as Store>⟧.view left.image).files g
        ≡ (left_of (pick % 2 == 1) (pick / 2 % 2) (pick / 4 % 2 == 1)
        (state_in (⟦<MemStore as InMemory>⟧.shown store.new) g)).bytes) }
    ensures read { IfOk result
        (λ left. IfOk left.read
        (λ read. Reads (contents read.items) ((⟦<MemStore as Store>⟧.view left.image).files file))) }
    ensures taken { IfOk result
        (λ left. IfOk left.read
        (λ read. CountsTaken (length ((⟦<MemStore as Store>⟧.view left.image).files file)) none
        (⟦<MemStore as Store>⟧.counts left.image))) }
    ensures bodies { IfOk result
        (λ left. IfOk left.read
        (λ read. (contents read.items ≡ []) ⊎ (contents read.items ≡ body.now ∷ []))) }
    ensures committed { IfOk result
        (λ left. IsTrue left.committed → IfOk left.read (λ read. contents read.items ≡ body.now ∷ [])) }
    ensures uncommitted { IfOk result
        (λ left. left.committed ≡ false
        → Rose (⟦<MemStore as Store>⟧.counts store.old).writes
        (⟦<MemStore as Store>⟧.counts store.new).writes) }
    ensures is_log { IfOk result (λ left. (at : ℕ) → IsErrOf left.read (LogRefusal.NotLog at) → ⊥) }
    ensures image_fault { IfOk result
        (λ left. IsErrOf left.read LogRefusal.Fault → Rose 0 (⟦<MemStore as Store>⟧.counts left.image).reads
        ⊎ Rose 0 (⟦<MemStore as Store>⟧.counts left.image).writes) }
    ensures fault { IsErrOf result Unread.Fault
        → Rose (⟦<MemStore as Store>⟧.counts store.old).writes
        (⟦<MemStore as Store>⟧.counts store.new).writes }
    ensures counts { MayRaiseWrites (⟦<MemStore as Store>⟧.counts store.old)
        (⟦<MemStore as Store>⟧.counts store.new) }
{
    one_reading();
    let log = match Log::create(store, file) {
        Ok(log) => log,
        Err(Failed) => return Err(Unread::Fault),
    };
    let committed = log.commit(store, body).is_ok();
    let mut image = match store.image(pick) {
        Ok(image) => image,
        Err(Memory) => return Err(Unread::Memory),
    };
    match Log::read(alloc, &mut image, file) {
        Ok((_, bodies)) => Ok(LogLeft {
            image,
            committed,
            read: Ok(bodies),
        }),
        Err(refusal) => Ok(LogLeft {
            image,
            committed,
            read: Err(refusal),
        }),
    }
}
