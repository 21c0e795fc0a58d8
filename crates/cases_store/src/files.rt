//! Files of the store in memory.

use crate::words;
use anyhow::{Context, Result};
use extent_files::{FileRefusal, digest_of, drop_file, read_file, write_file};
use mem_outside::MemStore;
use outside_traits::Store;
use rows_core::{Digest, FileRef};
use std::alloc::Global;

/// The digest of the bytes.
pub fn digest(alloc: Global, arguments: &str) -> Result<String> {
    let bytes = words::bytes(alloc, arguments)?;
    words::shown(alloc, &digest_of(&bytes).bytes)
}

/// The first `LEN` bytes of a file, read against the digest of all.
pub fn front(alloc: Global, store: &mut MemStore, arguments: &str) -> Result<String> {
    let (len, bytes) = words::first(arguments);
    let bytes = words::bytes(alloc, bytes)?;
    write_file(store, 3, &bytes)?;
    let at = FileRef {
        file: 3,
        len: words::number(len)?,
        digest: digest_of(&bytes),
    };
    read_shown(alloc, store, &at)
}

fn read_shown(alloc: Global, store: &mut MemStore, at: &FileRef) -> Result<String> {
    match read_file(alloc, store, at) {
        Ok(bytes) => words::shown(alloc, &bytes),
        Err(FileRefusal::Damaged { kept, found, .. }) => damaged(alloc, &kept, &found),
        Err(refusal) => Err(refusal.into()),
    }
}

fn damaged(alloc: Global, kept: &Digest, found: &Digest) -> Result<String> {
    let kept = words::shown(alloc, &kept.bytes)?;
    let found = words::shown(alloc, &found.bytes)?;
    Ok(format!(in alloc; "damaged: {kept} was kept, {found} found")?)
}

/// The bytes of a file that was dropped.
pub fn dropped(alloc: Global, store: &mut MemStore, arguments: &str) -> Result<String> {
    let bytes = words::bytes(alloc, arguments)?;
    write_file(store, 3, &bytes)?;
    drop_file(store, 3)?;
    words::shown(alloc, store.bytes(3))
}

/// The bytes of a file of these bytes after a write of others at `AT`.
pub fn write(alloc: Global, store: &mut MemStore, arguments: &str) -> Result<String> {
    let (old, arguments) = words::first(arguments);
    let (at, bytes) = words::first(arguments);
    let old = words::bytes(alloc, old)?;
    let bytes = words::bytes(alloc, bytes)?;
    let at = words::number(at)?;
    if at > 1000 || bytes.len() > 1000 {
        return None.context("too far");
    }
    store.put(3, &old)?;
    store.write(3, at, &bytes)?;
    words::shown(alloc, store.bytes(3))
}
