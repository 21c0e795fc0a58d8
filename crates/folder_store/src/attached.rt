//! The folder in use: it is there under a stable name, and no other process has it.

use crate::patience::uninterrupted;
use std::fs::{File, TryLockError};
use std::io::ErrorKind;
use std::path::Path;
use std::rt::Files;
use std::{fs, io};

/// A folder in use. As long as it is held no other process, and no other store of this one, can attach it.
#[derive(Drop)]
pub struct Attached {
    path: String,
    /// The folder's own handle: the lock lies on it and goes with it, and its names are made stable by it.
    handle: File,
}

impl Attached {
    /// Makes the folder and its missing parents, and takes it. Stable are then the folder's name, and that of each folder
    /// that was made.
    pub fn new<R: AllocGlobal + Files<File = File>>(
        runtime: &R,
        folder: &str,
    ) -> io::Result<Attached> {
        let path = String::from_str(runtime.alloc(), folder)?;
        make_folders(runtime, folder)?;
        let handle = File::open(runtime, folder)?;
        lock(&handle)?;
        Ok(Attached { path, handle })
    }

    pub fn path(&self) -> &str {
        self.path.as_str()
    }

    /// Makes the names of the folder's files stable.
    pub fn sync_names(&self) -> io::Result<()> {
        sync_folder(&self.handle)
    }
}

// Takes the lock on a folder, which goes with the process, however that ends.
fn lock(handle: &File) -> io::Result<()> {
    match handle.try_lock() {
        Ok(()) => Ok(()),
        Err(TryLockError::WouldBlock) => {
            let message = "another process has it";
            Err(io::Error::new(ErrorKind::WouldBlock, message))
        }
        Err(TryLockError::Error(error)) => Err(error),
    }
}

// Makes a folder with its missing parents. Where it is there, only its name may not be stable: a run before may have ended
// between making it and making that stable.
fn make_folders<R: AllocGlobal + Files<File = File>>(runtime: &R, path: &str) -> io::Result<()> {
    if is_folder(runtime, path) {
        return sync_name_that_was_there(runtime, path);
    }
    for (end, byte) in path.as_bytes().iter().enumerate() {
        if *byte == b'/' && end > 0 {
            if let Some(parent) = path.get(..end) {
                make_folder(runtime, parent)?;
            }
        }
    }
    make_folder(runtime, path)
}

// Makes a folder, if it is missing. Its name is stable then.
fn make_folder<R: AllocGlobal + Files<File = File>>(runtime: &R, path: &str) -> io::Result<()> {
    match uninterrupted(|| fs::create_dir(runtime, path)) {
        Ok(()) => sync_name(runtime, path),
        Err(_) if is_folder(runtime, path) => sync_name_that_was_there(runtime, path),
        Err(error) => Err(error),
    }
}

fn is_folder<R: Files>(runtime: &R, path: &str) -> bool {
    match uninterrupted(|| fs::metadata(runtime, path)) {
        Ok(metadata) => metadata.is_dir(),
        Err(_) => false,
    }
}

// Makes the name of a folder that was there stable. A parent that may not be opened is let pass.
fn sync_name_that_was_there<R: AllocGlobal + Files<File = File>>(
    runtime: &R,
    path: &str,
) -> io::Result<()> {
    match sync_name(runtime, path) {
        Err(error) if error.kind() == ErrorKind::PermissionDenied => Ok(()),
        done => done,
    }
}

// Makes the name of a folder stable in the folder that it lies in.
fn sync_name<R: AllocGlobal + Files<File = File>>(runtime: &R, path: &str) -> io::Result<()> {
    let parent = format!(in runtime.alloc(); "{path}/..")?;
    sync_folder(&File::open(runtime, parent.as_str())?)
}

// Makes a folder's names stable. Where the system says that a folder can't be synced (EINVAL, on some mounts), that is let
// pass.
fn sync_folder(handle: &File) -> io::Result<()> {
    match handle.sync_all() {
        Err(error) if error.kind() == ErrorKind::InvalidInput => Ok(()),
        done => done,
    }
}
