//! Regular files, which no link stands for.

use crate::patience::uninterrupted;
use std::fs::{File, Metadata, OpenOptions};
use std::io::ErrorKind;
use std::os::unix::fs::MetadataExt;
use std::rt::Files;
use std::{fs, io};

/// What a file is opened for.
#[derive(Clone, Copy, PartialEq, Eq)]
pub enum Access {
    Read,
    /// Reading and writing.
    Change,
    /// Reading and writing. It is made where it isn't there.
    Make,
}

/// The regular file of this name. None where nothing has the name, and an error where something else has it.
pub fn find_regular<R: Files>(runtime: &R, path: &str) -> io::Result<Option<Metadata>> {
    match uninterrupted(|| fs::symlink_metadata(runtime, path)) {
        Ok(found) if found.is_file() => Ok(Some(found)),
        Ok(_) => Err(not_regular()),
        Err(error) if error.kind() == ErrorKind::NotFound => Ok(None),
        Err(error) => Err(error),
    }
}

/// Opens the regular file that was found under this name. `std` opens no path without following links, so what was opened
/// is compared with what was found.
pub fn open_regular<R: Files<File = File>>(
    runtime: &R,
    path: &str,
    found: &Metadata,
    access: Access,
) -> io::Result<File> {
    let mut options = OpenOptions::new();
    options.read(true).write(access != Access::Read);
    let file = options.open(runtime, path)?;
    let opened = uninterrupted(|| file.metadata())?;
    if opened.dev() != found.dev() || opened.ino() != found.ino() {
        return Err(not_regular());
    }
    Ok(file)
}

/// Makes a regular file where nothing has the name, and opens it for reading and writing.
pub fn make_regular<R: Files<File = File>>(runtime: &R, path: &str) -> io::Result<File> {
    File::create_new(runtime, path)
}

fn not_regular() -> io::Error {
    io::Error::other("a link or a folder has the name of a file")
}
