//! What a store in memory keeps: the newest version of each file, and what takes each change back.

use crate::file_state::FileState;
use indexmap::IndexMap;

/// A file as a change left it, and the moment from which it has been so.
#[derive(Drop)]
pub struct Version {
    pub state: FileState,
    pub made: usize,
}

/// What takes one change back: the version that the file of this number had, where it had one, and what
/// `synced` was.
#[derive(Drop)]
pub struct Undo {
    pub number: u64,
    pub earlier: Option<Version>,
    pub synced: usize,
}

/// The newest versions by the numbers of their files, what takes each change back, the first change first,
/// and the moment after the last sync. Where a file's version is older than that, removed files of its number
/// can't come back: so a sync leaves the versions of the other files alone.
#[derive(Drop)]
pub struct History {
    pub versions: IndexMap<u64, Version>,
    pub undo: Vec<Undo>,
    pub synced: usize,
}
