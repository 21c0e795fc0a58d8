//! The whole catalogue at a moment.
ghost use Rattle.std.specs.Prelude.{◌≡◌, IfOk};

use crate::entry::Entry;
use crate::extent::Extent;
use crate::program::Program;
use rows_core::{Column, Memory, Name, Seq, copy_columns};
use std::alloc::Global;

/// A stream: its columns, and its extents in the order of their appending.
#[derive(PartialEq, Eq, Drop)]
pub struct StreamState {
    pub name: Name,
    pub columns: Seq<Column>,
    pub extents: Seq<Extent>,
}

/// All that the catalogue holds.
#[derive(Drop)]
pub struct Snapshot {
    /// How many commands have changed it.
    pub tick: u32,
    /// The number of the next extent or result file.
    pub next_file: u64,
    /// The id of the next kept result.
    pub next_id: u64,
    /// In the order of their making.
    pub streams: Seq<StreamState>,
    /// In the byte order of their names.
    pub programs: Seq<Program>,
    /// By their ids.
    pub entries: Seq<Entry>,
}

impl StreamState {
    /// A second state that equals this one.
    pub fn try_copy(&self, alloc: Global) -> Result<StreamState, Memory>
        ensures { IfOk result (λ copy. copy ≡ self.now) }
    {
        Ok(StreamState {
            name: self.name.try_copy(alloc)?,
            columns: Seq::new(copy_columns(alloc, self.columns.items())?),
            extents: self.extents.try_copy(alloc)?,
        })
    }
}

impl Snapshot {
    /// A second snapshot that equals this one.
    pub fn try_copy(&self, alloc: Global) -> Result<Snapshot, Memory>
        ensures { IfOk result (λ copy. copy ≡ self.now) }
    {
        Ok(Snapshot {
            tick: self.tick,
            next_file: self.next_file,
            next_id: self.next_id,
            streams: copy_streams(alloc, self.streams.items())?,
            programs: copy_programs(alloc, self.programs.items())?,
            entries: copy_entries(alloc, self.entries.items())?,
        })
    }
}

fn copy_streams(alloc: Global, streams: &[StreamState]) -> Result<Seq<StreamState>, Memory>
    ensures { IfOk result (λ copies. copies ≡ streams.now) }
{
    let mut copies = Vec::with_capacity(alloc, streams.len())?;
    for stream in streams {
        copies.push(stream.try_copy(alloc)?)?;
    }
    Ok(Seq::new(copies))
}

/// A second list of the same programs.
pub fn copy_programs(alloc: Global, programs: &[Program]) -> Result<Seq<Program>, Memory>
    ensures { IfOk result (λ copies. copies ≡ programs.now) }
{
    let mut copies = Vec::with_capacity(alloc, programs.len())?;
    for program in programs {
        copies.push(program.try_copy(alloc)?)?;
    }
    Ok(Seq::new(copies))
}

/// A second list of the same entries.
pub fn copy_entries(alloc: Global, entries: &[Entry]) -> Result<Seq<Entry>, Memory>
    ensures { IfOk result (λ copies. copies ≡ entries.now) }
{
    let mut copies = Vec::with_capacity(alloc, entries.len())?;
    for entry in entries {
        copies.push(entry.try_copy(alloc)?)?;
    }
    Ok(Seq::new(copies))
}
