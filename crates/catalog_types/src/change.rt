//! Changes of the catalogue.
ghost use Rattle.std.specs.Prelude.{◌≡◌, IfOk};

use crate::entry::NewEntry;
use crate::extent::Extent;
use crate::program::Program;
use crate::snapshot::Snapshot;
use rows_core::{Column, Memory, Name, Seq, copy_columns};
use std::alloc::Global;

/// What one command changes.
#[derive(Drop)]
pub enum Change {
    /// A new stream.
    Stream {
        name: Name,
        columns: Seq<Column>,
    },
    /// Rows behind those of a stream, which is named by its number.
    Append {
        stream: u32,
        extent: Extent,
    },
    /// What a plan that was run leaves behind: the program that it is stored as, if it is, the ids of the
    /// kept results that were read, those of the dropped ones, and the results that are kept from now on.
    Work {
        program: Option<Program>,
        reads: Seq<u32>,
        dropped: Seq<u32>,
        kept: Seq<NewEntry>,
    },
    /// Kept results go.
    Collect {
        ids: Seq<u32>,
    },
    /// All of the catalogue, as the first change of a log.
    Checkpoint {
        whole: Snapshot,
    },
}

impl Change {
    /// A second change that equals this one.
    pub fn try_copy(&self, alloc: Global) -> Result<Change, Memory>
        ensures { IfOk result (λ copy. copy ≡ self.now) }
    {
        Ok(match self {
            Change::Stream { name, columns } => Change::Stream {
                name: name.try_copy(alloc)?,
                columns: Seq::new(copy_columns(alloc, columns.items())?),
            },
            Change::Append { stream, extent } => Change::Append {
                stream: *stream,
                extent: *extent,
            },
            Change::Work {
                program,
                reads,
                dropped,
                kept,
            } => Change::Work {
                program: copy_program(alloc, program)?,
                reads: reads.try_copy(alloc)?,
                dropped: dropped.try_copy(alloc)?,
                kept: copy_kept(alloc, kept)?,
            },
            Change::Collect { ids } => Change::Collect {
                ids: ids.try_copy(alloc)?,
            },
            Change::Checkpoint { whole } => Change::Checkpoint {
                whole: whole.try_copy(alloc)?,
            },
        })
    }
}

fn copy_program(alloc: Global, program: &Option<Program>) -> Result<Option<Program>, Memory>
    ensures { IfOk result (λ copy. copy ≡ program.now) }
{
    match program {
        Some(program) => Ok(Some(program.try_copy(alloc)?)),
        None => Ok(None),
    }
}

fn copy_kept(alloc: Global, kept: &Seq<NewEntry>) -> Result<Seq<NewEntry>, Memory>
    ensures { IfOk result (λ copies. copies ≡ kept.now) }
{
    let mut copies = Vec::new(alloc);
    for entry in kept.items() {
        copies.push(entry.try_copy(alloc)?)?;
    }
    Ok(Seq::new(copies))
}
