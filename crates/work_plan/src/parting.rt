//! New results, taken apart.
ghost use Rattle.std.specs.Prelude.{◌≡◌, IfOk};
ghost use Rattle.std.specs.List.{AllByRecursion};
ghost use Rattle.catalog_types.specs.PlainEntry.{PlainNewEntry};
ghost use Rattle.admission.specs.Admitting.{entries_of};
ghost use Rattle.record_codec.specs.Spelling.{IsNumber};
ghost use Rattle.work_plan.specs.Planning.{files_of};

use admission::NewResult;
use catalog_types::NewEntry;
use rows_core::{Memory, Seq};
use std::alloc::Global;

/// What is recorded of new results, and the bytes of their files.
#[derive(Drop)]
pub(crate) struct Parts {
    pub entries: Vec<NewEntry>,
    pub files: Vec<Seq<u8>>,
}

// The entries of these results and the bytes of their files, in order.
pub(crate) fn taken_apart(alloc: Global, admitted: Vec<NewResult>) -> Result<Parts, Memory>
    ensures entries { IfOk result (λ parts. parts.entries.items ≡ entries_of admitted.items) }
    ensures files { IfOk result (λ parts. parts.files.items ≡ files_of admitted.items) }
    ensures numbers { IfOk result (λ parts. AllByRecursion (λ (new : PlainNewEntry). IsNumber new.machine)
        parts.entries.items) }
{
    let mut entries = Vec::with_capacity(alloc, admitted.len())?;
    let mut files = Vec::with_capacity(alloc, admitted.len())?;
    for new in admitted {
        let _machine = new.entry.machine;
        entries.push(new.entry)?;
        files.push(new.bytes)?;
    }
    Ok(Parts { entries, files })
}
