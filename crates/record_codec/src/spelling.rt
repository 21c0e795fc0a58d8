//! The one spelling of a change in the newest form.
ghost use Rattle.std.specs.Prelude.{◌≡◌, ◌++◌, ◌∷◌, [], ◌<◌, ◌^◌, IfOk, OnOk, length};
ghost use Rattle.std.specs.Int.{w32, to_be_bytes};
ghost use Rattle.plan_core.specs.PlainPlan.{plan_of};
ghost use Rattle.plan_spelling.specs.Spelling.{counted, plan_spelling, AreCounted, HasPlanSpelling};
ghost use Rattle.record_codec.specs.Spelling.{listed, sized_spelling, byte_of_kind, column_spelling};
ghost use Rattle.record_codec.specs.Spelling.{cut_spelling, extent_spelling, program_spelling};
ghost use Rattle.record_codec.specs.Spelling.{program_if_spelling, new_entry_spelling, entry_spelling};
ghost use Rattle.record_codec.specs.Spelling.{stream_spelling, snapshot_spelling};
ghost use Rattle.record_codec.specs.Spelling.{change_spelling, kept, kept_of};
ghost use Rattle.record_codec.specs.Spelling.{uses_spelling, numbers_spelling, lists_spelling};
ghost use Rattle.record_codec.specs.Spelling.{IsNumber, IsFile, AreListed, HasExtentSpelling, extent_with};
ghost use Rattle.record_codec.specs.Spelling.{HasProgramSpelling, HasProgramIfSpelling, HasInnerPlan};
ghost use Rattle.record_codec.specs.Spelling.{HasNewEntrySpelling, HasEntrySpelling, HasStreamSpelling};
ghost use Rattle.record_codec.specs.Spelling.{HasSnapshotSpelling, HasChangeSpelling};
ghost use Rattle.record_codec.specs.Forms.{newest};

use crate::form::Form;
use byte_formats::{put_byte, put_digest, put_name, put_u32, put_u64};
use catalog_types::{Change, Entry, Extent, NewEntry, Program, Snapshot, StreamState};
use plan_core::Plan;
use plan_spelling::spell;
use rows_core::{Column, Cut, FileRef, Kind, Memory};
use std::alloc::Global;

/// The bytes of a change in the newest form. The keys of a checkpoint's entries aren't spelled.
pub fn spell_change(alloc: Global, change: &Change) -> Result<Vec<u8>, Memory>
    requires { HasChangeSpelling change.now }
    ensures { IfOk result (λ bytes. bytes.items ≡ change_spelling change.now) }
{
    let mut out = Vec::new(alloc);
    put_change(alloc, &mut out, change)?;
    Ok(out)
}

fn put_change(alloc: Global, out: &mut Vec<u8>, change: &Change) -> Result<(), Memory>
    requires { HasChangeSpelling change.now }
    ensures { OnOk result (out.new.items ≡ out.old.items ++ change_spelling change.now) }
{
    match change {
        Change::Stream { name, columns } => {
            put_byte(out, 0x01)?;
            put_name(out, name)?;
            put_columns(out, columns.items())
        }
        Change::Append { stream, extent } => {
            put_byte(out, 0x02)?;
            put_u32(out, *stream)?;
            put_extent(out, extent.file, extent.rows)
        }
        Change::Work {
            program,
            reads,
            dropped,
            kept,
        } => {
            put_byte(out, 0x03)?;
            put_program_if(out, program)?;
            put_ids(out, reads.items())?;
            put_ids(out, dropped.items())?;
            put_new_entries(alloc, out, kept.items())
        }
        Change::Collect { ids } => {
            put_byte(out, 0x04)?;
            put_ids(out, ids.items())
        }
        Change::Checkpoint { whole } => {
            put_byte(out, Form::NEWEST.checkpoint_byte())?;
            put_snapshot(alloc, out, whole)
        }
    }
}

fn put_ids(out: &mut Vec<u8>, ids: &[u32]) -> Result<(), Memory>
    requires { length ids.now < 2 ^ 32 }
    ensures { OnOk result (out.new.items ≡ out.old.items ++ listed (to_be_bytes w32) ids.now) }
{
    put_u32(out, ids.len() as u32)?;
    for id in ids {
        put_u32(out, *id)?;
    }
    Ok(())
}

fn put_columns(out: &mut Vec<u8>, columns: &[Column]) -> Result<(), Memory>
    requires { length columns.now < 256 }
    ensures { OnOk result (out.new.items ≡ out.old.items ++ counted column_spelling columns.now) }
{
    put_byte(out, columns.len() as u8)?;
    for column in columns {
        put_column(out, column)?;
    }
    Ok(())
}

fn put_column(out: &mut Vec<u8>, column: &Column) -> Result<(), Memory>
    ensures { OnOk result (out.new.items ≡ out.old.items ++ column_spelling column.now) }
{
    put_name(out, &column.name)?;
    put_byte(out, byte_of_kind(column.kind))
}

fn byte_of_kind(kind: Kind) -> u8
    ensures { result ≡ byte_of_kind kind }
{
    match kind {
        Kind::Int => 1,
        Kind::Text => 2,
        Kind::Bool => 3,
    }
}

fn put_cuts(out: &mut Vec<u8>, cuts: &[Cut]) -> Result<(), Memory>
    requires { length cuts.now < 256 }
    ensures { OnOk result (out.new.items ≡ out.old.items ++ counted cut_spelling cuts.now) }
{
    put_byte(out, cuts.len() as u8)?;
    for cut in cuts {
        put_u32(out, cut.from)?;
        put_u32(out, cut.to)?;
    }
    Ok(())
}

fn put_extent(out: &mut Vec<u8>, file: FileRef, rows: u32) -> Result<(), Memory>
    requires { IsFile file }
    ensures { OnOk result (out.new.items ≡ out.old.items ++ extent_spelling (extent_with file rows)) }
{
    put_u32(out, file.file as u32)?;
    put_u32(out, rows)?;
    put_u32(out, file.len as u32)?;
    put_digest(out, &file.digest)
}

/// Bytes behind their length.
fn put_sized(out: &mut Vec<u8>, bytes: &[u8]) -> Result<(), Memory>
    requires { IsNumber (length bytes.now) }
    ensures { OnOk result (out.new.items ≡ out.old.items ++ sized_spelling bytes.now) }
{
    put_u32(out, bytes.len() as u32)?;
    out.extend_from_slice(bytes)?;
    Ok(())
}

fn put_program_if(out: &mut Vec<u8>, program: &Option<Program>) -> Result<(), Memory>
    requires { HasProgramIfSpelling program.now }
    ensures { OnOk result (out.new.items ≡ out.old.items ++ program_if_spelling program.now) }
{
    match program {
        None => put_byte(out, 0),
        Some(program) => {
            put_byte(out, 1)?;
            put_program(out, program)
        }
    }
}

fn put_program(out: &mut Vec<u8>, program: &Program) -> Result<(), Memory>
    requires { HasProgramSpelling program.now }
    ensures { OnOk result (out.new.items ≡ out.old.items ++ program_spelling program.now) }
{
    put_name(out, &program.name)?;
    put_sized(out, program.text.items())?;
    put_cuts(out, program.cuts.items())
}

/// A plan behind the length of its spelling.
fn put_plan(alloc: Global, out: &mut Vec<u8>, plan: &Plan) -> Result<(), Memory>
    requires { HasInnerPlan (plan_of plan.now) }
    ensures { OnOk result
        (out.new.items ≡ out.old.items ++ sized_spelling (plan_spelling (plan_of plan.now))) }
{
    let bytes = spell(alloc, plan)?;
    put_sized(out, &bytes)
}

fn put_new_entry(alloc: Global, out: &mut Vec<u8>, entry: &NewEntry) -> Result<(), Memory>
    requires { HasNewEntrySpelling entry.now }
    ensures { OnOk result (out.new.items ≡ out.old.items ++ new_entry_spelling entry.now) }
{
    put_kept(
        alloc,
        out,
        &entry.plan,
        entry.cuts.items(),
        &entry.file,
        entry.machine,
    )
}

fn put_entry(alloc: Global, out: &mut Vec<u8>, entry: &Entry) -> Result<(), Memory>
    requires { HasEntrySpelling entry.now }
    ensures { OnOk result (out.new.items ≡ out.old.items ++ entry_spelling entry.now) }
{
    put_id(out, entry)?;
    put_kept_of(alloc, out, entry)?;
    put_uses(out, entry)?;
    Ok(())
}

fn put_id(out: &mut Vec<u8>, entry: &Entry) -> Result<(), Memory>
    ensures { OnOk result (out.new.items ≡ out.old.items ++ to_be_bytes w32 entry.now.id) }
{
    put_u32(out, entry.id)
}

fn put_kept_of(alloc: Global, out: &mut Vec<u8>, entry: &Entry) -> Result<(), Memory>
    requires { HasNewEntrySpelling (kept_of entry.now) }
    ensures { OnOk result (out.new.items ≡ out.old.items ++ new_entry_spelling (kept_of entry.now)) }
{
    put_kept(
        alloc,
        out,
        &entry.plan,
        entry.cuts.items(),
        &entry.file,
        entry.machine,
    )
}

fn put_uses(out: &mut Vec<u8>, entry: &Entry) -> Result<(), Memory>
    ensures { OnOk result (out.new.items ≡ out.old.items ++ uses_spelling entry.now) }
{
    put_u32(out, entry.uses)?;
    put_u32(out, entry.last)?;
    put_u32(out, entry.made)
}

/// What an entry has in common with one that has no id yet.
fn put_kept(
    alloc: Global,
    out: &mut Vec<u8>,
    plan: &Plan,
    cuts: &[Cut],
    file: &FileRef,
    machine: u32,
) -> Result<(), Memory>
    requires { HasNewEntrySpelling (kept (plan_of plan.now) cuts.now file.now machine) }
    ensures { OnOk result (out.new.items ≡ out.old.items
        ++ new_entry_spelling (kept (plan_of plan.now) cuts.now file.now machine)) }
{
    put_plan(alloc, out, plan)?;
    put_cuts(out, cuts)?;
    put_u32(out, file.file as u32)?;
    put_u32(out, file.len as u32)?;
    put_digest(out, &file.digest)?;
    put_u32(out, machine)
}

fn put_new_entries(alloc: Global, out: &mut Vec<u8>, entries: &[NewEntry]) -> Result<(), Memory>
    requires { AreListed HasNewEntrySpelling entries.now }
    ensures { OnOk result (out.new.items ≡ out.old.items ++ listed new_entry_spelling entries.now) }
{
    put_u32(out, entries.len() as u32)?;
    for entry in entries {
        put_new_entry(alloc, out, entry)?;
    }
    Ok(())
}

fn put_entries(alloc: Global, out: &mut Vec<u8>, entries: &[Entry]) -> Result<(), Memory>
    requires { AreListed HasEntrySpelling entries.now }
    ensures { OnOk result (out.new.items ≡ out.old.items ++ listed entry_spelling entries.now) }
{
    put_u32(out, entries.len() as u32)?;
    for entry in entries {
        put_entry(alloc, out, entry)?;
    }
    Ok(())
}

fn put_programs(out: &mut Vec<u8>, programs: &[Program]) -> Result<(), Memory>
    requires { AreListed HasProgramSpelling programs.now }
    ensures { OnOk result (out.new.items ≡ out.old.items ++ listed program_spelling programs.now) }
{
    put_u32(out, programs.len() as u32)?;
    for program in programs {
        put_program(out, program)?;
    }
    Ok(())
}

fn put_extents(out: &mut Vec<u8>, extents: &[Extent]) -> Result<(), Memory>
    requires { AreListed HasExtentSpelling extents.now }
    ensures { OnOk result (out.new.items ≡ out.old.items ++ listed extent_spelling extents.now) }
{
    put_u32(out, extents.len() as u32)?;
    for extent in extents {
        put_extent(out, extent.file, extent.rows)?;
    }
    Ok(())
}

fn put_stream(out: &mut Vec<u8>, stream: &StreamState) -> Result<(), Memory>
    requires { HasStreamSpelling newest stream.now }
    ensures { OnOk result (out.new.items ≡ out.old.items ++ stream_spelling stream.now) }
{
    put_name(out, &stream.name)?;
    put_columns(out, stream.columns.items())?;
    put_extents(out, stream.extents.items())
}

fn put_streams(out: &mut Vec<u8>, streams: &[StreamState]) -> Result<(), Memory>
    requires { AreListed (HasStreamSpelling newest) streams.now }
    ensures { OnOk result (out.new.items ≡ out.old.items ++ listed stream_spelling streams.now) }
{
    put_u32(out, streams.len() as u32)?;
    for stream in streams {
        put_stream(out, stream)?;
    }
    Ok(())
}

fn put_snapshot(alloc: Global, out: &mut Vec<u8>, whole: &Snapshot) -> Result<(), Memory>
    requires { HasSnapshotSpelling newest whole.now }
    ensures { OnOk result (out.new.items ≡ out.old.items ++ snapshot_spelling whole.now) }
{
    put_numbers(out, whole)?;
    put_lists(alloc, out, whole)?;
    Ok(())
}

fn put_numbers(out: &mut Vec<u8>, whole: &Snapshot) -> Result<(), Memory>
    ensures { OnOk result (out.new.items ≡ out.old.items ++ numbers_spelling whole.now) }
{
    put_u32(out, whole.tick)?;
    put_u64(out, whole.next_file)?;
    put_u64(out, whole.next_id)?;
    Ok(())
}

fn put_lists(alloc: Global, out: &mut Vec<u8>, whole: &Snapshot) -> Result<(), Memory>
    requires { HasSnapshotSpelling newest whole.now }
    ensures { OnOk result (out.new.items ≡ out.old.items ++ lists_spelling whole.now) }
{
    put_streams(out, whole.streams.items())?;
    put_programs(out, whole.programs.items())?;
    put_entries(alloc, out, whole.entries.items())?;
    Ok(())
}
