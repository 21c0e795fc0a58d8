//! What appends record.
ghost use Rattle.std.specs.Prelude.{◌≡◌, ◌⊎◌, ◌<◌, ◌+◌, ℕ, List, Ok, Err, IfOk, IfErr, IfSome, IsErrOf};
ghost use Rattle.std.specs.Prelude.{length, slice_get, unwrap_or};
ghost use Rattle.std.specs.Option.{option_map};
ghost use Rattle.rows_core.specs.Schema.{kinds_of};
ghost use Rattle.row_blob.specs.declared.kept.Kept.TheVariants as kept;
ghost use Rattle.row_blob.specs.declared.shape.Shape.TheVariants as shape;
ghost use Rattle.row_blob.specs.Kept.{IsKept};
ghost use Rattle.row_blob.specs.Spelling.{kept_spelling};
ghost use Rattle.catalog_types.specs.declared.change.Change.TheVariants as change;
ghost use Rattle.catalog_core.specs.Catalogs.{table_of};
ghost use Rattle.catalog_core.specs.Table.{FitsAppend, row_count};
ghost use Rattle.record_codec.specs.Spelling.{HasChangeSpelling, extent_with};
ghost use Rattle.planning.specs.Appending.{Append, IsAppending, append_change, file_of, file_bytes, held};
ghost use Rattle.planning.specs.Recorded.{IsRecordOf};

use crate::accepting::{Accepted, accept_append};
use crate::recording::{Recording, recording_of};
use catalog_core::{Catalog, know_table};
use catalog_types::{Change, Extent};
use extent_files::digest_of;
use row_blob::{Kept, encode};
use rows_core::{FileRef, Memory, Name, Seq, Text};
use script_text::Refusal;
use std::alloc::Global;

/// An append: what it records, the bytes of its extent's file, and the rows that the stream then holds.
#[derive(Drop)]
pub struct AppendPlan {
    pub recording: Recording,
    pub bytes: Vec<u8>,
    pub held: u64,
}

/// What an append of the rows that these lines spell records, or why it is refused: `Unknown` where there is
/// no stream of this name, else `Row` with the number, from 1, of the first line that spells no row of its
/// columns, else the first limit that is passed, of texts, the file, the stream's extents, all extents, files
/// and commands. Each comes exactly where it holds and none before it does, unless memory is wanted.
pub fn plan_append(
    alloc: Global,
    catalog: &Catalog,
    name: Name,
    lines: Seq<Text>,
) -> Result<AppendPlan, Refusal>
    requires { 0 < length lines }
    ensures ok { IfOk result (λ plan. (append : Append)
        × IsAppending (table_of catalog.now) name lines (Ok append)
        × (plan.recording.change ≡ append_change (table_of catalog.now) append)
        × IsRecordOf (table_of catalog.now) plan.recording.change plan.recording.body.items
        × (plan.bytes.items ≡ file_bytes append.rows)
        × (plan.held ≡ held (table_of catalog.now) append)
        × IfSome (slice_get (table_of catalog.now).streams append.place) (λ stream.
        IsKept (shape.Rows (kinds_of stream.columns)) (kept.Rows append.rows))) }
    ensures err { IfErr result (λ why.
        IsAppending (table_of catalog.now) name lines (Err why) ⊎ (why ≡ Refusal.Memory)) }
    ensures no_fault { IsErrOf result Refusal.Fault → ⊥ }
{
    know_table(catalog);
    let accepted = accept_append(alloc, catalog, name, lines.items())?;
    record_append(alloc, catalog, accepted)
}

// What the append records, whose rows pass no limit.
fn record_append(
    alloc: Global,
    catalog: &Catalog,
    accepted: Accepted,
) -> Result<AppendPlan, Refusal>
    requires { FitsAppend accepted.place
        (extent_with (file_of (table_of catalog.now).next_file (kept_spelling accepted.kept)) accepted.count)
        (table_of catalog.now) }
    ensures change { IfOk result (λ plan. plan.recording.change ≡ change.Append accepted.place
        (extent_with (file_of (table_of catalog.now).next_file
        (kept_spelling accepted.kept)) accepted.count)) }
    ensures recorded { IfOk result (λ plan.
        IsRecordOf (table_of catalog.now) plan.recording.change plan.recording.body.items) }
    ensures bytes { IfOk result (λ plan. plan.bytes.items ≡ kept_spelling accepted.kept) }
    ensures held { IfOk result (λ plan. plan.held ≡ unwrap_or (option_map row_count
        (slice_get (table_of catalog.now).streams accepted.place)) 0 + accepted.count) }
    ensures err { IfErr result (λ why. why ≡ Refusal.Memory) }
{
    let count = accepted.count as u32;
    let bytes = file_bytes(alloc, &accepted.kept)?;
    let extent = extent_of(catalog, &bytes, count);
    let held = held_with(catalog, accepted.place, count);
    let recording = recording_of(alloc, append_change(catalog, accepted.place, extent))?;
    Ok(AppendPlan {
        recording,
        bytes,
        held,
    })
}

// The bytes of the file that keeps the rows.
fn file_bytes(alloc: Global, kept: &Kept) -> Result<Vec<u8>, Refusal>
    requires { length (kept_spelling kept.now) < 18446744073709551616 }
    ensures bytes { IfOk result (λ bytes. bytes.items ≡ kept_spelling kept.now) }
    ensures err { IfErr result (λ why. why ≡ Refusal.Memory) }
{
    match encode(alloc, kept) {
        Ok(bytes) => Ok(bytes),
        Err(Memory) => Err(Refusal::Memory),
    }
}

// So many rows as an extent in the next file, which has these bytes.
fn extent_of(catalog: &Catalog, bytes: &[u8], count: u32) -> Extent
    ensures extent { result ≡ extent_with (file_of (table_of catalog.now).next_file bytes.now) count }
    ensures digest { length result.file.digest.bytes ≡ 32 }
{
    Extent {
        file: FileRef {
            file: catalog.next_file(),
            len: bytes.len() as u64,
            digest: digest_of(bytes),
        },
        rows: count,
    }
}

// The change that puts the extent behind those of the stream at this place.
fn append_change(catalog: &Catalog, place: usize, extent: Extent) -> Change
    requires fits { FitsAppend place extent (table_of catalog.now) }
    requires digest { length extent.file.digest.bytes ≡ 32 }
    ensures change { result ≡ change.Append place extent }
    ensures spelled { HasChangeSpelling result }
{
    know_table(catalog);
    Change::Append {
        stream: place as u32,
        extent,
    }
}

// The rows of the stream at this place, with so many more.
fn held_with(catalog: &Catalog, place: usize, count: u32) -> u64
    requires { place < length (table_of catalog.now).streams }
    ensures { result ≡ unwrap_or (option_map row_count
        (slice_get (table_of catalog.now).streams place)) 0 + count }
{
    let stream = &catalog.streams()[place];
    // It has 65,535 extents at most, each with fewer than 2^32 rows.
    let _ = stream.extents();
    stream.rows() + u64::from(count)
}
