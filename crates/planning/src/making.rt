//! The making of streams.
ghost use Rattle.std.specs.Prelude.{◌≡◌, ◌⊎◌, ◌<◌, ◌≤◌, ◌^◌, Ok, Err, None, IfOk, IfErr, IsErrOf, length};
ghost use Rattle.std.specs.List.{AllByRecursion};
ghost use Rattle.rows_core.specs.Schema.{IsSchema};
ghost use Rattle.catalog_types.specs.declared.change.Change.TheVariants as change;
ghost use Rattle.catalog_core.specs.Catalogs.{table_of};
ghost use Rattle.catalog_core.specs.Table.{place_of, Fits};
ghost use Rattle.record_codec.specs.Forms.{newest};
ghost use Rattle.record_codec.specs.Spelling.{change_spelling, HasChangeSpelling, IsColumn};
ghost use Rattle.planning.specs.Making.{making, adding};
ghost use Rattle.planning.specs.Recorded.{IsRecordOf};

use crate::recording::{Recording, recording_of};
use catalog_core::Catalog;
use catalog_types::Change;
use record_codec::small_changes;
use rows_core::limits::{MAX_STREAMS, MAX_TICKS};
use rows_core::{Column, Name, Seq, has_repeat};
use script_text::{LimitKind, Refusal};
use std::alloc::Global;

/// The most columns of a stream.
const MAX_COLUMNS: usize = 32;

/// What the making of a stream records, or why it is refused: `Exists` where the name is a stream's, else
/// `IllTyped` where two columns have one name, else the first of the limits of columns, streams and commands
/// that is passed. Each comes exactly where it holds and none before it does, unless memory is wanted.
pub fn plan_stream(
    alloc: Global,
    catalog: &Catalog,
    name: Name,
    columns: Seq<Column>,
) -> Result<Recording, Refusal>
    requires { 0 < length columns }
    ensures ok { IfOk result (λ recording.
        making (table_of catalog.now) name columns ≡ Ok recording.change) }
    ensures change { IfOk result (λ recording. recording.change ≡ change.Stream name columns) }
    ensures recorded { IfOk result (λ recording.
        IsRecordOf (table_of catalog.now) recording.change recording.body.items) }
    ensures err { IfErr result (λ why.
        (making (table_of catalog.now) name columns ≡ Err why) ⊎ (why ≡ Refusal.Memory)) }
    ensures no_fault { IsErrOf result Refusal.Fault → ⊥ }
{
    let change = stream_change(catalog, name, columns)?;
    recording_of(alloc, change)
}

// The change that makes the stream.
fn stream_change(catalog: &Catalog, name: Name, columns: Seq<Column>) -> Result<Change, Refusal>
    requires { 0 < length columns }
    ensures change { result ≡ making (table_of catalog.now) name columns }
    ensures stream { IfOk result (λ recorded. recorded ≡ change.Stream name columns) }
    ensures fits { IfOk result (λ recorded. Fits recorded (table_of catalog.now)) }
    ensures spelled { IfOk result HasChangeSpelling }
    ensures short { IfOk result (λ recorded. length (change_spelling recorded) < 2 ^ 29) }
{
    if catalog.place_of(&name).is_some() {
        return Err(Refusal::Exists(name));
    }
    if has_repeat(columns.items()) {
        return Err(Refusal::IllTyped);
    }
    if columns.items().len() > MAX_COLUMNS {
        return Err(Refusal::Limit(LimitKind::Columns));
    }
    add_stream(catalog, name, columns)
}

// The change that puts the stream behind the others.
fn add_stream(catalog: &Catalog, name: Name, columns: Seq<Column>) -> Result<Change, Refusal>
    requires absent { place_of (table_of catalog.now).streams name ≡ None }
    requires schema { IsSchema columns }
    ensures change { result ≡ adding (table_of catalog.now) name columns }
    ensures stream { IfOk result (λ recorded. recorded ≡ change.Stream name columns) }
    ensures fits { IfOk result (λ recorded. Fits recorded (table_of catalog.now)) }
    ensures spelled { IfOk result HasChangeSpelling }
    ensures short { IfOk result (λ recorded. length (change_spelling recorded) < 2 ^ 29) }
{
    if catalog.streams().len() >= MAX_STREAMS {
        return Err(Refusal::Limit(LimitKind::Streams));
    }
    if catalog.tick() >= MAX_TICKS {
        return Err(Refusal::Limit(LimitKind::Commands));
    }
    let _ = name.bytes();
    read_names(columns.items());
    small_changes();
    Ok(Change::Stream { name, columns })
}

// The columns' names are names, which their type says, and the newest form has each kind. It reads them, and
// does nothing else.
fn read_names(columns: &[Column])
    ensures { AllByRecursion (IsColumn newest) columns.now }
{
    if let [column, others @ ..] = columns {
        let _ = column.name.bytes();
        read_names(others);
    }
}
