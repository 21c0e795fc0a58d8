//! Where the columns stand in a file's header.
ghost use Rattle.std.specs.Prelude.{◌≡◌, ◌↔◌, Some, IfErr, IfOk, IsTrue};
ghost use Rattle.csv.specs.Records.{field_at, fields_of};
ghost use Rattle.csv_script.specs.Records.{ArePicks, IsAt};
ghost use Rattle.csv_script.specs.Refusals.{IsForHeader, IsForName};
ghost use Rattle.csv_script.specs.declared.header.HeaderRefusal.TheVariants.{Memory};

use crate::pick::Pick;
use csv::ByteRecord;
use rows_core::Column;
use std::alloc::{AllocError, AllocFailed, Global};

/// Why the header doesn't tell where the columns stand.
#[derive(Clone, Copy)]
pub enum HeaderRefusal {
    /// No field is the name of this column, counted from 0.
    Missing { column: usize },
    /// Two fields are the name of this column, counted from 0.
    Repeated { column: usize },
    /// Memory was refused.
    Memory,
}

impl From<AllocError> for HeaderRefusal {
    ghost from_gives = { λ _ e. e ≡ Memory };

    fn from(_error: AllocError) -> HeaderRefusal {
        HeaderRefusal::Memory
    }
}

impl<T: Drop> From<AllocFailed<T>> for HeaderRefusal {
    ghost from_gives = { λ _ e. e ≡ Memory };

    fn from(_error: AllocFailed<T>) -> HeaderRefusal {
        HeaderRefusal::Memory
    }
}

/// Why a name has no place in the header.
#[derive(Clone, Copy)]
enum NameRefusal {
    Missing,
    Repeated,
}

/// The places of the columns in the header, and their kinds. A refusal names a column that hasn't one field of
/// its name.
pub fn picks_of(
    alloc: Global,
    header: &ByteRecord,
    columns: &[Column],
) -> Result<Vec<Pick>, HeaderRefusal>
    ensures ok { IfOk result (λ picks. ArePicks (fields_of header.now) columns.now picks.items) }
    ensures refused { IfErr result (λ why. IsForHeader columns.now (fields_of header.now) why) }
{
    let mut picks = Vec::with_capacity(alloc, columns.len())?;
    for (at, column) in columns.iter().enumerate() {
        match place_of(header, column.name.bytes()) {
            Ok(place) => picks.push(Pick {
                place,
                kind: column.kind,
            })?,
            Err(NameRefusal::Missing) => return Err(HeaderRefusal::Missing { column: at }),
            Err(NameRefusal::Repeated) => return Err(HeaderRefusal::Repeated { column: at }),
        }
    }
    Ok(picks)
}

// The place of the one field that is this name.
fn place_of(header: &ByteRecord, name: &[u8]) -> Result<usize, NameRefusal>
    ensures ok { IfOk result (λ place. IsAt name.now (fields_of header.now) place) }
    ensures refused { IfErr result (λ why. IsForName name.now (fields_of header.now) why) }
{
    let mut found = None;
    for place in 0..header.len() {
        if is_field(header, place, name) {
            if found.is_some() {
                return Err(NameRefusal::Repeated);
            }
            found = Some(place);
        }
    }
    match found {
        Some(place) => Ok(place),
        None => Err(NameRefusal::Missing),
    }
}

// Whether the field at this place is this name.
fn is_field(header: &ByteRecord, place: usize, name: &[u8]) -> bool
    ensures { IsTrue result ↔ (field_at (fields_of header.now) place ≡ Some name.now) }
{
    match header.get(place) {
        Some(field) => field == name,
        None => false,
    }
}
