//! Which appends are accepted.
ghost use Rattle.std.specs.Prelude.{◌≡◌, ◌⊎◌, ◌<◌, ℕ, List, Ok, Err, IfOk, IfErr, IsErrOf, IsTrue};
ghost use Rattle.std.specs.Prelude.{not, length};
ghost use Rattle.rows_core.specs.Schema.{kinds_of};
ghost use Rattle.row_blob.specs.declared.kept.Kept.TheVariants as form;
ghost use Rattle.catalog_core.specs.Catalogs.{table_of};
ghost use Rattle.planning.specs.Appending.{columns_at, appending, append_to, IsAppending};
ghost use Rattle.rows_core.specs.declared.value.Value.{Value};
ghost use Rattle.planning.specs.Rows.{Spell, AreRefused, have_long};

use crate::appending::limit_of_append;
use crate::reading::read_rows;
use catalog_core::Catalog;
use plan_binder::Stream;
use row_blob::Kept;
use rows_core::{Name, Row, Seq, Text};
use script_text::Refusal;
use std::alloc::Global;

/// Rows that are appended, and the place of the stream that gets them.
#[derive(Drop)]
pub struct Accepted {
    pub place: usize,
    /// The rows, as their file keeps them.
    pub kept: Kept,
    /// How many they are.
    pub count: usize,
}

/// The rows that an append of these lines to the stream of this name adds, or why it is refused: `Unknown`
/// where there is no such stream, else `Row` with the number, from 1, of the first line that spells no row of
/// its columns, else the first limit that is passed, of texts, the file, the stream's extents, all extents,
/// files and commands. Each comes exactly where it holds and none before it does, unless memory is wanted.
pub fn accept_append(
    alloc: Global,
    catalog: &Catalog,
    name: Name,
    lines: &[Text],
) -> Result<Accepted, Refusal>
    ensures ok { IfOk result (λ accepted. (rows : List (List Value)) × (accepted.kept ≡ form.Rows rows)
        × IsAppending (table_of catalog.now) name lines.now (Ok (append_to accepted.place rows))
        × (accepted.count ≡ length rows)) }
    ensures place { IfOk result (λ accepted. accepted.place < length (table_of catalog.now).streams) }
    ensures err { IfErr result (λ why.
        IsAppending (table_of catalog.now) name lines.now (Err why) ⊎ (why ≡ Refusal.Memory)) }
    ensures no_fault { IsErrOf result Refusal.Fault → ⊥ }
{
    let Some(place) = catalog.place_of(&name) else {
        return Err(Refusal::Unknown(name));
    };
    match rows_for(alloc, catalog, place, lines) {
        Ok(rows) => within_limits(catalog, place, rows),
        Err(refusal) => Err(refusal),
    }
}

// The rows that the lines spell for the stream at this place, with short texts.
fn rows_for(
    alloc: Global,
    catalog: &Catalog,
    place: usize,
    lines: &[Text],
) -> Result<Vec<Row>, Refusal>
    requires { place < length (table_of catalog.now).streams }
    ensures rows { IfOk result (λ rows.
        Spell (kinds_of (columns_at (table_of catalog.now).streams place)) lines.now rows.items) }
    ensures short { IfOk result (λ rows. IsTrue (not (have_long rows.items))) }
    ensures refused { IfErr result (λ refusal.
        AreRefused (kinds_of (columns_at (table_of catalog.now).streams place)) lines.now refusal) }
{
    read_rows(alloc, lines, catalog.streams()[place].schema())
}

// The rows, unless they pass a limit.
fn within_limits(catalog: &Catalog, place: usize, rows: Vec<Row>) -> Result<Accepted, Refusal>
    requires place { place < length (table_of catalog.now).streams }
    requires short { IsTrue (not (have_long rows.items)) }
    ensures place { IfOk result (λ accepted. accepted.place ≡ place) }
    ensures kept { IfOk result (λ accepted. accepted.kept ≡ form.Rows rows.items) }
    ensures count { IfOk result (λ accepted. accepted.count ≡ length rows.items) }
    ensures ok { IfOk result (λ _.
        appending (table_of catalog.now) place rows.items ≡ Ok (append_to place rows.items)) }
    ensures err { IfErr result (λ why. appending (table_of catalog.now) place rows.items ≡ Err why) }
{
    let count = rows.len();
    let kept = Kept::Rows(Seq::new(rows));
    match limit_of_append(catalog, place, &kept) {
        Some(kind) => Err(Refusal::Limit(kind)),
        None => Ok(Accepted { place, kept, count }),
    }
}
