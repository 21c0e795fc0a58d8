//! Appends.
ghost use Rattle.std.specs.Prelude.{◌≡◌, ◌⊎◌, ◌<◌, ◌≤◌, ℕ, List, Ok, Err, IfOk, IfErr, IfSome, IfNone};
ghost use Rattle.std.specs.Prelude.{IsTrue, not, length};
ghost use Rattle.row_blob.specs.declared.kept.Kept.TheVariants as form;
ghost use Rattle.rows_core.specs.declared.value.Value.{Value};
ghost use Rattle.catalog_core.specs.Catalogs.{table_of};
ghost use Rattle.planning.specs.Appending.{appending, append_to};
ghost use Rattle.planning.specs.Rows.{have_long};
ghost use Rattle.script_text.specs.declared.answer.Refusal.TheVariants.{Limit};

use catalog_core::Catalog;
use row_blob::{Kept, encoded_len};
use rows_core::limits::{FILE_END, MAX_ALL_EXTENTS, MAX_EXTENT_BYTES, MAX_EXTENTS, MAX_TICKS};
use script_text::LimitKind;

// The first limit that an append of these rows, whose texts are short, to the stream at this place passes.
pub(crate) fn limit_of_append(catalog: &Catalog, place: usize, kept: &Kept) -> Option<LimitKind>
    requires place { place < length (table_of catalog.now).streams }
    ensures some { (rows : List (List Value)) → kept.now ≡ form.Rows rows → IsTrue (not (have_long rows))
        → IfSome result (λ kind. appending (table_of catalog.now) place rows ≡ Err (Limit kind)) }
    ensures none { (rows : List (List Value)) → kept.now ≡ form.Rows rows → IsTrue (not (have_long rows))
        → IfNone result (appending (table_of catalog.now) place rows ≡ Ok (append_to place rows)) }
{
    if encoded_len(kept) > MAX_EXTENT_BYTES {
        return Some(LimitKind::Extent);
    }
    if catalog.streams()[place].extents().len() >= MAX_EXTENTS {
        return Some(LimitKind::Extents);
    }
    if catalog.extent_count() >= MAX_ALL_EXTENTS {
        return Some(LimitKind::AllExtents);
    }
    if catalog.next_file() >= FILE_END {
        return Some(LimitKind::Files);
    }
    if catalog.tick() >= MAX_TICKS {
        return Some(LimitKind::Commands);
    }
    None
}
