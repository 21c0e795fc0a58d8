//! The rows of extents, read from their files.
ghost use Rattle.std.specs.Prelude.{◌≡◌, ℕ, length, take, IsTrue, IfOk, IfErr, IfSome, IfNone, OnOk, List};
ghost use Rattle.rows_core.specs.declared.file_ref.FileRef.{FileRef};
ghost use Rattle.rows_core.specs.declared.value.Value.{Value};
ghost use Rattle.row_blob.specs.Spelling.{kept_spelling};
ghost use Rattle.row_blob.specs.declared.shape.Shape.TheVariants as shape;
ghost use Rattle.row_blob.specs.declared.kept.Kept.TheVariants as form;
ghost use Rattle.plan_core.specs.PlainPlan.{Scan};
ghost use Rattle.executor.specs.Pieces.{HasTyping};
ghost use Rattle.plan_laws.specs.PlanShape.{plan_shape};
ghost use Rattle.outside_traits.specs.View.{View, Counts};
ghost use Rattle.outside_traits.specs.Calls.{Idles, MayRaiseReads, CountsTaken};
ghost use Rattle.rewrite_core.specs.Files.{Extent};
ghost use Rattle.extent_files.specs.Reads.{HasCause, FoundIn};
ghost use Rattle.executor.specs.Reads.{MayBeRead};

use crate::shape_of;
use extent_files::{ReadRefusal, read_kept};
use outside_traits::Store;
use plan_core::Plan;
use rewrite_core::Places;
use row_blob::Kept;
use rows_core::Row;
use std::alloc::Global;

/// The rows of an extent of a stream, read from its file. The refusals are those of reading a kept form.
pub fn read_extent<D: Store, P: Places>(
    alloc: Global,
    stream: u32,
    number: u32,
    store: &mut D,
    places: &P,
) -> Result<Vec<Row>, ReadRefusal>
    requires typed { HasTyping (P.stream_kinds places.now) (Scan stream) }
    requires there { P.has places.now (Extent stream number) }
    ensures rows { let at = P.files places.now (Extent stream number) in IfOk result
        (λ rows. MayBeRead D.tells (plan_shape (P.stream_kinds places.now) (Scan stream)) at
        ((D.view store.old).files at.file) (form.Rows rows.items)) }
    ensures taken { IfOk result (λ rows. CountsTaken (length (kept_spelling (form.Rows rows.items)))
        (D.counts store.old) (D.counts store.new)) }
    ensures cause { IfErr result
        (HasCause (P.files places.now (Extent stream number)) (D.counts store.old) (D.counts store.new)) }
    ensures found { let at = P.files places.now (Extent stream number) in IsTrue D.tells → IfErr result
        (FoundIn (plan_shape (P.stream_kinds places.now) (Scan stream)) at
        (take at.len ((D.view store.old).files at.file)) (D.counts store.old) (D.counts store.new)) }
    ensures no_fault { OnOk result ((D.counts store.new).reads ≡ (D.counts store.old).reads) }
    ensures idles { Idles (D.view store.old) (D.view store.new) }
    ensures counts { MayRaiseReads (D.counts store.old) (D.counts store.new) }
{
    let shape = shape_of(alloc, places.schemas(), &Plan::Scan { stream })?;
    let at = places.extent(stream, number);
    let kept = read_kept(alloc, store, &at, &shape)?;
    match rows_in(kept) {
        Some(rows) => Ok(rows),
        None => unreachable!(),
    }
}

// The rows of a kept form that is plain rows.
fn rows_in(kept: Kept) -> Option<Vec<Row>>
    ensures rows { IfSome result (λ rows. kept ≡ form.Rows rows.items) }
    ensures none { IfNone result ((rows : List (List Value)) → kept ≡ form.Rows rows → ⊥) }
{
    match kept {
        Kept::Rows(rows) => Some(rows.into_vec()),
        _ => None,
    }
}
