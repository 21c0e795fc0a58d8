//! The kinds of the columns of each stream.
ghost use Rattle.std.specs.Prelude.{◌≡◌, [], ◌∷◌, ◌++◌, IfOk};
ghost use Rattle.rows_core.specs.Schema as schema;

use plan_core::Schemas;
use rows_core::{Column, Kind, Memory, Seq};
use std::alloc::Global;

/// The kinds where a stream with these columns comes behind the others.
pub(crate) fn with_stream(
    alloc: Global,
    schemas: &Schemas,
    columns: &[Column],
) -> Result<Schemas, Memory>
    ensures { IfOk result (λ next. next.kinds
        ≡ schemas.now.kinds ++ schema.kinds_of columns.now ∷ []) }
{
    let mut kinds = copy_each(alloc, schemas.kinds.items())?;
    kinds.push(kinds_of(alloc, columns)?)?;
    Ok(Schemas {
        kinds: Seq::new(kinds),
    })
}

fn copy_each(alloc: Global, lists: &[Seq<Kind>]) -> Result<Vec<Seq<Kind>>, Memory>
    ensures { IfOk result (λ copies. copies.items ≡ lists.now) }
{
    let mut copies = Vec::new(alloc);
    for kinds in lists {
        copies.push(kinds.try_copy(alloc)?)?;
    }
    Ok(copies)
}

/// The kinds of these columns.
pub(crate) fn kinds_of(alloc: Global, columns: &[Column]) -> Result<Seq<Kind>, Memory>
    ensures { IfOk result (λ kinds. kinds ≡ schema.kinds_of columns.now) }
{
    let mut kinds = Vec::with_capacity(alloc, columns.len())?;
    for column in columns {
        kinds.push(column.kind)?;
    }
    Ok(Seq::new(kinds))
}
