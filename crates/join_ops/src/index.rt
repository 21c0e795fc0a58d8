//! The right rows of a join by their key.
ghost use Rattle.std.specs.Prelude.{◌≡◌, OnOk, IfOk, [], ◌∷◌, ◌++◌, if◌then◌else◌};
ghost use Rattle.rows_core.specs.Value.{row_eq};
ghost use Rattle.plan_core.specs.Columns.{no_value};
ghost use Rattle.join_ops.specs.RowsByKey.{Key, lent, rows_under, HasRowsByKey};

use crate::key::right_key;
use indexmap::IndexMap;
use rows_core::{Memory, Row, Value};
use std::alloc::Global;

/// Right rows by the values that a join compares, both lent.
pub type RowsByKey<'a> = IndexMap<Vec<&'a Value>, Vec<&'a Row>>;

/// The right rows by their key. `absent` stands for a column that isn't there.
pub fn rows_by_key<'a>(
    alloc: Global,
    rights: &'a [Row],
    on: &[(u32, u32)],
    absent: &'a Value,
) -> Result<RowsByKey<'a>, Memory>
    requires { absent.now ≡ no_value }
    ensures { IfOk result (λ index. HasRowsByKey on.now rights.now index) }
{
    let mut index = IndexMap::new(alloc);
    for row in rights {
        let key = right_key(alloc, row, on, absent)?;
        put_row(alloc, &mut index, key, row)?;
    }
    Ok(index)
}

// Puts the row behind those with its key.
fn put_row<'a>(
    alloc: Global,
    index: &mut RowsByKey<'a>,
    key: Vec<&'a Value>,
    row: &'a Row,
) -> Result<(), Memory>
    ensures { OnOk result ((other : Key) → rows_under index.new other ≡ rows_under index.old other
        ++ (if row_eq (lent key.entry) (lent other) then row.now ∷ [] else [])) }
{
    if let Some(rows) = index.get_mut(&key) {
        rows.push(row)?;
        return Ok(());
    }
    let mut rows = Vec::new(alloc);
    rows.push(row)?;
    index.insert(key, rows)?;
    Ok(())
}
