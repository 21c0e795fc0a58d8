//! Rows in order.
ghost use Rattle.std.specs.Prelude.{◌≡◌, ◌++◌, IfOk};
ghost use Rattle.plan_core.specs.StableOrder.{order_rows};

use plan_laws::one_stable_order;
use rows_core::{Key, Memory, Row, cmp_by, total_order};
use std::alloc::Global;

/// The rows in the one stable order by these keys: `OrderBy` and `ThenBy` of LINQ to Objects.
pub fn order_rows(alloc: Global, rows: Vec<Row>, keys: &[Key]) -> Result<Vec<Row>, Memory>
    ensures { IfOk result (λ ordered. ordered.items ≡ order_rows keys.now rows.items) }
{
    total_order();
    one_stable_order();
    let mut ordered = rows;
    ordered.sort_by(|a, b| cmp_by(a, b, keys))?;
    Ok(ordered)
}

/// The rows of both lists in the one stable order by these keys, which takes one pass where both are ordered:
/// of rows with equal keys the old ones come first.
pub fn merge_ordered(
    alloc: Global,
    old: Vec<Row>,
    new: Vec<Row>,
    keys: &[Key],
) -> Result<Vec<Row>, Memory>
    ensures { IfOk result (λ merged.
        merged.items ≡ order_rows keys.now (old.items ++ new.items)) }
{
    let mut rows = old;
    let mut others = new;
    rows.append(&mut others)?;
    order_rows(alloc, rows, keys)
}
