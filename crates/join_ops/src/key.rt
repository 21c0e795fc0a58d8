//! The values that a join compares.
ghost use Rattle.std.specs.Prelude.{◌≡◌, IfOk};
ghost use Rattle.plan_core.specs.Columns.{column_of, no_value};
ghost use Rattle.join_ops.specs.RowsByKey.{left_values, right_values, lent};

use rows_core::{Memory, Row, Value};
use std::alloc::Global;

/// The values of a left row that a join compares, lent. `absent` stands for a column that isn't there.
pub fn left_key<'a>(
    alloc: Global,
    row: &'a Row,
    on: &[(u32, u32)],
    absent: &'a Value,
) -> Result<Vec<&'a Value>, Memory>
    requires { absent.now ≡ no_value }
    ensures { IfOk result (λ key. lent key ≡ left_values on.now row.now) }
{
    let mut values = Vec::with_capacity(alloc, on.len())?;
    for pair in on {
        values.push(value_at(row, pair.0, absent))?;
    }
    Ok(values)
}

/// The values of a right row that a join compares, lent.
pub fn right_key<'a>(
    alloc: Global,
    row: &'a Row,
    on: &[(u32, u32)],
    absent: &'a Value,
) -> Result<Vec<&'a Value>, Memory>
    requires { absent.now ≡ no_value }
    ensures { IfOk result (λ key. lent key ≡ right_values on.now row.now) }
{
    let mut values = Vec::with_capacity(alloc, on.len())?;
    for pair in on {
        values.push(value_at(row, pair.1, absent))?;
    }
    Ok(values)
}

fn value_at<'a>(row: &'a Row, column: u32, absent: &'a Value) -> &'a Value
    requires { absent.now ≡ no_value }
    ensures { result.now ≡ column_of row.now column }
{
    match row.values().get(column as usize) {
        Some(value) => value,
        None => absent,
    }
}
