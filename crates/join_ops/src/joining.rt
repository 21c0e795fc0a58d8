//! The join.
ghost use Rattle.std.specs.Prelude.{◌≡◌, ◌+◌, ◌≤◌, ◌^◌, map, length, OnOk, IfOk, ◌++◌};
ghost use Rattle.join_ops.specs.RowsByKey.{rows_under};
ghost use Rattle.plan_laws.specs.KeptForm.{tagged_from};

use crate::index::{RowsByKey, rows_by_key};
use crate::key::left_key;
use row_blob::TaggedRow;
use rows_core::{Memory, Row, Value};
use std::alloc::Global;

/// Each left row followed by each right row that agrees with it, in the order of the left rows and, for each,
/// of the right ones, with the position of the left row: `Join` of LINQ to Objects. Positions are counted
/// from `first`, and none passes u64. It costs its lists and its result, and not their product.
pub fn join_tagged(
    alloc: Global,
    left: &[Row],
    right: &[Row],
    on: &[(u32, u32)],
    first: u64,
) -> Result<Vec<TaggedRow>, Memory>
    requires { first + length left.now ≤ 2 ^ 64 }
    ensures { IfOk result (λ joined. joined.items ≡ tagged_from first on.now left.now right.now) }
{
    let absent = Value::Int(0);
    let index = rows_by_key(alloc, right, on, &absent)?;
    let mut joined = Vec::new(alloc);
    for (place, row) in left.iter().enumerate() {
        let key = left_key(alloc, row, on, &absent)?;
        join_found(alloc, &index, &key, row, first + place as u64, &mut joined)?;
    }
    Ok(joined)
}

// The left row followed by each right row that is under its key.
fn join_found(
    alloc: Global,
    index: &RowsByKey,
    key: &Vec<&Value>,
    left: &Row,
    position: u64,
    joined: &mut Vec<TaggedRow>,
) -> Result<(), Memory>
    ensures { OnOk result (joined.new.items ≡ joined.old.items
        ++ map (λ right. record { left = position; row = left.now ++ right })
        (rows_under index.now key.now)) }
{
    match index.get(key) {
        Some(rights) => join_row(alloc, left, position, rights.as_slice(), joined),
        None => Ok(()),
    }
}

// The left row followed by each of these right rows.
fn join_row(
    alloc: Global,
    left: &Row,
    position: u64,
    rights: &[&Row],
    joined: &mut Vec<TaggedRow>,
) -> Result<(), Memory>
    ensures { OnOk result (joined.new.items ≡ joined.old.items
        ++ map (λ right. record { left = position; row = left.now ++ right.now }) rights.now) }
{
    for right in rights {
        let row = joined_row(alloc, left, right)?;
        let tagged = TaggedRow {
            left: position,
            row,
        };
        joined.push(tagged)?;
    }
    Ok(())
}

fn joined_row(alloc: Global, left: &Row, right: &Row) -> Result<Row, Memory>
    ensures { IfOk result (λ row. row ≡ left.now ++ right.now) }
{
    let mut values = Vec::with_capacity(alloc, left.values().len() + right.values().len())?;
    put_values(alloc, &mut values, left.values())?;
    put_values(alloc, &mut values, right.values())?;
    Ok(Row::new(values))
}

fn put_values(alloc: Global, values: &mut Vec<Value>, others: &[Value]) -> Result<(), Memory>
    ensures { OnOk result (values.new.items ≡ values.old.items ++ others.now) }
{
    for value in others {
        values.push(value.try_copy(alloc)?)?;
    }
    Ok(())
}
