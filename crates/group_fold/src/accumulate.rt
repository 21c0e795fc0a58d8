//! What one row adds to accumulators.
ghost use Rattle.std.specs.Prelude.{◌≡◌, ◌+ℤ◌, FitsSigned, [], ◌∷◌, map, IfOk, OnOk};
ghost use Rattle.std.specs.Int.{w64};
ghost use Rattle.std.specs.List.{AllByRecursion};
ghost use Rattle.row_blob.specs.Kept.{AreEach, IsSum};
ghost use Rattle.plan_core.specs.Aggregate.{number_of, lesser, greater};
ghost use Rattle.plan_core.specs.Columns.{column_of, columns_of};
ghost use Rattle.plan_laws.specs.KeptForm.{acc_of};
ghost use Rattle.plan_laws.specs.GrowthOfGroups.{joined_acc, joined_accs};
ghost use Rattle.plan_laws.specs.GroupBounds.{IsAccOf, HasNumber};

use plan_core::Agg;
use row_blob::Acc;
use rows_core::{Memory, Row, Value};
use std::alloc::Global;
use std::mem;

/// The values of these columns. What stands for a column that isn't there is the number 0.
pub fn columns_of(alloc: Global, row: &Row, columns: &[u32]) -> Result<Row, Memory>
    ensures { IfOk result (λ key. key ≡ columns_of columns.now row.now) }
{
    let mut values = Vec::with_capacity(alloc, columns.len())?;
    for column in columns {
        values.push(value_at(alloc, row, *column)?)?;
    }
    Ok(Row::new(values))
}

/// The accumulators of a group whose one row this is.
pub fn accs_of_row(alloc: Global, row: &Row, aggs: &[Agg]) -> Result<Vec<Acc>, Memory>
    ensures accs { IfOk result (λ accs. accs.items ≡ map (acc_of (row.now ∷ [])) aggs.now) }
    ensures numbers { OnOk result (AllByRecursion (λ agg. HasNumber agg row.now) aggs.now) }
{
    let mut accs = Vec::with_capacity(alloc, aggs.len())?;
    for agg in aggs {
        accs.push(acc_of_row(alloc, row, *agg)?)?;
    }
    Ok(accs)
}

/// Takes one more row into the accumulators of its group.
pub fn take_in(alloc: Global, accs: &mut Vec<Acc>, row: &Row, aggs: &[Agg]) -> Result<(), Memory>
    requires { AreEach IsAccOf aggs.now accs.old.items }
    ensures joined { OnOk result (accs.new.items
        ≡ joined_accs aggs.now accs.old.items (map (acc_of (row.now ∷ [])) aggs.now)) }
    ensures numbers { OnOk result (AllByRecursion (λ agg. HasNumber agg row.now) aggs.now) }
{
    for (i, agg) in aggs.iter().enumerate() {
        let acc = mem::replace(&mut accs[i], Acc::Count(0));
        accs[i] = with_row(alloc, acc, row, *agg)?;
    }
    Ok(())
}

fn acc_of_row(alloc: Global, row: &Row, agg: Agg) -> Result<Acc, Memory>
    ensures acc { IfOk result (λ acc. acc ≡ acc_of (row.now ∷ []) agg) }
    ensures number { OnOk result (HasNumber agg row.now) }
{
    match agg {
        Agg::Count => Ok(Acc::Count(1)),
        Agg::Sum(column) => Ok(Acc::Sum(i128::from(number_at(row, column)))),
        Agg::Min(column) => Ok(Acc::Pick(value_at(alloc, row, column)?)),
        Agg::Max(column) => Ok(Acc::Pick(value_at(alloc, row, column)?)),
        Agg::First(column) => Ok(Acc::Pick(value_at(alloc, row, column)?)),
        Agg::Last(column) => Ok(Acc::Pick(value_at(alloc, row, column)?)),
        Agg::Avg(column) => Ok(Acc::Avg {
            sum: i128::from(number_at(row, column)),
            count: 1,
        }),
    }
}

fn with_row(alloc: Global, acc: Acc, row: &Row, agg: Agg) -> Result<Acc, Memory>
    requires { IsAccOf agg acc }
    ensures joined { IfOk result (λ all. all ≡ joined_acc agg acc (acc_of (row.now ∷ []) agg)) }
    ensures number { OnOk result (HasNumber agg row.now) }
{
    match (agg, acc) {
        (Agg::Count, Acc::Count(count)) => Ok(Acc::Count(count + 1)),
        (Agg::Sum(column), Acc::Sum(sum)) => Ok(Acc::Sum(added(sum, number_at(row, column)))),
        (Agg::Avg(column), Acc::Avg { sum, count }) => Ok(Acc::Avg {
            sum: added(sum, number_at(row, column)),
            count: count + 1,
        }),
        (Agg::Min(column), Acc::Pick(least)) => Ok(Acc::Pick(lesser_at(
            alloc, least, row, column,
        )?)),
        (Agg::Max(column), Acc::Pick(greatest)) => {
            Ok(Acc::Pick(greater_at(alloc, greatest, row, column)?))
        }
        (Agg::Last(column), Acc::Pick(_)) => Ok(Acc::Pick(value_at(alloc, row, column)?)),
        (_, acc) => Ok(acc),
    }
}

fn added(sum: i128, number: i64) -> i128
    requires { IsSum sum }
    ensures { result ≡ sum +ℤ number }
{
    sum + i128::from(number)
}

fn lesser_at(alloc: Global, least: Value, row: &Row, column: u32) -> Result<Value, Memory>
    ensures { IfOk result (λ value. value ≡ lesser least (column_of row.now column)) }
{
    match row.values().get(column as usize) {
        Some(value) => lesser(alloc, least, value),
        None => lesser(alloc, least, &Value::Int(0)),
    }
}

fn greater_at(alloc: Global, greatest: Value, row: &Row, column: u32) -> Result<Value, Memory>
    ensures { IfOk result (λ value. value ≡ greater greatest (column_of row.now column)) }
{
    match row.values().get(column as usize) {
        Some(value) => greater(alloc, greatest, value),
        None => greater(alloc, greatest, &Value::Int(0)),
    }
}

fn lesser(alloc: Global, a: Value, b: &Value) -> Result<Value, Memory>
    ensures { IfOk result (λ value. value ≡ lesser a b.now) }
{
    if a.cmp(b).is_le() {
        Ok(a)
    } else {
        b.try_copy(alloc)
    }
}

fn greater(alloc: Global, a: Value, b: &Value) -> Result<Value, Memory>
    ensures { IfOk result (λ value. value ≡ greater a b.now) }
{
    if a.cmp(b).is_ge() {
        Ok(a)
    } else {
        b.try_copy(alloc)
    }
}

fn value_at(alloc: Global, row: &Row, column: u32) -> Result<Value, Memory>
    ensures { IfOk result (λ value. value ≡ column_of row.now column) }
{
    match row.values().get(column as usize) {
        Some(value) => value.try_copy(alloc),
        None => Ok(Value::Int(0)),
    }
}

fn number_at(row: &Row, column: u32) -> i64
    ensures number { result ≡ number_of (column_of row.now column) }
    ensures fits { FitsSigned w64 (number_of (column_of row.now column)) }
{
    match row.values().get(column as usize) {
        Some(Value::Int(number)) => *number,
        _ => 0,
    }
}
