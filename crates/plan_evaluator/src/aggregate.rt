//! Groups and their aggregates.
ghost use Rattle.std.specs.Prelude.{◌≡◌, ◌<◌, ◌*◌, ◌^◌, ◌-◌, ◌≤ℤ◌, ◌+ℤ◌, neg_ℤ, pos, FitsSigned, [], ◌∷◌};
ghost use Rattle.std.specs.Prelude.{◌++◌, map, All, length, if◌then◌else◌, OnOk, Contains, IfOk, IsErrOf};
ghost use Rattle.std.specs.Int.{w128};
ghost use Rattle.scalar_ops.specs.Division.{floor_div};
ghost use Rattle.rows_core.specs.Value.{row_eq};
ghost use Rattle.plan_core.specs.Columns.{column_of, columns_of};
ghost use Rattle.plan_core.specs.Aggregate.{values_of, number_of, exact_sum, whole_value, lesser, greater};
ghost use Rattle.plan_core.specs.Aggregate.{least_value, greatest_value, first_value, last_value};
ghost use Rattle.plan_core.specs.Aggregate.{aggregate_value};
ghost use Rattle.plan_core.specs.ExpressionValue.{all_of};
ghost use Rattle.plan_core.specs.Group.{keys_of, members_of, group_row, group_rows};
ghost use Rattle.plan_core.specs.Answer.{Means};
ghost use Rattle.plan_evaluator.specs.Evaluation.{aggregate_values};

use crate::operators::{distinct_rows, joined_row, push_row, push_value};
use plan_core::{Agg, EvRefusal};
use plan_laws::keys_of_groups;
use rows_core::{Memory, Row, Seq, Value};
use std::alloc::Global;

/// The key and the aggregates of each group, in the order in which the keys first occur.
pub fn group_rows(
    alloc: Global,
    rows: &[Row],
    keys: &[u32],
    aggs: &[Agg],
) -> Result<Seq<Row>, EvRefusal>
    ensures { Means result (group_rows keys.now aggs.now rows.now) }
{
    let all_keys = keys_of(alloc, rows, keys)?;
    groups_of(alloc, rows, keys, aggs, all_keys.items())
}

fn groups_of(
    alloc: Global,
    rows: &[Row],
    keys: &[u32],
    aggs: &[Agg],
    all_keys: &[Row],
) -> Result<Seq<Row>, EvRefusal>
    requires { All (Contains (keys_of keys.now rows.now)) all_keys.now }
    ensures { Means result (all_of (map (group_row keys.now aggs.now rows.now) all_keys.now)) }
{
    let mut groups = Vec::new(alloc);
    for key in all_keys {
        push_row(&mut groups, group_row(alloc, rows, keys, aggs, key)?)?;
    }
    Ok(Seq::new(groups))
}

fn keys_of(alloc: Global, rows: &[Row], keys: &[u32]) -> Result<Seq<Row>, Memory>
    ensures { IfOk result (λ all. all ≡ keys_of keys.now rows.now) }
{
    let mut all = Vec::new(alloc);
    for row in rows {
        all.push(columns_of(alloc, row, keys)?)?;
    }
    distinct_rows(alloc, all.as_slice())
}

fn columns_of(alloc: Global, row: &Row, columns: &[u32]) -> Result<Row, Memory>
    ensures { IfOk result (λ key. key ≡ columns_of columns.now row.now) }
{
    let mut values = Vec::new(alloc);
    for column in columns {
        values.push(column_of(alloc, row, *column)?)?;
    }
    Ok(Row::new(values))
}

// What stands for a column that isn't there is the number 0.
fn column_of(alloc: Global, row: &Row, column: u32) -> Result<Value, Memory>
    ensures { IfOk result (λ value. value ≡ column_of row.now column) }
{
    match row.values().get(column as usize) {
        Some(value) => value.try_copy(alloc),
        None => Ok(Value::Int(0)),
    }
}

fn group_row(
    alloc: Global,
    rows: &[Row],
    keys: &[u32],
    aggs: &[Agg],
    key: &Row,
) -> Result<Row, EvRefusal>
    requires { Contains (keys_of keys.now rows.now) key.now }
    ensures { Means result (group_row keys.now aggs.now rows.now key.now) }
{
    keys_of_groups();
    let members = members_of(alloc, rows, keys, key)?;
    let values = aggregates(alloc, members.items(), aggs)?;
    Ok(joined_row(alloc, key, &values)?)
}

fn members_of(alloc: Global, rows: &[Row], keys: &[u32], key: &Row) -> Result<Seq<Row>, Memory>
    ensures { IfOk result (λ members. members ≡ members_of keys.now rows.now key.now) }
{
    let mut members = Vec::new(alloc);
    for row in rows {
        put_member(alloc, row, keys, key, &mut members)?;
    }
    Ok(Seq::new(members))
}

// Puts the row behind the others where it has the key.
fn put_member(
    alloc: Global,
    row: &Row,
    keys: &[u32],
    key: &Row,
    members: &mut Vec<Row>,
) -> Result<(), Memory>
    ensures { OnOk result (members.new.items ≡ members.old.items ++
        (if row_eq key.now (columns_of keys.now row.now) then row.now ∷ [] else [])) }
{
    if *key != columns_of(alloc, row, keys)? {
        return Ok(());
    }
    members.push(row.try_copy(alloc)?)?;
    Ok(())
}

fn aggregates(alloc: Global, rows: &[Row], aggs: &[Agg]) -> Result<Row, EvRefusal>
    requires { 0 < length rows.now }
    ensures { Means result (aggregate_values aggs.now rows.now) }
{
    let mut values = Vec::new(alloc);
    for agg in aggs {
        push_value(&mut values, aggregate(alloc, rows, *agg)?)?;
    }
    Ok(Row::new(values))
}

fn aggregate(alloc: Global, rows: &[Row], agg: Agg) -> Result<Value, EvRefusal>
    requires { 0 < length rows.now }
    ensures { Means result (aggregate_value agg rows.now) }
{
    match agg {
        Agg::Count => Ok(Value::Int(rows.len() as i64)),
        Agg::Sum(column) => whole_value(exact_sum(rows, column)),
        Agg::Min(column) => Ok(least_value(alloc, rows, column)?),
        Agg::Max(column) => Ok(greatest_value(alloc, rows, column)?),
        Agg::First(column) => Ok(first_value(alloc, rows, column)?),
        Agg::Last(column) => Ok(last_value(alloc, rows, column)?),
        Agg::Avg(column) => Ok(Value::Int(average(rows, column))),
    }
}

// The sum, or an overflow where it is outside of i64.
fn whole_value(sum: i128) -> Result<Value, EvRefusal>
    ensures meaning { Means result (whole_value sum) }
    ensures memory { IsErrOf result EvRefusal.Memory → ⊥ }
{
    match i64::try_from(sum) {
        Ok(number) => Ok(Value::Int(number)),
        Err(_) => Err(EvRefusal::Overflow),
    }
}

fn exact_sum(rows: &[Row], column: u32) -> i128
    ensures sum { result ≡ exact_sum (values_of column rows.now) }
    ensures least { neg_ℤ (pos (length rows.now * 2 ^ 63)) ≤ℤ result }
    ensures most { result ≤ℤ pos (length rows.now * (2 ^ 63 - 1)) }
{
    let mut sum = 0;
    for row in rows {
        sum = added(sum, number_at(row, column));
    }
    sum
}

fn added(sum: i128, number: i64) -> i128
    requires { FitsSigned w128 (sum +ℤ number) }
    ensures { result ≡ sum +ℤ number }
{
    sum + i128::from(number)
}

fn number_at(row: &Row, column: u32) -> i64
    ensures number { result ≡ number_of (column_of row.now column) }
    ensures least { neg_ℤ (pos (2 ^ 63)) ≤ℤ result }
    ensures most { result ≤ℤ pos (2 ^ 63 - 1) }
{
    match row.values().get(column as usize) {
        Some(Value::Int(number)) => *number,
        _ => 0,
    }
}

// The floor of the exact sum by the number of rows.
fn average(rows: &[Row], column: u32) -> i64
    requires { 0 < length rows.now }
    ensures { result ≡ floor_div (exact_sum (values_of column rows.now)) (pos (length rows.now)) }
{
    exact_sum(rows, column).div_euclid(rows.len() as i128) as i64
}

fn lesser(a: Value, b: Value) -> Value
    ensures { result ≡ lesser a b }
{
    if a.cmp(&b).is_le() { a } else { b }
}

fn greater(a: Value, b: Value) -> Value
    ensures { result ≡ greater a b }
{
    if a.cmp(&b).is_ge() { a } else { b }
}

fn least_value(alloc: Global, rows: &[Row], column: u32) -> Result<Value, Memory>
    ensures { IfOk result (λ value. value ≡ least_value (values_of column rows.now)) }
{
    let Some((last, others)) = rows.split_last() else {
        return Ok(Value::Int(0));
    };
    let mut least = column_of(alloc, last, column)?;
    let mut rest = others;
    while let Some((row, front)) = rest.split_last() {
        least = lesser(column_of(alloc, row, column)?, least);
        rest = front;
    }
    Ok(least)
}

fn greatest_value(alloc: Global, rows: &[Row], column: u32) -> Result<Value, Memory>
    ensures { IfOk result (λ value. value ≡ greatest_value (values_of column rows.now)) }
{
    let Some((last, others)) = rows.split_last() else {
        return Ok(Value::Int(0));
    };
    let mut greatest = column_of(alloc, last, column)?;
    let mut rest = others;
    while let Some((row, front)) = rest.split_last() {
        greatest = greater(column_of(alloc, row, column)?, greatest);
        rest = front;
    }
    Ok(greatest)
}

fn first_value(alloc: Global, rows: &[Row], column: u32) -> Result<Value, Memory>
    ensures { IfOk result (λ value. value ≡ first_value (values_of column rows.now)) }
{
    match rows.first() {
        Some(row) => column_of(alloc, row, column),
        None => Ok(Value::Int(0)),
    }
}

fn last_value(alloc: Global, rows: &[Row], column: u32) -> Result<Value, Memory>
    ensures { IfOk result (λ value. value ≡ last_value (values_of column rows.now)) }
{
    match rows.last() {
        Some(row) => column_of(alloc, row, column),
        None => Ok(Value::Int(0)),
    }
}
