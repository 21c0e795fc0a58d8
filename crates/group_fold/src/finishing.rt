//! Rows of groups.
ghost use Rattle.std.specs.Prelude.{◌≡◌, [], ◌∷◌, ◌++◌, ◌≤◌, ◌<◌, ◌^◌, map, All, pos, FitsSigned};
ghost use Rattle.std.specs.Prelude.{OnOk, IfOk, IsErrOf};
ghost use Rattle.std.specs.Int.{w64};
ghost use Rattle.std.specs.Result.{result_map_both};
ghost use Rattle.scalar_ops.specs.Division.{floor_div};
ghost use Rattle.row_blob.specs.Kept.{IsSum};
ghost use Rattle.plan_core.specs.Aggregate.{whole_value};
ghost use Rattle.plan_core.specs.Answer.{Means};
ghost use Rattle.plan_core.specs.ExpressionValue.{all_of};
ghost use Rattle.plan_laws.specs.KeptForm.{value_of_acc, row_of_group};
ghost use Rattle.plan_laws.specs.GroupBounds.{AreGroups, HaveAverages};
ghost use Rattle.group_fold.specs.Finish.{HasValue};

use plan_core::{Agg, EvRefusal};
use row_blob::{Acc, GroupRow};
use rows_core::{Memory, Row, Seq, Value};
use std::alloc::Global;

/// Why groups have no rows.
pub type FinishRefusal = EvRefusal;

/// The row of each group: its key, and then what its accumulators come to, a sum as it stands and an average
/// as the floor of the sum by the count. `Overflow` exactly where some sum is outside of i64.
pub fn finish(alloc: Global, groups: &[GroupRow], aggs: &[Agg]) -> Result<Vec<Row>, FinishRefusal>
    requires bounds { AreGroups aggs.now groups.now }
    requires averages { HaveAverages groups.now }
    ensures { Means (result_map_both (λ rows. rows.items) (λ refusal. refusal) result)
        (all_of (map row_of_group groups.now)) }
{
    let rows = finished_rows(alloc, groups, aggs.len())?;
    Ok(rows.into_vec())
}

fn finished_rows(alloc: Global, groups: &[GroupRow], columns: usize) -> Result<Seq<Row>, EvRefusal>
    requires { All (λ group. All HasValue group.accs) groups.now }
    ensures { Means result (all_of (map row_of_group groups.now)) }
{
    let mut rows = Vec::new(alloc);
    for group in groups {
        push_row(&mut rows, finished_row(alloc, group, columns)?)?;
    }
    Ok(Seq::new(rows))
}

/// The row of a group, made with room for as many values behind the key.
fn finished_row(alloc: Global, group: &GroupRow, columns: usize) -> Result<Row, EvRefusal>
    requires { All HasValue group.now.accs }
    ensures { Means result (row_of_group group.now) }
{
    let mut values = key_values(alloc, &group.key, columns)?;
    for acc in group.accs.items() {
        push_value(&mut values, value_of_acc(alloc, acc)?)?;
    }
    Ok(Row::new(values))
}

fn key_values(alloc: Global, key: &Row, more: usize) -> Result<Vec<Value>, Memory>
    ensures { IfOk result (λ values. values.items ≡ key.now) }
{
    let mut values = key.try_copy(alloc)?.into_values();
    values.reserve(more)?;
    Ok(values)
}

fn push_row(rows: &mut Vec<Row>, row: Row) -> Result<(), Memory>
    ensures { OnOk result (rows.new.items ≡ rows.old.items ++ row ∷ []) }
{
    rows.push(row)?;
    Ok(())
}

fn push_value(values: &mut Vec<Value>, value: Value) -> Result<(), Memory>
    ensures { OnOk result (values.new.items ≡ values.old.items ++ value ∷ []) }
{
    values.push(value)?;
    Ok(())
}

fn value_of_acc(alloc: Global, acc: &Acc) -> Result<Value, EvRefusal>
    requires { HasValue acc.now }
    ensures { Means result (value_of_acc acc.now) }
{
    match acc {
        Acc::Count(count) => Ok(Value::Int(*count as i64)),
        Acc::Sum(sum) => whole_value(*sum),
        Acc::Avg { sum, count } => Ok(Value::Int(average(*sum, *count))),
        Acc::Pick(value) => Ok(value.try_copy(alloc)?),
    }
}

// The sum, or an overflow where it is outside of i64.
fn whole_value(sum: i128) -> Result<Value, EvRefusal>
    ensures meaning { Means result (whole_value sum) }
    ensures memory { IsErrOf result EvRefusal.Memory → ⊥ }
{
    match i64::try_from(sum) {
        Ok(number) => Ok(Value::Int(number)),
        Err(_) => Err(EvRefusal::Overflow),
    }
}

// The floor of the sum by the count.
fn average(sum: i128, count: u64) -> i64
    requires counted { 1 ≤ count }
    requires small { count < 2 ^ 63 }
    requires sum { IsSum sum }
    requires fits { FitsSigned w64 (floor_div sum (pos count)) }
    ensures { result ≡ floor_div sum (pos count) }
{
    sum.div_euclid(i128::from(count)) as i64
}
