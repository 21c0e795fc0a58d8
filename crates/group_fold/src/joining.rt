//! Accumulators of old and of new rows.
ghost use Rattle.std.specs.Prelude.{◌≡◌};
ghost use Rattle.row_blob.specs.Kept.{AreEach};
ghost use Rattle.plan_core.specs.Aggregate.{lesser, greater};
ghost use Rattle.plan_laws.specs.GrowthOfGroups.{joined_value, joined_acc, joined_accs};
ghost use Rattle.plan_laws.specs.GroupBounds.{IsAccOf};

use plan_core::Agg;
use row_blob::Acc;
use rows_core::Value;
use std::mem;

/// Joins the accumulators of the new rows of a group with those of the old ones.
pub fn join_accs(olds: &mut Vec<Acc>, mut news: Vec<Acc>, aggs: &[Agg])
    requires old { AreEach IsAccOf aggs.now olds.old.items }
    requires new { AreEach IsAccOf aggs.now news.items }
    ensures { olds.new.items ≡ joined_accs aggs.now olds.old.items news.items }
{
    for (i, agg) in aggs.iter().enumerate() {
        let old = mem::replace(&mut olds[i], Acc::Count(0));
        let new = mem::replace(&mut news[i], Acc::Count(0));
        olds[i] = joined_acc(*agg, old, new);
    }
}

fn joined_acc(agg: Agg, old: Acc, new: Acc) -> Acc
    requires old { IsAccOf agg old }
    requires new { IsAccOf agg new }
    ensures { result ≡ joined_acc agg old new }
{
    match (old, new) {
        (Acc::Count(old), Acc::Count(new)) => Acc::Count(old + new),
        (Acc::Sum(old), Acc::Sum(new)) => Acc::Sum(old + new),
        (
            Acc::Avg { sum, count },
            Acc::Avg {
                sum: new_sum,
                count: new_count,
            },
        ) => Acc::Avg {
            sum: sum + new_sum,
            count: count + new_count,
        },
        (Acc::Pick(old), Acc::Pick(new)) => Acc::Pick(joined_value(agg, old, new)),
        (old, _) => old,
    }
}

fn joined_value(agg: Agg, old: Value, new: Value) -> Value
    ensures { result ≡ joined_value agg old new }
{
    match agg {
        Agg::Min(_) => lesser(old, new),
        Agg::Max(_) => greater(old, new),
        Agg::Last(_) => new,
        _ => old,
    }
}

fn lesser(a: Value, b: Value) -> Value
    ensures { result ≡ lesser a b }
{
    if a.cmp(&b).is_le() { a } else { b }
}

fn greater(a: Value, b: Value) -> Value
    ensures { result ≡ greater a b }
{
    if a.cmp(&b).is_ge() { a } else { b }
}
