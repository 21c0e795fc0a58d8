//! Whether groups lie within the bounds of merging and finishing.
ghost use Rattle.std.specs.Prelude.{◌≡◌, ◌↔◌, ◌≤◌, pos, All, IsTrue, FitsSigned};
ghost use Rattle.std.specs.Int.{w64};
ghost use Rattle.scalar_ops.specs.Division.{floor_div};
ghost use Rattle.row_blob.specs.Kept.{AreEach, IsCount, IsSum};
ghost use Rattle.plan_laws.specs.GroupBounds.{IsAccOf, HasAverage};

use plan_core::Agg;
use row_blob::{Acc, GroupRow};

/// Whether each group has one accumulator for each aggregate, with counts and sums within the bounds of a
/// file and averages in i64. It takes no memory.
pub fn are_bounded(groups: &[GroupRow], aggs: &[Agg]) -> bool
    ensures { IsTrue result
        ↔ All (λ group. AreEach IsAccOf aggs.now group.accs × All HasAverage group.accs) groups.now }
{
    groups
        .iter()
        .all(|group| are_accs(group.accs.items(), aggs))
}

fn are_accs(accs: &[Acc], aggs: &[Agg]) -> bool
    ensures { IsTrue result ↔ (AreEach IsAccOf aggs.now accs.now × All HasAverage accs.now) }
{
    let [acc, accs @ ..] = accs else {
        return aggs.is_empty();
    };
    let [agg, aggs @ ..] = aggs else {
        return false;
    };
    is_acc(acc, *agg) && are_accs(accs, aggs)
}

fn is_acc(acc: &Acc, agg: Agg) -> bool
    ensures { IsTrue result ↔ (IsAccOf agg acc.now × HasAverage acc.now) }
{
    match (agg, acc) {
        (Agg::Count, Acc::Count(count)) => is_count(*count),
        (Agg::Sum(_), Acc::Sum(sum)) => is_sum(*sum),
        (Agg::Avg(_), Acc::Avg { sum, count }) => {
            is_sum(*sum) && is_count(*count) && has_average(*sum, *count)
        }
        (Agg::Min(_) | Agg::Max(_) | Agg::First(_) | Agg::Last(_), Acc::Pick(_)) => true,
        _ => false,
    }
}

fn is_count(count: u64) -> bool
    ensures { IsTrue result ↔ IsCount count }
{
    (1..=4_294_967_295).contains(&count)
}

fn is_sum(sum: i128) -> bool
    ensures { IsTrue result ↔ IsSum sum }
{
    const BOUND: i128 = 1 << 95;
    -BOUND <= sum && sum <= BOUND
}

fn has_average(sum: i128, count: u64) -> bool
    requires { 1 ≤ count }
    ensures { IsTrue result ↔ FitsSigned w64 (floor_div sum (pos count)) }
{
    i64::try_from(sum.div_euclid(i128::from(count))).is_ok()
}
