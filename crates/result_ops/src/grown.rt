//! Results that have grown.
ghost use Rattle.std.specs.Prelude.{◌≡◌, ◌+◌, ◌++◌, ◌<◌, List, length, IsSome, Ok};
ghost use Rattle.row_blob.specs.declared.kept.Kept.TheVariants as kept;
ghost use Rattle.plan_core.specs.PlainPlan.{plan_of};
ghost use Rattle.plan_core.specs.PlanTyping.{Kinds, plan_kinds};
ghost use Rattle.plan_core.specs.StableOrder.{order_rows};
ghost use Rattle.plan_laws.specs.GroupBounds.{AreGroups};
ghost use Rattle.plan_laws.specs.GrowthOfGroups.{groups_of, merged_groups};
ghost use Rattle.growth_laws.specs.Making.{taken_in_of, made_of_grown};
ghost use Rattle.result_ops.specs.Bounds.{limit};
ghost use Rattle.result_ops.specs.Fitting.{OfGrown, FitRows, IsFit};
ghost use Rattle.result_ops.specs.Steps.{made_of, added_of, MakesGrown, CountsGrown, Keeps, Merges};

use crate::bounds::are_bounded;
use crate::made::{Added, Input, Made};
use crate::one_input::{made_of_groups, made_of_rows};
use crate::refusal::MakeRefusal;
use crate::rows::counted;
use crate::two_inputs::rows_behind;
use plan_core::{Agg, Plan};
use plan_laws::typed_plans_give_typed_rows;
use row_blob::{GroupRow, Kept};
use rows_core::{Key, Row, Seq};
use std::alloc::Global;

/// What is made of an earlier result and of the rows that came behind those of the plan's input, of the right
/// one of a concatenation: of a filter, a projection, a distinct and a concatenation the old rows and then
/// what the operator gives of the new ones; the merged groups of a grouping; and the old and the new rows of
/// an order in order.
pub fn made_of_grown(
    alloc: Global,
    plan: &Plan,
    old: Made,
    added: Added,
) -> Result<Made, MakeRefusal>
    requires { (schemas : List Kinds) × IsSome (plan_kinds schemas (plan_of plan.now))
        × IsFit schemas (plan_of plan.now) old.kept
        × OfGrown (FitRows schemas added.rows.items) (plan_of plan.now) }
    ensures { MakesGrown (old.taken_in + taken_in_of (added_of added)) (plan_of plan.now)
        (made_of_grown (plan_of plan.now) (made_of old) (added_of added)) result }
{
    typed_plans_give_typed_rows();
    let before = old.taken_in;
    let input = grown_input(added, before)?;
    match (plan, old.kept) {
        (Plan::Filter { child: _, test }, Kept::Rows(olds)) => {
            let rows = row_ops::where_rows(alloc, input.rows, test)?;
            behind(olds, rows, input.taken_in)
        }
        (Plan::Project { child: _, columns }, Kept::Rows(olds)) => {
            let rows = row_ops::select_rows(alloc, &input.rows, columns.items())?;
            behind(olds, rows, input.taken_in)
        }
        (Plan::Distinct { .. }, Kept::Rows(olds)) => {
            let rows = row_ops::distinct_after(alloc, olds.items(), input.rows)?;
            behind(olds, rows, input.taken_in)
        }
        (Plan::Concat { .. }, Kept::Rows(olds)) => behind(olds, input.rows, input.taken_in),
        (Plan::Order { keys, .. }, Kept::Rows(olds)) => in_order(alloc, olds, input, keys.items()),
        (Plan::Group { keys, aggs, .. }, Kept::Groups(olds)) => {
            grouped(alloc, olds, input, keys.items(), aggs.items())
        }
        _ => unreachable!(),
    }
}

/// The rows that came, as an operator takes them in, after those of the earlier result.
pub fn grown_input(added: Added, before: u64) -> Result<Input, MakeRefusal>
    ensures { CountsGrown added before result }
{
    let before = before.saturating_add(added.taken_in);
    counted(added.rows, before)
}

fn behind(olds: Seq<Row>, news: Vec<Row>, taken_in: u64) -> Result<Made, MakeRefusal>
    ensures { Keeps taken_in (Ok (kept.Rows (olds ++ news.items))) result }
{
    let rows = rows_behind(olds.into_vec(), news)?;
    Ok(made_of_rows(rows, taken_in))
}

// The new rows in order behind the old ones, and then both in order: a stable sort of two lists that are in
// order each.
fn in_order(alloc: Global, olds: Seq<Row>, news: Input, keys: &[Key]) -> Result<Made, MakeRefusal>
    ensures { Keeps news.taken_in
        (Ok (kept.Rows (order_rows keys.now (olds ++ order_rows keys.now news.rows.items)))) result }
{
    let Input { rows, taken_in } = news;
    let news = row_ops::order_rows(alloc, rows, keys)?;
    let rows = rows_behind(olds.into_vec(), news)?;
    let rows = row_ops::order_rows(alloc, rows, keys)?;
    Ok(made_of_rows(rows, taken_in))
}

// The old groups, each with what the new rows add, and then those of the new rows with other keys. `Machine`
// exactly where they lie outside of the bounds.
fn grouped(
    alloc: Global,
    olds: Seq<GroupRow>,
    news: Input,
    keys: &[u32],
    aggs: &[Agg],
) -> Result<Made, MakeRefusal>
    requires old { AreGroups aggs.now olds }
    requires few { length news.rows.items < limit }
    ensures { Merges news.taken_in aggs.now
        (merged_groups aggs.now olds (groups_of keys.now aggs.now news.rows.items)) result }
{
    let groups = group_fold::fold(alloc, &news.rows, keys, aggs)?;
    merged(alloc, olds, groups, aggs, news.taken_in)
}

fn merged(
    alloc: Global,
    olds: Seq<GroupRow>,
    news: Vec<GroupRow>,
    aggs: &[Agg],
    taken_in: u64,
) -> Result<Made, MakeRefusal>
    requires old { AreGroups aggs.now olds }
    requires new { AreGroups aggs.now news.items }
    ensures { Merges taken_in aggs.now (merged_groups aggs.now olds news.items) result }
{
    let groups = group_fold::merge(alloc, olds.into_vec(), news, aggs)?;
    if are_bounded(&groups, aggs) {
        Ok(made_of_groups(groups, taken_in))
    } else {
        Err(MakeRefusal::Machine)
    }
}
