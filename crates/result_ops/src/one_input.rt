//! What is made of the result of an only input.
ghost use Rattle.std.specs.Prelude.{◌≡◌, ◌<◌, ◌≤◌, length, map, All, Ok, IfOk};
ghost use Rattle.rows_core.specs.Value.{kind_of};
ghost use Rattle.row_blob.specs.declared.kept.Kept.TheVariants as kept;
ghost use Rattle.plan_core.specs.Distinct.{distinct_rows};
ghost use Rattle.plan_core.specs.ExpressionKind.{IsTyped};
ghost use Rattle.plan_core.specs.Filter.{filter_rows};
ghost use Rattle.plan_core.specs.PlainExpr.{expr_of};
ghost use Rattle.plan_core.specs.PlainPlan.{plan_of};
ghost use Rattle.plan_core.specs.Project.{project_rows};
ghost use Rattle.plan_core.specs.StableOrder.{order_rows};
ghost use Rattle.plan_laws.specs.GrowthOfGroups.{groups_of};
ghost use Rattle.growth_laws.specs.Making.{as_rows, made_of_one};
ghost use Rattle.result_ops.specs.Bounds.{limit, AreBoundedGroups};
ghost use Rattle.result_ops.specs.Fitting.{HasFitInput};
ghost use Rattle.result_ops.specs.Steps.{made_of, taken_of_one, Makes, Keeps};

use crate::made::{Input, Made};
use crate::refusal::MakeRefusal;
use crate::rows::input_of;
use plan_core::{Agg, Expr, Plan};
use plan_laws::typed_plans_give_typed_rows;
use row_blob::{GroupRow, Kept};
use rows_core::{Key, Memory, Row, Seq};
use std::alloc::Global;

/// What is made of the result of a plan's only input: the plan is a filter, a projection, a distinct, a
/// grouping or an order. `Overflow` comes only where an operator meets a number outside of i64, and `Machine`
/// only where so many rows are taken in that the machine time is above its limit.
pub fn made_of_one(alloc: Global, plan: &Plan, input: Made) -> Result<Made, MakeRefusal>
    requires { HasFitInput (plan_of plan.now) input.kept }
    ensures { Makes (limit ≤ taken_of_one (made_of input)) (plan_of plan.now)
        (made_of_one (plan_of plan.now) (made_of input))
        result }
{
    typed_plans_give_typed_rows();
    match plan {
        Plan::Filter { child, test } => filtered(alloc, input_of(alloc, child, input)?, test),
        Plan::Project { child, columns } => {
            projected(alloc, input_of(alloc, child, input)?, columns.items())
        }
        Plan::Distinct { child } => distinct(alloc, input_of(alloc, child, input)?),
        Plan::Group { child, keys, aggs } => {
            grouped(
                alloc,
                input_of(alloc, child, input)?,
                keys.items(),
                aggs.items(),
            )
        }
        Plan::Order { child, keys } => ordered(alloc, input_of(alloc, child, input)?, keys.items()),
        Plan::Scan { .. } | Plan::Join { .. } | Plan::Concat { .. } => unreachable!(),
    }
}

fn filtered(alloc: Global, input: Input, test: &Expr) -> Result<Made, MakeRefusal>
    requires { All (λ row. IsTyped (map kind_of row) (expr_of test.now)) input.rows.items }
    ensures { Keeps input.taken_in (as_rows (filter_rows (expr_of test.now) input.rows.items)) result }
{
    let Input { rows, taken_in } = input;
    let rows = row_ops::where_rows(alloc, rows, test)?;
    Ok(made_of_rows(rows, taken_in))
}

fn projected(alloc: Global, input: Input, columns: &[Expr]) -> Result<Made, MakeRefusal>
    requires { All (λ row. All (λ column. IsTyped (map kind_of row) (expr_of column)) columns.now)
        input.rows.items }
    ensures { Keeps input.taken_in
        (as_rows (project_rows (map expr_of columns.now) input.rows.items)) result }
{
    let Input { rows, taken_in } = input;
    let rows = row_ops::select_rows(alloc, &rows, columns)?;
    Ok(made_of_rows(rows, taken_in))
}

fn distinct(alloc: Global, input: Input) -> Result<Made, MakeRefusal>
    ensures { Keeps input.taken_in (Ok (kept.Rows (distinct_rows input.rows.items))) result }
{
    let Input { rows, taken_in } = input;
    let rows = row_ops::distinct_rows(alloc, rows)?;
    Ok(made_of_rows(rows, taken_in))
}

fn grouped(alloc: Global, input: Input, keys: &[u32], aggs: &[Agg]) -> Result<Made, MakeRefusal>
    requires { length input.rows.items < limit }
    ensures kept { Keeps input.taken_in
        (Ok (kept.Groups (groups_of keys.now aggs.now input.rows.items))) result }
    ensures bounded { IfOk result (λ made. AreBoundedGroups aggs.now made.kept) }
{
    let Input { rows, taken_in } = input;
    let groups = group_fold::fold(alloc, &rows, keys, aggs)?;
    Ok(made_of_groups(groups, taken_in))
}

fn ordered(alloc: Global, input: Input, keys: &[Key]) -> Result<Made, MakeRefusal>
    ensures { Keeps input.taken_in (Ok (kept.Rows (order_rows keys.now input.rows.items))) result }
{
    let Input { rows, taken_in } = input;
    let rows = row_ops::order_rows(alloc, rows, keys)?;
    Ok(made_of_rows(rows, taken_in))
}

/// Rows that were made, after so many were taken in.
pub fn made_of_rows(rows: Vec<Row>, taken_in: u64) -> Made
    ensures kept { result.kept ≡ kept.Rows rows.items }
    ensures taken_in { result.taken_in ≡ taken_in }
{
    Made {
        kept: Kept::Rows(Seq::new(rows)),
        taken_in,
    }
}

/// Groups that were made, after so many rows were taken in.
pub fn made_of_groups(groups: Vec<GroupRow>, taken_in: u64) -> Made
    ensures kept { result.kept ≡ kept.Groups groups.items }
    ensures taken_in { result.taken_in ≡ taken_in }
{
    Made {
        kept: Kept::Groups(Seq::new(groups)),
        taken_in,
    }
}
