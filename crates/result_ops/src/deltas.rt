//! The rows that come behind those of an earlier result.
ghost use Rattle.std.specs.Prelude.{◌≡◌, ◌≤◌, List, IsSome, IfOk};
ghost use Rattle.plan_core.specs.Join.{join_rows};
ghost use Rattle.plan_core.specs.PlainPlan.{plan_of};
ghost use Rattle.plan_core.specs.PlanTyping.{Kinds, plan_kinds};
ghost use Rattle.growth_laws.specs.Making.{taken_in_of, added_of_child, added_of_distinct, added_of_join};
ghost use Rattle.growth_laws.specs.Making.{passed_on, IsFormOf};
ghost use Rattle.row_ops.specs.Operators.{Gives};
ghost use Rattle.rewrite_core.specs.IsRewriting.{OfSides};
ghost use Rattle.result_ops.specs.Bounds.{limit, IsBounded};
ghost use Rattle.result_ops.specs.Fitting.{OfPassed, FitRows, IsFit};
ghost use Rattle.result_ops.specs.Steps.{made_of, added_of, Adds};

use crate::made::{Added, Input, Made};
use crate::refusal::MakeRefusal;
use crate::rows::{counted, rows_of};
use crate::two_inputs::joined_rows;
use plan_core::{EvRefusal, Plan};
use plan_laws::typed_plans_give_typed_rows;
use rows_core::{Memory, Row};
use std::alloc::Global;

/// What a filter, a projection or a concatenation gives of the rows that came behind those of its input, of
/// the right one of a concatenation. `Overflow` comes only where an expression meets a number outside of i64,
/// and `Machine` only where so many rows are taken in that the machine time is above its limit.
pub fn added_of_child(alloc: Global, plan: &Plan, added: Added) -> Result<Added, MakeRefusal>
    requires { (schemas : List Kinds) × IsSome (plan_kinds schemas (plan_of plan.now))
        × OfPassed (FitRows schemas added.rows.items) (plan_of plan.now) }
    ensures { Adds (limit ≤ taken_in_of (added_of added))
        (added_of_child (plan_of plan.now) (added_of added)) result }
{
    let Input { rows, taken_in } = counted(added.rows, added.taken_in)?;
    let rows = passed_on(alloc, plan, rows)?;
    Ok(Added { rows, taken_in })
}

// What the operator gives of the new rows.
fn passed_on(alloc: Global, plan: &Plan, rows: Vec<Row>) -> Result<Vec<Row>, EvRefusal>
    requires { (schemas : List Kinds) × IsSome (plan_kinds schemas (plan_of plan.now))
        × OfPassed (FitRows schemas rows.items) (plan_of plan.now) }
    ensures { Gives result (passed_on (plan_of plan.now) rows.items) }
{
    typed_plans_give_typed_rows();
    match plan {
        Plan::Filter { child: _, test } => row_ops::where_rows(alloc, rows, test),
        Plan::Project { child: _, columns } => row_ops::select_rows(alloc, &rows, columns.items()),
        _ => Ok(rows),
    }
}

/// Of the rows that came behind those of a distinct's input the first of equal ones that its earlier result
/// lacks.
pub fn added_of_distinct(
    alloc: Global,
    plan: &Plan,
    old: Made,
    added: Added,
) -> Result<Added, MakeRefusal>
    requires form { IsFormOf (plan_of plan.now) old.kept }
    requires bounded { IsBounded (plan_of plan.now) old.kept }
    ensures { Adds (limit ≤ taken_in_of (added_of added))
        (added_of_distinct (made_of old) (added_of added)) result }
{
    let olds = rows_of(alloc, plan, old.kept)?;
    let Input { rows, taken_in } = counted(added.rows, added.taken_in)?;
    let rows = row_ops::distinct_after(alloc, &olds, rows)?;
    Ok(Added { rows, taken_in })
}

/// The join of the rows that came behind those of the left input with the right input's rows.
pub fn added_of_join(
    alloc: Global,
    plan: &Plan,
    added: Added,
    right: Made,
) -> Result<Added, MakeRefusal>
    requires { OfSides (λ first second. IsFormOf second right.kept × IsBounded second right.kept)
        (plan_of plan.now) }
    ensures { Adds (limit ≤ taken_in_of (added_of added))
        (added_of_join (plan_of plan.now) (added_of added) (made_of right)) result }
{
    let Plan::Join {
        left: _,
        right: second,
        on,
    } = plan
    else {
        unreachable!()
    };
    let rights = rows_of(alloc, second, right.kept)?;
    let Input { rows, taken_in } = counted(added.rows, added.taken_in)?;
    let rows = joined_rows(alloc, &rows, &rights, on.items())?;
    Ok(Added { rows, taken_in })
}
