//! The rows of one extent through filters and projections.
ghost use Rattle.std.specs.Prelude.{◌≡◌, ◌+◌, [], ◌∷◌, length, map, All};
ghost use Rattle.rows_core.specs.Value.{kind_of};
ghost use Rattle.plan_core.specs.ExpressionKind.{IsTyped};
ghost use Rattle.plan_core.specs.Filter.{filter_rows};
ghost use Rattle.plan_core.specs.MachineTime.{rows_taken_in};
ghost use Rattle.plan_core.specs.PlainExpr.{expr_of};
ghost use Rattle.plan_core.specs.PlainPlan.{plan_of};
ghost use Rattle.plan_core.specs.PlanMeaning.{plan_meaning};
ghost use Rattle.plan_core.specs.Project.{project_rows};
ghost use Rattle.plan_laws.specs.TypedOn.{IsTypedOn};
ghost use Rattle.growth_laws.specs.Chains.{IsChain, IsOneStream};
ghost use Rattle.gathering.specs.Holding.{chain_of};
ghost use Rattle.gathering.specs.Steps.{counted, Passes};

use plan_core::{EvRefusal, Expr, Plan};
use plan_laws::typed_plans_give_typed_rows;
use result_ops::Input;
use rows_core::Row;
use std::alloc::Global;

/// The rows that the operator of the plan takes in, of those of one extent: those that its filters and
/// projections give. They are counted as the whole plan takes them in. `Overflow` exactly where an expression
/// meets a number outside of i64.
pub fn rows_through(alloc: Global, plan: &Plan, rows: Vec<Row>) -> Result<Input, EvRefusal>
    requires one { IsOneStream (plan_of plan.now) }
    requires typed { IsTypedOn (plan_of plan.now) (rows.items ∷ []) }
    ensures { Passes (plan_meaning (chain_of (plan_of plan.now)) (rows.items ∷ []))
        (rows_taken_in (plan_of plan.now) (rows.items ∷ [])) result }
{
    match plan {
        Plan::Distinct { child }
        | Plan::Group {
            child,
            keys: _,
            aggs: _,
        } => {
            let Input { rows, taken_in } = chain_rows(alloc, child, rows)?;
            let taken_in = with_rows(taken_in, rows.as_slice());
            Ok(Input { rows, taken_in })
        }
        _ => chain_rows(alloc, plan, rows),
    }
}

/// What filters and projections give of the rows of one extent, and how many rows they take in.
fn chain_rows(alloc: Global, plan: &Plan, rows: Vec<Row>) -> Result<Input, EvRefusal>
    requires chain { IsChain (plan_of plan.now) }
    requires typed { IsTypedOn (plan_of plan.now) (rows.items ∷ []) }
    ensures { Passes (plan_meaning (plan_of plan.now) (rows.items ∷ []))
        (rows_taken_in (plan_of plan.now) (rows.items ∷ [])) result }
{
    typed_plans_give_typed_rows();
    match plan {
        Plan::Scan { .. } => Ok(Input { rows, taken_in: 0 }),
        Plan::Filter { child, test } => {
            let input = chain_rows(alloc, child, rows)?;
            filtered(alloc, input, test)
        }
        Plan::Project { child, columns } => {
            let input = chain_rows(alloc, child, rows)?;
            projected(alloc, input, columns.items())
        }
        _ => unreachable!(),
    }
}

fn filtered(alloc: Global, input: Input, test: &Expr) -> Result<Input, EvRefusal>
    requires { All (λ row. IsTyped (map kind_of row) (expr_of test.now)) input.rows.items }
    ensures { Passes (filter_rows (expr_of test.now) input.rows.items)
        (length input.rows.items + input.taken_in) result }
{
    let Input { rows, taken_in } = input;
    let taken_in = with_rows(taken_in, rows.as_slice());
    let rows = row_ops::where_rows(alloc, rows, test)?;
    Ok(Input { rows, taken_in })
}

fn projected(alloc: Global, input: Input, columns: &[Expr]) -> Result<Input, EvRefusal>
    requires { All (λ row. All (λ column. IsTyped (map kind_of row) (expr_of column)) columns.now)
        input.rows.items }
    ensures { Passes (project_rows (map expr_of columns.now) input.rows.items)
        (length input.rows.items + input.taken_in) result }
{
    let Input { rows, taken_in } = input;
    let taken_in = with_rows(taken_in, rows.as_slice());
    let rows = row_ops::select_rows(alloc, &rows, columns)?;
    Ok(Input { rows, taken_in })
}

// The rows are taken in after so many others.
fn with_rows(taken_in: u64, rows: &[Row]) -> u64
    ensures { result ≡ counted (length rows.now + taken_in) }
{
    taken_in.saturating_add(rows.len() as u64)
}
