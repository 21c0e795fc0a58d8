//! What is made of the results of two inputs.
ghost use Rattle.std.specs.Prelude.{◌≡◌, ◌+◌, ◌<◌, ◌≤◌, ◌++◌};
ghost use Rattle.std.specs.Prelude.{length, Ok, IfOk, IfErr};
ghost use Rattle.row_blob.specs.declared.kept.Kept.TheVariants as kept;
ghost use Rattle.plan_core.specs.Join.{join_rows};
ghost use Rattle.plan_core.specs.PlainPlan.{plan_of};
ghost use Rattle.plan_laws.specs.KeptForm.{tagged_from};
ghost use Rattle.growth_laws.specs.Making.{made_of_two};
ghost use Rattle.result_ops.specs.Bounds.{limit};
ghost use Rattle.result_ops.specs.Fitting.{HasFitInputs};
ghost use Rattle.result_ops.specs.Steps.{made_of, taken_of_two, Makes, KeepsBoth};

use crate::made::{Input, Made};
use crate::one_input::made_of_rows;
use crate::refusal::MakeRefusal;
use crate::rows::{input_of, rows_of_tagged};
use join_ops::join_tagged;
use plan_core::Plan;
use row_blob::Kept;
use rows_core::limits::MAX_MACHINE_TIME;
use rows_core::{Memory, Row, Seq};
use std::alloc::Global;

/// What is made of the results of a plan's two inputs: the plan is a join or a concatenation. `Overflow`
/// comes only where a sum of an input's group is outside of i64, and `Machine` only where so many rows are
/// taken in that the machine time is above its limit.
pub fn made_of_two(alloc: Global, plan: &Plan, left: Made, right: Made) -> Result<Made, MakeRefusal>
    requires { HasFitInputs (plan_of plan.now) left.kept right.kept }
    ensures { Makes (limit ≤ taken_of_two (made_of left) (made_of right)) (plan_of plan.now)
        (made_of_two (plan_of plan.now) (made_of left) (made_of right)) result }
{
    match plan {
        Plan::Join {
            left: first,
            right: second,
            on,
        } => {
            let lefts = input_of(alloc, first, left)?;
            let rights = input_of(alloc, second, right)?;
            joined(alloc, lefts, rights, on.items())
        }
        Plan::Concat {
            left: first,
            right: second,
        } => {
            let lefts = input_of(alloc, first, left)?;
            let rights = input_of(alloc, second, right)?;
            concatenated(lefts, rights)
        }
        _ => unreachable!(),
    }
}

/// Each left row followed by each right row that agrees with it, as plain rows.
pub fn joined_rows(
    alloc: Global,
    lefts: &[Row],
    rights: &[Row],
    on: &[(u32, u32)],
) -> Result<Vec<Row>, Memory>
    ensures { IfOk result (λ rows. rows.items ≡ join_rows on.now lefts.now rights.now) }
{
    let tagged = join_tagged(alloc, lefts, rights, on, 0)?;
    rows_of_tagged(alloc, Seq::new(tagged))
}

// Each left row followed by each right row that agrees with it.
fn joined(
    alloc: Global,
    lefts: Input,
    rights: Input,
    on: &[(u32, u32)],
) -> Result<Made, MakeRefusal>
    ensures { KeepsBoth lefts rights
        (kept.Tagged (length lefts.rows.items)
        (tagged_from 0 on.now lefts.rows.items rights.rows.items)) result }
{
    let taken_in = both_taken(&lefts, &rights)?;
    let rows = join_tagged(alloc, &lefts.rows, &rights.rows, on, 0)?;
    Ok(Made {
        kept: Kept::Tagged {
            left: lefts.rows.len() as u64,
            rows: Seq::new(rows),
        },
        taken_in,
    })
}

// The left rows, and then the right ones.
fn concatenated(lefts: Input, rights: Input) -> Result<Made, MakeRefusal>
    ensures { KeepsBoth lefts rights (kept.Rows (lefts.rows.items ++ rights.rows.items)) result }
{
    let taken_in = both_taken(&lefts, &rights)?;
    let rows = rows_behind(lefts.rows, rights.rows)?;
    Ok(made_of_rows(rows, taken_in))
}

// The rows that were taken in of both inputs.
fn both_taken(lefts: &Input, rights: &Input) -> Result<u64, MakeRefusal>
    ensures ok { IfOk result (λ taken_in.
        (taken_in ≡ lefts.now.taken_in + rights.now.taken_in) × (taken_in < limit)) }
    ensures machine { IfErr result (λ e.
        (e ≡ MakeRefusal.Machine) × (limit ≤ lefts.now.taken_in + rights.now.taken_in)) }
{
    let taken_in = lefts.taken_in.saturating_add(rights.taken_in);
    if taken_in >= MAX_MACHINE_TIME {
        return Err(MakeRefusal::Machine);
    }
    Ok(taken_in)
}

/// The rows, and then the others, all of them moved.
pub fn rows_behind(rows: Vec<Row>, others: Vec<Row>) -> Result<Vec<Row>, Memory>
    ensures { IfOk result (λ joined. joined.items ≡ rows.items ++ others.items) }
{
    let mut joined = rows;
    let mut behind = others;
    if joined.is_empty() {
        return Ok(behind);
    }
    joined.append(&mut behind)?;
    Ok(joined)
}
