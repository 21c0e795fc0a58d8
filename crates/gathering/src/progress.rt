//! How far a stream's rows have come.
ghost use Rattle.std.specs.Prelude.{◌≡◌, ◌↔◌, ℕ, ◌+◌, ◌<◌, [], ◌∷◌, ◌++◌, OnOk, OnErr, Ok, Err, IsTrue};
ghost use Rattle.plan_core.specs.Columns.{Rows};
ghost use Rattle.plan_core.specs.PlainPlan.{plan_of};
ghost use Rattle.plan_laws.specs.TypedOn.{IsTypedOn};
ghost use Rattle.growth_laws.specs.Growth.{whole_made};
ghost use Rattle.result_ops.specs.Bounds.{limit};
ghost use Rattle.growth_laws.specs.Chains.{IsOneStream};
ghost use Rattle.result_ops.specs.declared.stop.Stop.TheVariants as stop;
ghost use Rattle.gathering.specs.Holding.{AreWithin, IsSound, came_of, Follows, made_of_chain};
ghost use Rattle.gathering.specs.Steps.{counted};

use crate::chain::rows_through;
use crate::held::Held;
use plan_core::{EvRefusal, Plan};
use result_ops::{Input, Stop};
use rows_core::limits::MAX_MACHINE_TIME;
use rows_core::{Memory, Row};
use std::alloc::Global;

/// What is held of the rows so far, and how many were taken in.
#[derive(Drop)]
pub struct Going {
    pub held: Held,
    pub taken_in: u64,
}

// The greatest machine time. The 1 beside the rows that are taken in is the plan's own.
/// Takes the rows of one more extent. After too many rows they are dropped, and only evaluated, so that a
/// later overflow is told; after an overflow nothing more is evaluated. `Memory` leaves all as it was.
pub fn advance(
    alloc: Global,
    plan: &Plan,
    going: &mut Result<Going, Stop>,
    rows: Vec<Row>,
) -> Result<(), Memory>
    requires one { IsOneStream (plan_of plan.now) }
    requires sound { IsSound (plan_of plan.now) going.old }
    requires typed { IsTypedOn (plan_of plan.now) (rows.items ∷ []) }
    ensures sound { IsSound (plan_of plan.now) going.new }
    ensures follows { OnOk result ((fed : Rows)
        → Follows (whole_made (plan_of plan.now) (fed ∷ [])) (came_of going.old)
        → Follows (whole_made (plan_of plan.now) ((fed ++ rows.items) ∷ [])) (came_of going.new)) }
    ensures refused { OnErr result (came_of going.new ≡ came_of going.old) }
{
    if has_overflowed(going) {
        return Ok(());
    }
    match rows_through(alloc, plan, rows) {
        Ok(input) => take_in(plan, going, input),
        Err(EvRefusal::Overflow) => {
            *going = Err(Stop::Overflow);
            Ok(())
        }
        Err(EvRefusal::Memory) => Err(Memory),
    }
}

fn has_overflowed(going: &Result<Going, Stop>) -> bool
    ensures { IsTrue result ↔ (came_of going.now ≡ Err stop.Overflow) }
{
    matches!(going, Err(Stop::Overflow))
}

// Takes the rows that the plan's filters and projections give of one more extent.
fn take_in(plan: &Plan, going: &mut Result<Going, Stop>, input: Input) -> Result<(), Memory>
    requires sound { IsSound (plan_of plan.now) going.old }
    requires within { input.taken_in < limit
        → AreWithin (plan_of plan.now) input.rows.items input.taken_in }
    ensures sound { IsSound (plan_of plan.now) going.new }
    ensures follows { OnOk result ((before : Rows) (taken_in more : ℕ) → input.taken_in ≡ counted more
        → Follows (Ok (made_of_chain (plan_of plan.now) before taken_in)) (came_of going.old)
        → Follows (Ok (made_of_chain (plan_of plan.now) (before ++ input.rows.items) (taken_in + more)))
        (came_of going.new)) }
    ensures refused { OnErr result (came_of going.new ≡ came_of going.old) }
{
    let Ok(state) = going else {
        return Ok(());
    };
    let taken_in = state.taken_in.saturating_add(input.taken_in);
    if taken_in >= MAX_MACHINE_TIME {
        *going = Err(Stop::Machine);
        return Ok(());
    }
    state.held.take(plan, input.rows)?;
    state.taken_in = taken_in;
    Ok(())
}
