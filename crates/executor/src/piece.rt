//! What is read on its own.
ghost use Rattle.std.specs.Prelude.{◌≡◌, [], ◌∷◌, ◌++◌, OnOk};
ghost use Rattle.plan_core.specs.PlainPlan.{plan_of};
ghost use Rattle.estimator.specs.Cuts.{added_cuts};
ghost use Rattle.growth_laws.specs.Pieces.{Entry, Gathered};
ghost use Rattle.executor.specs.Pieces.{pieces_said};

use crate::cuts::added_cuts;
use plan_core::Plan;
use rows_core::{Cut, Memory, Seq};
use std::alloc::Global;

/// What is read on its own. Contracts see it as `piece_of` says it.
#[derive(Drop)]
pub enum Piece {
    /// The kept result of this plan, by its id.
    Entry { plan: Box<Plan>, id: u32 },
    /// The extents of the plan's one stream in this interval, through the plan's operators.
    Gathered { plan: Box<Plan>, cuts: Seq<Cut> },
}

// Puts a kept result behind the other pieces.
pub(crate) fn put_entry(
    alloc: Global,
    plan: &Plan,
    id: u32,
    to: &mut Vec<Piece>,
) -> Result<(), Memory>
    ensures { OnOk result
        (pieces_said to.new.items ≡ pieces_said to.old.items ++ Entry (plan_of plan.now) id ∷ []) }
{
    let plan = Box::new(alloc, plan.try_copy(alloc)?)?;
    to.push(Piece::Entry { plan, id })?;
    Ok(())
}

// Puts the extents of a stream behind the other pieces.
pub(crate) fn put_gathered(
    alloc: Global,
    plan: &Plan,
    cuts: &[Cut],
    to: &mut Vec<Piece>,
) -> Result<(), Memory>
    ensures { OnOk result (pieces_said to.new.items
        ≡ pieces_said to.old.items ++ Gathered (plan_of plan.now) cuts.now ∷ []) }
{
    put_whole(alloc, plan, Vec::from_slice(alloc, cuts)?, to)
}

// Puts the extents of a stream from the old intervals' ends to the new ones' behind the other pieces.
pub(crate) fn put_added(
    alloc: Global,
    plan: &Plan,
    old: &[Cut],
    new: &[Cut],
    to: &mut Vec<Piece>,
) -> Result<(), Memory>
    ensures { OnOk result (pieces_said to.new.items
        ≡ pieces_said to.old.items ++ Gathered (plan_of plan.now) (added_cuts old.now new.now) ∷ []) }
{
    put_whole(alloc, plan, added_cuts(alloc, old, new)?, to)
}

// Puts the extents of a stream in these intervals behind the other pieces.
fn put_whole(alloc: Global, plan: &Plan, cuts: Vec<Cut>, to: &mut Vec<Piece>) -> Result<(), Memory>
    ensures { OnOk result (pieces_said to.new.items
        ≡ pieces_said to.old.items ++ Gathered (plan_of plan.now) cuts.items ∷ []) }
{
    let plan = Box::new(alloc, plan.try_copy(alloc)?)?;
    let cuts = Seq::new(cuts);
    to.push(Piece::Gathered { plan, cuts })?;
    Ok(())
}
