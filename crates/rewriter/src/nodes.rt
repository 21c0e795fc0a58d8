//! The nodes of trees, exactly.
ghost use Rattle.std.specs.Prelude.{◌≡◌, IfOk};
ghost use Rattle.plan_core.specs.PlainPlan.{plan_of};
ghost use Rattle.rewrite_core.specs.PlainRewriting.{Node, Tail, LeftGrew, RightGrew, BothGrew, Change};
ghost use Rattle.rewrite_core.specs.PlainRewriting.{rewriting_of, delta_of, way_of, grown_way};
ghost use Rattle.rewrite_core.specs.PlainRewriting.{delta_way_of};

use crate::parts::{Part, Stretch};
use rewrite_core::{Delta, DeltaWay, Hit, Parts, Rewriting, Way};
use rows_core::{Memory, Seq};
use std::alloc::Global;

/// The node of this plan and cut.
pub fn node(alloc: Global, part: Part<'_, '_>, way: Way) -> Result<Box<Rewriting>, Memory>
    ensures { IfOk result (λ tree. rewriting_of tree.value
        ≡ Node (plan_of part.entry.plan.now) part.entry.cuts.now (way_of way)) }
{
    let cuts = Seq::new(Vec::from_slice(alloc, part.cuts)?);
    let plan = part.plan.try_copy(alloc)?;
    Ok(Box::new(alloc, Rewriting { plan, cuts, way })?)
}

/// The delta of this plan between these cuts.
pub fn change(alloc: Global, stretch: Stretch<'_, '_>, way: DeltaWay) -> Result<Box<Delta>, Memory>
    ensures { IfOk result (λ tree. delta_of tree.value ≡ Change (plan_of stretch.entry.plan.now)
        stretch.entry.old.now stretch.entry.new.now (delta_way_of way)) }
{
    let old = Seq::new(Vec::from_slice(alloc, stretch.old)?);
    let new = Seq::new(Vec::from_slice(alloc, stretch.new)?);
    let plan = stretch.plan.try_copy(alloc)?;
    let delta = Delta {
        plan,
        old,
        new,
        way,
    };
    Ok(Box::new(alloc, delta)?)
}

// An earlier result with these parts.
fn grown(
    alloc: Global,
    part: Part<'_, '_>,
    hit: &Hit,
    parts: Box<Parts>,
) -> Result<Box<Rewriting>, Memory>
    ensures { IfOk result (λ tree. rewriting_of tree.value
        ≡ Node (plan_of part.entry.plan.now) part.entry.cuts.now (grown_way hit.now parts.value)) }
{
    let hit = copied(alloc, hit)?;
    node(alloc, part, Way::Grown { hit, parts })
}

// A second hit that equals this one.
fn copied(alloc: Global, hit: &Hit) -> Result<Hit, Memory>
    ensures { IfOk result (λ copy. copy ≡ hit.now) }
{
    Ok(Hit {
        id: hit.id,
        cuts: hit.cuts.try_copy(alloc)?,
        len: hit.len,
    })
}

/// An earlier result and the delta of the only input, or of the right one of a concatenation.
pub fn tail(
    alloc: Global,
    part: Part<'_, '_>,
    hit: &Hit,
    delta: Box<Delta>,
) -> Result<Box<Rewriting>, Memory>
    ensures { IfOk result (λ tree. rewriting_of tree.value
        ≡ Node (plan_of part.entry.plan.now) part.entry.cuts.now (Tail hit.now (delta_of delta.value))) }
{
    let parts = Parts::Tail(Box::into_inner(delta));
    grown(alloc, part, hit, Box::new(alloc, parts)?)
}

/// The earlier result of a join whose left input has grown.
pub fn left_grew(
    alloc: Global,
    part: Part<'_, '_>,
    hit: &Hit,
    left: Box<Delta>,
    right: Box<Rewriting>,
) -> Result<Box<Rewriting>, Memory>
    ensures { IfOk result (λ tree. rewriting_of tree.value
        ≡ Node (plan_of part.entry.plan.now) part.entry.cuts.now
        (LeftGrew hit.now (delta_of left.value) (rewriting_of right.value))) }
{
    let parts = Parts::LeftGrew {
        left: Box::into_inner(left),
        right: Box::into_inner(right),
    };
    grown(alloc, part, hit, Box::new(alloc, parts)?)
}

/// The earlier result of a join whose right input has grown.
pub fn right_grew(
    alloc: Global,
    part: Part<'_, '_>,
    hit: &Hit,
    left: Box<Rewriting>,
    right: Box<Delta>,
) -> Result<Box<Rewriting>, Memory>
    ensures { IfOk result (λ tree. rewriting_of tree.value
        ≡ Node (plan_of part.entry.plan.now) part.entry.cuts.now
        (RightGrew hit.now (rewriting_of left.value) (delta_of right.value))) }
{
    let parts = Parts::RightGrew {
        left: Box::into_inner(left),
        right: Box::into_inner(right),
    };
    grown(alloc, part, hit, Box::new(alloc, parts)?)
}

/// The earlier result of a join whose two inputs have grown.
pub fn both_grew(
    alloc: Global,
    part: Part<'_, '_>,
    hit: &Hit,
    old_left: Box<Rewriting>,
    right_delta: Box<Delta>,
    left_delta: Box<Delta>,
    right: Box<Rewriting>,
) -> Result<Box<Rewriting>, Memory>
    ensures { IfOk result (λ tree. rewriting_of tree.value
        ≡ Node (plan_of part.entry.plan.now) part.entry.cuts.now
        (BothGrew hit.now (rewriting_of old_left.value) (delta_of right_delta.value)
        (delta_of left_delta.value) (rewriting_of right.value))) }
{
    let parts = Parts::BothGrew {
        old_left: Box::into_inner(old_left),
        right_delta: Box::into_inner(right_delta),
        left_delta: Box::into_inner(left_delta),
        right: Box::into_inner(right),
    };
    grown(alloc, part, hit, Box::new(alloc, parts)?)
}
