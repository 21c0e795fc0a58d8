//! The bytes under a plan.
ghost use Rattle.std.specs.Prelude.{◌≡◌, ◌≤◌, length, take, drop, slice_get, [], ◌∷◌, ◌++◌, ◌+◌, min};
ghost use Rattle.plan_core.specs.PlainPlan.{plan_of, leaves, leaf_count};
ghost use Rattle.estimator.specs.Cuts.{EndAtOrBefore, added_cuts};
ghost use Rattle.estimator.specs.Bytes.{AreInStreams, leaf_bytes, whole_bytes, new_bytes, IsCutOf, capped};
ghost use Rattle.estimator.specs.Intervals.{cuts_of};

use crate::sizes::{Sizes, interval_bytes};
use plan_core::Plan;
use rows_core::Cut;

/// The bytes of the extents of the plan's leaves at this cut, each leaf by itself, cut at the greatest u64.
pub fn whole_bytes<Z: Sizes>(plan: &Plan, cuts: &[Cut], sizes: &Z) -> u64
    requires { IsCutOf (Z.lengths sizes.now) (plan_of plan.now) cuts.now }
    ensures { result ≡ capped (whole_bytes (Z.lengths sizes.now) (plan_of plan.now) cuts.now) }
{
    bytes_in(plan, Intervals::Whole(cuts), sizes)
}

/// The bytes of the extents that the plan's leaves have at the new cut behind the old one, each leaf by
/// itself, cut at the greatest u64.
#[tactic(auto, using(crate::proofs::Sums::added_within))]
pub fn new_bytes<Z: Sizes>(plan: &Plan, old: &[Cut], new: &[Cut], sizes: &Z) -> u64
    requires old { IsCutOf (Z.lengths sizes.now) (plan_of plan.now) old.now }
    requires new { IsCutOf (Z.lengths sizes.now) (plan_of plan.now) new.now }
    requires grows { EndAtOrBefore old.now new.now }
    ensures { result ≡ capped (new_bytes (Z.lengths sizes.now) (plan_of plan.now) old.now new.now) }
{
    bytes_in(plan, Intervals::Added { old, new }, sizes)
}

// The intervals of which the bytes are summed.
#[derive(Clone, Copy)]
enum Intervals<'a> {
    Whole(&'a [Cut]),
    Added { old: &'a [Cut], new: &'a [Cut] },
}

impl<'a> Intervals<'a> {
    // The number of intervals.
    #[tactic(auto, using(crate::proofs::Sums::added_length))]
    fn len(self) -> usize
        ensures { result ≡ length (cuts_of self.entry) }
    {
        match self {
            Intervals::Whole(cuts) => cuts.len(),
            Intervals::Added { old, new } => old.len().min(new.len()),
        }
    }

    // The first ones, and those behind them.
    #[tactic(auto, using(crate::proofs::Sums::of_split))]
    fn split_at(self, count: usize) -> (Intervals<'a>, Intervals<'a>)
        requires { count ≤ length (cuts_of self) }
        ensures front { cuts_of result.0 ≡ take count (cuts_of self.entry) }
        ensures back { cuts_of result.1 ≡ drop count (cuts_of self.entry) }
    {
        match self {
            Intervals::Whole(cuts) => {
                let (front, back) = cuts.split_at(count);
                (Intervals::Whole(front), Intervals::Whole(back))
            }
            Intervals::Added { old, new } => {
                let (old_front, old_back) = old.split_at(count);
                let (new_front, new_back) = new.split_at(count);
                let front = Intervals::Added {
                    old: old_front,
                    new: new_front,
                };
                let back = Intervals::Added {
                    old: old_back,
                    new: new_back,
                };
                (front, back)
            }
        }
    }

    // Those of the leaves of a left input, and those of the right one.
    #[tactic(auto, using(crate::proofs::Sums::of_sides, crate::proofs::Leaves::of_sides))]
    fn sides<Z: Sizes>(
        self,
        left: &Plan,
        _right: &Plan,
        _sizes: &Z,
    ) -> (Intervals<'a>, Intervals<'a>)
        requires { AreInStreams (Z.lengths _sizes.now)
            (leaves (plan_of left.now) ++ leaves (plan_of _right.now)) (cuts_of self) }
        ensures lefts { IsCutOf (Z.lengths _sizes.now) (plan_of left.now) (cuts_of result.0) }
        ensures rights { IsCutOf (Z.lengths _sizes.now) (plan_of _right.now) (cuts_of result.1) }
        ensures bytes { leaf_bytes (Z.lengths _sizes.now)
            (leaves (plan_of left.now) ++ leaves (plan_of _right.now)) (cuts_of self.entry)
            ≡ whole_bytes (Z.lengths _sizes.now) (plan_of left.now) (cuts_of result.0)
            + whole_bytes (Z.lengths _sizes.now) (plan_of _right.now) (cuts_of result.1) }
    {
        self.split_at(leaves_within(left, self.len()))
    }

    // The first one.
    fn first(self) -> Option<Cut>
        ensures { result ≡ slice_get (cuts_of self.entry) 0 }
    {
        match self {
            Intervals::Whole(cuts) => cuts.first().copied(),
            Intervals::Added { old, new } => first_added(old, new),
        }
    }
}

// The first interval that the new cuts have behind the old ones.
fn first_added(old: &[Cut], new: &[Cut]) -> Option<Cut>
    ensures { result ≡ slice_get (added_cuts old.now new.now) 0 }
{
    let [old, ..] = old else {
        return None;
    };
    let [new, ..] = new else {
        return None;
    };
    Some(Cut {
        from: old.to,
        to: new.to,
    })
}

// The bytes of the extents of the plan's leaves in these intervals.
#[tactic(auto, using(crate::proofs::Sums::of_sides))]
fn bytes_in<Z: Sizes>(plan: &Plan, intervals: Intervals, sizes: &Z) -> u64
    requires { IsCutOf (Z.lengths sizes.now) (plan_of plan.now) (cuts_of intervals) }
    ensures { result
        ≡ capped (whole_bytes (Z.lengths sizes.now) (plan_of plan.now) (cuts_of intervals.entry)) }
{
    match plan {
        Plan::Scan { stream } => leaf_bytes(*stream, intervals, sizes),
        Plan::Filter { child, test: _ }
        | Plan::Project { child, columns: _ }
        | Plan::Distinct { child }
        | Plan::Group {
            child,
            keys: _,
            aggs: _,
        }
        | Plan::Order { child, keys: _ } => bytes_in(child, intervals, sizes),
        Plan::Join { left, right, on: _ } => {
            let (lefts, rights) = intervals.sides(left, right, sizes);
            bytes_in(left, lefts, sizes).saturating_add(bytes_in(right, rights, sizes))
        }
        Plan::Concat { left, right } => {
            let (lefts, rights) = intervals.sides(left, right, sizes);
            bytes_in(left, lefts, sizes).saturating_add(bytes_in(right, rights, sizes))
        }
    }
}

// The bytes of the extents of a leaf in its interval.
fn leaf_bytes<Z: Sizes>(stream: u32, intervals: Intervals, sizes: &Z) -> u64
    requires { AreInStreams (Z.lengths sizes.now) (stream ∷ []) (cuts_of intervals) }
    ensures { result ≡ capped (leaf_bytes (Z.lengths sizes.now) (stream ∷ []) (cuts_of intervals.entry)) }
{
    match intervals.first() {
        Some(cut) => interval_bytes(stream, cut, sizes),
        None => 0,
    }
}

/// The intervals of a left input's leaves, and those behind them, as far as there are any.
#[tactic(auto, using(crate::proofs::Leaves::of_sides))]
pub fn sides<'a>(left: &Plan, cuts: &'a [Cut]) -> (&'a [Cut], &'a [Cut])
    ensures lefts { result.0.now ≡ take (leaf_count (plan_of left.now)) cuts.now }
    ensures rights { result.1.now ≡ drop (leaf_count (plan_of left.now)) cuts.now }
{
    cuts.split_at(leaves_within(left, cuts.len()))
}

// The number of the plan's leaves, or this if there are more.
#[tactic(auto, using(crate::proofs::Leaves::of_two_inputs))]
fn leaves_within(plan: &Plan, most: usize) -> usize
    ensures { result ≡ min (leaf_count (plan_of plan.now)) most }
{
    match plan {
        Plan::Scan { stream: _ } => most.min(1),
        Plan::Filter { child, test: _ }
        | Plan::Project { child, columns: _ }
        | Plan::Distinct { child }
        | Plan::Group {
            child,
            keys: _,
            aggs: _,
        }
        | Plan::Order { child, keys: _ } => leaves_within(child, most),
        Plan::Join { left, right, on: _ } | Plan::Concat { left, right } => {
            let lefts = leaves_within(left, most);
            lefts + leaves_within(right, most - lefts)
        }
    }
}
