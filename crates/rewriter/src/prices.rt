//! What least trees cost, by what their least parts do.
ghost use Rattle.std.specs.Prelude.{◌≡◌};
ghost use Rattle.plan_core.specs.PlainPlan.{PlainPlan, plan_of};
ghost use Rattle.estimator.specs.Bytes.{Lengths, IsCutOf};
ghost use Rattle.estimator.specs.Cuts.{Cuts};
ghost use Rattle.rewrite_core.specs.Entries.{Entries};
ghost use Rattle.rewrite_core.specs.IsRewriting.{IsScan, IsLonger};
ghost use Rattle.rewrite_core.specs.PlainRewriting.{LeftGrew, RightGrew, OfDistinct, OfJoin};
ghost use Rattle.rewriter.specs.declared.parts.BothGrown.{BothGrown};
ghost use Rattle.rewriter.specs.declared.parts.Part.{Part};
ghost use Rattle.rewriter.specs.declared.parts.Stretch.{Stretch};
ghost use Rattle.rewriter.specs.Forms.{IsGrown};
ghost use Rattle.rewriter.specs.Growing.{ComputesOne, ComputesTwo, GrowsByTail, GrowsByPair, GrowsByBoth};
ghost use Rattle.rewriter.specs.Growing.{IncreasesByChild, IncreasesByPair};
ghost use Rattle.rewriter.specs.InStreams.{AreCutsOf};
ghost use Rattle.rewriter.specs.Search.{IsChoice, IsComputedPrice, IsDeltaPrice, IsDeltaPriceIfAny};
ghost use Rattle.rewriter.specs.Search.{IsEstimateIfAny, IsPairPriceIfAny};

use crate::parts::{Part, Stretch};
use crate::priced::{Choice, PairPrice, Price};
use crate::sums::{file_len, plus};
use estimator::{Sizes, new_bytes, whole_bytes};
use rewrite_core::Hit;

/// Of a scan of its extents.
pub fn price_of_scan<Z: Sizes>(part: Part<'_, '_>, sizes: &Z) -> Price
    requires cuts { IsCutOf (Z.lengths sizes.now) (plan_of part.plan.now) part.cuts.now }
    ensures { (entries : Entries) → IsScan (plan_of part.entry.plan.now)
        → IsComputedPrice entries (Z.lengths sizes.now) (plan_of part.entry.plan.now) part.entry.cuts.now
        result }
{
    let bytes = whole_bytes(part.plan, part.cuts, sizes);
    Price {
        estimate: bytes,
        bytes,
    }
}

/// Of an operator over its input.
pub fn price_of_one(best: Choice) -> Price
    ensures { (entries : Entries) (lengths : Lengths) (q : PlainPlan) (c : Cuts) (p : Part)
        → ComputesOne entries lengths q c p
        → IsChoice entries lengths (plan_of p.plan.now) p.cuts.now best
        → IsComputedPrice entries lengths q c result }
{
    Price {
        estimate: plus(best.estimate, best.bytes),
        bytes: best.bytes,
    }
}

/// Of an operator over its two inputs.
pub fn price_of_two(left: Choice, right: Choice) -> Price
    ensures { (entries : Entries) (lengths : Lengths) (q : PlainPlan) (c : Cuts) (x y : Part)
        → ComputesTwo entries lengths q c x y
        → IsChoice entries lengths (plan_of x.plan.now) x.cuts.now left
        → IsChoice entries lengths (plan_of y.plan.now) y.cuts.now right
        → IsComputedPrice entries lengths q c result }
{
    let bytes = plus(left.bytes, right.bytes);
    let inputs = plus(left.estimate, right.estimate);
    Price {
        estimate: plus(inputs, bytes),
        bytes,
    }
}

/// Of the earlier result with the delta of the part by which it is grown, if that has one.
pub fn estimate_of_tail(hit: &Hit, delta: Option<Price>) -> Option<u64>
    ensures { (entries : Entries) (lengths : Lengths) (q : PlainPlan) (c : Cuts) (s : Stretch)
        → GrowsByTail entries lengths q c hit.now s
        → IsDeltaPriceIfAny entries lengths (plan_of s.plan.now) s.old.now s.new.now delta
        → IsEstimateIfAny IsGrown entries lengths q c result }
{
    match delta {
        None => None,
        Some(delta) => {
            let parts = plus(file_len(hit), delta.estimate);
            Some(plus(parts, delta.bytes))
        }
    }
}

/// Of the earlier result of a join with the delta of one input, if that has one, and the other input.
pub fn estimate_of_pair(hit: &Hit, pair: Option<PairPrice>) -> Option<u64>
    ensures left { (entries : Entries) (lengths : Lengths) (q : PlainPlan) (c : Cuts) (s : Stretch)
        (p : Part) → GrowsByPair (λ d r. LeftGrew hit.now d r) entries lengths q hit.now.cuts c s p
        → IsPairPriceIfAny entries lengths s p pair → IsEstimateIfAny IsGrown entries lengths q c result }
    ensures right { (entries : Entries) (lengths : Lengths) (q : PlainPlan) (c : Cuts) (s : Stretch)
        (p : Part) → GrowsByPair (λ d r. RightGrew hit.now r d) entries lengths q hit.now.cuts c s p
        → IsPairPriceIfAny entries lengths s p pair → IsEstimateIfAny IsGrown entries lengths q c result }
{
    match pair {
        None => None,
        Some(pair) => {
            let parts = plus(plus(file_len(hit), pair.delta.estimate), pair.best.estimate);
            Some(plus(parts, pair.delta.bytes))
        }
    }
}

/// Of the earlier result of a join whose two inputs have grown: before is what the right delta meets, and
/// behind what the left one does.
pub fn estimate_of_both(
    hit: &Hit,
    before: Option<PairPrice>,
    behind: Option<PairPrice>,
) -> Option<u64>
    ensures { (entries : Entries) (lengths : Lengths) (q : PlainPlan) (c : Cuts) (b : BothGrown)
        → GrowsByBoth entries lengths q c hit.now b
        → IsPairPriceIfAny entries lengths b.right_delta b.old_left before
        → IsPairPriceIfAny entries lengths b.left_delta b.right behind
        → IsEstimateIfAny IsGrown entries lengths q c result }
{
    let (Some(before), Some(behind)) = (before, behind) else {
        return None;
    };
    let lefts = plus(file_len(hit), before.best.estimate);
    let deltas = plus(plus(lefts, before.delta.estimate), behind.delta.estimate);
    let bytes = plus(behind.delta.bytes, before.delta.bytes);
    Some(plus(plus(deltas, behind.best.estimate), bytes))
}

/// Of no rows.
pub fn price_of_nothing() -> Price
    ensures { (entries : Entries) (lengths : Lengths) (q : PlainPlan) (old new : Cuts) → old ≡ new
        → IsDeltaPrice entries lengths q old new result }
{
    Price {
        estimate: 0,
        bytes: 0,
    }
}

/// Of the new extents of a scan.
pub fn price_of_new_rows<Z: Sizes>(stretch: Stretch<'_, '_>, sizes: &Z) -> Price
    requires cuts { AreCutsOf (Z.lengths sizes.now) (plan_of stretch.plan.now) stretch.old.now
        stretch.new.now }
    ensures { (entries : Entries) → IsScan (plan_of stretch.entry.plan.now)
        → IsLonger stretch.entry.old.now stretch.entry.new.now
        → IsDeltaPrice entries (Z.lengths sizes.now) (plan_of stretch.entry.plan.now)
        stretch.entry.old.now stretch.entry.new.now result }
{
    let bytes = new_bytes(stretch.plan, stretch.old, stretch.new, sizes);
    Price {
        estimate: bytes,
        bytes,
    }
}

/// Of the delta of the part of which it is made, if that has one.
pub fn price_over_child(delta: Option<Price>) -> Option<Price>
    ensures { (entries : Entries) (lengths : Lengths) (q : PlainPlan) (old new : Cuts) (s : Stretch)
        → IncreasesByChild entries lengths q old new s
        → IsDeltaPriceIfAny entries lengths (plan_of s.plan.now) s.old.now s.new.now delta
        → IsDeltaPriceIfAny entries lengths q old new result }
{
    match delta {
        None => None,
        Some(delta) => Some(Price {
            estimate: plus(delta.estimate, delta.bytes),
            bytes: delta.bytes,
        }),
    }
}

/// Of the delta of a distinct's input and its old result, or of that of a join's left input and its right
/// one, if the input has one.
pub fn price_over_pair(pair: Option<PairPrice>) -> Option<Price>
    ensures distinct { (entries : Entries) (lengths : Lengths) (q : PlainPlan) (old new : Cuts)
        (s : Stretch) (p : Part) → IncreasesByPair (λ d r. OfDistinct r d) entries lengths q old new s p
        → IsPairPriceIfAny entries lengths s p pair → IsDeltaPriceIfAny entries lengths q old new result }
    ensures join { (entries : Entries) (lengths : Lengths) (q : PlainPlan) (old new : Cuts)
        (s : Stretch) (p : Part) → IncreasesByPair (λ d r. OfJoin d r) entries lengths q old new s p
        → IsPairPriceIfAny entries lengths s p pair → IsDeltaPriceIfAny entries lengths q old new result }
{
    match pair {
        None => None,
        Some(pair) => {
            let parts = plus(pair.delta.estimate, pair.best.estimate);
            Some(Price {
                estimate: plus(parts, pair.delta.bytes),
                bytes: pair.delta.bytes,
            })
        }
    }
}
