//! What a rewriting is estimated to cost, and the bytes that it reads. They take no memory.
ghost use Rattle.std.specs.Prelude.{◌≡◌};
ghost use Rattle.plan_core.specs.PlainPlan.{plan_of};
ghost use Rattle.estimator.specs.Bytes.{IsCutOf, capped};
ghost use Rattle.rewrite_core.specs.Estimate.{cost, way_cost, delta_cost, estimate_of};
ghost use Rattle.rewrite_core.specs.IsRewriting.{IsRewriting, whichever};
ghost use Rattle.rewrite_core.specs.PlainRewriting.{rewriting_of, delta_of, grown_way};
ghost use Rattle.rewriter.specs.InStreams.{IsInStreams, IsWayInStreams, IsDeltaInStreams};
ghost use Rattle.rewriter.specs.Reads.{reads_of, way_reads, delta_reads};

use crate::sums::file_len;
use estimator::{Sizes, new_bytes, whole_bytes};
use plan_core::Plan;
use rewrite_core::{Delta, DeltaWay, Hit, Parts, Rewriting, Way};
use rows_core::Cut;

/// What a well-formed rewriting is estimated to cost, cut at the greatest u64.
pub fn estimate<Z: Sizes>(r: &Rewriting, sizes: &Z) -> u64
    requires formed { IsRewriting whichever (plan_of r.now.plan) r.now.cuts (rewriting_of r.now) }
    requires cuts { IsCutOf (Z.lengths sizes.now) (plan_of r.now.plan) r.now.cuts }
    ensures { result ≡ estimate_of (Z.lengths sizes.now) (rewriting_of r.now) }
{
    cost_of(r, sizes)
}

/// The bytes that a well-formed rewriting reads, cut at the greatest u64.
pub fn reads<Z: Sizes>(r: &Rewriting, sizes: &Z) -> u64
    requires formed { IsRewriting whichever (plan_of r.now.plan) r.now.cuts (rewriting_of r.now) }
    requires cuts { IsCutOf (Z.lengths sizes.now) (plan_of r.now.plan) r.now.cuts }
    ensures { result ≡ capped (reads_of (Z.lengths sizes.now) (rewriting_of r.now)) }
{
    reads_of(r, sizes)
}

#[cycle(cost)]
fn cost_of<Z: Sizes>(r: &Rewriting, sizes: &Z) -> u64
    requires { IsInStreams (Z.lengths sizes.now) (rewriting_of r.now) }
    ensures { result ≡ capped (cost (Z.lengths sizes.now) (rewriting_of r.now)) }
{
    match &r.way {
        Way::Scan => whole_bytes(&r.plan, r.cuts.items(), sizes),
        Way::One(input) => {
            let bytes = whole_bytes(&r.plan, r.cuts.items(), sizes);
            cost_of(input, sizes).saturating_add(bytes)
        }
        Way::Two(left, right) => {
            let bytes = whole_bytes(&r.plan, r.cuts.items(), sizes);
            let inputs = cost_of(left, sizes).saturating_add(cost_of(right, sizes));
            inputs.saturating_add(bytes)
        }
        Way::Read(hit) => file_len(hit),
        Way::Grown { hit, parts } => grown_cost(hit, parts, &r.plan, r.cuts.items(), sizes),
    }
}

#[cycle(cost)]
fn grown_cost<Z: Sizes>(hit: &Hit, parts: &Parts, plan: &Plan, cuts: &[Cut], sizes: &Z) -> u64
    requires { IsWayInStreams (Z.lengths sizes.now) (plan_of plan.now) cuts.now
        (grown_way hit.now parts.now) }
    ensures { result ≡ capped (way_cost (Z.lengths sizes.now) (plan_of plan.now) cuts.now
        (grown_way hit.now parts.now)) }
{
    let parts_cost = match parts {
        Parts::Tail(delta) => delta_cost(delta, sizes),
        Parts::LeftGrew { left, right } => {
            delta_cost(left, sizes).saturating_add(cost_of(right, sizes))
        }
        Parts::RightGrew { left, right } => {
            cost_of(left, sizes).saturating_add(delta_cost(right, sizes))
        }
        Parts::BothGrew {
            old_left,
            right_delta,
            left_delta,
            right,
        } => {
            let deltas = delta_cost(right_delta, sizes).saturating_add(delta_cost(
                left_delta, sizes,
            ));
            let inputs = cost_of(old_left, sizes).saturating_add(cost_of(right, sizes));
            deltas.saturating_add(inputs)
        }
    };
    hit.len
        .saturating_add(parts_cost)
        .saturating_add(new_bytes(plan, hit.cuts.items(), cuts, sizes))
}

#[cycle(cost)]
fn delta_cost<Z: Sizes>(delta: &Delta, sizes: &Z) -> u64
    requires { IsDeltaInStreams (Z.lengths sizes.now) (delta_of delta.now) }
    ensures { result ≡ capped (delta_cost (Z.lengths sizes.now) (delta_of delta.now)) }
{
    let bytes = new_bytes(&delta.plan, delta.old.items(), delta.new.items(), sizes);
    match &delta.way {
        DeltaWay::Unchanged => 0,
        DeltaWay::Scan => bytes,
        DeltaWay::Tail(input) => delta_cost(input, sizes).saturating_add(bytes),
        DeltaWay::Distinct { old, child } => {
            let parts = cost_of(old, sizes).saturating_add(delta_cost(child, sizes));
            parts.saturating_add(bytes)
        }
        DeltaWay::Join { left, right } => {
            let parts = delta_cost(left, sizes).saturating_add(cost_of(right, sizes));
            parts.saturating_add(bytes)
        }
    }
}

#[cycle(reads)]
fn reads_of<Z: Sizes>(r: &Rewriting, sizes: &Z) -> u64
    requires { IsInStreams (Z.lengths sizes.now) (rewriting_of r.now) }
    ensures { result ≡ capped (reads_of (Z.lengths sizes.now) (rewriting_of r.now)) }
{
    match &r.way {
        Way::Scan => whole_bytes(&r.plan, r.cuts.items(), sizes),
        Way::One(input) => reads_of(input, sizes),
        Way::Two(left, right) => reads_of(left, sizes).saturating_add(reads_of(right, sizes)),
        Way::Read(hit) => file_len(hit),
        Way::Grown { hit, parts } => grown_reads(hit, parts, &r.plan, r.cuts.items(), sizes),
    }
}

#[cycle(reads)]
fn grown_reads<Z: Sizes>(hit: &Hit, parts: &Parts, _plan: &Plan, _cuts: &[Cut], sizes: &Z) -> u64
    requires { IsWayInStreams (Z.lengths sizes.now) (plan_of _plan.now) _cuts.now
        (grown_way hit.now parts.now) }
    ensures { result ≡ capped (way_reads (Z.lengths sizes.now) (plan_of _plan.now) _cuts.now
        (grown_way hit.now parts.now)) }
{
    let parts_reads = match parts {
        Parts::Tail(delta) => delta_reads(delta, sizes),
        Parts::LeftGrew { left, right } => {
            delta_reads(left, sizes).saturating_add(reads_of(right, sizes))
        }
        Parts::RightGrew { left, right } => {
            reads_of(left, sizes).saturating_add(delta_reads(right, sizes))
        }
        Parts::BothGrew {
            old_left,
            right_delta,
            left_delta,
            right,
        } => {
            let deltas = delta_reads(right_delta, sizes).saturating_add(delta_reads(
                left_delta, sizes,
            ));
            let inputs = reads_of(old_left, sizes).saturating_add(reads_of(right, sizes));
            deltas.saturating_add(inputs)
        }
    };
    hit.len.saturating_add(parts_reads)
}

#[cycle(reads)]
fn delta_reads<Z: Sizes>(delta: &Delta, sizes: &Z) -> u64
    requires { IsDeltaInStreams (Z.lengths sizes.now) (delta_of delta.now) }
    ensures { result ≡ capped (delta_reads (Z.lengths sizes.now) (delta_of delta.now)) }
{
    match &delta.way {
        DeltaWay::Unchanged => 0,
        DeltaWay::Scan => new_bytes(&delta.plan, delta.old.items(), delta.new.items(), sizes),
        DeltaWay::Tail(input) => delta_reads(input, sizes),
        DeltaWay::Distinct { old, child } => {
            reads_of(old, sizes).saturating_add(delta_reads(child, sizes))
        }
        DeltaWay::Join { left, right } => {
            delta_reads(left, sizes).saturating_add(reads_of(right, sizes))
        }
    }
}
