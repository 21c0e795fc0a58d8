//! The search for the forms of a least rewriting, by estimates alone. The recursion goes down the plan; a
//! delta of a plan comes after the choices of that same plan. A plan's choice at a cut is found once, and the
//! price of a least delta between two cuts.
ghost use Rattle.std.specs.Prelude.{IfOk, OnOk};
ghost use Rattle.plan_core.specs.PlainPlan.{plan_of};
ghost use Rattle.estimator.specs.Bytes.{Lengths, IsCutOf};
ghost use Rattle.rewrite_core.specs.Entries.{AreSound, IsEarlier};
ghost use Rattle.rewriter.specs.Forms.{IsRead, IsGrown};
ghost use Rattle.rewriter.specs.InStreams.{AreCutsOf};
ghost use Rattle.rewriter.specs.Search.{IsChoice, IsComputedPrice, IsDeltaPriceIfAny, IsEstimateIfAny};
ghost use Rattle.rewriter.specs.Search.{IsPairPriceIfAny};
ghost use Rattle.rewriter.specs.Table.{AreFound};

use crate::bounds::read_if_least;
use crate::choosing::cheapest;
use crate::computing::inputs_of;
use crate::growth::growth_of;
use crate::increase::increase_of;
use crate::parts::{Growth, Increase, Inputs, Part, Stretch};
use crate::priced::{Choice, PairPrice, Price};
use crate::prices::{
    estimate_of_both, estimate_of_pair, estimate_of_tail, price_of_new_rows, price_of_nothing,
    price_of_one, price_of_scan, price_of_two, price_over_child, price_over_pair,
};
use crate::sums::file_len;
use crate::table::Found;
use estimator::Sizes;
use rewrite_core::{Hit, Lookup};
use rows_core::Memory;
use std::alloc::Global;

/// The form of a least rewriting of the part, which is looked for once.
#[cycle(search)]
pub fn choice_at<'p, L: Lookup, Z: Sizes>(
    alloc: Global,
    part: Part<'p, '_>,
    lookup: &L,
    sizes: &Z,
    found: &mut Found<'p>,
) -> Result<Choice, Memory>
    requires sound { AreSound (L.entries lookup.now) }
    requires cuts { IsCutOf (Z.lengths sizes.now) (plan_of part.plan.now) part.cuts.now }
    requires found { AreFound (L.entries lookup.now) (Z.lengths sizes.now) found.old }
    ensures answer { IfOk result (IsChoice (L.entries lookup.now) (Z.lengths sizes.now)
        (plan_of part.entry.plan.now) part.entry.cuts.now) }
    ensures found { OnOk result (AreFound (L.entries lookup.now) (Z.lengths sizes.now) found.new) }
{
    if let Some(choice) = found.choice(part) {
        return Ok(choice);
    }
    let choice = choose_at(alloc, part, lookup, sizes, found)?;
    found.keep_choice(alloc, part, choice)?;
    Ok(choice)
}

// The form of a least rewriting, by the estimates of the three forms. The parts are looked at only where
// reading a kept result could be dearer.
#[cycle(search)]
fn choose_at<'p, L: Lookup, Z: Sizes>(
    alloc: Global,
    part: Part<'p, '_>,
    lookup: &L,
    sizes: &Z,
    found: &mut Found<'p>,
) -> Result<Choice, Memory>
    requires sound { AreSound (L.entries lookup.now) }
    requires cuts { IsCutOf (Z.lengths sizes.now) (plan_of part.plan.now) part.cuts.now }
    requires found { AreFound (L.entries lookup.now) (Z.lengths sizes.now) found.old }
    ensures answer { IfOk result (IsChoice (L.entries lookup.now) (Z.lengths sizes.now)
        (plan_of part.entry.plan.now) part.entry.cuts.now) }
    ensures found { OnOk result (AreFound (L.entries lookup.now) (Z.lengths sizes.now) found.new) }
{
    let read = read_at(alloc, part, lookup)?;
    if let Some(choice) = read_if_least(alloc, part, read, lookup, sizes)? {
        return Ok(choice);
    }
    let computed = computed_at(alloc, part, lookup, sizes, found)?;
    let grown = grown_at(alloc, part, lookup, sizes, found)?;
    Ok(cheapest(computed, read, grown))
}

// The price of a least one of those that compute the node.
#[cycle(search)]
fn computed_at<'p, L: Lookup, Z: Sizes>(
    alloc: Global,
    part: Part<'p, '_>,
    lookup: &L,
    sizes: &Z,
    found: &mut Found<'p>,
) -> Result<Price, Memory>
    requires sound { AreSound (L.entries lookup.now) }
    requires cuts { IsCutOf (Z.lengths sizes.now) (plan_of part.plan.now) part.cuts.now }
    requires found { AreFound (L.entries lookup.now) (Z.lengths sizes.now) found.old }
    ensures answer { IfOk result (IsComputedPrice (L.entries lookup.now) (Z.lengths sizes.now)
        (plan_of part.entry.plan.now) part.entry.cuts.now) }
    ensures found { OnOk result (AreFound (L.entries lookup.now) (Z.lengths sizes.now) found.new) }
{
    match inputs_of(part) {
        Inputs::Stream => Ok(price_of_scan(part, sizes)),
        Inputs::One(input) => {
            let best = choice_at(alloc, input, lookup, sizes, found)?;
            Ok(price_of_one(best))
        }
        Inputs::Two(left, right) => {
            let first = choice_at(alloc, left, lookup, sizes, found)?;
            let second = choice_at(alloc, right, lookup, sizes, found)?;
            Ok(price_of_two(first, second))
        }
    }
}

// The estimate of the one that reads the kept result of the part, if there is one.
fn read_at<L: Lookup>(alloc: Global, part: Part<'_, '_>, lookup: &L) -> Result<Option<u64>, Memory>
    requires sound { AreSound (L.entries lookup.now) }
    ensures { IfOk result (λ read. (lengths : Lengths) → IsEstimateIfAny IsRead (L.entries lookup.now)
        lengths (plan_of part.entry.plan.now) part.entry.cuts.now read) }
{
    match lookup.whole(alloc, part.plan, part.cuts)? {
        None => Ok(None),
        Some(hit) => Ok(Some(file_len(&hit))),
    }
}

// The estimate of a least one of those that grow an earlier result, if there is one.
#[cycle(search)]
fn grown_at<'p, L: Lookup, Z: Sizes>(
    alloc: Global,
    part: Part<'p, '_>,
    lookup: &L,
    sizes: &Z,
    found: &mut Found<'p>,
) -> Result<Option<u64>, Memory>
    requires sound { AreSound (L.entries lookup.now) }
    requires cuts { IsCutOf (Z.lengths sizes.now) (plan_of part.plan.now) part.cuts.now }
    requires found { AreFound (L.entries lookup.now) (Z.lengths sizes.now) found.old }
    ensures answer { IfOk result (IsEstimateIfAny IsGrown (L.entries lookup.now) (Z.lengths sizes.now)
        (plan_of part.entry.plan.now) part.entry.cuts.now) }
    ensures found { OnOk result (AreFound (L.entries lookup.now) (Z.lengths sizes.now) found.new) }
{
    match lookup.earlier(alloc, part.plan, part.cuts)? {
        None => Ok(None),
        Some(hit) => grown_from(alloc, part, &hit, lookup, sizes, found),
    }
}

// The estimate of a least one of those that grow this result.
#[cycle(search)]
fn grown_from<'p, L: Lookup, Z: Sizes>(
    alloc: Global,
    part: Part<'p, '_>,
    hit: &Hit,
    lookup: &L,
    sizes: &Z,
    found: &mut Found<'p>,
) -> Result<Option<u64>, Memory>
    requires sound { AreSound (L.entries lookup.now) }
    requires cuts { IsCutOf (Z.lengths sizes.now) (plan_of part.plan.now) part.cuts.now }
    requires hit { IsEarlier (L.entries lookup.now) (plan_of part.plan.now) part.cuts.now hit.now }
    requires found { AreFound (L.entries lookup.now) (Z.lengths sizes.now) found.old }
    ensures answer { IfOk result (IsEstimateIfAny IsGrown (L.entries lookup.now) (Z.lengths sizes.now)
        (plan_of part.entry.plan.now) part.entry.cuts.now) }
    ensures found { OnOk result (AreFound (L.entries lookup.now) (Z.lengths sizes.now) found.new) }
{
    match growth_of(part, hit) {
        Growth::Never => Ok(None),
        Growth::Tail(tail) => {
            let delta = price_at(alloc, tail, lookup, sizes, found)?;
            Ok(estimate_of_tail(hit, delta))
        }
        Growth::Left { left, right } => {
            let pair = pair_at(alloc, left, right, lookup, sizes, found)?;
            Ok(estimate_of_pair(hit, pair))
        }
        Growth::Right { left, right } => {
            let pair = pair_at(alloc, right, left, lookup, sizes, found)?;
            Ok(estimate_of_pair(hit, pair))
        }
        Growth::Both(parts) => {
            let (more_right, old_left) = (parts.right_delta, parts.old_left);
            let before = pair_at(alloc, more_right, old_left, lookup, sizes, found)?;
            let (more_left, right) = (parts.left_delta, parts.right);
            let behind = pair_at(alloc, more_left, right, lookup, sizes, found)?;
            Ok(estimate_of_both(hit, before, behind))
        }
    }
}

// The price of a least delta over the stretch and the choice of the part, if there is such a delta.
#[cycle(search)]
fn pair_at<'p, L: Lookup, Z: Sizes>(
    alloc: Global,
    stretch: Stretch<'p, '_>,
    part: Part<'p, '_>,
    lookup: &L,
    sizes: &Z,
    found: &mut Found<'p>,
) -> Result<Option<PairPrice>, Memory>
    requires sound { AreSound (L.entries lookup.now) }
    requires stretch { AreCutsOf (Z.lengths sizes.now) (plan_of stretch.plan.now) stretch.old.now
        stretch.new.now }
    requires cuts { IsCutOf (Z.lengths sizes.now) (plan_of part.plan.now) part.cuts.now }
    requires found { AreFound (L.entries lookup.now) (Z.lengths sizes.now) found.old }
    ensures answer { IfOk result (IsPairPriceIfAny (L.entries lookup.now) (Z.lengths sizes.now)
        stretch.entry part.entry) }
    ensures found { OnOk result (AreFound (L.entries lookup.now) (Z.lengths sizes.now) found.new) }
{
    match price_at(alloc, stretch, lookup, sizes, found)? {
        None => Ok(None),
        Some(delta) => {
            let best = choice_at(alloc, part, lookup, sizes, found)?;
            Ok(Some(PairPrice { delta, best }))
        }
    }
}

// The price of a least delta over the stretch, if there is one, which is looked for once.
#[cycle(search)]
fn price_at<'p, L: Lookup, Z: Sizes>(
    alloc: Global,
    stretch: Stretch<'p, '_>,
    lookup: &L,
    sizes: &Z,
    found: &mut Found<'p>,
) -> Result<Option<Price>, Memory>
    requires sound { AreSound (L.entries lookup.now) }
    requires cuts { AreCutsOf (Z.lengths sizes.now) (plan_of stretch.plan.now) stretch.old.now
        stretch.new.now }
    requires found { AreFound (L.entries lookup.now) (Z.lengths sizes.now) found.old }
    ensures answer { IfOk result (IsDeltaPriceIfAny (L.entries lookup.now) (Z.lengths sizes.now)
        (plan_of stretch.entry.plan.now) stretch.entry.old.now stretch.entry.new.now) }
    ensures found { OnOk result (AreFound (L.entries lookup.now) (Z.lengths sizes.now) found.new) }
{
    if let Some(price) = found.price(stretch) {
        return Ok(price);
    }
    let price = increased_at(alloc, stretch, lookup, sizes, found)?;
    found.keep_price(alloc, stretch, price)?;
    Ok(price)
}

// The price of a least delta over the stretch, by those of its parts, if there is one.
#[cycle(search)]
fn increased_at<'p, L: Lookup, Z: Sizes>(
    alloc: Global,
    stretch: Stretch<'p, '_>,
    lookup: &L,
    sizes: &Z,
    found: &mut Found<'p>,
) -> Result<Option<Price>, Memory>
    requires sound { AreSound (L.entries lookup.now) }
    requires cuts { AreCutsOf (Z.lengths sizes.now) (plan_of stretch.plan.now) stretch.old.now
        stretch.new.now }
    requires found { AreFound (L.entries lookup.now) (Z.lengths sizes.now) found.old }
    ensures answer { IfOk result (IsDeltaPriceIfAny (L.entries lookup.now) (Z.lengths sizes.now)
        (plan_of stretch.entry.plan.now) stretch.entry.old.now stretch.entry.new.now) }
    ensures found { OnOk result (AreFound (L.entries lookup.now) (Z.lengths sizes.now) found.new) }
{
    match increase_of(stretch) {
        Increase::Never => Ok(None),
        Increase::Unchanged => Ok(Some(price_of_nothing())),
        Increase::NewRows => Ok(Some(price_of_new_rows(stretch, sizes))),
        Increase::Child(child) => {
            let delta = price_at(alloc, child, lookup, sizes, found)?;
            Ok(price_over_child(delta))
        }
        Increase::Distinct { before, child } => {
            let pair = pair_at(alloc, child, before, lookup, sizes, found)?;
            Ok(price_over_pair(pair))
        }
        Increase::Join { left, right } => {
            let pair = pair_at(alloc, left, right, lookup, sizes, found)?;
            Ok(price_over_pair(pair))
        }
    }
}
