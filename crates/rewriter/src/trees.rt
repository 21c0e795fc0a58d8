//! The tree of a least rewriting, made of the forms that the search chose.
ghost use Rattle.std.specs.Prelude.{IfOk, OnOk};
ghost use Rattle.plan_core.specs.PlainPlan.{plan_of};
ghost use Rattle.estimator.specs.Bytes.{Lengths, IsCutOf};
ghost use Rattle.rewrite_core.specs.Entries.{AreSound, IsEarlier};
ghost use Rattle.rewrite_core.specs.Estimate.{IsLeast, IsLeastDelta};
ghost use Rattle.rewrite_core.specs.PlainRewriting.{rewriting_of, delta_of};
ghost use Rattle.rewriter.specs.Forms.{IsComputed, IsRead, IsGrown, IsLeastOf, HasNone, HasNoDelta};
ghost use Rattle.rewriter.specs.InStreams.{AreCutsOf};
ghost use Rattle.rewriter.specs.Table.{AreFound};

use crate::computing::inputs_of;
use crate::growth::growth_of;
use crate::increase::increase_of;
use crate::nodes::{both_grew, change, left_grew, node, right_grew, tail};
use crate::parts::{Growth, Increase, Inputs, Part, Stretch};
use crate::priced::Form;
use crate::search::choice_at;
use crate::table::Found;
use estimator::Sizes;
use rewrite_core::{Delta, DeltaWay, Hit, Lookup, Rewriting, Way};
use rows_core::Memory;
use std::alloc::Global;

/// A least rewriting of the part, of the chosen form.
#[cycle(trees)]
pub fn least_tree<'p, L: Lookup, Z: Sizes>(
    alloc: Global,
    part: Part<'p, '_>,
    lookup: &L,
    sizes: &Z,
    found: &mut Found<'p>,
) -> Result<Box<Rewriting>, Memory>
    requires sound { AreSound (L.entries lookup.now) }
    requires cuts { IsCutOf (Z.lengths sizes.now) (plan_of part.plan.now) part.cuts.now }
    requires found { AreFound (L.entries lookup.now) (Z.lengths sizes.now) found.old }
    ensures answer { IfOk result (λ tree. IsLeast (L.entries lookup.now) (Z.lengths sizes.now)
        (plan_of part.entry.plan.now) part.entry.cuts.now (rewriting_of tree.value)) }
    ensures found { OnOk result (AreFound (L.entries lookup.now) (Z.lengths sizes.now) found.new) }
{
    let choice = choice_at(alloc, part, lookup, sizes, found)?;
    match choice.form {
        Form::Computed => computed_tree(alloc, part, lookup, sizes, found),
        Form::Read => read_tree(alloc, part, lookup),
        Form::Grown => grown_tree(alloc, part, lookup, sizes, found),
    }
}

// A least one of those that compute the node.
#[cycle(trees)]
fn computed_tree<'p, L: Lookup, Z: Sizes>(
    alloc: Global,
    part: Part<'p, '_>,
    lookup: &L,
    sizes: &Z,
    found: &mut Found<'p>,
) -> Result<Box<Rewriting>, Memory>
    requires sound { AreSound (L.entries lookup.now) }
    requires cuts { IsCutOf (Z.lengths sizes.now) (plan_of part.plan.now) part.cuts.now }
    requires found { AreFound (L.entries lookup.now) (Z.lengths sizes.now) found.old }
    ensures answer { IfOk result (λ tree. IsLeastOf IsComputed (L.entries lookup.now)
        (Z.lengths sizes.now) (plan_of part.entry.plan.now) part.entry.cuts.now
        (rewriting_of tree.value)) }
    ensures found { OnOk result (AreFound (L.entries lookup.now) (Z.lengths sizes.now) found.new) }
{
    match inputs_of(part) {
        Inputs::Stream => node(alloc, part, Way::Scan),
        Inputs::One(input) => {
            let tree = least_tree(alloc, input, lookup, sizes, found)?;
            node(alloc, part, Way::One(tree))
        }
        Inputs::Two(left, right) => {
            let first = least_tree(alloc, left, lookup, sizes, found)?;
            let second = least_tree(alloc, right, lookup, sizes, found)?;
            node(alloc, part, Way::Two(first, second))
        }
    }
}

// The one that reads the kept result of the part, which there is.
fn read_tree<L: Lookup>(
    alloc: Global,
    part: Part<'_, '_>,
    lookup: &L,
) -> Result<Box<Rewriting>, Memory>
    requires sound { AreSound (L.entries lookup.now) }
    requires there { HasNone IsRead (L.entries lookup.now) (plan_of part.plan.now) part.cuts.now → ⊥ }
    ensures { IfOk result (λ tree. (lengths : Lengths) → IsLeastOf IsRead (L.entries lookup.now) lengths
        (plan_of part.entry.plan.now) part.entry.cuts.now (rewriting_of tree.value)) }
{
    match lookup.whole(alloc, part.plan, part.cuts)? {
        None => unreachable!(),
        Some(hit) => node(alloc, part, Way::Read(hit)),
    }
}

// A least one of those that grow an earlier result, which there are.
#[cycle(trees)]
fn grown_tree<'p, L: Lookup, Z: Sizes>(
    alloc: Global,
    part: Part<'p, '_>,
    lookup: &L,
    sizes: &Z,
    found: &mut Found<'p>,
) -> Result<Box<Rewriting>, Memory>
    requires sound { AreSound (L.entries lookup.now) }
    requires cuts { IsCutOf (Z.lengths sizes.now) (plan_of part.plan.now) part.cuts.now }
    requires there { HasNone IsGrown (L.entries lookup.now) (plan_of part.plan.now) part.cuts.now → ⊥ }
    requires found { AreFound (L.entries lookup.now) (Z.lengths sizes.now) found.old }
    ensures answer { IfOk result (λ tree. IsLeastOf IsGrown (L.entries lookup.now)
        (Z.lengths sizes.now) (plan_of part.entry.plan.now) part.entry.cuts.now
        (rewriting_of tree.value)) }
    ensures found { OnOk result (AreFound (L.entries lookup.now) (Z.lengths sizes.now) found.new) }
{
    match lookup.earlier(alloc, part.plan, part.cuts)? {
        None => unreachable!(),
        Some(hit) => tree_from(alloc, part, &hit, lookup, sizes, found),
    }
}

// A least one of those that grow this result.
#[cycle(trees)]
fn tree_from<'p, L: Lookup, Z: Sizes>(
    alloc: Global,
    part: Part<'p, '_>,
    hit: &Hit,
    lookup: &L,
    sizes: &Z,
    found: &mut Found<'p>,
) -> Result<Box<Rewriting>, Memory>
    requires sound { AreSound (L.entries lookup.now) }
    requires cuts { IsCutOf (Z.lengths sizes.now) (plan_of part.plan.now) part.cuts.now }
    requires hit { IsEarlier (L.entries lookup.now) (plan_of part.plan.now) part.cuts.now hit.now }
    requires there { HasNone IsGrown (L.entries lookup.now) (plan_of part.plan.now) part.cuts.now → ⊥ }
    requires found { AreFound (L.entries lookup.now) (Z.lengths sizes.now) found.old }
    ensures answer { IfOk result (λ tree. IsLeastOf IsGrown (L.entries lookup.now)
        (Z.lengths sizes.now) (plan_of part.entry.plan.now) part.entry.cuts.now
        (rewriting_of tree.value)) }
    ensures found { OnOk result (AreFound (L.entries lookup.now) (Z.lengths sizes.now) found.new) }
{
    match growth_of(part, hit) {
        Growth::Never => unreachable!(),
        Growth::Tail(stretch) => {
            let delta = delta_tree(alloc, stretch, lookup, sizes, found)?;
            tail(alloc, part, hit, delta)
        }
        Growth::Left { left, right } => {
            let delta = delta_tree(alloc, left, lookup, sizes, found)?;
            let tree = least_tree(alloc, right, lookup, sizes, found)?;
            left_grew(alloc, part, hit, delta, tree)
        }
        Growth::Right { left, right } => {
            let tree = least_tree(alloc, left, lookup, sizes, found)?;
            let delta = delta_tree(alloc, right, lookup, sizes, found)?;
            right_grew(alloc, part, hit, tree, delta)
        }
        Growth::Both(parts) => {
            let old_left = least_tree(alloc, parts.old_left, lookup, sizes, found)?;
            let more_right = delta_tree(alloc, parts.right_delta, lookup, sizes, found)?;
            let more_left = delta_tree(alloc, parts.left_delta, lookup, sizes, found)?;
            let right = least_tree(alloc, parts.right, lookup, sizes, found)?;
            both_grew(alloc, part, hit, old_left, more_right, more_left, right)
        }
    }
}

// A least delta over the stretch, which has one.
#[cycle(trees)]
fn delta_tree<'p, L: Lookup, Z: Sizes>(
    alloc: Global,
    stretch: Stretch<'p, '_>,
    lookup: &L,
    sizes: &Z,
    found: &mut Found<'p>,
) -> Result<Box<Delta>, Memory>
    requires sound { AreSound (L.entries lookup.now) }
    requires cuts { AreCutsOf (Z.lengths sizes.now) (plan_of stretch.plan.now) stretch.old.now
        stretch.new.now }
    requires there { HasNoDelta (L.entries lookup.now) (plan_of stretch.plan.now) stretch.old.now
        stretch.new.now → ⊥ }
    requires found { AreFound (L.entries lookup.now) (Z.lengths sizes.now) found.old }
    ensures answer { IfOk result (λ tree. IsLeastDelta (L.entries lookup.now) (Z.lengths sizes.now)
        (plan_of stretch.entry.plan.now) stretch.entry.old.now stretch.entry.new.now
        (delta_of tree.value)) }
    ensures found { OnOk result (AreFound (L.entries lookup.now) (Z.lengths sizes.now) found.new) }
{
    match increase_of(stretch) {
        Increase::Never => unreachable!(),
        Increase::Unchanged => change(alloc, stretch, DeltaWay::Unchanged),
        Increase::NewRows => change(alloc, stretch, DeltaWay::Scan),
        Increase::Child(child) => {
            let delta = delta_tree(alloc, child, lookup, sizes, found)?;
            change(alloc, stretch, DeltaWay::Tail(delta))
        }
        Increase::Distinct { before, child } => {
            let old = least_tree(alloc, before, lookup, sizes, found)?;
            let child = delta_tree(alloc, child, lookup, sizes, found)?;
            change(alloc, stretch, DeltaWay::Distinct { old, child })
        }
        Increase::Join { left, right } => {
            let left = delta_tree(alloc, left, lookup, sizes, found)?;
            let right = least_tree(alloc, right, lookup, sizes, found)?;
            change(alloc, stretch, DeltaWay::Join { left, right })
        }
    }
}
