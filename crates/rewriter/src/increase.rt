//! Of which parts a delta is made.
ghost use Rattle.std.specs.Prelude.{◌≡◌, ◌≢◌, length};
ghost use Rattle.plan_core.specs.PlainPlan.{plan_of, leaf_count};
ghost use Rattle.estimator.specs.Bytes.{Lengths};
ghost use Rattle.rewrite_core.specs.Entries.{Entries};
ghost use Rattle.rewriter.specs.Growing.{Increases};
ghost use Rattle.rewriter.specs.InStreams.{AreCutsOf};
ghost use Rattle.rewriter.specs.Inputs.{HasChild, IsConcat, IsJoin, IsLower};
ghost use Rattle.rewrite_core.specs.IsRewriting.{IsScan};

use crate::cuts::is_longer;
use crate::inputs::{concat_parts, is_by_row, is_distinct, join_sides, only_child};
use crate::parts::{Increase, Part, Stretch};
use crate::places::{first_input, second_input};
use estimator::{are_same_cuts, sides};
use plan_core::Plan;

/// The parts of which a delta of the plan between the cuts is made.
pub fn increase_of<'p, 'c>(stretch: Stretch<'p, 'c>) -> Increase<'p, 'c>
    requires old { length stretch.old.now ≡ leaf_count (plan_of stretch.plan.now) }
    requires new { length stretch.new.now ≡ leaf_count (plan_of stretch.plan.now) }
    ensures { (entries : Entries) (lengths : Lengths)
        → AreCutsOf lengths (plan_of stretch.entry.plan.now) stretch.entry.old.now stretch.entry.new.now
        → Increases entries lengths (plan_of stretch.entry.plan.now) stretch.entry.old.now
        stretch.entry.new.now result }
{
    if are_same_cuts(stretch.old, stretch.new) {
        return Increase::Unchanged;
    }
    match only_child(stretch.plan) {
        Some(child) => increase_of_one(stretch, child),
        None => match concat_parts(stretch.plan) {
            Some((left, right)) => increase_of_concat(stretch, left, right),
            None => match join_sides(stretch.plan) {
                Some((left, right)) => increase_of_join(stretch, left, right),
                None => increase_of_scan(stretch),
            },
        },
    }
}

// Of a plan with one input.
fn increase_of_one<'p, 'c>(stretch: Stretch<'p, 'c>, child: &'p Plan) -> Increase<'p, 'c>
    requires differ { stretch.old.now ≢ stretch.new.now }
    requires child { HasChild (plan_of stretch.plan.now) (plan_of child.now) }
    requires lower { IsLower (plan_of child.now) (plan_of stretch.plan.now) }
    ensures { (entries : Entries) (lengths : Lengths)
        → AreCutsOf lengths (plan_of stretch.entry.plan.now) stretch.entry.old.now stretch.entry.new.now
        → Increases entries lengths (plan_of stretch.entry.plan.now) stretch.entry.old.now
        stretch.entry.new.now result }
{
    let below = Stretch {
        plan: child,
        place: first_input(stretch.place),
        old: stretch.old,
        new: stretch.new,
    };
    if is_by_row(stretch.plan) {
        return Increase::Child(below);
    }
    if is_distinct(stretch.plan) {
        return Increase::Distinct {
            before: stretch.before(),
            child: below,
        };
    }
    Increase::Never
}

// Of a concatenation, whose left input has to be unchanged.
fn increase_of_concat<'p, 'c>(
    stretch: Stretch<'p, 'c>,
    left: &'p Plan,
    right: &'p Plan,
) -> Increase<'p, 'c>
    requires old { length stretch.old.now ≡ leaf_count (plan_of stretch.plan.now) }
    requires new { length stretch.new.now ≡ leaf_count (plan_of stretch.plan.now) }
    requires differ { stretch.old.now ≢ stretch.new.now }
    requires parts { IsConcat (plan_of stretch.plan.now) (plan_of left.now) (plan_of right.now) }
    requires right { IsLower (plan_of right.now) (plan_of stretch.plan.now) }
    ensures { (entries : Entries) (lengths : Lengths)
        → AreCutsOf lengths (plan_of stretch.entry.plan.now) stretch.entry.old.now stretch.entry.new.now
        → Increases entries lengths (plan_of stretch.entry.plan.now) stretch.entry.old.now
        stretch.entry.new.now result }
{
    let (old_lefts, old_rights) = sides(left, stretch.old);
    let (new_lefts, new_rights) = sides(left, stretch.new);
    if are_same_cuts(old_lefts, new_lefts) {
        return Increase::Child(Stretch {
            plan: right,
            place: second_input(stretch.place),
            old: old_rights,
            new: new_rights,
        });
    }
    Increase::Never
}

// Of a join, whose right input has to be unchanged.
fn increase_of_join<'p, 'c>(
    stretch: Stretch<'p, 'c>,
    left: &'p Plan,
    right: &'p Plan,
) -> Increase<'p, 'c>
    requires old { length stretch.old.now ≡ leaf_count (plan_of stretch.plan.now) }
    requires new { length stretch.new.now ≡ leaf_count (plan_of stretch.plan.now) }
    requires differ { stretch.old.now ≢ stretch.new.now }
    requires sides { IsJoin (plan_of stretch.plan.now) (plan_of left.now) (plan_of right.now) }
    requires left { IsLower (plan_of left.now) (plan_of stretch.plan.now) }
    requires right { IsLower (plan_of right.now) (plan_of stretch.plan.now) }
    ensures { (entries : Entries) (lengths : Lengths)
        → AreCutsOf lengths (plan_of stretch.entry.plan.now) stretch.entry.old.now stretch.entry.new.now
        → Increases entries lengths (plan_of stretch.entry.plan.now) stretch.entry.old.now
        stretch.entry.new.now result }
{
    let (old_lefts, old_rights) = sides(left, stretch.old);
    let (new_lefts, new_rights) = sides(left, stretch.new);
    if are_same_cuts(old_rights, new_rights) {
        return Increase::Join {
            left: Stretch {
                plan: left,
                place: first_input(stretch.place),
                old: old_lefts,
                new: new_lefts,
            },
            right: Part {
                plan: right,
                place: second_input(stretch.place),
                cuts: new_rights,
            },
        };
    }
    Increase::Never
}

// Of a stream.
fn increase_of_scan<'p, 'c>(stretch: Stretch<'p, 'c>) -> Increase<'p, 'c>
    requires differ { stretch.old.now ≢ stretch.new.now }
    requires scan { IsScan (plan_of stretch.plan.now) }
    ensures { (entries : Entries) (lengths : Lengths)
        → AreCutsOf lengths (plan_of stretch.entry.plan.now) stretch.entry.old.now stretch.entry.new.now
        → Increases entries lengths (plan_of stretch.entry.plan.now) stretch.entry.old.now
        stretch.entry.new.now result }
{
    if is_longer(stretch.old, stretch.new) {
        return Increase::NewRows;
    }
    Increase::Never
}
