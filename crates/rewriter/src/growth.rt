//! By which parts an earlier result is grown.
ghost use Rattle.std.specs.Prelude.{◌≡◌, length};
ghost use Rattle.plan_core.specs.PlainPlan.{plan_of, leaf_count};
ghost use Rattle.estimator.specs.Bytes.{Lengths, IsCutOf};
ghost use Rattle.rewrite_core.specs.Entries.{Entries, AreSound, IsEarlier};
ghost use Rattle.rewriter.specs.Growing.{AreJoinInputs, Grows};
ghost use Rattle.rewriter.specs.Inputs.{HasChild, IsConcat, IsJoin, IsLower};

use crate::inputs::{concat_parts, join_sides, only_child};
use crate::parts::{BothGrown, Growth, Part, Stretch};
use crate::places::{first_input, second_input};
use estimator::{are_same_cuts, sides};
use plan_core::Plan;
use rewrite_core::Hit;

/// The parts by which this earlier result of the part's plan is grown to the part's cut.
pub fn growth_of<'p, 'c>(part: Part<'p, 'c>, hit: &'c Hit) -> Growth<'p, 'c>
    requires old { length hit.now.cuts ≡ leaf_count (plan_of part.plan.now) }
    requires new { length part.cuts.now ≡ leaf_count (plan_of part.plan.now) }
    ensures { (entries : Entries) (lengths : Lengths) → AreSound entries
        → IsCutOf lengths (plan_of part.entry.plan.now) part.entry.cuts.now
        → IsEarlier entries (plan_of part.entry.plan.now) part.entry.cuts.now hit.now
        → Grows entries lengths (plan_of part.entry.plan.now) part.entry.cuts.now hit.now result }
{
    match only_child(part.plan) {
        Some(child) => Growth::Tail(Stretch {
            plan: child,
            place: first_input(part.place),
            old: hit.cuts.items(),
            new: part.cuts,
        }),
        None => match concat_parts(part.plan) {
            Some((left, right)) => growth_of_concat(part, hit, left, right),
            None => match join_sides(part.plan) {
                Some((left, right)) => growth_of_join(part, hit, left, right),
                None => Growth::Never,
            },
        },
    }
}

// Of a concatenation, whose left input has to be unchanged.
fn growth_of_concat<'p, 'c>(
    part: Part<'p, 'c>,
    hit: &'c Hit,
    left: &'p Plan,
    right: &'p Plan,
) -> Growth<'p, 'c>
    requires old { length hit.now.cuts ≡ leaf_count (plan_of part.plan.now) }
    requires new { length part.cuts.now ≡ leaf_count (plan_of part.plan.now) }
    requires parts { IsConcat (plan_of part.plan.now) (plan_of left.now) (plan_of right.now) }
    requires right { IsLower (plan_of right.now) (plan_of part.plan.now) }
    ensures { (entries : Entries) (lengths : Lengths) → AreSound entries
        → IsCutOf lengths (plan_of part.entry.plan.now) part.entry.cuts.now
        → IsEarlier entries (plan_of part.entry.plan.now) part.entry.cuts.now hit.now
        → Grows entries lengths (plan_of part.entry.plan.now) part.entry.cuts.now hit.now result }
{
    let (old_lefts, old_rights) = sides(left, hit.cuts.items());
    let (new_lefts, new_rights) = sides(left, part.cuts);
    if are_same_cuts(old_lefts, new_lefts) {
        return Growth::Tail(Stretch {
            plan: right,
            place: second_input(part.place),
            old: old_rights,
            new: new_rights,
        });
    }
    Growth::Never
}

// Of a join, by the inputs that have grown.
fn growth_of_join<'p, 'c>(
    part: Part<'p, 'c>,
    hit: &'c Hit,
    left: &'p Plan,
    right: &'p Plan,
) -> Growth<'p, 'c>
    requires old { length hit.now.cuts ≡ leaf_count (plan_of part.plan.now) }
    requires new { length part.cuts.now ≡ leaf_count (plan_of part.plan.now) }
    requires sides { IsJoin (plan_of part.plan.now) (plan_of left.now) (plan_of right.now) }
    requires left { IsLower (plan_of left.now) (plan_of part.plan.now) }
    requires right { IsLower (plan_of right.now) (plan_of part.plan.now) }
    ensures { (entries : Entries) (lengths : Lengths) → AreSound entries
        → IsCutOf lengths (plan_of part.entry.plan.now) part.entry.cuts.now
        → IsEarlier entries (plan_of part.entry.plan.now) part.entry.cuts.now hit.now
        → Grows entries lengths (plan_of part.entry.plan.now) part.entry.cuts.now hit.now result }
{
    let (old_lefts, old_rights) = sides(left, hit.cuts.items());
    let (new_lefts, new_rights) = sides(left, part.cuts);
    let lefts = Stretch {
        plan: left,
        place: first_input(part.place),
        old: old_lefts,
        new: new_lefts,
    };
    let rights = Stretch {
        plan: right,
        place: second_input(part.place),
        old: old_rights,
        new: new_rights,
    };
    growth_of_inputs(part, hit, lefts, rights)
}

// Of a join with these inputs.
fn growth_of_inputs<'p, 'c>(
    part: Part<'p, 'c>,
    hit: &'c Hit,
    left: Stretch<'p, 'c>,
    right: Stretch<'p, 'c>,
) -> Growth<'p, 'c>
    requires inputs { AreJoinInputs (plan_of part.plan.now) hit.now.cuts part.cuts.now left right }
    ensures { (entries : Entries) (lengths : Lengths) → AreSound entries
        → IsCutOf lengths (plan_of part.entry.plan.now) part.entry.cuts.now
        → IsEarlier entries (plan_of part.entry.plan.now) part.entry.cuts.now hit.now
        → Grows entries lengths (plan_of part.entry.plan.now) part.entry.cuts.now hit.now result }
{
    if are_same_cuts(right.old, right.new) {
        return Growth::Left {
            left,
            right: right.after(),
        };
    }
    if are_same_cuts(left.old, left.new) {
        return Growth::Right {
            left: left.after(),
            right,
        };
    }
    Growth::Both(BothGrown {
        old_left: left.before(),
        right_delta: right,
        left_delta: left,
        right: right.after(),
    })
}
