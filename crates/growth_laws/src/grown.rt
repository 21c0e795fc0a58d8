//! What is made of an earlier result and of what came since.
ghost use Rattle.std.specs.Prelude.{◌≡◌, List, take, drop, Result, Ok};
ghost use Rattle.rows_core.specs.declared.overflow.Overflow.{Overflow};
ghost use Rattle.plan_core.specs.Columns.{Rows};
ghost use Rattle.plan_core.specs.PlainPlan.{PlainPlan, leaf_count};
ghost use Rattle.rewrite_core.specs.IsRewriting.{OfSides};
ghost use Rattle.growth_laws.specs.Growth.{Added, Made, Extends, IsMade, OfGrownInput};
ghost use Rattle.growth_laws.specs.Making.{grown_one, grown_left, grown_right, grown_both};

use rows_core::total_order;

/// What is made of the earlier result of a plan and of the rows that came behind those of its input is what
/// is kept of its result on the longer lists: of a filter and of a projection with what the operator gives
/// of them, of a distinct with those that aren't there yet, of a grouping the merged groups, of an order
/// the old rows and the ordered new ones in order, and of a concatenation whose left lists are unchanged
/// with what came behind its right input. Its machine time is the earlier one and what was added, and it is
/// an overflow where that of the longer lists is one.
pub fn results_that_grow()
    ensures { (before after : List Rows) (old : Made) (given : Result Added Overflow) (plan : PlainPlan)
        → IsMade plan before (Ok old)
        → OfGrownInput (λ input old_lists new_lists. Extends input old_lists new_lists given)
        plan before after
        → IsMade plan after (grown_one plan old given) }
{
    total_order();
}

/// What is made of the earlier result of a join and of the rows that came behind those of its left input,
/// of its right input or of both is what is kept of its result on the longer lists: the old rows and then
/// those of the new left rows, counted on; the old rows and those of the new right rows, merged by the
/// position of their left rows; and these and then those of the new left rows with all right ones. Its
/// machine time is the earlier one and what was added on both sides, and it is an overflow where that of
/// the longer lists is one.
pub fn joins_that_grow()
    ensures left { (before after : List Rows) (old : Made) (plan : PlainPlan)
        (given : Result Added Overflow) (made : Result Made Overflow) → IsMade plan before (Ok old)
        → OfSides (λ left right. (drop (leaf_count left) before ≡ drop (leaf_count left) after)
        × Extends left (take (leaf_count left) before) (take (leaf_count left) after) given
        × IsMade right (drop (leaf_count left) after) made) plan
        → IsMade plan after (grown_left plan old given made) }
    ensures right { (before after : List Rows) (old : Made) (plan : PlainPlan)
        (made : Result Made Overflow) (given : Result Added Overflow) → IsMade plan before (Ok old)
        → OfSides (λ left right. (take (leaf_count left) before ≡ take (leaf_count left) after)
        × IsMade left (take (leaf_count left) after) made
        × Extends right (drop (leaf_count left) before) (drop (leaf_count left) after) given) plan
        → IsMade plan after (grown_right plan old made given) }
    ensures both { (before after : List Rows) (old : Made) (plan : PlainPlan)
        (first : Result Made Overflow) (right_given left_given : Result Added Overflow)
        (second : Result Made Overflow) → IsMade plan before (Ok old)
        → OfSides (λ left right. IsMade left (take (leaf_count left) before) first
        × Extends right (drop (leaf_count left) before) (drop (leaf_count left) after) right_given
        × Extends left (take (leaf_count left) before) (take (leaf_count left) after) left_given
        × IsMade right (drop (leaf_count left) after) second) plan
        → IsMade plan after (grown_both plan old first right_given left_given second) }
{}
