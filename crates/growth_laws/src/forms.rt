//! The form of what is made, and the order in which it stands.
ghost use Rattle.std.specs.Prelude.{◌≢◌, ℕ, List, Ok, AllPairs, IsSorted};
ghost use Rattle.rows_core.specs.declared.order.Key.{Key};
ghost use Rattle.rows_core.specs.RowOrder.{row_cmp};
ghost use Rattle.row_blob.specs.Kept.{keys_of as group_keys};
ghost use Rattle.plan_core.specs.declared.agg.Agg.{Agg};
ghost use Rattle.plan_core.specs.Columns.{Rows};
ghost use Rattle.plan_core.specs.PlainPlan.{PlainPlan, Group, Join, Order};
ghost use Rattle.plan_laws.specs.GrowthOfJoins.{AscendsByPosition, ArePositionsWithin};
ghost use Rattle.growth_laws.specs.Growth.{Made, IsMade};
ghost use Rattle.growth_laws.specs.Making.{IsFormOf, kept_rows, kept_groups, kept_tagged, left_length};

use rows_core::total_order;

/// What was made of a grouping is groups, of a join tagged rows, and of every other plan rows. Those of an
/// order are in order; the keys of groups differ; and the rows of a join ascend by position, each position
/// below the left length. So they may be merged with what has come.
pub fn forms_of_results()
    ensures form { (plan : PlainPlan) (lists : List Rows) (made : Made) → IsMade plan lists (Ok made)
        → IsFormOf plan made.kept }
    ensures order { (child : PlainPlan) (keys : List Key) (lists : List Rows) (made : Made)
        → IsMade (Order child keys) lists (Ok made) → IsSorted (row_cmp keys) (kept_rows made.kept) }
    ensures groups { (child : PlainPlan) (keys : List ℕ) (aggs : List Agg) (lists : List Rows)
        (made : Made) → IsMade (Group child keys aggs) lists (Ok made)
        → AllPairs (λ a b. a ≢ b) (group_keys (kept_groups made.kept)) }
    ensures join { (left right : PlainPlan) (on : List (ℕ × ℕ)) (lists : List Rows) (made : Made)
        → IsMade (Join left right on) lists (Ok made) → AscendsByPosition (kept_tagged made.kept) }
    ensures positions { (left right : PlainPlan) (on : List (ℕ × ℕ)) (lists : List Rows) (made : Made)
        → IsMade (Join left right on) lists (Ok made)
        → ArePositionsWithin 0 (left_length made.kept) (kept_tagged made.kept) }
{
    total_order();
}
