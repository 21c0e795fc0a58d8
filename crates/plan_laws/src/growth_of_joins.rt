//! The rows of a join whose lists have grown.
ghost use Rattle.std.specs.Prelude.{◌≡◌, ℕ, ◌+◌, List, ◌++◌, length, take, drop, Ok};
ghost use Rattle.row_blob.specs.declared.kept.TaggedRow.{TaggedRow};
ghost use Rattle.plan_core.specs.Columns.{Rows};
ghost use Rattle.plan_core.specs.Join.{join_rows};
ghost use Rattle.plan_core.specs.MachineTime.{rows_taken_in};
ghost use Rattle.plan_core.specs.PlainPlan.{PlainPlan, Join, Concat, leaf_count};
ghost use Rattle.plan_core.specs.PlanMeaning.{plan_meaning};
ghost use Rattle.plan_laws.specs.GrowthOfJoins.{AscendsByPosition, ArePositionsWithin, IsMergedByPosition};
ghost use Rattle.plan_laws.specs.GrowthOfJoins.{merge_by_position};
ghost use Rattle.plan_laws.specs.GrowthOfRows.{Grows};
ghost use Rattle.plan_laws.specs.KeptForm.{tagged_from};

/// The rows of a join whose left list has grown are those that were there and then those of the new left
/// rows, counted on. Where the right list has grown, they are the merge by position of those that were there
/// and those with the new right rows. Where both have grown, the left rows that were there come first, with
/// the longer right list.
pub fn joins_of_longer_lists()
    ensures left { (first : ℕ) (on : List (ℕ × ℕ)) (lefts more rights : Rows)
        → tagged_from first on (lefts ++ more) rights
        ≡ tagged_from first on lefts rights ++ tagged_from (first + length lefts) on more rights }
    ensures right { (first : ℕ) (on : List (ℕ × ℕ)) (lefts rights more : Rows)
        → IsMergedByPosition (tagged_from first on lefts rights) (tagged_from first on lefts more)
        (tagged_from first on lefts (rights ++ more)) }
    ensures both { (first : ℕ) (on : List (ℕ × ℕ)) (lefts more_lefts rights more_rights : Rows)
        → tagged_from first on (lefts ++ more_lefts) (rights ++ more_rights)
        ≡ merge_by_position (tagged_from first on lefts rights) (tagged_from first on lefts more_rights)
        ++ tagged_from (first + length lefts) on more_lefts (rights ++ more_rights) }
{}

/// The rows of a join ascend by the positions of their left rows, which are counted from the first one's to
/// the last one's.
pub fn joins_ascend_by_position()
    ensures ascends { (first : ℕ) (on : List (ℕ × ℕ)) (lefts rights : Rows)
        → AscendsByPosition (tagged_from first on lefts rights) }
    ensures within { (first : ℕ) (on : List (ℕ × ℕ)) (lefts rights : Rows)
        → ArePositionsWithin first (first + length lefts) (tagged_from first on lefts rights) }
{}

/// Lists that ascend by position have one merge, and no other list has the rows of both so.
pub fn one_merge_by_position()
    ensures merged { (old new : List TaggedRow) → AscendsByPosition old → AscendsByPosition new
        → IsMergedByPosition old new (merge_by_position old new) }
    ensures only { (old new merged : List TaggedRow) → AscendsByPosition old → AscendsByPosition new
        → IsMergedByPosition old new merged → merged ≡ merge_by_position old new }
{}

/// Where the left input of a join grows by new rows behind the old ones and its right one stays, the join
/// grows by that of the new left rows; a concatenation grows by the new rows of its right input, where its
/// left one stays.
pub fn growth_of_two_inputs()
    ensures join { (left right : PlainPlan) (on : List (ℕ × ℕ)) (before after : List Rows)
        (old new rights : Rows) (more : ℕ)
        → Grows left (take (leaf_count left) before) (take (leaf_count left) after) old new more
        → drop (leaf_count left) before ≡ drop (leaf_count left) after
        → plan_meaning right (drop (leaf_count left) before) ≡ Ok rights
        → Grows (Join left right on) before after (join_rows on old rights) (join_rows on new rights)
        (length new + more) }
    ensures concat { (left right : PlainPlan) (before after : List Rows) (old new lefts : Rows) (more : ℕ)
        → take (leaf_count left) before ≡ take (leaf_count left) after
        → plan_meaning left (take (leaf_count left) before) ≡ Ok lefts
        → Grows right (drop (leaf_count left) before) (drop (leaf_count left) after) old new more
        → Grows (Concat left right) before after (lefts ++ old) new (length new + more) }
{}

/// Where the inputs of a join or of a concatenation grow by new rows behind the old ones, either of them or
/// both, it takes in these beside what the inputs take in more.
pub fn rows_that_two_inputs_take_in()
    ensures join { (left right : PlainPlan) (on : List (ℕ × ℕ)) (before after : List Rows)
        (left_old left_new right_old right_new : Rows) (left_more right_more : ℕ)
        → Grows left (take (leaf_count left) before) (take (leaf_count left) after)
        left_old left_new left_more
        → Grows right (drop (leaf_count left) before) (drop (leaf_count left) after)
        right_old right_new right_more
        → rows_taken_in (Join left right on) after ≡ rows_taken_in (Join left right on) before
        + (length left_new + left_more + (length right_new + right_more)) }
    ensures concat { (left right : PlainPlan) (before after : List Rows)
        (left_old left_new right_old right_new : Rows) (left_more right_more : ℕ)
        → Grows left (take (leaf_count left) before) (take (leaf_count left) after)
        left_old left_new left_more
        → Grows right (drop (leaf_count left) before) (drop (leaf_count left) after)
        right_old right_new right_more
        → rows_taken_in (Concat left right) after ≡ rows_taken_in (Concat left right) before
        + (length left_new + left_more + (length right_new + right_more)) }
{}
