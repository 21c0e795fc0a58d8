//! Groups of rows behind which further rows come.
ghost use Rattle.std.specs.Prelude.{◌≡◌, ◌+◌, ◌≤◌, ℕ, List, ◌++◌, map, length, Ok};
ghost use Rattle.row_blob.specs.declared.kept.GroupRow.{GroupRow};
ghost use Rattle.row_blob.specs.declared.kept.Kept.TheVariants.{Groups};
ghost use Rattle.row_blob.specs.Kept.{IsKept};
ghost use Rattle.plan_core.specs.declared.agg.Agg.{Agg};
ghost use Rattle.plan_core.specs.Columns.{Rows};
ghost use Rattle.plan_core.specs.ExpressionValue.{all_of};
ghost use Rattle.plan_core.specs.Group.{group_rows};
ghost use Rattle.plan_core.specs.MachineTime.{rows_taken_in};
ghost use Rattle.plan_core.specs.PlainPlan.{PlainPlan, Group};
ghost use Rattle.plan_core.specs.PlanMeaning.{plan_meaning};
ghost use Rattle.plan_core.specs.PlanTyping.{Kinds};
ghost use Rattle.plan_laws.specs.GroupBounds.{AreGroups, HaveAverages};
ghost use Rattle.plan_laws.specs.GrowthOfGroups.{groups_of, merged_groups};
ghost use Rattle.plan_laws.specs.KeptForm.{row_of_group};
ghost use Rattle.plan_laws.specs.PlanShape.{plan_shape};
ghost use Rattle.plan_laws.specs.ValidRows.{AreValidRows};

/// The groups of joined lists of rows are the merged groups of the two: each old group has what the new rows
/// with its key add, and the groups with new keys stand behind the old ones.
pub fn groups_of_joined_lists()
    ensures { (keys : List ℕ) (aggs : List Agg) (old new : Rows) → groups_of keys aggs (old ++ new)
        ≡ merged_groups aggs (groups_of keys aggs old) (groups_of keys aggs new) }
{}

/// The rows of groups are what the grouping means.
pub fn rows_of_groups()
    ensures { (keys : List ℕ) (aggs : List Agg) (rows : Rows)
        → all_of (map row_of_group (groups_of keys aggs rows)) ≡ group_rows keys aggs rows }
{}

/// The groups of at most 4,294,967,295 valid rows are within the bounds of merging, and their averages are
/// numbers in i64.
pub fn groups_are_within_bounds()
    ensures bounds { (keys : List ℕ) (aggs : List Agg) (rows : Rows) → AreValidRows rows
        → length rows ≤ 4294967295 → AreGroups aggs (groups_of keys aggs rows) }
    ensures averages { (keys : List ℕ) (aggs : List Agg) (rows : Rows) → AreValidRows rows
        → length rows ≤ 4294967295 → HaveAverages (groups_of keys aggs rows) }
{}

/// The groups that a file of a grouping's result holds are within the bounds of merging.
pub fn groups_of_files_are_within_bounds()
    ensures { (schemas : List Kinds) (child : PlainPlan) (keys : List ℕ) (aggs : List Agg)
        (groups : List GroupRow) → IsKept (plan_shape schemas (Group child keys aggs)) (Groups groups)
        → AreGroups aggs groups }
{}

/// Where the input of a grouping gives further rows behind those that it gave, the grouping takes in as many
/// rows more, beside those that its input takes in more.
pub fn rows_that_groups_take_in()
    ensures { (child : PlainPlan) (keys : List ℕ) (aggs : List Agg) (old new : List Rows)
        (rows further : Rows) (added : ℕ) → plan_meaning child old ≡ Ok rows
        → plan_meaning child new ≡ Ok (rows ++ further)
        → rows_taken_in child new ≡ rows_taken_in child old + added
        → rows_taken_in (Group child keys aggs) new
        ≡ rows_taken_in (Group child keys aggs) old + (length further + added) }
{}
