//! The lists that the leaves of a plan have at a cut.
ghost use Rattle.std.specs.Prelude.{◌≡◌, ◌≤◌, ℕ, List, [], ◌++◌, length, take, drop};
ghost use Rattle.std.specs.Prelude.{slice_get, unwrap_or};
ghost use Rattle.rows_core.specs.declared.cut.Cut.{Cut};
ghost use Rattle.plan_core.specs.Columns.{Rows};
ghost use Rattle.estimator.specs.Cuts.{Cuts, added_cut};
ghost use Rattle.growth_laws.specs.Lists.{Extents, interval_rows, lists_at, no_extent, one_extent};

/// The lists of the leaves of two inputs are those of the left one's at its part of the cut, and then those
/// of the right one's at the rest.
pub fn lists_of_two_inputs()
    ensures left { (extents : Extents) (xs ys : List ℕ) (cuts : Cuts)
        → take (length xs) (lists_at extents (xs ++ ys) cuts)
        ≡ lists_at extents xs (take (length xs) cuts) }
    ensures right { (extents : Extents) (xs ys : List ℕ) (cuts : Cuts)
        → drop (length xs) (lists_at extents (xs ++ ys) cuts)
        ≡ lists_at extents ys (drop (length xs) cuts) }
{}

/// The rows in an interval that ends later are those in the earlier one, and then those of the extents
/// between the two ends.
pub fn rows_of_longer_intervals()
    ensures { (extents : List Rows) (old new : Cut) → old.from ≡ new.from → old.from ≤ old.to
        → old.to ≤ new.to → interval_rows extents new
        ≡ interval_rows extents old ++ interval_rows extents (added_cut old new) }
{}

/// No rows are in an interval without extents, and those of its extent in one of a single extent: so the
/// rows in an interval are those of its extents, one after the other.
pub fn rows_of_each_extent()
    ensures none { (extents : List Rows) (number : ℕ) → interval_rows extents (no_extent number) ≡ [] }
    ensures one { (extents : List Rows) (number : ℕ)
        → interval_rows extents (one_extent number) ≡ unwrap_or (slice_get extents number) [] }
{}
