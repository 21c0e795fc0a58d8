//! The first of equal rows.
ghost use Rattle.std.specs.Prelude.{◌≡◌, ◌≢◌, ◌↔◌, true, [], ◌∷◌, ◌++◌, if◌then◌else◌, Contains, AllPairs};
ghost use Rattle.std.specs.List.{list_any};
ghost use Rattle.rows_core.specs.Value.{row_eq};
ghost use Rattle.plan_core.specs.Columns.{Row, Rows};
ghost use Rattle.plan_core.specs.Distinct.{distinct_rows};

/// The first of equal rows differ from each other, are the rows that the given ones have, and stand in the
/// order in which these first occur: a row behind the given ones is a new one exactly where none of them is
/// equal to it, and then stands last.
pub fn first_of_equal_rows()
    ensures differ { (rows : Rows) → AllPairs (λ a b. a ≢ b) (distinct_rows rows) }
    ensures members { (rows : Rows) (row : Row) → Contains (distinct_rows rows) row ↔ Contains rows row }
    ensures one_more { (rows : Rows) (row : Row) → distinct_rows (rows ++ row ∷ [])
        ≡ distinct_rows rows ++ (if list_any (row_eq row) rows then [] else row ∷ []) }
    ensures equal { (a b : Row) → (row_eq a b ≡ true) ↔ (a ≡ b) }
{}
