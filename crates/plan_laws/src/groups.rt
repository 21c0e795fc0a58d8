//! Groups of rows.
ghost use Rattle.std.specs.Prelude.{◌≡◌, ◌≢◌, ◌↔◌, ℕ, List, Contains, AllPairs};
ghost use Rattle.plan_core.specs.Columns.{Row, Rows, columns_of};
ghost use Rattle.plan_core.specs.Group.{keys_of, members_of};

/// The keys of the groups differ from each other, and are exactly those of the rows; and a group has exactly
/// the rows with its key.
pub fn keys_of_groups()
    ensures differ { (keys : List ℕ) (rows : Rows) → AllPairs (λ a b. a ≢ b) (keys_of keys rows) }
    ensures each { (keys : List ℕ) (rows : Rows) (row : Row) → Contains rows row
        → Contains (keys_of keys rows) (columns_of keys row) }
    ensures no_other { (keys : List ℕ) (rows : Rows) (key : Row) → Contains (keys_of keys rows) key
        → (row : Row) × Contains rows row × (columns_of keys row ≡ key) }
    ensures members { (keys : List ℕ) (rows : Rows) (key row : Row)
        → Contains (members_of keys rows key) row ↔ (Contains rows row × (columns_of keys row ≡ key)) }
{}
