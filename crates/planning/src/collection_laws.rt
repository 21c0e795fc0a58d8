//! Laws of collections.
ghost use Rattle.std.specs.Prelude.{◌≡◌, ℕ, List, sum_by};
ghost use Rattle.collector.specs.Victims.{size_of};
ghost use Rattle.catalog_core.specs.IsTable.{IsTable};
ghost use Rattle.catalog_core.specs.Table.{Table};
ghost use Rattle.planning.specs.Collecting.{IsCollection};

/// A table has exactly one collection where these ids are held and so many bytes are wanted. The files that
/// go have as many bytes as the entries that are taken.
pub fn one_collection()
    ensures some { (t : Table) (held : List ℕ) (wanted : ℕ) → IsTable t
        → (ids : List ℕ) × (bytes : ℕ) × IsCollection t held wanted ids bytes }
    ensures one { (t : Table) (held : List ℕ) (wanted : ℕ) → IsTable t
        → (ids others : List ℕ) (bytes more : ℕ) → IsCollection t held wanted ids bytes
        → IsCollection t held wanted others more → (ids ≡ others) × (bytes ≡ more) }
    ensures bytes { (t : Table) (held : List ℕ) (wanted : ℕ) → IsTable t → (ids : List ℕ) (bytes : ℕ)
        → (is : IsCollection t held wanted ids bytes) → bytes ≡ sum_by size_of is.victims.taken }
{}
