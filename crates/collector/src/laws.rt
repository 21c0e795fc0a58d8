//! Laws of collections.
ghost use Rattle.std.specs.Prelude.{◌≡◌, ◌≢◌, ◌⊎◌, ℕ, List};
ghost use Rattle.std.specs.List.{All};
ghost use Rattle.catalog_types.specs.PlainEntry.{PlainEntry};
ghost use Rattle.collector.specs.Ratio.{CanBeRanked, GoesBefore};
ghost use Rattle.collector.specs.Victims.{Collection, HaveOwnIds, AreVictims};

/// Entries that can be ranked stand in a total order by their ratios and ids: none goes before itself, what
/// goes before another goes before all that the other goes before, and of two with other ids one goes first.
pub fn ratios_are_ordered()
    ensures one_way { (now : ℕ) (e : PlainEntry) → GoesBefore now e e → ⊥ }
    ensures further { (now : ℕ) (e f g : PlainEntry)
        → CanBeRanked now e → CanBeRanked now f → CanBeRanked now g
        → GoesBefore now e f → GoesBefore now f g → GoesBefore now e g }
    ensures total { (now : ℕ) (e f : PlainEntry) → e.id ≢ f.id → GoesBefore now e f ⊎ GoesBefore now f e }
{}

/// A collection from entries with different ids takes exactly one list of ids.
pub fn one_list_of_victims()
    ensures some { (entries : List PlainEntry) (c : Collection) (wanted : ℕ)
        → All (CanBeRanked c.now) entries
        → HaveOwnIds entries → (v : List ℕ) × AreVictims entries c wanted v }
    ensures one { (entries : List PlainEntry) (c : Collection) (wanted : ℕ)
        → All (CanBeRanked c.now) entries → HaveOwnIds entries → (v w : List ℕ)
        → AreVictims entries c wanted v → AreVictims entries c wanted w → v ≡ w }
{}
