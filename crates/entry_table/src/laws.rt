//! Laws of kept results.
ghost use Rattle.std.specs.Prelude.{◌≡◌, ℕ, ◌+◌, ◌≤◌, List, length, map};
ghost use Rattle.std.specs.List.{AllByRecursion};
ghost use Rattle.catalog_types.specs.PlainEntry.{PlainEntry, PlainNewEntry};
ghost use Rattle.entry_table.specs.AreKept.{IsPast};
ghost use Rattle.entry_table.specs.Ids.{AreIdsOf, AreOwnIdsOf};
ghost use Rattle.entry_table.specs.Keyed.{Digests, IsKeyed, with_keys};
ghost use Rattle.entry_table.specs.Results.{HaveNextFiles};
ghost use Rattle.rows_core.specs.Limits.{file_end};
ghost use Rattle.entry_table.specs.Work.{Kept, after_work, after_collection};

/// Where each id so far has a file number, new results whose files fit have ids that fit.
pub fn new_ids_fit()
    ensures { (next_id next_file : ℕ) (news : List PlainNewEntry) → next_id ≤ next_file
        → next_file ≤ file_end → HaveNextFiles next_file news → next_id + length news ≤ file_end }
{}

/// Ids that ascend strictly are each there once, so that a collection whose ids ascend fits.
pub fn ascending_ids_differ()
    ensures { (entries : List PlainEntry) (ids : List ℕ) → AreIdsOf entries ids → AreOwnIdsOf entries ids }
{}

/// Entries were made and used at or before the tick, where ticks don't fall.
pub fn entries_are_past()
    ensures work { (digests : Digests) (before tick : ℕ) (reads dropped : List ℕ)
        (news : List PlainNewEntry) (k : Kept) → before ≤ tick
        → AllByRecursion (IsPast before) k.entries
        → AllByRecursion (IsPast tick) (after_work digests tick reads dropped news k).entries }
    ensures collection { (before tick : ℕ) (ids : List ℕ) (k : Kept) → before ≤ tick
        → AllByRecursion (IsPast before) k.entries
        → AllByRecursion (IsPast tick) (after_collection ids k).entries }
{}

/// Entries have the keys of their plans and cuts: work and collections keep that, and it is so with those that
/// are given these keys, which changes no others.
pub fn entries_are_keyed()
    ensures work { (digests : Digests) (tick : ℕ) (reads dropped : List ℕ) (news : List PlainNewEntry)
        (k : Kept) → AllByRecursion (IsKeyed digests) k.entries
        → AllByRecursion (IsKeyed digests) (after_work digests tick reads dropped news k).entries }
    ensures collection { (digests : Digests) (ids : List ℕ) (k : Kept)
        → AllByRecursion (IsKeyed digests) k.entries
        → AllByRecursion (IsKeyed digests) (after_collection ids k).entries }
    ensures made { (digests : Digests) (entries : List PlainEntry)
        → AllByRecursion (IsKeyed digests) (map (with_keys digests) entries) }
    ensures same { (digests : Digests) (entries : List PlainEntry)
        → AllByRecursion (IsKeyed digests) entries → map (with_keys digests) entries ≡ entries }
{}
