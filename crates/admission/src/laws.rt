//! What is known of results that are admitted.
ghost use Rattle.std.specs.Prelude.{ℕ, ◌≤◌, ◌<◌, List, [], length};
ghost use Rattle.std.specs.List.{AllByRecursion};
ghost use Rattle.catalog_types.specs.PlainEntry.{PlainEntry};
ghost use Rattle.entry_table.specs.Ids.{without};
ghost use Rattle.entry_table.specs.Results.{MayBeKept};
ghost use Rattle.rows_core.specs.Limits.{most_entries, file_end};
ghost use Rattle.admission.specs.declared.new_result.NewResult.{NewResult};
ghost use Rattle.admission.specs.Admitting.{MadeResult, entries_of, Admits};

/// Where no machine time is 0, the results that are admitted may be kept together beside the entries that aren't
/// dropped.
pub fn admitted_results_may_be_kept()
    ensures { (entries : List PlainEntry) (dropped : List ℕ) (file : ℕ) (mades : List MadeResult)
        (admitted : List NewResult) → length entries ≤ most_entries
        → AllByRecursion (λ (made : MadeResult). 0 < made.machine) mades
        → Admits (without dropped entries) file [] mades admitted
        → MayBeKept entries dropped file (entries_of admitted) }
{}
