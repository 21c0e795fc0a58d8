//! Tables without some of their kept results. A function that does nothing, whose contract is the law.
ghost use Rattle.std.specs.Prelude.{◌≡◌, ℕ, [], List};
ghost use Rattle.std.specs.List.{Contains};
ghost use Rattle.rewrite_core.specs.Entries.{Entry};
ghost use Rattle.rewrite_core.specs.Files.{FileName};
ghost use Rattle.cache_index.specs.Asked.{asked};
ghost use Rattle.catalog_core.specs.IsTable.{IsTable};
ghost use Rattle.catalog_core.specs.Named.{HasFile, file_at};
ghost use Rattle.catalog_core.specs.Table.{Table};
ghost use Rattle.plan_choice.specs.Leaving.{leaving_out};

/// A table without some of its kept results is a table, whose look-ups are those of the table that leave these out: they
/// find what is found among all. The files that it has are as they were.
pub fn results_are_left_out()
    ensures table { (t : Table) (ids : List ℕ) → IsTable t → IsTable (leaving_out ids t) }
    ensures none { (t : Table) → leaving_out [] t ≡ t }
    ensures asked { (t : Table) (ids : List ℕ) → asked [] (leaving_out ids t).entries ≡ asked ids t.entries }
    ensures more { (t : Table) (ids : List ℕ) (e : Entry)
        → Contains (asked [] (leaving_out ids t).entries) e → Contains (asked [] t.entries) e }
    ensures there { (t : Table) (ids : List ℕ) (name : FileName) → HasFile (leaving_out ids t) name
        → HasFile t name }
    ensures file { (t : Table) (ids : List ℕ) (name : FileName) → HasFile (leaving_out ids t) name
        → file_at (leaving_out ids t) name ≡ file_at t name }
{}
