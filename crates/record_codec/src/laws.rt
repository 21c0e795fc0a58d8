//! What holds of the spellings of changes.
ghost use Rattle.std.specs.Prelude.{◌≡◌, ◌+◌, ◌*◌, ◌<◌, ◌≤◌, ℕ, List, [], Some, length};
ghost use Rattle.rows_core.specs.declared.schema.Column.{Column};
ghost use Rattle.catalog_types.specs.declared.change.Change.{Change};
ghost use Rattle.catalog_types.specs.declared.change.Change.TheVariants.{Stream, Append, Work, Collect};
ghost use Rattle.catalog_types.specs.declared.change.Change.TheVariants.{Checkpoint};
ghost use Rattle.catalog_types.specs.declared.extent.Extent.{Extent};
ghost use Rattle.catalog_types.specs.declared.program.Program.{Program};
ghost use Rattle.catalog_types.specs.declared.snapshot.Snapshot.{Snapshot};
ghost use Rattle.byte_formats.specs.Format.{StopsAt};
ghost use Rattle.record_codec.specs.Formats.{format_in};
ghost use Rattle.record_codec.specs.Spelling.{spelling_in, HasSpellingIn, keyless};
ghost use Rattle.record_codec.specs.Spelling.{change_spelling, HasChangeSpelling};
ghost use Rattle.record_codec.specs.Spelling.{HasExtentSpelling, HasProgramSpelling};
ghost use Rattle.record_codec.specs.Forms.{form_of};
ghost use Rattle.record_codec.specs.Limits.{IsWithinLimits};
ghost use Rattle.record_codec.specs.Place.{Spells};
ghost use Rattle.record_codec.specs.declared.form.Form.{Form};

/// In each form no two changes have one spelling, but for the keys of entries.
pub fn one_spelling()
    ensures { (f : Form) (a b : Change) → HasSpellingIn f a → HasSpellingIn f b
        → spelling_in f a ≡ spelling_in f b → keyless a ≡ keyless b }
{}

/// In each form bytes spell one change at most.
pub fn one_change()
    ensures { (f : Form) (bytes : List ℕ) (a b : Change) → Spells f a bytes → Spells f b bytes → a ≡ b }
{}

/// In each form bytes have one place at which reading stops.
pub fn one_place()
    ensures { (f : Form) (bytes : List ℕ) (a b : ℕ) → StopsAt (format_in f) bytes a
        → StopsAt (format_in f) bytes b → a ≡ b }
{}

/// Each spelling has a byte.
pub fn no_spelling_is_empty()
    ensures { (f : Form) (change : Change) → 0 < length (spelling_in f change) }
{}

/// What has a spelling in a form has one in the newest, and a checkpoint's spelling tells its form.
pub fn newer_spellings()
    ensures newer { (f : Form) (change : Change) → HasSpellingIn f change → HasChangeSpelling change }
    ensures told { (f : Form) (whole : Snapshot) → form_of (spelling_in f (Checkpoint whole)) ≡ f }
{}

/// How many bytes the spellings of small changes have, as they are written: an append has 49, a new stream at
/// most 67 and 66 for each column, a collection 5 and 4 for each id, and a program that is stored alone at
/// most 84, its text and 8 for each leaf of its plan.
pub fn small_changes()
    ensures append { (stream : ℕ) (extent : Extent) → HasExtentSpelling extent
        → length (change_spelling (Append stream extent)) ≡ 49 }
    ensures stream { (name : List ℕ) (columns : List Column) → HasChangeSpelling (Stream name columns)
        → length (change_spelling (Stream name columns)) ≤ 67 + 66 * length columns }
    ensures collect { (ids : List ℕ) → length (change_spelling (Collect ids)) ≡ 5 + 4 * length ids }
    ensures program { (program : Program) → HasProgramSpelling program
        → length (change_spelling (Work (Some program) [] [] []))
        ≤ 84 + length program.text + 8 * length program.cuts }
{}

/// A change within the limits of a catalogue is spelled with fewer than 536,870,912 bytes.
pub fn changes_are_short()
    ensures { (change : Change) → HasChangeSpelling change → IsWithinLimits change
        → length (change_spelling change) < 536870912 }
{}
