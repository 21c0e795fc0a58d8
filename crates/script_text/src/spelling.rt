//! What is read from a command's line is exactly what the line spells.
ghost use Rattle.std.specs.Prelude.{◌≡◌, ◌↔◌, ℕ, true, false, List, Some, Ok, Err};
ghost use Rattle.rows_core.specs.declared.schema.Column.{Column};
ghost use Rattle.script_text.specs.Words.{head_name};
ghost use Rattle.script_text.specs.Dispatch.{line_command};
ghost use Rattle.plan_text.specs.PlainNamed.{PlainTree};
ghost use Rattle.plan_text.specs.declared.limit.PlanLimit.{PlanLimit};
ghost use Rattle.script_text.specs.RunLine.{limit_of};
ghost use Rattle.script_text.specs.Spelling.{SpellsStream, SpellsAppend, SpellsRun, SpellsTooLarge};
ghost use Rattle.script_text.specs.Spelling.{SpellsOpen, SpellsStep, SpellsClose, SpellsDrop};
ghost use Rattle.script_text.specs.Spelling.{SpellsFetch, SpellsFetchAsRun, SpellsCollect};
ghost use Rattle.script_text.specs.Spelling.{SpellsEntries, SpellsCatalog};
ghost use Rattle.script_text.specs.declared.answer.Refusal.TheVariants.{Limit};
ghost use Rattle.script_text.specs.declared.item.Command.TheVariants.{Stream, Run, Fetch, Collect, Entries};
ghost use Rattle.script_text.specs.declared.item.Command.TheVariants.{Catalog, OpenJob, Step, Close, DropJob};

use plan_text::plan_laws::texts_are_read;

/// A stream is read from a line exactly where the line spells `stream NAME (COL:KIND, COL:KIND)`, with any
/// number of spaces before, between and behind its parts.
pub fn stream_spelling()
    ensures { (name : List ℕ) (columns : List Column) (line : List ℕ) →
        ((line_command line ≡ Ok (Stream name columns)) ↔ SpellsStream name columns line) }
{}

/// A block's name is read from its head line exactly where the line spells `append NAME`, with any number of
/// spaces before, between and behind its parts.
pub fn append_spelling()
    ensures { (name line : List ℕ) → ((head_name line ≡ Some name) ↔ SpellsAppend name line) }
{}

/// A run is read from a line exactly where the line spells `run NAME = PLAN` with a plan within the limits,
/// and a limit exactly where it spells that or `open JOB NAME = PLAN` with a plan that passes this one first;
/// any number of spaces may stand before, between and behind the parts.
pub fn run_spelling()
    ensures run { (name : List ℕ) (plan : PlainTree) (line : List ℕ) →
        ((line_command line ≡ Ok (Run name plan)) ↔ SpellsRun name plan line) }
    ensures limit { (what : PlanLimit) (line : List ℕ) →
        ((line_command line ≡ Err (Limit (limit_of what))) ↔ SpellsTooLarge what line) }
{
    texts_are_read();
}

/// The opening of a job is read from a line exactly where the line spells `open JOB NAME = PLAN` with a plan
/// within the limits, with any number of spaces before, between and behind the parts, and at least one
/// between the job and the name.
pub fn open_spelling()
    ensures { (job name : List ℕ) (plan : PlainTree) (line : List ℕ) →
        ((line_command line ≡ Ok (OpenJob job name plan)) ↔ SpellsOpen job name plan line) }
{
    texts_are_read();
}

/// A step, a close or the giving up of a job is read from a line exactly where the line spells `step JOB`,
/// `close JOB` or `drop JOB`, with any number of spaces before, between and behind the words, and at least
/// one between them.
pub fn job_spelling()
    ensures step { (job line : List ℕ) → ((line_command line ≡ Ok (Step job)) ↔ SpellsStep job line) }
    ensures close { (job line : List ℕ) → ((line_command line ≡ Ok (Close job)) ↔ SpellsClose job line) }
    ensures drop { (job line : List ℕ) → ((line_command line ≡ Ok (DropJob job)) ↔ SpellsDrop job line) }
{}

/// A fetch is read from a line exactly where the line spells `fetch NAME`, and one of the last run exactly
/// where it spells `fetch NAME as-run`, with any number of spaces before, between and behind the words, and
/// at least one between two.
pub fn fetch_spelling()
    ensures present { (name line : List ℕ) →
        ((line_command line ≡ Ok (Fetch name false)) ↔ SpellsFetch name line) }
    ensures as_run { (name line : List ℕ) →
        ((line_command line ≡ Ok (Fetch name true)) ↔ SpellsFetchAsRun name line) }
{}

/// A collection is read from a line exactly where the line spells `collect NUM`, with the decimal of a number
/// that fits 64 bits.
pub fn collect_spelling()
    ensures { (bytes : ℕ) (line : List ℕ) →
        ((line_command line ≡ Ok (Collect bytes)) ↔ SpellsCollect bytes line) }
{}

/// The list of kept results is asked for exactly by the lines that are `entries` and spaces.
pub fn entries_spelling()
    ensures { (line : List ℕ) → ((line_command line ≡ Ok Entries) ↔ SpellsEntries line) }
{}

/// The catalogue is asked for exactly by the lines that are `catalog` and spaces.
pub fn catalog_spelling()
    ensures { (line : List ℕ) → ((line_command line ≡ Ok Catalog) ↔ SpellsCatalog line) }
{}
