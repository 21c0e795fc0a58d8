//! What a script consists of.
ghost use Rattle.std.specs.Prelude.{ℕ, List};
ghost use Rattle.std.specs.List.{AllByRecursion};
ghost use Rattle.script_text.specs.Script.{items, all_items, IsWholeItem, IsRefusedForBytes};

use crate::answer::Refusal;
use plan_text::NamedPlan;
use rows_core::{Column, Name, Seq, Text};

/// What a person asks for.
#[derive(Drop)]
pub enum Command {
    /// Makes a stream. It has one column or more, as written: names may repeat, and there may be more than a
    /// schema has.
    Stream {
        name: Name,
        columns: Seq<Column>,
    },
    /// Appends rows to a stream. There is one row line or more, as written and without its LF, blank ones
    /// too.
    Append {
        name: Name,
        lines: Seq<Text>,
    },
    /// Runs a plan, which then goes by the name. It passes no limit of plans as written.
    Run {
        name: Name,
        plan: NamedPlan,
    },
    /// Answers the rows of the plan that goes by the name: on all extents, or with `as_run` on those of its
    /// last run.
    Fetch {
        name: Name,
        as_run: bool,
    },
    /// Evicts kept results until their files had this many bytes together, or none is left that may go.
    Collect {
        bytes: u64,
    },
    /// Tells the kept results.
    Entries,
    /// Tells all that the folder's records say: streams, programs and kept results.
    Catalog,
    /// Opens a job, which is to run a plan in steps; from its close on the plan goes by the name. It passes no
    /// limit of plans as written.
    OpenJob {
        job: Name,
        name: Name,
        plan: NamedPlan,
    },
    /// Reads the next file of an open job.
    Step {
        job: Name,
    },
    /// Reads the files that an open job is still to read, and ends it with its result.
    Close {
        job: Name,
    },
    /// Gives an open job up.
    DropJob {
        job: Name,
    },
}

/// What the reader of a script gives for each command, in the order of the script.
#[derive(Drop)]
pub enum Item {
    Command(Command),
    /// A limit of lines, blocks or plans as written is passed, the bytes spell no command, or there was no
    /// memory for it.
    Refused(Refusal),
}

/// Each stream that a script spells has one column or more, each append one row line or more, and the plan of
/// each run and of each job passes no limit of plans as written.
pub fn commands_are_whole()
    ensures front { (bytes : List ℕ) → AllByRecursion IsWholeItem (items bytes) }
    ensures all { (bytes : List ℕ) → AllByRecursion IsWholeItem (all_items bytes) }
{}

/// Each refusal that a script spells is for its bytes alone: a limit that they pass, or that they spell no
/// command.
pub fn refusals_are_for_the_bytes()
    ensures front { (bytes : List ℕ) → AllByRecursion IsRefusedForBytes (items bytes) }
    ensures all { (bytes : List ℕ) → AllByRecursion IsRefusedForBytes (all_items bytes) }
{}
