//! What a run or a fetch works off.
ghost use Rattle.std.specs.Prelude.{◌≡◌, IfOk, IsErrOf};
ghost use Rattle.plan_text.specs.Counts.{IsWithinLimits};
ghost use Rattle.folder.specs.Folders.{table_in};
ghost use Rattle.script_text.specs.Script.{IsWhole};
ghost use Rattle.script_text.specs.declared.item.Command.TheVariants as command;
ghost use Rattle.folder_session.specs.Machine.{IsWork};
ghost use Rattle.folder_session.specs.Wanted.{CanWork, IsWanted, cuts_for, program_for};

use crate::session::FolderSession;
use catalog_types::Program;
use plan_core::Typed;
use plan_text::NamedPlan;
use planning::{FetchPlan, RunPlan, plan_fetch, plan_run};
use rows_core::{Cut, Name, Seq};
use script_text::{Command, Refusal};

/// A plan, and what it is worked off for.
#[derive(Drop)]
pub(crate) struct Wanted {
    pub(crate) typed: Typed,
    pub(crate) purpose: Purpose,
}

/// What a plan is worked off for, with the cut that it is worked off at.
#[derive(Drop)]
pub(crate) enum Purpose {
    /// To be run: where it has a result it is stored as this program.
    Run(Program),
    /// To be fetched.
    Fetch(Seq<Cut>),
}

impl Purpose {
    /// The cut.
    pub(crate) fn cuts(&self) -> &[Cut]
        ensures { result.now ≡ cuts_for self.now }
    {
        match self {
            Purpose::Run(program) => program.cuts.items(),
            Purpose::Fetch(cuts) => cuts.items(),
        }
    }

    /// The program that the plan is stored as, if it is.
    pub(crate) fn program(self) -> Option<Program>
        ensures { result ≡ program_for self }
    {
        match self {
            Purpose::Run(program) => Some(program),
            Purpose::Fetch(_) => None,
        }
    }
}

impl FolderSession {
    ghost use Rattle.folder_session.specs.Standing.{folder_of};

    /// What a run or a fetch works off, or why it is refused before.
    pub(crate) fn wanted(&self, command: Command) -> Result<Wanted, Refusal>
        requires whole { IsWhole command }
        requires work { IsWork command }
        ensures ready { IfOk result (CanWork (table_in (folder_of self.now))) }
        ensures wanted { IsWanted (table_in (folder_of self.now)) command result }
        ensures no_fault { IsErrOf result Refusal.Fault → ⊥ }
    {
        match command {
            Command::Run { name, plan } => self.want_run(name, &plan),
            Command::Fetch { name, as_run } => self.want_fetch(name, as_run),
            Command::Stream { .. }
            | Command::Append { .. }
            | Command::Collect { .. }
            | Command::Entries
            | Command::Catalog
            | Command::OpenJob { .. }
            | Command::Step { .. }
            | Command::Close { .. }
            | Command::DropJob { .. } => unreachable!(),
        }
    }

    // What a run of a plan works off, on all extents, or why it is refused before.
    fn want_run(&self, name: Name, plan: &NamedPlan) -> Result<Wanted, Refusal>
        requires { IsWithinLimits plan.now }
        ensures ready { IfOk result (CanWork (table_in (folder_of self.now))) }
        ensures wanted { IsWanted (table_in (folder_of self.now)) (command.Run name plan.now) result }
        ensures no_fault { IsErrOf result Refusal.Fault → ⊥ }
    {
        match plan_run(self.alloc, self.folder.catalog(), name, plan) {
            Ok(RunPlan { typed, program }) => Ok(Wanted {
                typed,
                purpose: Purpose::Run(program),
            }),
            Err(refusal) => Err(refusal),
        }
    }

    // What a fetch of the plan that goes by a name works off, on all extents or, `as_run`, on those of its last
    // run, or why it is refused before. The name goes on standing for it as it did.
    fn want_fetch(&self, name: Name, as_run: bool) -> Result<Wanted, Refusal>
        ensures ready { IfOk result (CanWork (table_in (folder_of self.now))) }
        ensures wanted { IsWanted (table_in (folder_of self.now)) (command.Fetch name as_run) result }
        ensures no_fault { IsErrOf result Refusal.Fault → ⊥ }
    {
        match plan_fetch(self.alloc, self.folder.catalog(), name, as_run) {
            Ok(FetchPlan { typed, cuts }) => Ok(Wanted {
                typed,
                purpose: Purpose::Fetch(cuts),
            }),
            Err(refusal) => Err(refusal),
        }
    }
}
