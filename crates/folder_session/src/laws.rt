//! What holds of every step of the machine.
ghost use Rattle.std.specs.Prelude.{◌≡◌, ◌⊎◌, ℕ, List, [], Option};
ghost use Rattle.rows_core.specs.declared.file_ref.Digest.{Digest};
ghost use Rattle.plan_core.specs.PlainPlan.{PlainPlan};
ghost use Rattle.estimator.specs.Cuts.{Cuts};
ghost use Rattle.catalog_types.specs.declared.program.Program.{Program};
ghost use Rattle.script_text.specs.declared.answer.Answer.{Answer};
ghost use Rattle.script_text.specs.declared.answer.Refusal.{Refusal};
ghost use Rattle.script_text.specs.declared.item.Command.{Command};
ghost use Rattle.folder.specs.Sound.{Care, Whole};
ghost use Rattle.folder.specs.State.{State};
ghost use Rattle.work_run.specs.Working.{Given};
ghost use Rattle.work_turns.specs.Ends.{WorksInTurns};
ghost use Rattle.folder_session.specs.Machine.{Outcome, outcome, refused, Performs, Step};
ghost use Rattle.folder_session.specs.Outcomes.{Agree};
ghost use Rattle.folder_session.specs.Refusals.{HasNoChoice, IsRefusedFor, IsOtherEvent};

use planning::one_collection;
use plan_canon::laws::one_normal_form;
use plan_text::plan_laws::one_plan;

/// Where the files hold their bytes no command is refused for damage, and no run or fetch loses a kept result;
/// where they are a state's no command is refused for unreadable bytes.
pub fn files_are_read()
    ensures damaged { (held : List ℕ) (s new : State) (given_to : Command) (file : ℕ) (kept found : Digest)
        → Step Whole held s given_to (Answer.Refused (Refusal.Damaged file kept found)) new → ⊥ }
    ensures unreadable { (care : Care) (held : List ℕ) (s new : State) (given_to : Command) (file at : ℕ)
        → Step care held s given_to (Answer.Refused (Refusal.Unreadable file at)) new → ⊥ }
    ensures none_lost { (s new : State) (program : Option Program) (plan form : PlainPlan)
        (cuts : Cuts) (given : Given) → (works : WorksInTurns Whole s program plan form cuts given new)
        → works.lost ≡ [] }
{}

/// In each state a command that leaves no choice has one answer, and one state after it, where there is
/// memory and each extent is read; but two results may differ in which kept results were used, dropped and kept,
/// and in how many bytes were read, and not in their rows. A run or a fetch leaves a choice only where its plan
/// meets an overflow and its machine time is above the limit.
pub fn one_outcome()
    ensures { (care : Care) (held : List ℕ) (s : State) (given_to : Command) (a b : Outcome)
        → HasNoChoice s given_to → Performs care held s given_to a → Performs care held s given_to b
        → Agree a b }
{
    one_normal_form();
    one_plan();
    one_collection();
}

/// A command is refused only where the cause of that refusal holds; where one holds it is answered that
/// refusal, or the other one of a run or a fetch that has two; and no refusal changes the state.
pub fn refusals_have_causes()
    ensures cause { (care : Care) (held : List ℕ) (s new : State) (given_to : Command) (why : Refusal)
        → Performs care held s given_to (outcome (Answer.Refused why) new) → IsRefusedFor s given_to why }
    ensures exactly { (care : Care) (held : List ℕ) (s : State) (given_to : Command) (given : Outcome)
        (why : Refusal) → Performs care held s given_to given → IsRefusedFor s given_to why → (given ≡ refused s why)
        ⊎ ((other : Refusal) × IsOtherEvent why other × (given ≡ refused s other)) }
    ensures unchanged { (care : Care) (held : List ℕ) (s new : State) (given_to : Command) (why : Refusal)
        → Step care held s given_to (Answer.Refused why) new → new ≡ s }
{
    one_normal_form();
    one_plan();
}
