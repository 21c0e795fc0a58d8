//! What holds of every step of the machine.
ghost use Rattle.std.specs.Prelude.{◌≡◌, ℕ};
ghost use Rattle.rows_core.specs.declared.file_ref.Digest.{Digest};
ghost use Rattle.script_text.specs.declared.answer.Answer.{Answer};
ghost use Rattle.script_text.specs.declared.answer.Refusal.{Refusal};
ghost use Rattle.script_text.specs.declared.item.Command.{Command};
ghost use Rattle.folder.specs.Sound.{Care, Whole};
ghost use Rattle.session.specs.Machine.{Machine, outcome, Performs, Remains, Step};
ghost use Rattle.session.specs.Refusals.{IsRefusedFor};

/// Where the files hold their bytes no command is refused for damage, and where they are a state's none for
/// unreadable bytes.
pub fn files_are_read()
    ensures damaged { (m new : Machine) (given_to : Command) (file : ℕ) (kept found : Digest)
        → Step Whole m given_to (Answer.Refused (Refusal.Damaged file kept found)) new → ⊥ }
    ensures unreadable { (care : Care) (m new : Machine) (given_to : Command) (file at : ℕ)
        → Step care m given_to (Answer.Refused (Refusal.Unreadable file at)) new → ⊥ }
{}

/// Where there is memory and each extent's file is read a command is refused only where the cause of that refusal
/// holds. No refusal changes the machine, but that a job whose close is refused may have read on and noted kept
/// results.
pub fn refusals_have_causes()
    ensures cause { (care : Care) (m new : Machine) (given_to : Command) (why : Refusal)
        → Performs care m given_to (outcome (Answer.Refused why) new) → IsRefusedFor m given_to why }
    ensures unchanged { (care : Care) (m new : Machine) (given_to : Command) (why : Refusal)
        → Step care m given_to (Answer.Refused why) new → Remains care m given_to new }
{}
