//! Why work isn't done and nothing is collected, as a refusal of the command.
ghost use Rattle.std.specs.Prelude.{◌≡◌};
ghost use Rattle.folder_session.specs.WorkRefusals.{collection_refusal, refusal_of};

use planning::CollectionRefusal;
use executor::RunRefusal;
use script_text::{LimitKind, Refusal};

/// Why a command is refused whose work isn't done.
pub fn refusal_of(refusal: RunRefusal) -> Refusal
    ensures { result ≡ refusal_of refusal }
{
    match refusal {
        RunRefusal::Overflow => Refusal::Overflow,
        RunRefusal::Machine => Refusal::Limit(LimitKind::Machine),
        RunRefusal::Fault => Refusal::Fault,
        RunRefusal::Damaged {
            file,
            kept,
            found,
            ..
        } => Refusal::Damaged { file, kept, found },
        RunRefusal::Unreadable { file, at, .. } => Refusal::Unreadable { file, at },
        RunRefusal::Memory => Refusal::Memory,
    }
}

/// Why a collection is refused.
pub(crate) fn collection_refusal(refusal: CollectionRefusal) -> Refusal
    ensures { result ≡ collection_refusal refusal }
{
    match refusal {
        CollectionRefusal::Commands => Refusal::Limit(LimitKind::Commands),
        CollectionRefusal::Memory => Refusal::Memory,
    }
}
