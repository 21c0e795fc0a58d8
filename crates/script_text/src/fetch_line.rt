//! The lines `fetch NAME` and `fetch NAME as-run`.
ghost use Rattle.std.specs.Prelude.{◌≡◌, IfOk};
ghost use Rattle.script_text.specs.FetchLine.{as_run_of, fetch_of};
ghost use Rattle.script_text.specs.Script.{IsWhole};
ghost use Rattle.script_text.specs.Spelled.{IsReadOf};

use crate::answer::Refusal;
use crate::item::Command;
use crate::words::{name_if, only_word, split_first_word, trim_start};
use rows_core::Memory;
use std::alloc::Global;

/// The command of which this stands behind its first word: `Syntax` exactly where it is neither `NAME` nor
/// `NAME as-run`, unless memory is wanted first.
pub fn fetch_of(alloc: Global, text: &[u8]) -> Result<Command, Refusal>
    ensures read { IsReadOf (fetch_of text.now) result }
    ensures whole { IfOk result IsWhole }
{
    let (word, behind) = split_first_word(trim_start(text));
    let Some(as_run) = as_run_of(behind) else {
        return Err(Refusal::Syntax);
    };
    match name_if(alloc, word) {
        Ok(Some(name)) => Ok(Command::Fetch { name, as_run }),
        Ok(None) => Err(Refusal::Syntax),
        Err(Memory) => Err(Refusal::Memory),
    }
}

// Whether what stands behind the name asks for the last run.
fn as_run_of(text: &[u8]) -> Option<bool>
    ensures { result ≡ as_run_of text.now }
{
    match only_word(text) {
        Some([]) => Some(false),
        Some(word) if word == b"as-run".as_slice() => Some(true),
        _ => None,
    }
}
