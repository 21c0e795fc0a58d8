//! The lines `entries` and `catalog`.
ghost use Rattle.std.specs.Prelude.{◌≡◌, IfOk};
ghost use Rattle.script_text.specs.ListLine.{entries_of, catalog_of};
ghost use Rattle.script_text.specs.Script.{IsWhole};

use crate::answer::Refusal;
use crate::item::Command;
use crate::words::is_blank;

/// The list of kept results, where this stands behind its word: `Syntax` exactly where it isn't blank.
pub fn entries_of(text: &[u8]) -> Result<Command, Refusal>
    ensures read { result ≡ entries_of text.now }
    ensures whole { IfOk result IsWhole }
{
    if is_blank(text) {
        Ok(Command::Entries)
    } else {
        Err(Refusal::Syntax)
    }
}

/// The catalogue, where this stands behind its word: `Syntax` exactly where it isn't blank.
pub fn catalog_of(text: &[u8]) -> Result<Command, Refusal>
    ensures read { result ≡ catalog_of text.now }
    ensures whole { IfOk result IsWhole }
{
    if is_blank(text) {
        Ok(Command::Catalog)
    } else {
        Err(Refusal::Syntax)
    }
}
