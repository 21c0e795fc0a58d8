//! The line `collect NUM`.
ghost use Rattle.std.specs.Prelude.{◌≡◌, ◌↔◌, IsTrue, IfOk, decimal};
ghost use Rattle.script_text.specs.CollectLine.{number_of, collect_of};
ghost use Rattle.script_text.specs.Script.{IsWhole};

use crate::answer::Refusal;
use crate::item::Command;
use crate::words::only_word;
use itoa::Buffer;

/// The command of which this stands behind its first word: `Syntax` exactly where it is no `NUM`.
pub fn collect_of(text: &[u8]) -> Result<Command, Refusal>
    ensures read { result ≡ collect_of text.now }
    ensures whole { IfOk result IsWhole }
{
    let Some(word) = only_word(text) else {
        return Err(Refusal::Syntax);
    };
    match number_of(word) {
        Some(bytes) => Ok(Command::Collect { bytes }),
        None => Err(Refusal::Syntax),
    }
}

// The number of 64 bits whose decimal the word is, without leading zeros.
fn number_of(word: &[u8]) -> Option<u64>
    ensures { result ≡ number_of word.now }
{
    let Ok(text) = std::str::from_utf8(word) else {
        return None;
    };
    match text.parse::<u64>() {
        Ok(number) if is_decimal_of(number, word) => Some(number),
        _ => None,
    }
}

// Whether the word is the number's decimal.
fn is_decimal_of(number: u64, word: &[u8]) -> bool
    ensures { IsTrue result ↔ (word.now ≡ decimal number) }
{
    let mut buffer = Buffer::new();
    buffer.format(number).as_bytes() == word
}
