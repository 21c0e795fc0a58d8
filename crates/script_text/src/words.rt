//! The words of a command's line, which spaces part.
ghost use Rattle.std.specs.Prelude.{◌≡◌, ◌<◌, length, option_copied, IfSome, IfOk, position, codes};
ghost use Rattle.std.specs.List.{before_first, after_first};
ghost use Rattle.script_text.specs.Words.{is_space, is_blank, trimmed, is_empty_or_remark, ends_word};
ghost use Rattle.script_text.specs.Words.{behind_word, word_alone, only_word, name_if, only_name};

use rows_core::{Memory, Name, NameRefusal};
use std::alloc::Global;

/// The line without the spaces at its front.
pub fn trim_start(line: &[u8]) -> &[u8]
    ensures { result.now ≡ trimmed line.now }
{
    let mut rest = line;
    while let [first, behind @ ..] = rest {
        if *first != b' ' {
            return rest;
        }
        rest = behind;
    }
    rest
}

/// Whether a line outside of a block is passed over, by what it has behind the spaces at its front.
pub fn is_empty_or_remark(text: &[u8]) -> bool
    ensures { result ≡ is_empty_or_remark text.now }
{
    match text {
        [] => true,
        [first, ..] => *first == b'#',
    }
}

/// What stands behind `append`, where it is the first word of a line without spaces at its front.
pub fn behind_append(text: &[u8]) -> Option<&[u8]>
    ensures { option_copied result ≡ behind_word (codes "append") text.now }
{
    behind_word(b"append", text)
}

/// What stands behind `stream`, where it is the first word of a line without spaces at its front.
pub fn behind_stream(text: &[u8]) -> Option<&[u8]>
    ensures { option_copied result ≡ behind_word (codes "stream") text.now }
{
    behind_word(b"stream", text)
}

/// What stands behind `run`, where it is the first word of a line without spaces at its front.
pub fn behind_run(text: &[u8]) -> Option<&[u8]>
    ensures { option_copied result ≡ behind_word (codes "run") text.now }
{
    behind_word(b"run", text)
}

/// What stands behind `fetch`, where it is the first word of a line without spaces at its front.
pub fn behind_fetch(text: &[u8]) -> Option<&[u8]>
    ensures { option_copied result ≡ behind_word (codes "fetch") text.now }
{
    behind_word(b"fetch", text)
}

/// What stands behind `collect`, where it is the first word of a line without spaces at its front.
pub fn behind_collect(text: &[u8]) -> Option<&[u8]>
    ensures { option_copied result ≡ behind_word (codes "collect") text.now }
{
    behind_word(b"collect", text)
}

/// What stands behind `entries`, where it is the first word of a line without spaces at its front.
pub fn behind_entries(text: &[u8]) -> Option<&[u8]>
    ensures { option_copied result ≡ behind_word (codes "entries") text.now }
{
    behind_word(b"entries", text)
}

/// What stands behind `catalog`, where it is the first word of a line without spaces at its front.
pub fn behind_catalog(text: &[u8]) -> Option<&[u8]>
    ensures { option_copied result ≡ behind_word (codes "catalog") text.now }
{
    behind_word(b"catalog", text)
}

/// What stands behind `open`, where it is the first word of a line without spaces at its front.
pub fn behind_open(text: &[u8]) -> Option<&[u8]>
    ensures { option_copied result ≡ behind_word (codes "open") text.now }
{
    behind_word(b"open", text)
}

/// What stands behind `step`, where it is the first word of a line without spaces at its front.
pub fn behind_step(text: &[u8]) -> Option<&[u8]>
    ensures { option_copied result ≡ behind_word (codes "step") text.now }
{
    behind_word(b"step", text)
}

/// What stands behind `close`, where it is the first word of a line without spaces at its front.
pub fn behind_close(text: &[u8]) -> Option<&[u8]>
    ensures { option_copied result ≡ behind_word (codes "close") text.now }
{
    behind_word(b"close", text)
}

/// What stands behind `drop`, where it is the first word of a line without spaces at its front.
pub fn behind_drop(text: &[u8]) -> Option<&[u8]>
    ensures { option_copied result ≡ behind_word (codes "drop") text.now }
{
    behind_word(b"drop", text)
}

/// The one word of a text, where it is a name.
pub fn only_name(alloc: Global, text: &[u8]) -> Result<Option<Name>, Memory>
    ensures { IfOk result (λ name. name ≡ only_name text.now) }
{
    match only_word(text) {
        Some(word) => name_if(alloc, word),
        None => Ok(None),
    }
}

/// The word, where it is a name.
pub fn name_if(alloc: Global, word: &[u8]) -> Result<Option<Name>, Memory>
    ensures { IfOk result (λ name. name ≡ name_if word.now) }
{
    match Name::new(alloc, word) {
        Ok(name) => Ok(Some(name)),
        Err(NameRefusal::NotName) => Ok(None),
        Err(NameRefusal::Memory) => Err(Memory),
    }
}

/// The one word of a text, where it has no other.
#[tactic(auto, unfolding(crate::specs::Words::only_word))]
pub fn only_word(text: &[u8]) -> Option<&[u8]>
    ensures { option_copied result ≡ only_word text.now }
{
    word_alone(trim_start(text))
}

// What stands behind this word, where the text begins with it.
fn behind_word<'a>(word: &[u8], text: &'a [u8]) -> Option<&'a [u8]>
    ensures { option_copied result ≡ behind_word word.now text.entry.now }
{
    match text.strip_prefix(word) {
        Some(rest) if ends_word(rest) => Some(rest),
        _ => None,
    }
}

fn ends_word(rest: &[u8]) -> bool
    ensures { result ≡ ends_word rest.now }
{
    match rest {
        [] => true,
        [first, ..] => *first == b' ',
    }
}

// The one word of a text that begins with it, where only spaces stand behind it.
fn word_alone(text: &[u8]) -> Option<&[u8]>
    ensures { option_copied result ≡ word_alone text.now }
{
    let (word, behind) = split_first_word(text);
    if is_blank(behind) { Some(word) } else { None }
}

/// What stands before the first space, and behind it.
pub fn split_first_word(text: &[u8]) -> (&[u8], &[u8])
    ensures word { result.0.now ≡ before_first is_space text.now }
    ensures behind { result.1.now ≡ after_first is_space text.now }
{
    match first_space(text) {
        Some(at) => (&text[..at], &text[at + 1..]),
        None => (text, &[]),
    }
}

fn first_space(text: &[u8]) -> Option<usize>
    ensures place { result ≡ position is_space text.now }
    ensures bound { IfSome result (λ at. at < length text.now) }
{
    text.iter().position(|byte| *byte == b' ')
}

/// Whether there are only spaces.
pub fn is_blank(text: &[u8]) -> bool
    ensures { result ≡ is_blank text.now }
{
    text.iter().all(|byte| *byte == b' ')
}
