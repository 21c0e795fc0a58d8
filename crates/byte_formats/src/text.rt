//! Texts.
ghost use Rattle.std.specs.Prelude.{◌≡◌, ◌≤◌, ◌<◌, if◌then◌else◌, IfOk, Some, None, length};
ghost use Rattle.byte_formats.specs.Reading.{Gives, text_at, is_text, following, any_following, followers_of};
ghost use Rattle.byte_formats.specs.Reading.{followers_after, left_in_text};

use crate::between::u32_between;
use crate::unread::Unread;
use rows_core::{Memory, Txt, TxtRefusal};
use std::alloc::Global;

/// The greatest length of a text, in bytes.
const MAX_TEXT_LEN: u32 = 1_000;

/// What follows a byte within a character.
#[derive(Clone, Copy)]
struct Followers {
    /// How many bytes follow.
    count: usize,
    /// The least that the first of them may be.
    least: u8,
    /// The greatest that the first of them may be.
    greatest: u8,
}

impl Followers {
    fn any(count: usize) -> Followers
        ensures { result ≡ any_following count }
    {
        Followers::between(count, 0x80, 0xBF)
    }

    fn between(count: usize, least: u8, greatest: u8) -> Followers
        ensures { result ≡ following count least greatest }
    {
        Followers {
            count,
            least,
            greatest,
        }
    }
}

/// A text behind its length.
#[tactic(auto, unfolding(crate::specs::Reading::text_at))]
pub fn text_at(alloc: Global, bytes: &[u8]) -> Result<(Txt, &[u8]), Unread>
    ensures { Gives (λ x. (x.0, x.1.now)) result (text_at bytes.now) }
{
    let (len, rest) = u32_between(0, MAX_TEXT_LEN, bytes)?;
    let len = len as usize;
    if rest.len() < len {
        return Err(Unread::Left(left_in_text(Followers::any(0), len, rest)));
    }
    let (front, after) = rest.split_at(len);
    match text_of(alloc, front)? {
        Some(text) => Ok((text, after)),
        None => Err(Unread::Left(left_in_text(Followers::any(0), len, rest))),
    }
}

/// The text with these bytes, of which there are 1,000 at most.
fn text_of(alloc: Global, bytes: &[u8]) -> Result<Option<Txt>, Memory>
    requires { length bytes.now ≤ 1000 }
    ensures { IfOk result (λ text. text ≡ (if is_text bytes.now then Some bytes.now else None)) }
{
    match Txt::new(alloc, bytes) {
        Ok(text) => Ok(Some(text)),
        Err(refusal) => match refusal {
            TxtRefusal::Memory => Err(Memory),
            TxtRefusal::NotText => Ok(None),
            TxtRefusal::TooLong => Ok(None),
        },
    }
}

/// How many bytes are left where a text of `room` bytes stops, `expected` being what follows the byte before.
/// The rule is Unicode's table of well-formed UTF-8, without the bytes below 0x20.
#[tactic(auto, unfolding(crate::specs::Reading::left_in_text))]
fn left_in_text(expected: Followers, room: usize, bytes: &[u8]) -> usize
    ensures { result ≡ left_in_text expected room bytes.now }
{
    let [byte, rest @ ..] = bytes else {
        return 0;
    };
    if room == 0 {
        return 0;
    }
    match followers_after(expected, *byte) {
        None => bytes.len(),
        Some(next) => {
            if room - 1 < next.count {
                return bytes.len();
            }
            left_in_text(next, room - 1, rest)
        }
    }
}

/// What follows a byte that stands where `expected` says what follows; `None` where the byte may not stand
/// there.
#[tactic(auto, unfolding(crate::specs::Reading::followers_after))]
fn followers_after(expected: Followers, byte: u8) -> Option<Followers>
    ensures { result ≡ followers_after expected byte }
{
    if expected.count == 0 {
        return followers_of(byte);
    }
    if byte < expected.least || expected.greatest < byte {
        return None;
    }
    Some(Followers::any(expected.count - 1))
}

/// What follows the first byte of a character.
#[tactic(auto, unfolding(crate::specs::Reading::followers_of))]
fn followers_of(byte: u8) -> Option<Followers>
    ensures { result ≡ followers_of byte }
{
    match byte {
        0x00..=0x1F => None,
        0x20..=0x7F => Some(Followers::any(0)),
        0x80..=0xC1 => None,
        0xC2..=0xDF => Some(Followers::any(1)),
        0xE0 => Some(Followers::between(2, 0xA0, 0xBF)),
        0xED => Some(Followers::between(2, 0x80, 0x9F)),
        0xE1..=0xEF => Some(Followers::any(2)),
        0xF0 => Some(Followers::between(3, 0x90, 0xBF)),
        0xF1..=0xF3 => Some(Followers::any(3)),
        0xF4 => Some(Followers::between(3, 0x80, 0x8F)),
        _ => None,
    }
}
