//! How a text is read as tokens.
ghost use Rattle.std.specs.Prelude.{◌≡◌, ◌<◌, length, List, ℕ, take, drop, position, IfOk, IfSome};
ghost use Rattle.std.specs.Prelude.{IfNone, Some, IsTrue, false};
ghost use Rattle.std.specs.Option.{option_map};
ghost use Rattle.rows_core.specs.Txt.{IsTxt};
ghost use Rattle.plan_text.specs.declared.token.Token.{Token};
ghost use Rattle.plan_text.specs.Token.{with_digit, number_behind, number_with, name_or_number};
ghost use Rattle.plan_text.specs.Token.{word_token, word_len, ends_word, word_at, lent};
ghost use Rattle.plan_text.specs.Token.{begins_with_digit, with_equal, single_mark, mark_at, lent_text};
ghost use Rattle.plan_text.specs.Token.{with_byte, text_end, text_behind, text_at, mark_token, token_at};
ghost use Rattle.plan_text.specs.Token.{IsToken, trimmed, AreTokens};

use crate::{Mark, Token, Word};
use rows_core::{Memory, Name, NameRefusal, Seq, Txt, TxtRefusal, is_name_byte};
use std::alloc::Global;

/// The greatest number without a sign.
const GREATEST_NUMBER: u64 = 9_223_372_036_854_775_808;

/// The number with these digits.
fn number_with(digits: &[u8]) -> Option<u64>
    ensures { result ≡ number_with digits.now }
{
    match digits {
        [] => None,
        [b'0', _, ..] => None,
        _ => number_behind(digits),
    }
}

fn number_behind(digits: &[u8]) -> Option<u64>
    ensures { result ≡ number_behind 0 digits.now }
{
    let mut value: u64 = 0;
    let mut rest = digits;
    while let [digit, behind @ ..] = rest {
        let Some(longer) = with_digit(value, *digit) else {
            return None;
        };
        value = longer;
        rest = behind;
    }
    Some(value)
}

// The value with one more digit, up to the greatest number.
fn with_digit(value: u64, digit: u8) -> Option<u64>
    ensures { result ≡ with_digit value digit }
{
    if !digit.is_ascii_digit() {
        return None;
    }
    let longer = value.checked_mul(10)?.checked_add(u64::from(digit - b'0'))?;
    if longer <= GREATEST_NUMBER {
        Some(longer)
    } else {
        None
    }
}

fn name_or_number(alloc: Global, word: &[u8]) -> Result<Option<Token>, Memory>
    ensures { IfOk result (λ token. token ≡ name_or_number word.now) }
{
    match Name::new(alloc, word) {
        Ok(name) => Ok(Some(Token::Name(name))),
        Err(NameRefusal::NotName) => Ok(number_token(word)),
        Err(NameRefusal::Memory) => Err(Memory),
    }
}

fn number_token(word: &[u8]) -> Option<Token>
    ensures { result ≡ option_map Token.Number (number_with word.now) }
{
    match number_with(word) {
        Some(number) => Some(Token::Number(number)),
        None => None,
    }
}

/// What a run of letters, digits and `_` is.
fn word_token(alloc: Global, word: &[u8]) -> Result<Option<Token>, Memory>
    ensures { IfOk result (λ token. token ≡ word_token word.now) }
{
    match Word::of(word) {
        Some(word) => Ok(Some(Token::Word(word))),
        None => name_or_number(alloc, word),
    }
}

fn split_word(text: &[u8]) -> (&[u8], &[u8])
    ensures word { result.0.now ≡ take (word_len text.now) text.now }
    ensures behind { result.1.now ≡ drop (word_len text.now) text.now }
{
    match word_end(text) {
        Some(at) => (&text[..at], &text[at..]),
        None => (text, &[]),
    }
}

fn word_end(text: &[u8]) -> Option<usize>
    ensures place { result ≡ position ends_word text.now }
    ensures bound { IfSome result (λ at. at < length text.now) }
{
    text.iter().position(|byte| !is_name_byte(*byte))
}

/// The word at the front.
#[tactic(auto, unfolding(crate::specs::Token::word_at))]
fn word_at(alloc: Global, text: &[u8]) -> Result<Option<(Token, &[u8])>, Memory>
    ensures { IfOk result (λ found. lent found ≡ word_at text.now) }
{
    let (word, rest) = split_word(text);
    match word_token(alloc, word) {
        Ok(token) => Ok(before(rest, token)),
        Err(_) => Err(Memory),
    }
}

fn before<T: Drop>(rest: &[u8], found: Option<T>) -> Option<(T, &[u8])>
    ensures { lent result ≡ option_map (λ f. (f, rest.now)) found }
{
    match found {
        Some(found) => Some((found, rest)),
        None => None,
    }
}

fn begins_with_digit(text: &[u8]) -> bool
    ensures { result ≡ begins_with_digit text.now }
{
    match text {
        [first, ..] => first.is_ascii_digit(),
        [] => false,
    }
}

/// The mark at the front.
#[tactic(auto, unfolding(crate::specs::Token::mark_at))]
fn mark_at(first: u8, rest: &[u8]) -> Option<(Mark, &[u8])>
    ensures { lent result ≡ mark_at first rest.now }
{
    match first {
        b'!' => with_equal(Some(Mark::NotEqual), None, rest),
        b'<' => with_equal(Some(Mark::LessEqual), Some(Mark::Less), rest),
        b'>' => with_equal(Some(Mark::GreaterEqual), Some(Mark::Greater), rest),
        b'-' if begins_with_digit(rest) => Some((Mark::Sign, rest)),
        b'-' => Some((Mark::Minus, rest)),
        _ => before(rest, single_mark(first)),
    }
}

/// The first mark where a `=` follows, which belongs to it, and else the second.
fn with_equal(two: Option<Mark>, one: Option<Mark>, rest: &[u8]) -> Option<(Mark, &[u8])>
    ensures { lent result ≡ with_equal two one rest.now }
{
    match rest {
        [b'=', behind @ ..] => before(behind, two),
        _ => before(rest, one),
    }
}

/// The mark of one byte that begins no other mark.
fn single_mark(byte: u8) -> Option<Mark>
    ensures { result ≡ single_mark byte }
{
    match byte {
        b'|' => Some(Mark::Bar),
        b',' => Some(Mark::Comma),
        b'(' => Some(Mark::Open),
        b')' => Some(Mark::Close),
        b'=' => Some(Mark::Equal),
        b'+' => Some(Mark::Plus),
        b'*' => Some(Mark::Times),
        b'/' => Some(Mark::Divide),
        b'%' => Some(Mark::Rest),
        _ => None,
    }
}

/// The text of which this stands behind the first `"`.
fn text_at(alloc: Global, bytes: &[u8]) -> Result<Option<(Token, &[u8])>, Memory>
    ensures found { IfOk result (λ found. IfSome found (λ f.
        (text_at bytes.now ≡ Some (f.0, f.1.now)) × IsToken f.0)) }
    ensures none { IfOk result (λ found. IfNone found ((token : Token) (rest : List ℕ) →
        text_at bytes.now ≡ Some (token, rest) → IsToken token → ⊥)) }
{
    let Some((text, rest)) = text_behind(alloc, bytes)? else {
        return Ok(None);
    };
    match Txt::new(alloc, text.as_slice()) {
        Ok(text) => Ok(Some((Token::Text(text), rest))),
        Err(TxtRefusal::NotText | TxtRefusal::TooLong) => Ok(None),
        Err(TxtRefusal::Memory) => Err(Memory),
    }
}

/// The text up to its end, and what stands behind that.
fn text_behind(alloc: Global, bytes: &[u8]) -> Result<Option<(Vec<u8>, &[u8])>, Memory>
    ensures { IfOk result (λ found. lent_text found ≡ text_behind false bytes.now) }
{
    let mut text = Vec::new(alloc);
    let mut rest = bytes;
    while let Some((byte, after)) = text_byte_at(rest) {
        text.push(byte)?;
        rest = after;
    }
    match rest {
        [b'"', after @ ..] => Ok(Some((text, after))),
        _ => Ok(None),
    }
}

/// The byte of a text at the front, and what stands behind it.
fn text_byte_at(bytes: &[u8]) -> Option<(u8, &[u8])>
    ensures some { IfSome result
        (λ f. text_behind false bytes.now ≡ with_byte f.0 (text_behind false f.1.now)) }
    ensures none { IfNone result (text_behind false bytes.now ≡ text_end bytes.now) }
    ensures shorter { IfSome result (λ f. length f.1.now < length bytes.now) }
{
    match bytes {
        [b'"', ..] => None,
        [b'\\', byte @ (b'"' | b'\\'), after @ ..] => Some((*byte, after)),
        [b'\\', ..] => None,
        [byte, after @ ..] => Some((*byte, after)),
        [] => None,
    }
}

/// The token at the front of a text that doesn't begin with a space, and what stands behind it.
#[tactic(auto, unfolding(crate::specs::Token::token_at))]
fn token_at(alloc: Global, text: &[u8]) -> Result<Option<(Token, &[u8])>, Memory>
    ensures found { IfOk result (λ found. IfSome found (λ f.
        (token_at text.now ≡ Some (f.0, f.1.now)) × IsToken f.0)) }
    ensures none { IfOk result (λ found. IfNone found ((token : Token) (rest : List ℕ) →
        token_at text.now ≡ Some (token, rest) → IsToken token → ⊥)) }
{
    let [first, rest @ ..] = text else {
        return Ok(None);
    };
    if is_name_byte(*first) {
        return word_at(alloc, text);
    }
    if *first == b'"' {
        return text_at(alloc, rest);
    }
    Ok(mark_token(*first, rest))
}

fn mark_token(first: u8, rest: &[u8]) -> Option<(Token, &[u8])>
    ensures { lent result ≡ mark_token first rest.now }
{
    match mark_at(first, rest) {
        Some((mark, behind)) => Some((Token::Mark(mark), behind)),
        None => None,
    }
}

/// The text without the spaces at its front.
fn trim_start(text: &[u8]) -> &[u8]
    ensures { result.now ≡ trimmed text.now }
{
    let mut rest = text;
    while let [first, behind @ ..] = rest {
        if *first != b' ' {
            return rest;
        }
        rest = behind;
    }
    rest
}

/// The tokens of a text; `None` exactly where it has none.
pub fn tokens_of(alloc: Global, text: &[u8]) -> Result<Option<Vec<Token>>, Memory>
    ensures found { IfOk result (λ found. IfSome found (λ tokens. AreTokens tokens.items text.now)) }
    ensures none { IfOk result
        (λ found. IfNone found ((tokens : List Token) → AreTokens tokens text.now → ⊥)) }
{
    let mut tokens = Vec::new(alloc);
    let mut rest = trim_start(text);
    while !rest.is_empty() {
        let Some((token, behind)) = token_at(alloc, rest)? else {
            return Ok(None);
        };
        tokens.push(token)?;
        rest = trim_start(behind);
    }
    Ok(Some(tokens))
}
