//! The value at the front of a line.
ghost use Rattle.std.specs.Prelude.{◌≡◌, ◌≢◌, ◌++◌, ◌∷◌, ℕ, ℤ, Bool, List, IfOk, IfSome, IfNone, MatchOption};
ghost use Rattle.std.specs.Prelude.{FitsSigned, IsTrue, ◌↔◌};
ghost use Rattle.std.specs.List.{flat_map, AllByRecursion};
ghost use Rattle.std.specs.Int.{w64};
ghost use Rattle.std.specs.Fmt.{signed_decimal};
ghost use Rattle.rows_core.specs.declared.value.Value.{Value};
ghost use Rattle.rows_core.specs.Txt.{IsText};
ghost use Rattle.rows_core.specs.Value.{kind_of};
ghost use Rattle.row_text.specs.RowSpelling.{byte_spelling, text_spelling, truth_spelling, value_spelling, IsLoose};
ghost use Rattle.row_text.specs.Fields.{value_of, Ends, HasNoComma};

use itoa::Buffer;
use rows_core::{Kind, Memory, Seq, is_text};
use std::alloc::Global;

/// A value with a text of any length.
#[derive(Drop)]
pub enum Field {
    Int(i64),
    Text(Seq<u8>),
    Bool(bool),
}

/// The value of this kind at the front of a line and what stands after it, which is nothing or begins with a
/// comma; `None` where no such value stands there.
pub fn field_at(alloc: Global, kind: Kind, bytes: &[u8]) -> Result<Option<(Field, &[u8])>, Memory>
    ensures kind { IfOk result (λ found. IfSome found (λ f. kind_of (value_of f.0) ≡ kind)) }
    ensures loose { IfOk result (λ found. IfSome found (λ f. IsLoose (value_of f.0))) }
    ensures ends { IfOk result (λ found. IfSome found (λ f. Ends f.1.now)) }
    ensures found { IfOk result
        (λ found. IfSome found (λ f. bytes.now ≡ value_spelling (value_of f.0) ++ f.1.now)) }
    ensures none { IfOk result (λ found. IfNone found ((value : Value) (rest : List ℕ) →
        kind_of value ≡ kind → IsLoose value → Ends rest → bytes.now ≢ value_spelling value ++ rest)) }
{
    match kind {
        Kind::Int => Ok(number_at(bytes)),
        Kind::Text => text_field_at(alloc, bytes),
        Kind::Bool => Ok(truth_at(bytes)),
    }
}

fn number_at(bytes: &[u8]) -> Option<(Field, &[u8])>
    ensures kind { IfSome result (λ f. kind_of (value_of f.0) ≡ Kind.Int) }
    ensures loose { IfSome result (λ f. IsLoose (value_of f.0)) }
    ensures ends { IfSome result (λ f. Ends f.1.now) }
    ensures found { IfSome result (λ f. bytes.now ≡ value_spelling (value_of f.0) ++ f.1.now) }
    ensures none { IfNone result ((number : ℤ) (rest : List ℕ) →
        FitsSigned w64 number → Ends rest → bytes.now ≢ signed_decimal number ++ rest) }
{
    let (field, rest) = up_to_comma(bytes);
    match number_of(field) {
        Some(number) => Some((Field::Int(number), rest)),
        None => None,
    }
}

/// What stands before the first comma, and the rest.
fn up_to_comma(bytes: &[u8]) -> (&[u8], &[u8])
    ensures whole { bytes.now ≡ result.0.now ++ result.1.now }
    ensures no_comma { HasNoComma result.0.now }
    ensures ends { Ends result.1.now }
{
    let len = bytes.iter().take_while(|byte| **byte != b',').count();
    bytes.split_at(len)
}

/// The number that is spelled so.
fn number_of(bytes: &[u8]) -> Option<i64>
    ensures found { IfSome result (λ number. bytes.now ≡ signed_decimal number) }
    ensures none { IfNone result ((number : ℤ) → FitsSigned w64 number → bytes.now ≢ signed_decimal number) }
{
    let Ok(text) = std::str::from_utf8(bytes) else {
        return None;
    };
    let Ok(number) = text.parse::<i64>() else {
        return None;
    };
    if is_spelling_of(bytes, number) {
        Some(number)
    } else {
        None
    }
}

fn is_spelling_of(bytes: &[u8], number: i64) -> bool
    ensures { IsTrue result ↔ (bytes.now ≡ signed_decimal number) }
{
    Buffer::new().format(number).as_bytes() == bytes
}

fn truth_at(bytes: &[u8]) -> Option<(Field, &[u8])>
    ensures kind { IfSome result (λ f. kind_of (value_of f.0) ≡ Kind.Bool) }
    ensures loose { IfSome result (λ f. IsLoose (value_of f.0)) }
    ensures ends { IfSome result (λ f. Ends f.1.now) }
    ensures found { IfSome result (λ f. bytes.now ≡ value_spelling (value_of f.0) ++ f.1.now) }
    ensures none { IfNone result ((truth : Bool) (rest : List ℕ) →
        Ends rest → bytes.now ≢ truth_spelling truth ++ rest) }
{
    let (field, rest) = up_to_comma(bytes);
    match truth_of(field) {
        Some(truth) => Some((Field::Bool(truth), rest)),
        None => None,
    }
}

/// The truth value that is spelled so.
fn truth_of(bytes: &[u8]) -> Option<bool>
    ensures found { IfSome result (λ truth. bytes.now ≡ truth_spelling truth) }
    ensures none { IfNone result ((truth : Bool) → bytes.now ≢ truth_spelling truth) }
{
    match bytes {
        b"true" => Some(true),
        b"false" => Some(false),
        _ => None,
    }
}

fn text_field_at(alloc: Global, bytes: &[u8]) -> Result<Option<(Field, &[u8])>, Memory>
    ensures kind { IfOk result (λ found. IfSome found (λ f. kind_of (value_of f.0) ≡ Kind.Text)) }
    ensures loose { IfOk result (λ found. IfSome found (λ f. IsLoose (value_of f.0))) }
    ensures ends { IfOk result (λ found. IfSome found (λ f. Ends f.1.now)) }
    ensures found { IfOk result
        (λ found. IfSome found (λ f. bytes.now ≡ value_spelling (value_of f.0) ++ f.1.now)) }
    ensures none { IfOk result (λ found. IfNone found ((text rest : List ℕ) →
        IsText text → Ends rest → bytes.now ≢ text_spelling text ++ rest)) }
{
    let Some(bytes) = after_quote(bytes) else {
        return Ok(None);
    };
    let Some((text, rest)) = text_at(alloc, bytes)? else {
        return Ok(None);
    };
    if is_text_before(text.as_slice(), rest) {
        Ok(Some((Field::Text(Seq::new(text)), rest)))
    } else {
        Ok(None)
    }
}

/// Whether these bytes are a text and its value ends behind it.
fn is_text_before(text: &[u8], rest: &[u8]) -> bool
    ensures { IsTrue result ↔ (IsText text.now × Ends rest.now) }
{
    is_text(text) && ends(rest)
}

/// Whether a value ends here.
fn ends(bytes: &[u8]) -> bool
    ensures { IsTrue result ↔ Ends bytes.now }
{
    match bytes {
        [] => true,
        [byte, ..] => *byte == b',',
    }
}

/// The text that is spelled up to the first `"` that isn't behind a `\`, and what stands after that `"`.
fn text_at(alloc: Global, bytes: &[u8]) -> Result<Option<(Vec<u8>, &[u8])>, Memory>
    ensures found { IfOk result (λ found. IfSome found (λ t.
        bytes.now ≡ flat_map byte_spelling t.0.items ++ 34 ∷ t.1.now)) }
    ensures none { IfOk result (λ found. IfNone found ((text rest : List ℕ) →
        bytes.now ≢ flat_map byte_spelling text ++ 34 ∷ rest)) }
{
    let mut text = Vec::new(alloc);
    let mut rest = bytes;
    while let Some((byte, after)) = text_byte_at(rest) {
        text.push(byte)?;
        rest = after;
    }
    match after_quote(rest) {
        Some(after) => Ok(Some((text, after))),
        None => Ok(None),
    }
}

/// What stands after the `"` at the front.
fn after_quote(bytes: &[u8]) -> Option<&[u8]>
    ensures found { IfSome result (λ after. bytes.now ≡ 34 ∷ after.now) }
    ensures none { IfNone result ((after : List ℕ) → bytes.now ≢ 34 ∷ after) }
{
    match bytes {
        [b'"', after @ ..] => Some(after),
        _ => None,
    }
}

/// The byte of a text that is spelled at the front, and what stands after its spelling.
fn text_byte_at(bytes: &[u8]) -> Option<(u8, &[u8])>
    ensures found { IfSome result (λ b. bytes.now ≡ byte_spelling b.0 ++ b.1.now) }
    ensures none { IfNone result ((byte : ℕ) (rest : List ℕ) → bytes.now ≢ byte_spelling byte ++ rest) }
{
    match bytes {
        [b'"', ..] => None,
        [b'\\', byte @ (b'"' | b'\\'), after @ ..] => Some((*byte, after)),
        [b'\\', ..] => None,
        [byte, after @ ..] => Some((*byte, after)),
        [] => None,
    }
}
