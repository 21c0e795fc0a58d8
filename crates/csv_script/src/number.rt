//! Numbers in decimal.
ghost use Rattle.std.specs.Prelude.{◌≡◌, ◌≢◌, ◌↔◌, ℤ, FitsSigned, IsTrue, IsFalse, IfSome, IfNone};
ghost use Rattle.std.specs.Int.{w64};
ghost use Rattle.std.specs.Fmt.{signed_decimal};

use itoa::Buffer;

/// The number that is spelled so.
pub fn number_of(bytes: &[u8]) -> Option<i64>
    ensures found { IfSome result (λ number. bytes.now ≡ signed_decimal number) }
    ensures none { IfNone result ((number : ℤ) → FitsSigned w64 number → bytes.now ≢ signed_decimal number) }
{
    let Ok(text) = std::str::from_utf8(bytes) else {
        return None;
    };
    let Ok(number) = text.parse::<i64>() else {
        return None;
    };
    if is_spelling_of(bytes, number) {
        Some(number)
    } else {
        None
    }
}

fn is_spelling_of(bytes: &[u8], number: i64) -> bool
    ensures { IsTrue result ↔ (bytes.now ≡ signed_decimal number) }
{
    Buffer::new().format(number).as_bytes() == bytes
}
