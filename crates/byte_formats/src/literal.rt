//! Fixed bytes.
ghost use Rattle.std.specs.Prelude.{◌≡◌};
ghost use Rattle.byte_formats.specs.Reading.{Gives, literal_at};

use crate::unread::Unread;

/// What stands behind the expected bytes.
pub fn after_literal<'a>(expected: &[u8], bytes: &'a [u8]) -> Result<&'a [u8], Unread>
    ensures { Gives (λ rest. rest.now) result (literal_at expected.now bytes.now) }
{
    let [first, expected @ ..] = expected else {
        return Ok(bytes);
    };
    match bytes {
        [] => Err(Unread::Left(0)),
        [byte, rest @ ..] => {
            if byte == first {
                after_literal(expected, rest)
            } else {
                Err(Unread::Left(bytes.len()))
            }
        }
    }
}
