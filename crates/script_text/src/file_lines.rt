//! Lines of refusals that name a file of the folder.
ghost use Rattle.std.specs.Prelude.{◌≡◌, ◌∷◌, [], ◌+◌, ◌<◌, ◌≤◌, ◌++◌, length, take, vec_len, vec_capacity};
ghost use Rattle.std.specs.Prelude.{OnOk, OnErr, IsOk, codes, decimal};
ghost use Rattle.hex.specs.Hex.{encode_lower};
ghost use Rattle.script_text.specs.Answer.{printed_line, refusal_line};
ghost use Rattle.script_text.specs.declared.answer.Refusal.TheVariants.{Damaged, Unreadable};

use itoa::Buffer;
use rows_core::{Digest, Memory};

/// Appends the line of a damaged file, with its LF. After want of memory `to` has what it had.
pub fn print_damage(
    file: u64,
    kept: &Digest,
    found: &Digest,
    to: &mut Vec<u8>,
) -> Result<(), Memory>
    ensures printed { OnOk result (to.new.items
        ≡ to.old.items ++ printed_line (refusal_line (Damaged file kept.now found.now))) }
    ensures err { OnErr result (to.new.items ≡ to.old.items) }
    ensures room { vec_len to.old + length (printed_line (refusal_line (Damaged file kept.now found.now)))
        ≤ vec_capacity to.old → IsOk result }
    ensures capacity { vec_capacity to.old ≤ vec_capacity to.new }
{
    let kept = hex_of(kept);
    let found = hex_of(found);
    let mut digits = Buffer::new();
    append_damage(digits.format(file).as_bytes(), kept, found, to)
}

// Appends the line of a damaged file of this number, of which these are the digests, or nothing.
fn append_damage(
    number: &[u8],
    kept: [u8; 64],
    found: [u8; 64],
    to: &mut Vec<u8>,
) -> Result<(), Memory>
    ensures printed { OnOk result (to.new.items ≡ to.old.items ++ (codes "refused damaged "
        ++ (number.now ++ 32 ∷ (kept ++ 32 ∷ (found ++ 10 ∷ []))))) }
    ensures err { OnErr result (to.new.items ≡ to.old.items) }
    ensures room { vec_len to.old + (length number.now + 147) ≤ vec_capacity to.old → IsOk result }
    ensures capacity { vec_capacity to.old ≤ vec_capacity to.new }
{
    to.try_reserve(number.len() + 147)?;
    to.extend_from_slice(b"refused damaged ")?;
    append_ended(number, b' ', to)?;
    append_ended(&kept, b' ', to)?;
    append_ended(&found, b'\n', to)?;
    Ok(())
}

// Appends the text and the byte behind it, or nothing.
fn append_ended(text: &[u8], end: u8, to: &mut Vec<u8>) -> Result<(), Memory>
    ensures printed { OnOk result (to.new.items ≡ to.old.items ++ (text.now ++ end ∷ [])) }
    ensures len { OnOk result (vec_len to.new ≡ vec_len to.old + (length text.now + 1)) }
    ensures err { OnErr result (to.new.items ≡ to.old.items) }
    ensures room { vec_len to.old + (length text.now + 1) ≤ vec_capacity to.old → IsOk result }
    ensures capacity { vec_capacity to.old ≤ vec_capacity to.new }
{
    to.try_reserve(text.len() + 1)?;
    to.extend_from_slice(text)?;
    to.push(end)?;
    Ok(())
}

/// Appends the line of a file that can't be read, with its LF. After want of memory `to` has what it had.
pub fn print_place(file: u64, at: u64, to: &mut Vec<u8>) -> Result<(), Memory>
    ensures printed { OnOk result (to.new.items
        ≡ to.old.items ++ printed_line (refusal_line (Unreadable file at))) }
    ensures err { OnErr result (to.new.items ≡ to.old.items) }
    ensures room { vec_len to.old + length (printed_line (refusal_line (Unreadable file at)))
        ≤ vec_capacity to.old → IsOk result }
    ensures capacity { vec_capacity to.old ≤ vec_capacity to.new }
{
    let mut file_digits = Buffer::new();
    let mut place_digits = Buffer::new();
    let number = file_digits.format(file).as_bytes();
    let place = place_digits.format(at).as_bytes();
    to.try_reserve(number.len() + place.len() + 21)?;
    to.extend_from_slice(b"refused unreadable ")?;
    to.extend_from_slice(number)?;
    to.push(b' ')?;
    to.extend_from_slice(place)?;
    to.push(b'\n')?;
    Ok(())
}

/// The digest in 64 hexadecimal digits.
pub fn hex_of(digest: &Digest) -> [u8; 64]
    ensures text { result ≡ encode_lower digest.now.bytes }
    ensures len { length (encode_lower digest.now.bytes) ≡ 64 }
{
    let mut text = [0; 64];
    match hex::encode_to_slice(digest.bytes, &mut text) {
        Ok(()) => text,
        Err(_) => unreachable!(),
    }
}
