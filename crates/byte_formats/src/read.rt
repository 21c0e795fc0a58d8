//! Fields at the front of the bytes, each with the bytes behind it.
ghost use Rattle.std.specs.Prelude.{◌≡◌};
ghost use Rattle.byte_formats.specs.Reading.{Gives};
ghost use Rattle.byte_formats.specs.Format.{byte, flag, u32, u64, i64, digest};

use crate::unread::Unread;
use rows_core::Digest;

pub fn byte_at(bytes: &[u8]) -> Result<(u8, &[u8]), Unread>
    ensures { Gives (λ x. (x.0, x.1.now)) result (byte.read bytes.now) }
{
    match bytes {
        [byte, rest @ ..] => Ok((*byte, rest)),
        [] => Err(Unread::Left(0)),
    }
}

pub fn flag_at(bytes: &[u8]) -> Result<(bool, &[u8]), Unread>
    ensures { Gives (λ x. (x.0, x.1.now)) result (flag.read bytes.now) }
{
    match bytes {
        [0, rest @ ..] => Ok((false, rest)),
        [1, rest @ ..] => Ok((true, rest)),
        [_, ..] => Err(Unread::Left(bytes.len())),
        [] => Err(Unread::Left(0)),
    }
}

pub fn u32_at(bytes: &[u8]) -> Result<(u32, &[u8]), Unread>
    ensures { Gives (λ x. (x.0, x.1.now)) result (u32.read bytes.now) }
{
    let Some((front, rest)) = bytes.split_first_chunk::<4>() else {
        return Err(Unread::Left(0));
    };
    Ok((u32::from_be_bytes(*front), rest))
}

pub fn u64_at(bytes: &[u8]) -> Result<(u64, &[u8]), Unread>
    ensures { Gives (λ x. (x.0, x.1.now)) result (u64.read bytes.now) }
{
    let Some((front, rest)) = bytes.split_first_chunk::<8>() else {
        return Err(Unread::Left(0));
    };
    Ok((u64::from_be_bytes(*front), rest))
}

pub fn i64_at(bytes: &[u8]) -> Result<(i64, &[u8]), Unread>
    ensures { Gives (λ x. (x.0, x.1.now)) result (i64.read bytes.now) }
{
    let (bits, rest) = u64_at(bytes)?;
    Ok((bits.cast_signed(), rest))
}

/// A digest of 32 bytes.
pub fn digest_at(bytes: &[u8]) -> Result<(Digest, &[u8]), Unread>
    ensures { Gives (λ x. (x.0, x.1.now)) result (digest.read bytes.now) }
{
    let Some((front, rest)) = bytes.split_first_chunk::<32>() else {
        return Err(Unread::Left(0));
    };
    Ok((Digest { bytes: *front }, rest))
}
