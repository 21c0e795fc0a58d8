//! Numbers of a range.
ghost use Rattle.std.specs.Prelude.{◌≡◌, ◌≤◌, IfOk, true};
ghost use Rattle.std.specs.Int.{w32, w64, w128};
ghost use Rattle.byte_formats.specs.Reading.{Gives, bounded_at, left_between};

use crate::unread::Unread;

/// A number of 4 bytes from the least to the greatest.
#[tactic(auto, unfolding(crate::specs::Reading::bounded_at))]
pub fn u32_between(low: u32, high: u32, bytes: &[u8]) -> Result<(u32, &[u8]), Unread>
    ensures read { Gives (λ x. (x.0, x.1.now)) result (bounded_at w32 low high bytes.now) }
    ensures bound { IfOk result (λ x. x.0 ≤ high) }
{
    let Some((front, rest)) = bytes.split_first_chunk::<4>() else {
        return Err(outside(&low.to_be_bytes(), &high.to_be_bytes(), bytes));
    };
    let number = u32::from_be_bytes(*front);
    if number < low || high < number {
        return Err(outside(&low.to_be_bytes(), &high.to_be_bytes(), bytes));
    }
    Ok((number, rest))
}

/// A number of 8 bytes from the least to the greatest.
#[tactic(auto, unfolding(crate::specs::Reading::bounded_at))]
pub fn u64_between(low: u64, high: u64, bytes: &[u8]) -> Result<(u64, &[u8]), Unread>
    ensures { Gives (λ x. (x.0, x.1.now)) result (bounded_at w64 low high bytes.now) }
{
    let Some((front, rest)) = bytes.split_first_chunk::<8>() else {
        return Err(outside(&low.to_be_bytes(), &high.to_be_bytes(), bytes));
    };
    let number = u64::from_be_bytes(*front);
    if number < low || high < number {
        return Err(outside(&low.to_be_bytes(), &high.to_be_bytes(), bytes));
    }
    Ok((number, rest))
}

/// A number of 16 bytes from the least to the greatest.
#[tactic(auto, unfolding(crate::specs::Reading::bounded_at))]
pub fn u128_between(low: u128, high: u128, bytes: &[u8]) -> Result<(u128, &[u8]), Unread>
    ensures { Gives (λ x. (x.0, x.1.now)) result (bounded_at w128 low high bytes.now) }
{
    let Some((front, rest)) = bytes.split_first_chunk::<16>() else {
        return Err(outside(&low.to_be_bytes(), &high.to_be_bytes(), bytes));
    };
    let number = u128::from_be_bytes(*front);
    if number < low || high < number {
        return Err(outside(&low.to_be_bytes(), &high.to_be_bytes(), bytes));
    }
    Ok((number, rest))
}

/// Where a number that isn't in the range stops, `low` and `high` being the bytes of the least and the
/// greatest.
fn outside(low: &[u8], high: &[u8], bytes: &[u8]) -> Unread
    ensures { result ≡ Unread.Left (left_between low.now high.now bytes.now true true) }
{
    Unread::Left(left_between(low, high, bytes, true, true))
}

/// How many bytes are left where a number from one to another stops, these being the bytes of the two.
/// `at_low` says that the bytes before were the least number's, and `at_high` that they were the greatest's.
fn left_between(low: &[u8], high: &[u8], bytes: &[u8], at_low: bool, at_high: bool) -> usize
    ensures { result ≡ left_between low.now high.now bytes.now at_low at_high }
{
    let [least, low @ ..] = low else {
        return 0;
    };
    let [greatest, high @ ..] = high else {
        return 0;
    };
    let [byte, rest @ ..] = bytes else {
        return 0;
    };
    if (at_low && byte < least) || (at_high && greatest < byte) {
        return bytes.len();
    }
    left_between(
        low,
        high,
        rest,
        at_low && byte == least,
        at_high && byte == greatest,
    )
}
