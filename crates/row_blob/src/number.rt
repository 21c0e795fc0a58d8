//! Numbers.
ghost use Rattle.std.specs.Prelude.{◌≡◌, ◌≤◌, IfOk, if◌then◌else◌, nat_lt, not, slice_index};
ghost use Rattle.std.specs.Int.{w32, w64, w128, to_be_bytes};
ghost use Rattle.byte_formats.specs.Reading.{Gives, number_at, bounded_at, left_between};
ghost use Rattle.row_blob.specs.Reading.{sum_at, count_at, sum_bound, sum_low, sum_high};

use byte_formats::{Unread, u64_between, u128_between};

/// A sum lies from `-MAX_SUM` to `MAX_SUM`.
const MAX_SUM: u128 = 0x8000_0000_0000_0000_0000_0000;

/// The bits of `-MAX_SUM`.
const MIN_SUM_BITS: u128 = 0xFFFF_FFFF_8000_0000_0000_0000_0000_0000;

/// The greatest count of an accumulator, and the greatest length of a left list.
pub const MAX_COUNT: u64 = 0xFFFF_FFFF;

/// The count of an accumulator.
#[tactic(auto, unfolding(crate::specs::Reading::count_at))]
pub fn count_at(bytes: &[u8]) -> Result<(u64, &[u8]), Unread>
    ensures { Gives (λ x. (x.0, x.1.now)) result (count_at bytes.now) }
{
    u64_between(1, MAX_COUNT, bytes)
}

/// The sum of an accumulator.
#[tactic(auto, unfolding(crate::specs::Reading::sum_at))]
pub fn sum_at(bytes: &[u8]) -> Result<(i128, &[u8]), Unread>
    ensures { Gives (λ x. (x.0, x.1.now)) result (sum_at bytes.now) }
{
    let (bits, rest) = sum_bits_at(bytes)?;
    Ok((bits.cast_signed(), rest))
}

fn sum_bits_at(bytes: &[u8]) -> Result<(u128, &[u8]), Unread>
    ensures { Gives (λ x. (x.0, x.1.now)) result
        (if nat_lt (slice_index bytes.now 0) 128 then bounded_at w128 0 sum_bound bytes.now
        else bounded_at w128 sum_low sum_high bytes.now) }
{
    if is_negative(bytes) {
        negative_bits_at(bytes)
    } else {
        positive_bits_at(bytes)
    }
}

#[tactic(auto, unfolding(crate::specs::Reading::sum_bound))]
fn positive_bits_at(bytes: &[u8]) -> Result<(u128, &[u8]), Unread>
    ensures { Gives (λ x. (x.0, x.1.now)) result (bounded_at w128 0 sum_bound bytes.now) }
{
    u128_between(0, MAX_SUM, bytes)
}

#[tactic(auto, unfolding(crate::specs::Reading::sum_low, crate::specs::Reading::sum_high))]
fn negative_bits_at(bytes: &[u8]) -> Result<(u128, &[u8]), Unread>
    ensures { Gives (λ x. (x.0, x.1.now)) result (bounded_at w128 sum_low sum_high bytes.now) }
{
    u128_between(MIN_SUM_BITS, u128::MAX, bytes)
}

/// Whether the number that begins here is below 0.
fn is_negative(bytes: &[u8]) -> bool
    ensures { result ≡ not (nat_lt (slice_index bytes.now 0) 128) }
{
    match bytes {
        [first, ..] => *first >= 0x80,
        [] => false,
    }
}
