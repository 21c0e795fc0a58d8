//! Numbers of places in a plan, by which what is found there is found again. Two places have one number only
//! in plans that are more than forty operators deep, and seldom there.

use rows_core::Cut;

const INPUTS: u64 = 3;

const KEYS: u64 = 0x9E37_79B9_7F4A_7C15;

/// The number of the place of a whole plan.
pub const ROOT: u64 = 0;

/// The number of the only input of the operator at this place, or of its left one.
pub fn first_input(place: u64) -> u64 {
    place.wrapping_mul(INPUTS).wrapping_add(1)
}

/// The number of the right input of the operator at this place.
pub fn second_input(place: u64) -> u64 {
    place.wrapping_mul(INPUTS).wrapping_add(2)
}

/// A number of the place and the cut, which differs from those of others but by chance.
pub fn key(place: u64, cuts: &[Cut]) -> u64 {
    let mut key = place;
    for cut in cuts {
        key = with(with(key, cut.from), cut.to);
    }
    key
}

fn with(key: u64, end: u32) -> u64 {
    (key ^ u64::from(end)).wrapping_mul(KEYS).rotate_left(23)
}
