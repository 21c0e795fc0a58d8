//! Sums that are cut at the greatest u64.
ghost use Rattle.std.specs.Prelude.{◌≡◌, ℕ, ◌+◌};
ghost use Rattle.estimator.specs.Bytes.{capped};

use rewrite_core::Hit;

/// The sum of two that are cut, cut.
pub fn plus(one: u64, other: u64) -> u64
    ensures { (a b : ℕ) → one ≡ capped a → other ≡ capped b → result ≡ capped (a + b) }
{
    one.saturating_add(other)
}

/// The length of a kept result's file.
pub fn file_len(hit: &Hit) -> u64
    ensures { result ≡ capped hit.now.len }
{
    hit.len
}
