//! The order in which entries go.
ghost use Rattle.std.specs.Prelude.{◌≡◌};
ghost use Rattle.std.specs.Ordering.{MatchOrdering};
ghost use Rattle.collector.specs.Ratio.{CanBeRanked, GoesBefore, HasSameRatio};

use crate::candidate::Candidate;
use catalog_types::Entry;
use std::cmp::Ordering;

/// Which of two entries goes first at the tick `now`: `Less` where `a` does, `Greater` where `b` does, and
/// `Equal` only where both have the same id. The ratio of an entry is the length of its file in bytes times
/// the ticks since its last use, by its uses times its machine time; the greater ratio goes first, and of the
/// same ones the smaller id. Ratios are compared by cross-multiplication in u128, where the products fit: no
/// last use is after `now`, a file has at most 67,108,864 bytes, and no uses or machine time is 0. It takes
/// no memory.
pub fn ratio_cmp(a: &Entry, b: &Entry, now: u32) -> Ordering
    requires a { CanBeRanked now a.now }
    requires b { CanBeRanked now b.now }
    ensures { MatchOrdering result (GoesBefore now a.now b.now)
        (HasSameRatio now a.now b.now × (a.now.id ≡ b.now.id)) (GoesBefore now b.now a.now) }
{
    Candidate::new(a, now).cmp_by_ratio(&Candidate::new(b, now))
}
