//! Comparisons of cuts.
ghost use Rattle.std.specs.Prelude.{◌≡◌, ◌↔◌, ◌*◌, ◌≤◌, length, IsTrue};
ghost use Rattle.estimator.specs.Cuts.{AreAtOrBefore, reach};

use rows_core::Cut;

/// Whether the two are equal.
pub fn are_same_cuts(cuts: &[Cut], others: &[Cut]) -> bool
    ensures { IsTrue result ↔ (cuts.now ≡ others.now) }
{
    match (cuts, others) {
        ([], []) => true,
        ([cut, cuts @ ..], [other, others @ ..]) => {
            cut.from == other.from && cut.to == other.to && are_same_cuts(cuts, others)
        }
        _ => false,
    }
}

/// Whether each interval begins and ends at or before the one at its place.
pub fn are_at_or_before(cuts: &[Cut], others: &[Cut]) -> bool
    ensures { IsTrue result ↔ AreAtOrBefore cuts.now others.now }
{
    match cuts {
        [] => matches!(others, []),
        [cut, cuts @ ..] => match others {
            [] => false,
            [other, others @ ..] => {
                cut.from <= other.from && cut.to <= other.to && are_at_or_before(cuts, others)
            }
        },
    }
}

/// The sum of the ends of the intervals.
pub fn reach(cuts: &[Cut]) -> u128
    ensures exact { result ≡ reach cuts.now }
    ensures bound { result ≤ length cuts.now * 4294967295 }
{
    match cuts {
        [] => 0,
        [cut, cuts @ ..] => {
            let _count = cuts.len();
            u128::from(end_of(cut)) + reach(cuts)
        }
    }
}

fn end_of(cut: &Cut) -> u32
    ensures { result ≡ cut.now.to }
{
    cut.to
}
