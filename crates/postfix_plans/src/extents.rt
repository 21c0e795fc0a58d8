//! The lengths of extents in lists.
ghost use Rattle.std.specs.Prelude.{◌≡◌, IsTrue};
ghost use Rattle.estimator.specs.Bytes.{AreInStreams, lengths_at};

use estimator::Sizes;
use rows_core::{Cut, Seq};

/// The lengths of each stream's extents, in bytes.
#[derive(Drop)]
pub struct ExtentLens {
    pub lens: Seq<Seq<u64>>,
}

impl Sizes for ExtentLens {
    ghost lengths = { λ extents. extents.lens };

    fn extent_len(&self, stream: u32, number: u32) -> u64 {
        lens_of(self.lens.items(), stream)[number as usize]
    }
}

/// Whether there is an interval for each leaf, within the extents that are there.
pub fn are_in_streams(lens: &[Seq<u64>], leaves: &[u32], cuts: &[Cut]) -> bool
    ensures { IsTrue result → AreInStreams lens.now leaves.now cuts.now }
{
    match (leaves, cuts) {
        ([], []) => true,
        ([leaf, leaves @ ..], [cut, cuts @ ..]) => {
            let count = lens_of(lens, *leaf).len();
            cut.from <= cut.to && cut.to as usize <= count && are_in_streams(lens, leaves, cuts)
        }
        _ => false,
    }
}

// The lengths of a stream's extents; none where it isn't there.
fn lens_of(lens: &[Seq<u64>], stream: u32) -> &[u64]
    ensures { result.now ≡ lengths_at lens.now stream }
{
    match lens.get(stream as usize) {
        Some(lens) => lens.items(),
        None => &[],
    }
}
