//! The lengths of extent files.
ghost use Rattle.std.specs.Prelude.{◌≡◌, ◌<◌, ◌≤◌, length, slice_index};
ghost use Rattle.estimator.specs.Bytes.{Lengths, lengths_at, interval_bytes, capped};

use rows_core::Cut;

/// What tells how long extent files are.
pub trait Sizes {
    // The lengths of each stream's extents, in bytes.
    ghost lengths: { Self → Lengths };

    /// The length in bytes of the file of an extent that is there; streams and extents are counted from 0.
    fn extent_len(&self, stream: u32, number: u32) -> u64
        requires { number < length (lengths_at (lengths self.now) stream) }
        ensures { result ≡ slice_index (lengths_at (lengths self.now) stream) number };
}

// The bytes of a stream's extents in an interval, cut at the greatest u64.
pub(crate) fn interval_bytes<Z: Sizes>(stream: u32, cut: Cut, sizes: &Z) -> u64
    requires within { cut.from ≤ cut.to }
    requires there { cut.to ≤ length (lengths_at (Z.lengths sizes.now) stream) }
    ensures { result ≡ capped (interval_bytes (lengths_at (Z.lengths sizes.now) stream) cut) }
{
    let mut bytes: u64 = 0;
    for number in cut.from..cut.to {
        bytes = bytes.saturating_add(sizes.extent_len(stream, number));
    }
    bytes
}
