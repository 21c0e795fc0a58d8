//! The extents that a plan reads.
ghost use Rattle.std.specs.Prelude.{◌≡◌, ◌≤◌, length};
ghost use Rattle.catalog_core.specs.Programs as table;
ghost use Rattle.catalog_core.specs.Streams.{states_of};

use catalog_core::CatalogStream;
use catalog_types::Extent;

// The extents of the stream with this number.
pub(crate) fn extents_at(streams: &[CatalogStream], leaf: u32) -> &[Extent]
    ensures extents { result.now ≡ table.extents_at (states_of streams.now) leaf }
    ensures few { length result.now ≤ 65535 }
{
    match streams.get(leaf as usize) {
        Some(stream) => stream.extents(),
        None => &[],
    }
}
