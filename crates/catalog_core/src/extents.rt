//! The extents of streams.
ghost use Rattle.std.specs.Prelude.{◌≡◌};
ghost use Rattle.catalog_core.specs.Programs.{extents_at};
ghost use Rattle.catalog_core.specs.Streams.{states_of};

use crate::stream::CatalogStream;
use catalog_types::Extent;

/// The extents of the stream at this place, in the order of appending; none where no stream is there.
pub(crate) fn extents_at(streams: &[CatalogStream], place: u32) -> &[Extent]
    ensures { result.now ≡ extents_at (states_of streams.now) place }
{
    match streams.get(place as usize) {
        Some(stream) => stream.extents(),
        None => &[],
    }
}
