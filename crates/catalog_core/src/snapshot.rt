//! Copies of the parts of a table.
ghost use Rattle.std.specs.Prelude.{◌≡◌, IfOk};
ghost use Rattle.catalog_core.specs.Streams.{state_of, states_of};

use crate::stream::CatalogStream;
use catalog_types::StreamState;
use plan_binder::Stream;
use rows_core::{Memory, Seq, copy_columns};
use std::alloc::Global;

pub(crate) fn copy_streams(
    alloc: Global,
    streams: &[CatalogStream],
) -> Result<Seq<StreamState>, Memory>
    ensures { IfOk result (λ copies. copies ≡ states_of streams.now) }
{
    let mut copies = Vec::with_capacity(alloc, streams.len())?;
    for stream in streams {
        copies.push(copy_stream(alloc, stream)?)?;
    }
    Ok(Seq::new(copies))
}

fn copy_stream(alloc: Global, stream: &CatalogStream) -> Result<StreamState, Memory>
    ensures { IfOk result (λ copy. copy ≡ state_of stream.now) }
{
    Ok(StreamState {
        name: stream.name().try_copy(alloc)?,
        columns: Seq::new(copy_columns(alloc, stream.schema().columns())?),
        extents: Seq::new(Vec::from_slice(alloc, stream.extents())?),
    })
}
