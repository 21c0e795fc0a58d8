//! Checkpoints.
ghost use Rattle.std.specs.Prelude.{◌≡◌};
ghost use Rattle.byte_formats.specs.Reading.{Gives};
ghost use Rattle.record_codec.specs.Formats.{list, stream, snapshot};

use crate::entries::entries_at;
use crate::form::Form;
use crate::parts::{columns_at, extents_at};
use crate::programs::programs_at;
use byte_formats::{Unread, items_at, name_at, u32_at, u64_at};
use catalog_types::{Snapshot, StreamState};
use rows_core::Seq;
use std::alloc::Global;

pub fn snapshot_at(alloc: Global, bytes: &[u8], form: Form) -> Result<(Snapshot, &[u8]), Unread>
    ensures { Gives (λ x. (x.0, x.1.now)) result ((snapshot form).read bytes.now) }
{
    let (tick, rest) = u32_at(bytes)?;
    let (next_file, rest) = u64_at(rest)?;
    let (next_id, rest) = u64_at(rest)?;
    let (streams, rest) = streams_at(alloc, rest, form)?;
    let (programs, rest) = programs_at(alloc, rest)?;
    let (entries, rest) = entries_at(alloc, rest)?;
    let whole = Snapshot {
        tick,
        next_file,
        next_id,
        streams,
        programs,
        entries,
    };
    Ok((whole, rest))
}

fn streams_at(alloc: Global, bytes: &[u8], form: Form) -> Result<(Seq<StreamState>, &[u8]), Unread>
    ensures { Gives (λ x. (x.0, x.1.now)) result ((list (stream form)).read bytes.now) }
{
    let (count, rest) = u32_at(bytes)?;
    let (streams, rest) = items_at(
        alloc,
        count as usize,
        rest,
        |bytes| stream_at(alloc, bytes, form),
    )?;
    Ok((Seq::new(streams), rest))
}

fn stream_at(alloc: Global, bytes: &[u8], form: Form) -> Result<(StreamState, &[u8]), Unread>
    ensures { Gives (λ x. (x.0, x.1.now)) result ((stream form).read bytes.now) }
{
    let (name, rest) = name_at(alloc, bytes)?;
    let (columns, rest) = columns_at(alloc, rest, form)?;
    let (extents, rest) = extents_at(alloc, rest)?;
    let stream = StreamState {
        name,
        columns,
        extents,
    };
    Ok((stream, rest))
}
