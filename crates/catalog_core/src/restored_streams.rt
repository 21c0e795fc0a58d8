//! The streams of a checkpoint.
ghost use Rattle.std.specs.Prelude.{◌≡◌, ◌≤◌, true, false, None, map, length, IfOk, IfSome};
ghost use Rattle.std.specs.List.{AllByRecursion};
ghost use Rattle.catalog_core.specs.IsTable.{IsStream};
ghost use Rattle.catalog_core.specs.Programs.{names_of, kinds_of_streams};
ghost use Rattle.catalog_core.specs.Streams.{name_of, states_of};
ghost use Rattle.catalog_core.specs.Table.{extent_count};
ghost use Rattle.rows_core.specs.Limits.{most_streams};
ghost use Rattle.plan_binder.specs.Binding.{has_repeat};

use crate::chains::know_chains_of;
use crate::schemas::kinds_of;
use crate::stream::CatalogStream;
use catalog_types::{Entry, StreamState};
use indexmap::IndexSet;
use plan_binder::Stream;
use plan_core::Schemas;
use rows_core::limits::{MAX_ALL_EXTENTS, MAX_STREAMS};
use rows_core::{Memory, Name, Seq};
use std::alloc::Global;

/// The streams of a checkpoint in memory, with the index of their names, their kinds and the number of their
/// extents.
#[derive(Drop)]
pub(crate) struct RestoredStreams {
    /// In the order of making.
    pub(crate) streams: Vec<CatalogStream>,
    /// The names of the streams, in the same order.
    pub(crate) names: IndexSet<Name>,
    /// The kinds of the columns of each stream, in the same order.
    pub(crate) schemas: Schemas,
    /// The extents of all streams.
    pub(crate) extents: usize,
    ghost named: { names.keys ≡ map name_of streams.items },
    ghost kinds: { schemas.kinds ≡ kinds_of_streams (states_of streams.items) },
    ghost counted: { extents ≡ extent_count (states_of streams.items) },
}

impl RestoredStreams {
    ghost use Rattle.catalog_core.specs.Restoring.{AreStreams};

    /// The streams of these states. `None` exactly where two names are the same, a state isn't a stream's, or
    /// there are too many streams or extents.
    pub(crate) fn new(
        alloc: Global,
        states: Seq<StreamState>,
    ) -> Result<Option<RestoredStreams>, Memory>
        ensures some { IfOk result (λ restored.
            IfSome restored (λ r. (states_of r.streams.items ≡ states) × AreStreams states)) }
        ensures none { IfOk result (λ restored. restored ≡ None → AreStreams states → ⊥) }
    {
        if states.items().len() > MAX_STREAMS {
            return Ok(None);
        }
        match restored_each(alloc, states)? {
            Some(streams) => RestoredStreams::of(alloc, streams),
            None => Ok(None),
        }
    }

    // The same of streams that are few enough.
    fn of(alloc: Global, streams: Vec<CatalogStream>) -> Result<Option<RestoredStreams>, Memory>
        requires { length streams.items ≤ most_streams }
        ensures some { IfOk result (λ restored. IfSome restored
            (λ r. (r.streams.items ≡ streams.items) × AreStreams (states_of streams.items))) }
        ensures none { IfOk result (λ restored. restored ≡ None
            → AreStreams (states_of streams.items) → ⊥) }
    {
        let extents = count_extents(streams.as_slice());
        if extents > MAX_ALL_EXTENTS {
            return Ok(None);
        }
        let names = match index_of_names(alloc, streams.as_slice())? {
            Some(names) => names,
            None => return Ok(None),
        };
        Ok(Some(RestoredStreams {
            names,
            schemas: schemas_of(alloc, streams.as_slice())?,
            streams,
            extents,
        }))
    }

    /// Makes the chains known that the keys of these kept results are made of. `Memory` where it is refused. The
    /// streams stay in each case.
    pub(crate) fn know_chains(&mut self, alloc: Global, entries: &[Entry]) -> Result<(), Memory>
        ensures { states_of self.new.streams.items ≡ states_of self.old.streams.items }
    {
        know_chains_of_entries(alloc, &mut self.streams, entries)
    }
}

// Makes the chains known that the keys of these kept results are made of.
fn know_chains_of_entries(
    alloc: Global,
    streams: &mut Vec<CatalogStream>,
    entries: &[Entry],
) -> Result<(), Memory>
    ensures { states_of streams.new.items ≡ states_of streams.old.items }
{
    let mut rest = entries;
    while let [entry, others @ ..] = rest {
        know_chains_of(alloc, streams, &entry.plan, entry.cuts.items())?;
        rest = others;
    }
    Ok(())
}

// The stream of each state, or none where one isn't a stream's.
fn restored_each(
    alloc: Global,
    states: Seq<StreamState>,
) -> Result<Option<Vec<CatalogStream>>, Memory>
    ensures some { IfOk result (λ restored.
        IfSome restored (λ streams. states_of streams.items ≡ states)) }
    ensures none { IfOk result (λ restored. restored ≡ None → AllByRecursion IsStream states → ⊥) }
{
    let mut streams = Vec::with_capacity(alloc, states.items().len())?;
    for state in states.into_vec() {
        match CatalogStream::restored(alloc, state)? {
            Some(stream) => streams.push(stream)?,
            None => return Ok(None),
        }
    }
    Ok(Some(streams))
}

// The extents of all streams.
fn count_extents(streams: &[CatalogStream]) -> usize
    requires { length streams.now ≤ most_streams }
    ensures counted { result ≡ extent_count (states_of streams.now) }
    ensures are { AllByRecursion IsStream (states_of streams.now) }
{
    let mut count = 0;
    for stream in streams {
        count += stream.extents().len();
    }
    count
}

// The names of the streams, or none where two are the same.
fn index_of_names(
    alloc: Global,
    streams: &[CatalogStream],
) -> Result<Option<IndexSet<Name>>, Memory>
    ensures some { IfOk result (λ index. IfSome index (λ names. (names.keys ≡ map name_of streams.now)
        × (has_repeat (names_of (states_of streams.now)) ≡ false))) }
    ensures none { IfOk result (λ index. index ≡ None
        → has_repeat (names_of (states_of streams.now)) ≡ true) }
{
    let mut names = IndexSet::with_capacity(alloc, streams.len())?;
    for stream in streams {
        if !names.insert(stream.name().try_copy(alloc)?)? {
            return Ok(None);
        }
    }
    Ok(Some(names))
}

// The kinds of the columns of each stream.
fn schemas_of(alloc: Global, streams: &[CatalogStream]) -> Result<Schemas, Memory>
    ensures { IfOk result (λ schemas. schemas.kinds ≡ kinds_of_streams (states_of streams.now)) }
{
    let mut kinds = Vec::with_capacity(alloc, streams.len())?;
    for stream in streams {
        kinds.push(kinds_of(alloc, stream.schema().columns())?)?;
    }
    Ok(Schemas {
        kinds: Seq::new(kinds),
    })
}
