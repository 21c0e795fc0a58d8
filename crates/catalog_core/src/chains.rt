//! The chains of the streams.
ghost use Rattle.std.specs.Prelude.{◌≡◌};
ghost use Rattle.catalog_core.specs.Results.{digests_of};
ghost use Rattle.catalog_core.specs.Streams.{states_of};

use crate::stream::CatalogStream;
use entry_table::Chains;
use fingerprints::chain_start;
use plan_core::Plan;
use rows_core::{Cut, Digest, Memory};
use std::alloc::Global;

/// The streams of a catalogue, as what tells their chains.
#[derive(Drop)]
pub(crate) struct StreamChains<'a> {
    streams: &'a [CatalogStream],
}

impl<'a> StreamChains<'a> {
    /// The chains of these streams.
    pub(crate) fn new(streams: &'a [CatalogStream]) -> StreamChains<'a>
        ensures { result.streams.now ≡ streams.now }
    {
        StreamChains { streams }
    }
}

impl<'a> Chains for StreamChains<'a> {
    ghost digests = { λ chains. digests_of (states_of chains.streams.now) };

    fn chain(&self, stream: u32, count: u32) -> Digest {
        match self.streams.get(stream as usize) {
            Some(stream) => stream.chain(count as usize),
            None => chain_start(),
        }
    }
}

/// Makes the chains known that the keys of this plan over these cuts are made of, so that each stream's extents are
/// hashed once however many keys are made. `Memory` where it is refused. The streams stay in each case.
pub(crate) fn know_chains_of(
    alloc: Global,
    streams: &mut Vec<CatalogStream>,
    plan: &Plan,
    cuts: &[Cut],
) -> Result<(), Memory>
    ensures { states_of streams.new.items ≡ states_of streams.old.items }
{
    let leaves = plan.leaves(alloc)?;
    know_chains_at(streams, leaves.as_slice(), cuts)
}

// Makes the chains of each leaf's stream known up to the end of its cut.
fn know_chains_at(
    streams: &mut Vec<CatalogStream>,
    leaves: &[u32],
    cuts: &[Cut],
) -> Result<(), Memory>
    ensures { states_of streams.new.items ≡ states_of streams.old.items }
{
    let [leaf, leaves @ ..] = leaves else {
        return Ok(());
    };
    let [cut, cuts @ ..] = cuts else {
        return Ok(());
    };
    know_chains_to(streams, *leaf, cut.to)?;
    know_chains_at(streams, leaves, cuts)
}

// Makes the chains of the stream with this number known up to this end, where there is one.
fn know_chains_to(streams: &mut Vec<CatalogStream>, stream: u32, end: u32) -> Result<(), Memory>
    ensures { states_of streams.new.items ≡ states_of streams.old.items }
{
    let place = stream as usize;
    if streams.len() <= place {
        return Ok(());
    }
    streams[place].know_chains(end as usize)
}
