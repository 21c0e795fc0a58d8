//! A stream of the catalogue.
ghost use Rattle.std.specs.Prelude.{◌≡◌, ◌+◌, ◌≤◌, ◌*◌, ◌↔◌, ◌++◌, length, take, sum_by, vec_capacity, IfOk, IsTrue};
ghost use Rattle.std.specs.List.{AllByRecursion, AllByRecursion-prop};
ghost use Rattle.fingerprints.specs.Keys.{chain_of, chain_start};
ghost use Rattle.catalog_core.specs.Chains.{chains_after};
ghost use Rattle.catalog_core.specs.IsTable.{IsExtent, IsExtent-prop};
ghost use Rattle.catalog_core.specs.Results.{extent_digests};

use catalog_types::{Extent, StreamState};
use fingerprints::{chain, chain_start};
use plan_binder::Stream;
use rows_core::limits::{MAX_EXTENT_BYTES, MAX_EXTENTS};
use rows_core::{Digest, Memory, Name, Schema};
use std::alloc::Global;

/// A stream: its name, its columns and its extents in the order of appending.
#[derive(Drop)]
pub struct CatalogStream {
    name: Name,
    schema: Schema,
    extents: Vec<Extent>,
    /// The rows of all extents.
    rows: u64,
    /// The chain after each of the first extents, as many as were asked for so far.
    chains: Vec<Digest>,
    ghost counted: { rows ≡ sum_by (λ extent. extent.rows) extents.items },
    ghost few: { length extents.items ≤ 65535 },
    ghost are: { AllByRecursion IsExtent extents.items } by { AllByRecursion-prop IsExtent IsExtent-prop
        extents.items },
    ghost small: { rows ≤ length extents.items * 4294967295 },
    ghost known: { length chains.items ≤ length extents.items },
    ghost chained: { chains.items
        ≡ chains_after chain_start (take (length chains.items) (extent_digests extents.items)) },
}

impl CatalogStream {
    ghost use Rattle.std.specs.Prelude.{◌<◌, None, IfSome, OnOk};
    ghost use Rattle.catalog_core.specs.IsTable.{IsStream};
    ghost use Rattle.catalog_core.specs.Streams.{state_of, HasRoomForExtent, KnowsChains};
    ghost use Rattle.catalog_core.specs.Table.{new_stream, with_extent, row_count};
    ghost use Rattle.rows_core.specs.Limits.{most_extents};

    /// A stream without an extent. It takes no memory.
    pub fn new(alloc: Global, name: Name, schema: Schema) -> CatalogStream
        ensures { state_of result ≡ new_stream name schema }
    {
        CatalogStream {
            name,
            schema,
            extents: Vec::new(alloc),
            rows: 0,
            chains: Vec::new(alloc),
        }
    }

    /// The stream of this state. `None` exactly where it can't be a stream's: its columns aren't a schema, an extent
    /// has no row or is too long, or there are too many. No chain is made.
    pub(crate) fn restored(
        alloc: Global,
        state: StreamState,
    ) -> Result<Option<CatalogStream>, Memory>
        ensures some { IfOk result (λ restored. IfSome restored (λ stream. state_of stream ≡ state)) }
        ensures none { IfOk result (λ restored. restored ≡ None → IsStream state → ⊥) }
    {
        let extents = state.extents.into_vec();
        if extents.len() > MAX_EXTENTS || !are_extents(extents.as_slice()) {
            return Ok(None);
        }
        let schema = match Schema::new(state.columns.into_vec()) {
            Ok(schema) => schema,
            Err(_) => return Ok(None),
        };
        Ok(Some(CatalogStream {
            name: state.name,
            schema,
            rows: count_rows(extents.as_slice()),
            chains: Vec::new(alloc),
            extents,
        }))
    }

    /// The extents in the order of appending.
    pub fn extents(&self) -> &[Extent]
        ensures extents { result.now ≡ (state_of self.now).extents }
        ensures stream { IsStream (state_of self.now) }
    {
        let _ = self.schema.columns();
        self.extents.as_slice()
    }

    /// The rows of all extents. They are counted as extents come, and not anew.
    pub fn rows(&self) -> u64
        ensures { result ≡ row_count (state_of self.now) }
    {
        self.rows
    }

    /// The chain of the first extents, as many as `count`; of all of them where there are fewer. It takes no
    /// memory. Where so many chains aren't known, it goes on from the last one that is, at one SHA-256 for each
    /// extent between.
    pub fn chain(&self, count: usize) -> Digest
        ensures { result
            ≡ chain_of chain_start (take count (extent_digests (state_of self.now).extents)) }
    {
        let known = count.min(self.chains.len());
        let end = count.min(self.extents.len());
        chain_over(self.known_chain(known), &self.extents[known..end])
    }

    // The chain of the first extents, as many as `place`, where it is known.
    fn known_chain(&self, place: usize) -> Digest
        requires { place ≤ length self.now.chains.items }
        ensures { result
            ≡ chain_of chain_start (take place (extent_digests (state_of self.now).extents)) }
    {
        if place == 0 {
            chain_start()
        } else {
            self.chains[place - 1]
        }
    }

    /// Makes the chains of the first extents known, as many as `count`, or of all of them where there are fewer, so
    /// that they aren't made again. `Memory` where it is refused. The stream stays, and its room for an extent.
    pub(crate) fn know_chains(&mut self, count: usize) -> Result<(), Memory>
        ensures same { state_of self.new ≡ state_of self.old }
        ensures room { HasRoomForExtent self.old → HasRoomForExtent self.new }
        ensures known { OnOk result (KnowsChains count self.new) }
    {
        let known = self.chains.len();
        let end = count.min(self.extents.len());
        if end <= known {
            return Ok(());
        }
        self.chains.reserve(end - known)?;
        let last = self.known_chain(known);
        push_chains(&mut self.chains, last, &self.extents[known..end]);
        Ok(())
    }

    /// Takes the memory for one more extent. The stream stays.
    pub fn make_room(&mut self) -> Result<(), Memory>
        ensures same { state_of self.new ≡ state_of self.old }
        ensures room { OnOk result (HasRoomForExtent self.new) }
    {
        self.extents.reserve(1)?;
        Ok(())
    }

    /// Puts an extent behind the others. It takes no memory. No chain is made.
    pub fn push(&mut self, extent: Extent)
        requires room { HasRoomForExtent self.old }
        requires few { length (state_of self.old).extents < most_extents }
        requires is_extent { IsExtent extent }
        ensures { state_of self.new ≡ with_extent extent (state_of self.old) }
    {
        self.extents.push_reserved(extent);
        self.rows += u64::from(extent.rows);
    }
}

impl Stream for CatalogStream {
    ghost name_of = { λ stream. stream.name };

    ghost columns_of = { λ stream. stream.schema };

    fn name(&self) -> &Name {
        &self.name
    }

    fn schema(&self) -> &Schema {
        &self.schema
    }
}

// Whether each has a row, and a file that is short enough.
fn are_extents(extents: &[Extent]) -> bool
    ensures { IsTrue result ↔ AllByRecursion IsExtent extents.now }
{
    for extent in extents {
        if !is_extent(extent) {
            return false;
        }
    }
    true
}

fn is_extent(extent: &Extent) -> bool
    ensures { IsTrue result ↔ IsExtent extent.now }
{
    0 < extent.rows && extent.file.len <= MAX_EXTENT_BYTES
}

// The rows of all extents.
fn count_rows(extents: &[Extent]) -> u64
    requires { length extents.now ≤ 65535 }
    ensures counted { result ≡ sum_by (λ extent. extent.rows) extents.now }
    ensures small { result ≤ length extents.now * 4294967295 }
{
    let mut rows = 0;
    for extent in extents {
        rows += u64::from(extent.rows);
    }
    rows
}

// The chain after these extents, where it was this before them.
fn chain_over(before: Digest, extents: &[Extent]) -> Digest
    ensures { result ≡ chain_of before (extent_digests extents.now) }
{
    let mut last = before;
    let mut rest = extents;
    while let [extent, others @ ..] = rest {
        last = chain(&last, &extent.file.digest);
        rest = others;
    }
    last
}

// Puts the chain after each of these extents behind the others, where it was this before them.
fn push_chains(chains: &mut Vec<Digest>, before: Digest, extents: &[Extent])
    requires { length chains.old.items + length extents.now ≤ vec_capacity chains.old }
    ensures { chains.new.items ≡ chains.old.items ++ chains_after before (extent_digests extents.now) }
{
    let mut last = before;
    let mut rest = extents;
    while let [extent, others @ ..] = rest {
        let next = chain(&last, &extent.file.digest);
        chains.push_reserved(next);
        last = next;
        rest = others;
    }
}
