//! The table in memory.
ghost use Rattle.std.specs.Prelude.{◌≡◌, ◌↔◌, false, map, IsTrue};
ghost use Rattle.entry_table.specs.Tables.{kept_of};
ghost use Rattle.catalog_core.specs.IsTable.{IsTable, IsTable-prop};
ghost use Rattle.catalog_core.specs.Programs.{kinds_of_streams};
ghost use Rattle.catalog_core.specs.Streams.{name_of, states_of};
ghost use Rattle.catalog_core.specs.Table.{table_with, extent_count};

use crate::columns::are_schema;
use crate::own_files::files_in;
use crate::program::is_program;
use crate::programs::{has_room_for, make_room_to_store, program_named, store_any};
use crate::refusal::CatalogRefusal;
use crate::restored_streams::RestoredStreams;
use crate::restoring::{are_numbers, are_programs, restored_results};
use crate::results::{are_over, make_room_for_results};
use crate::schemas::with_stream;
use crate::snapshot::copy_streams;
use crate::stored::{StoredPlan, stored_plan};
use crate::stream::CatalogStream;
use cache_index::IndexedView;
use catalog_types::{
    Change, Entry, Extent, NewEntry, Program, Snapshot, copy_entries, copy_programs,
};
use entry_table::EntryTable;
use indexmap::IndexSet;
use plan_core::Schemas;
use rows_core::limits::{
    FILE_END, MAX_ALL_EXTENTS, MAX_EXTENT_BYTES, MAX_EXTENTS, MAX_STREAMS, MAX_TICKS,
};
use rows_core::{Column, Memory, Name, Schema, Seq};
use std::alloc::Global;
use std::mem;

/// The table, and room for the change that it was last prepared for.
#[derive(Drop)]
pub struct Catalog {
    tick: u32,
    next_file: u64,
    /// In the order of making.
    streams: Vec<CatalogStream>,
    /// The names of the streams, in the same order.
    names: IndexSet<Name>,
    /// The kinds of the columns of each stream, in the same order.
    schemas: Schemas,
    /// The extents of all streams.
    extents: usize,
    /// In the byte order of names.
    programs: Vec<Program>,
    /// The kept results.
    kept: EntryTable,
    /// The name of the stream that is to be made next, for `names`.
    spare_name: Option<Name>,
    /// The kinds with those of that stream, for `schemas`.
    spare_schemas: Option<Schemas>,
    alloc: Global,
    ghost named: { names.keys ≡ map name_of streams.items },
    ghost kinds: { schemas.kinds ≡ kinds_of_streams (states_of streams.items) },
    ghost counted: { extents ≡ extent_count (states_of streams.items) },
    ghost sound: { IsTable (table_with tick next_file (kept_of kept).next_id
        (states_of streams.items) programs.items (kept_of kept).entries) } by { IsTable-prop
            (table_with tick next_file (kept_of kept).next_id
            (states_of streams.items) programs.items (kept_of kept).entries) },
}

impl Catalog {
    ghost use Rattle.std.specs.Prelude.{◌<◌, IfSome, IfOk, OnOk, IsErrOf, length, option_copied, ◌==◌};
    ghost use Rattle.std.specs.List.{AllByRecursion, find};
    ghost use Rattle.plan_spelling.specs.Spelling.{HasPlanSpelling};
    ghost use Rattle.rewrite_core.specs.Entries.{AreSound};
    ghost use Rattle.cache_index.specs.Asked.{entry, asked};
    ghost use Rattle.catalog_types.specs.declared.change.Change.TheVariants as change;
    ghost use Rattle.catalog_core.specs.Catalogs.{table_of, HasRoom, HasRoomForStream, HasRoomAt};
    ghost use Rattle.catalog_core.specs.Catalogs.{HasRoomForWork, AreSpelled, IsReady};
    ghost use Rattle.catalog_core.specs.OwnFiles.{files_in};
    ghost use Rattle.catalog_core.specs.Programs.{names_of, columns_of};
    ghost use Rattle.catalog_core.specs.Stored.{GoesBy};
    ghost use Rattle.catalog_core.specs.Streams as stream;
    ghost use Rattle.catalog_core.specs.Table.{empty_table, place_of, Fits, FitsStream};
    ghost use Rattle.rows_core.specs.Limits.{most_ticks};
    ghost use Rattle.catalog_core.specs.Table.{FitsAppend, IsNextExtent, HasPlaceForExtent, FitsProgram};
    ghost use Rattle.catalog_core.specs.Table.{FitsResults, FitsWork, FitsCollection, after, with_tick};
    ghost use Rattle.catalog_core.specs.Table.{FitsCheckpoint, is_checkpoint, keyed};

    /// The empty table.
    pub fn new(alloc: Global) -> Catalog
        ensures { table_of result ≡ empty_table }
    {
        Catalog {
            tick: 0,
            next_file: 1,
            streams: Vec::new(alloc),
            names: IndexSet::new(alloc),
            schemas: Schemas {
                kinds: Seq::new(Vec::new(alloc)),
            },
            extents: 0,
            programs: Vec::new(alloc),
            kept: EntryTable::new(alloc),
            spare_name: None,
            spare_schemas: None,
            alloc,
        }
    }

    /// The catalogue that a checkpoint tells. The keys of its kept results are made anew from their plans and
    /// cuts. `Misfit` exactly where it doesn't fit the empty table, else `Memory` where memory was asked for and
    /// refused.
    pub fn restored(alloc: Global, whole: Snapshot) -> Result<Catalog, CatalogRefusal>
        ensures table { IfOk result (λ catalog. table_of catalog ≡ keyed whole) }
        ensures fits { OnOk result (FitsCheckpoint whole empty_table) }
        ensures misfit { IsErrOf result CatalogRefusal.Misfit → FitsCheckpoint whole empty_table → ⊥ }
    {
        if !are_numbers(whole.next_file, whole.next_id) {
            return Err(CatalogRefusal::Misfit);
        }
        let Some(mut restored) = RestoredStreams::new(alloc, whole.streams)? else {
            return Err(CatalogRefusal::Misfit);
        };
        restored.know_chains(alloc, whole.entries.items())?;
        let streams = restored.streams.as_slice();
        if !are_programs(alloc, streams, &restored.schemas, whole.programs.items())? {
            return Err(CatalogRefusal::Misfit);
        }
        let (tick, next_file, next_id) = (whole.tick, whole.next_file, whole.next_id);
        let Some(kept) = restored_results(
            alloc,
            tick,
            next_file,
            next_id,
            &restored,
            whole.entries,
        )?
        else {
            return Err(CatalogRefusal::Misfit);
        };
        Ok(Catalog {
            tick,
            next_file,
            streams: restored.streams,
            names: restored.names,
            schemas: restored.schemas,
            extents: restored.extents,
            programs: whole.programs.into_vec(),
            kept,
            spare_name: None,
            spare_schemas: None,
            alloc,
        })
    }

    /// How many commands were recorded.
    pub fn tick(&self) -> u32
        ensures { result ≡ (table_of self.now).tick }
    {
        self.tick
    }

    /// The number of the next extent or result file.
    pub fn next_file(&self) -> u64
        ensures { result ≡ (table_of self.now).next_file }
    {
        self.next_file
    }

    /// The id of the next kept result.
    pub fn next_id(&self) -> u64
        ensures { result ≡ (table_of self.now).next_id }
    {
        self.kept.next_id()
    }

    /// The streams in the order of making.
    pub fn streams(&self) -> &[CatalogStream]
        ensures states { states_of result.now ≡ (table_of self.now).streams }
        ensures names { map name_of result.now ≡ names_of (table_of self.now).streams }
        ensures columns { map stream.columns_of result.now ≡ columns_of (table_of self.now).streams }
        ensures table { IsTable (table_of self.now) }
    {
        self.streams.as_slice()
    }

    /// The extents of all streams. They are counted as extents come, and not anew.
    pub fn extent_count(&self) -> usize
        ensures { result ≡ extent_count (table_of self.now).streams }
    {
        self.extents
    }

    /// The programs in the byte order of their names.
    pub fn programs(&self) -> &[Program]
        ensures { result.now ≡ (table_of self.now).programs }
    {
        self.programs.as_slice()
    }

    /// The plan that goes by a name, with its typing, and the extents of its last run. `None` exactly where no
    /// program has the name.
    pub fn stored_plan(&self, alloc: Global, name: &Name) -> Result<Option<StoredPlan>, Memory>
        ensures { IfOk result (GoesBy (table_of self.now) name.now) }
    {
        match program_named(self.programs.as_slice(), name) {
            Some(program) => {
                let streams = self.streams.as_slice();
                Ok(Some(stored_plan(alloc, streams, &self.schemas, program)?))
            }
            None => Ok(None),
        }
    }

    /// The kept results by their ids.
    pub fn entries(&self) -> &[Entry]
        ensures entries { result.now ≡ (table_of self.now).entries }
        ensures table { IsTable (table_of self.now) }
    {
        self.kept.entries()
    }

    /// The numbers of the files of all extents and kept results, those of extents first.
    pub fn files(&self, alloc: Global) -> Result<Vec<u64>, Memory>
        ensures { IfOk result (λ files. files.items
            ≡ files_in (table_of self.now).streams (table_of self.now).entries) }
    {
        files_in(alloc, self.streams.as_slice(), self.kept.entries())
    }

    /// The kept result with this id, which is found by a binary search.
    pub fn entry(&self, id: u32) -> Option<&Entry>
        ensures { option_copied result ≡ find (λ e. e.id == id) (table_of self.now).entries }
    {
        self.kept.find(id)
    }

    /// The kept results but those of these ids, for look-ups, which ask only those with the plan's program key.
    pub fn results<'a>(&'a self, left_out: &'a [u32]) -> IndexedView<'a>
        ensures entries { map entry result ≡ asked left_out.now (table_of self.now).entries }
        ensures sound { AreSound (asked left_out.now (table_of self.now).entries) }
    {
        self.kept.results(left_out)
    }

    /// The kinds of the columns of each stream. They are kept as streams come, and not made anew.
    pub fn schemas(&self) -> &Schemas
        ensures { result.now.kinds ≡ kinds_of_streams (table_of self.now).streams }
    {
        &self.schemas
    }

    /// The place of the stream with this name, which is found by an index of the names.
    pub fn place_of(&self, name: &Name) -> Option<usize>
        ensures place { result ≡ place_of (table_of self.now).streams name.now }
        ensures bound { IfSome result (λ place. place < length (table_of self.now).streams) }
    {
        self.names.get_index_of(name)
    }

    /// A copy of the table.
    pub fn snapshot(&self, alloc: Global) -> Result<Snapshot, Memory>
        ensures { IfOk result (λ snapshot. snapshot ≡ table_of self.now) }
    {
        Ok(Snapshot {
            tick: self.tick,
            next_file: self.next_file,
            next_id: self.kept.next_id(),
            streams: copy_streams(alloc, self.streams.as_slice())?,
            programs: copy_programs(alloc, self.programs.as_slice())?,
            entries: copy_entries(alloc, self.kept.entries())?,
        })
    }

    /// Takes all the memory that the change wants, which is no checkpoint. `Misfit` exactly where the change
    /// doesn't fit, else `Memory` where memory was asked for and refused. The table stays in each case.
    pub fn prepare(&mut self, change: &Change) -> Result<(), CatalogRefusal>
        requires { is_checkpoint change.now ≡ false }
        ensures same { table_of self.new ≡ table_of self.old }
        ensures ready { OnOk result (IsReady self.new change.now) }
        ensures fits { OnOk result (Fits change.now (table_of self.old)) }
        ensures misfit { IsErrOf result CatalogRefusal.Misfit → Fits change.now (table_of self.old) → ⊥ }
    {
        if !self.fits(change)? {
            return Err(CatalogRefusal::Misfit);
        }
        self.make_room(change)?;
        Ok(())
    }

    // Whether the change fits. The plans of the results of work that fits have spellings.
    fn fits(&self, change: &Change) -> Result<bool, Memory>
        requires { is_checkpoint change.now ≡ false }
        ensures fits { IfOk result (λ fits. IsTrue fits ↔ Fits change.now (table_of self.now)) }
        ensures spelled { IfOk result (λ fits. IsTrue fits → AreSpelled change.now) }
    {
        match change {
            Change::Stream { name, columns } => Ok(self.fits_stream(name, columns.items())),
            Change::Append { stream, extent } => Ok(self.fits_append(*stream, extent)),
            Change::Work {
                program,
                reads,
                dropped,
                kept,
            } => self.fits_work(program, reads.items(), dropped.items(), kept.items()),
            Change::Collect { ids } => Ok(self.fits_collection(ids.items())),
            Change::Checkpoint { .. } => unreachable!(),
        }
    }

    fn fits_stream(&self, name: &Name, columns: &[Column]) -> bool
        ensures { IsTrue result ↔ FitsStream name.now columns.now (table_of self.now) }
    {
        self.tick < MAX_TICKS
            && are_schema(columns)
            && self.place_of(name).is_none()
            && self.streams.len() < MAX_STREAMS
    }

    fn fits_append(&self, place: u32, extent: &Extent) -> bool
        ensures { IsTrue result ↔ FitsAppend place extent.now (table_of self.now) }
    {
        self.tick < MAX_TICKS
            && self.is_next_extent(extent)
            && self.has_place_for_extent(place)
            && self.extents < MAX_ALL_EXTENTS
    }

    // Whether the extent is the next file, has a row and is short enough.
    fn is_next_extent(&self, extent: &Extent) -> bool
        ensures { IsTrue result ↔ IsNextExtent extent.now (table_of self.now) }
    {
        extent.file.file == self.next_file
            && self.next_file < FILE_END
            && 0 < extent.rows
            && extent.file.len <= MAX_EXTENT_BYTES
    }

    // Whether the stream is there and has fewer extents than it may have.
    fn has_place_for_extent(&self, place: u32) -> bool
        ensures { IsTrue result ↔ HasPlaceForExtent place (table_of self.now).streams }
    {
        match self.streams.get(place as usize) {
            Some(stream) => stream.extents().len() < MAX_EXTENTS,
            None => false,
        }
    }

    fn fits_work(
        &self,
        program: &Option<Program>,
        reads: &[u32],
        dropped: &[u32],
        kept: &[NewEntry],
    ) -> Result<bool, Memory>
        ensures fits { IfOk result (λ fits. IsTrue fits
            ↔ FitsWork program.now reads.now dropped.now kept.now (table_of self.now)) }
        ensures spelled { IfOk result (λ fits. IsTrue fits
            → AllByRecursion (λ new. HasPlanSpelling new.plan) kept.now) }
    {
        if self.tick == MAX_TICKS || !self.fits_results(reads, dropped, kept)? {
            return Ok(false);
        }
        self.fits_program(program)
    }

    // Whether the results of a piece of work fit.
    fn fits_results(
        &self,
        reads: &[u32],
        dropped: &[u32],
        kept: &[NewEntry],
    ) -> Result<bool, Memory>
        ensures fits { IfOk result (λ fits. IsTrue fits
            ↔ FitsResults reads.now dropped.now kept.now (table_of self.now)) }
        ensures spelled { IfOk result (λ fits. IsTrue fits
            → AllByRecursion (λ new. HasPlanSpelling new.plan) kept.now) }
    {
        if !are_over(self.alloc, self.streams.as_slice(), &self.schemas, kept)? {
            return Ok(false);
        }
        self.kept.fits_work(self.next_file, reads, dropped, kept)
    }

    // Whether the program is one over the streams, and there are few enough of them.
    fn fits_program(&self, program: &Option<Program>) -> Result<bool, Memory>
        ensures { IfOk result (λ fits. IsTrue fits ↔ FitsProgram program.now (table_of self.now)) }
    {
        match program {
            Some(program) => Ok(
                has_room_for(self.programs.as_slice(), program)
                    && is_program(self.alloc, self.streams.as_slice(), &self.schemas, program)?,
            ),
            None => Ok(true),
        }
    }

    fn fits_collection(&self, ids: &[u32]) -> bool
        ensures { IsTrue result ↔ FitsCollection ids.now (table_of self.now) }
    {
        self.tick < MAX_TICKS && self.kept.fits_collection(ids)
    }

    // Takes the memory for a change that fits.
    fn make_room(&mut self, change: &Change) -> Result<(), Memory>
        requires fits { Fits change.now (table_of self.old) }
        requires spelled { AreSpelled change.now }
        ensures same { table_of self.new ≡ table_of self.old }
        ensures room { OnOk result (HasRoom change.now self.new) }
    {
        match change {
            Change::Stream { name, columns } => self.make_room_for_stream(name, columns.items()),
            Change::Append { stream, .. } => self.make_room_at(*stream),
            Change::Work { program, kept, .. } => self.make_room_for_work(program, kept.items()),
            Change::Collect { .. } | Change::Checkpoint { .. } => Ok(()),
        }
    }

    fn make_room_for_stream(&mut self, name: &Name, columns: &[Column]) -> Result<(), Memory>
        ensures same { table_of self.new ≡ table_of self.old }
        ensures room { OnOk result (HasRoomForStream name.now columns.now self.new) }
    {
        let name = name.try_copy(self.alloc)?;
        let schemas = with_stream(self.alloc, &self.schemas, columns)?;
        self.names.reserve(1)?;
        self.streams.reserve(1)?;
        self.spare_name = Some(name);
        self.spare_schemas = Some(schemas);
        Ok(())
    }

    fn make_room_at(&mut self, place: u32) -> Result<(), Memory>
        requires { place < length (table_of self.old).streams }
        ensures same { table_of self.new ≡ table_of self.old }
        ensures room { OnOk result (HasRoomAt place self.new) }
    {
        self.streams[place as usize].make_room()
    }

    fn make_room_for_work(
        &mut self,
        program: &Option<Program>,
        kept: &[NewEntry],
    ) -> Result<(), Memory>
        requires { AllByRecursion (λ new. HasPlanSpelling new.plan) kept.now }
        ensures same { table_of self.new ≡ table_of self.old }
        ensures room { OnOk result (HasRoomForWork program.now kept.now self.new) }
    {
        make_room_to_store(&mut self.programs, program)?;
        make_room_for_results(self.alloc, &mut self.streams, &mut self.kept, kept)
    }

    /// Makes the change that it was prepared for. It takes no memory.
    pub fn apply(&mut self, change: Change)
        requires ready { IsReady self.old change }
        requires no_checkpoint { is_checkpoint change ≡ false }
        ensures { table_of self.new ≡ after change (table_of self.old) }
    {
        match change {
            Change::Stream { name, columns } => self.add_stream(name, columns),
            Change::Append { stream, extent } => self.add_extent(stream, extent),
            Change::Work {
                program,
                reads,
                dropped,
                kept,
            } => self.add_work(program, reads.items(), dropped.items(), kept),
            Change::Collect { ids } => self.collect(ids.items()),
            Change::Checkpoint { .. } => unreachable!(),
        }
    }

    fn add_stream(&mut self, name: Name, columns: Seq<Column>)
        requires fits { FitsStream name columns (table_of self.old) }
        requires room { HasRoomForStream name columns self.old }
        ensures { table_of self.new ≡ after (change.Stream name columns) (table_of self.old) }
    {
        let schema = match Schema::new(columns.into_vec()) {
            Ok(schema) => schema,
            Err(_) => unreachable!(),
        };
        match mem::replace(&mut self.spare_name, None) {
            Some(name) => match self.names.insert(name) {
                Ok(_) => {}
                Err(_) => unreachable!(),
            },
            None => unreachable!(),
        }
        match mem::replace(&mut self.spare_schemas, None) {
            Some(schemas) => self.schemas = schemas,
            None => unreachable!(),
        }
        self.streams
            .push_reserved(CatalogStream::new(self.alloc, name, schema));
        self.add_tick();
    }

    fn add_extent(&mut self, place: u32, extent: Extent)
        requires fits { FitsAppend place extent (table_of self.old) }
        requires room { HasRoomAt place self.old }
        ensures { table_of self.new ≡ after (change.Append place extent) (table_of self.old) }
    {
        self.streams[place as usize].push(extent);
        self.extents += 1;
        self.next_file += 1;
        self.add_tick();
    }

    fn add_work(
        &mut self,
        program: Option<Program>,
        reads: &[u32],
        dropped: &[u32],
        kept: Seq<NewEntry>,
    )
        requires fits { FitsWork program reads.now dropped.now kept (table_of self.old) }
        requires room { HasRoomForWork program kept self.old }
        ensures { table_of self.new
            ≡ after (change.Work program reads.now dropped.now kept) (table_of self.old) }
    {
        let count = kept.items().len() as u64;
        self.tick += 1;
        store_any(&mut self.programs, program);
        self.kept.apply_work(self.tick, reads, dropped, kept);
        self.next_file += count;
    }

    fn collect(&mut self, ids: &[u32])
        requires { FitsCollection ids.now (table_of self.old) }
        ensures { table_of self.new ≡ after (change.Collect ids.now) (table_of self.old) }
    {
        self.tick += 1;
        self.kept.apply_collection(ids);
    }

    fn add_tick(&mut self)
        requires { (table_of self.old).tick < most_ticks }
        ensures { table_of self.new ≡ with_tick (table_of self.old) }
    {
        self.tick += 1;
    }
}
