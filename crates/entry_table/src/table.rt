//! The table.
ghost use Rattle.std.specs.Prelude.{◌≡◌, ◌↔◌, ◌+◌, ◌≤◌, length, IsTrue, IfOk, OnOk};
ghost use Rattle.std.specs.List.{AllByRecursion};
ghost use Rattle.plan_spelling.specs.Spelling.{HasPlanSpelling};
ghost use Rattle.cache_index.specs.Index.{IsIndexOf, IsIndexOf-prop};
ghost use Rattle.entry_table.specs.AreKept.{AreKept, AreKept-prop};
ghost use Rattle.entry_table.specs.Work.{kept_with};

use crate::ids::{are_ids_of, are_own_ids_of};
use crate::keys::{Chains, Keys};
use crate::restoring::{are_kept, put_keys};
use crate::results::may_be_kept;
use crate::uses::{add_entries, add_uses, drop_entries};
use cache_index::{CacheIndex, IndexedView, entry_of};
use catalog_types::{Entry, NewEntry};
use rows_core::{Memory, Seq};
use std::alloc::Global;
use std::mem;

/// The kept results by their ids, and room for the work that the table was last prepared for.
#[derive(Drop)]
pub struct EntryTable {
    /// The id of the next entry. Ids aren't used again.
    next_id: u64,
    /// By their ids.
    entries: Vec<Entry>,
    /// The keys of the results that are to be kept next.
    spare_keys: Vec<Keys>,
    /// Of the entries.
    index: CacheIndex,
    alloc: Global,
    ghost sound: { AreKept (kept_with next_id entries.items) } by { AreKept-prop (kept_with next_id
        entries.items) },
    ghost indexed: { IsIndexOf entries.items index } by { IsIndexOf-prop entries.items index },
}

impl EntryTable {
    ghost use Rattle.std.specs.Prelude.{option_copied, ◌==◌, None, map, IfSome};
    ghost use Rattle.std.specs.List.{filter, find};
    ghost use Rattle.cache_index.specs.Asked.{is_asked};
    ghost use Rattle.entry_table.specs.Keyed.{Digests, IsOfItsPlan, keys_of, with_keys};
    ghost use Rattle.entry_table.specs.Results.{AreNew, IsShort};
    ghost use Rattle.entry_table.specs.Work.{FitsWork, FitsCollection, after_work, after_collection};
    ghost use Rattle.entry_table.specs.Work.{none_kept};
    ghost use Rattle.entry_table.specs.Tables.{kept_of, HasRoom, HasKeys};

    /// No entries. It takes no memory.
    pub fn new(alloc: Global) -> EntryTable
        ensures { kept_of result ≡ none_kept }
    {
        EntryTable {
            next_id: 1,
            entries: Vec::new(alloc),
            spare_keys: Vec::new(alloc),
            index: CacheIndex::new(alloc),
            alloc,
        }
    }

    /// The table of these entries with the keys of their plans and cuts over these chains, whatever keys they
    /// come with. `None` exactly where they can't be those of a table with this next id: the ids don't ascend
    /// from 1 on below the next one, two have the same plan and cut, there are more than the most, or one
    /// wasn't used, has no machine time, or a file or a plan's spelling that is too long. `Memory` where that
    /// is refused.
    pub fn restored<C: Chains>(
        alloc: Global,
        chains: &C,
        next_id: u64,
        entries: Seq<Entry>,
    ) -> Result<Option<EntryTable>, Memory>
        requires { AllByRecursion (λ e. HasPlanSpelling e.plan) entries }
        ensures some { IfOk result (λ restored. IfSome restored (λ table. kept_of table
            ≡ kept_with next_id (map (with_keys (C.digests chains.now)) entries))) }
        ensures none { IfOk result (λ restored. restored ≡ None
            → AreKept (kept_with next_id (map (with_keys (C.digests chains.now)) entries)) → ⊥) }
    {
        let mut entries = entries.into_vec();
        if !are_kept(alloc, next_id, entries.as_slice())? {
            return Ok(None);
        }
        put_keys(alloc, chains, &mut entries)?;
        let index = CacheIndex::of(alloc, entries.as_slice())?;
        Ok(Some(EntryTable {
            next_id,
            entries,
            spare_keys: Vec::new(alloc),
            index,
            alloc,
        }))
    }

    /// The entries by their ids.
    pub fn entries(&self) -> &[Entry]
        ensures entries { result.now ≡ (kept_of self.now).entries }
        ensures kept { AreKept (kept_of self.now) }
    {
        self.entries.as_slice()
    }

    /// How many entries there are.
    pub fn len(&self) -> usize
        ensures { result ≡ length (kept_of self.now).entries }
    {
        self.entries.len()
    }

    /// The id of the next entry.
    pub fn next_id(&self) -> u64
        ensures { result ≡ (kept_of self.now).next_id }
    {
        self.next_id
    }

    /// The entry with this id, which is found by a binary search.
    pub fn find(&self, id: u32) -> Option<&Entry>
        ensures { option_copied result ≡ find (λ e. e.id == id) (kept_of self.now).entries }
    {
        entry_of(self.entries.as_slice(), id)
    }

    /// The entries but those whose ids are in `left_out`, for look-ups by plan and cut, which ask only the
    /// entries with the plan's program key. It takes no memory.
    pub fn results<'a>(&'a self, left_out: &'a [u32]) -> IndexedView<'a>
        requires { AllByRecursion IsOfItsPlan (kept_of self.now).entries }
        ensures { result ≡ filter (is_asked left_out.now) (kept_of self.now).entries }
    {
        self.index.over(self.entries.as_slice(), left_out)
    }

    /// Whether a piece of work fits: it reads entries with these ids, drops some, also of those that it reads, and
    /// keeps these results, whose files begin with the next one. `Memory` where that for a plan's spelling is refused. The
    /// entries have the program keys of their plans, so only plans whose keys are the same are compared.
    pub fn fits_work(
        &self,
        next_file: u64,
        reads: &[u32],
        dropped: &[u32],
        kept: &[NewEntry],
    ) -> Result<bool, Memory>
        requires spelled { AllByRecursion (λ new. HasPlanSpelling new.plan) kept.now }
        requires keyed { AllByRecursion IsOfItsPlan (kept_of self.now).entries }
        ensures { IfOk result (λ fits. IsTrue fits
            ↔ FitsWork next_file reads.now dropped.now kept.now (kept_of self.now)) }
    {
        let entries = self.entries.as_slice();
        if !are_ids_of(entries, reads) || !are_ids_of(entries, dropped) {
            return Ok(false);
        }
        may_be_kept(self.alloc, entries, dropped, next_file, kept)
    }

    /// Takes all the memory that keeping these results wants: room for them, and their keys. `Memory` where
    /// it is refused. The entries stay in each case.
    pub fn prepare_work<C: Chains>(&mut self, chains: &C, kept: &[NewEntry]) -> Result<(), Memory>
        requires { AllByRecursion (λ new. HasPlanSpelling new.plan) kept.now }
        ensures same { kept_of self.new ≡ kept_of self.old }
        ensures room { OnOk result (HasRoom kept.now self.new) }
        ensures keys { OnOk result (HasKeys (C.digests chains.now) kept.now self.new) }
    {
        let keys = Keys::of_each(self.alloc, chains, kept)?;
        self.entries.reserve(kept.len())?;
        self.index.reserve(kept.len())?;
        self.spare_keys = keys;
        Ok(())
    }

    /// Does the work that it was prepared for, as the command of this tick. It takes no memory.
    pub fn apply_work(&mut self, tick: u32, reads: &[u32], dropped: &[u32], kept: Seq<NewEntry>)
        requires room { HasRoom kept self.old }
        requires new { AreNew (kept_of self.old).entries dropped.now kept }
        requires short { AllByRecursion IsShort kept }
        requires ids { (kept_of self.old).next_id + length kept ≤ 4294967296 }
        ensures { (digests : Digests) → HasKeys digests kept self.old → kept_of self.new
            ≡ after_work digests tick reads.now dropped.now kept (kept_of self.old) }
    {
        let kept = kept.into_vec();
        let count = kept.len() as u64;
        let keys = mem::replace(&mut self.spare_keys, Vec::new(self.alloc));
        drop_entries(&mut self.entries, dropped);
        self.index.remove_all(dropped);
        add_uses(&mut self.entries, tick, reads);
        let old = self.entries.len();
        add_entries(&mut self.entries, tick, self.next_id, &keys, kept);
        self.index.insert_all_reserved(&self.entries[old..]);
        self.next_id += count;
    }

    /// Whether a collection of these ids fits: they are of entries, each once, in any order.
    pub fn fits_collection(&self, ids: &[u32]) -> bool
        ensures { IsTrue result ↔ FitsCollection ids.now (kept_of self.now) }
    {
        are_own_ids_of(self.entries.as_slice(), ids)
    }

    /// Takes out the entries with these ids. It takes no memory.
    pub fn apply_collection(&mut self, ids: &[u32])
        ensures { kept_of self.new ≡ after_collection ids.now (kept_of self.old) }
    {
        drop_entries(&mut self.entries, ids);
        self.index.remove_all(ids);
    }
}
