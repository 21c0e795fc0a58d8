//! The index of kept results.
ghost use Rattle.std.specs.Prelude.{◌≡◌, ◌+◌, ℕ, List, [], ◌∷◌, ◌++◌, length, IfOk, OnOk, OnErr};
ghost use Rattle.std.specs.List.{filter};
ghost use Rattle.rows_core.specs.declared.file_ref.Digest.{Digest};
ghost use Rattle.catalog_types.specs.PlainEntry.{PlainEntry};
ghost use Rattle.cache_index.specs.Asked.{is_asked};
ghost use Rattle.cache_index.specs.Ids.{left_of};
ghost use Rattle.cache_index.specs.Index.{of_program, under, HasRoom, IsIndexOf, IsSearchable};
ghost use Rattle.cache_index.specs.Lists.{added, others};

use crate::indexed::IndexedView;
use crate::lists::IdLists;
use catalog_types::Entry;
use rows_core::{Digest, Memory};
use std::alloc::Global;

/// The ids of kept results by their digests: by the program key, which is the digest of a plan's spelling, and
/// by the program-and-data key. It holds no plans.
#[derive(Drop)]
pub struct CacheIndex {
    programs: IdLists,
    keys: IdLists,
}

impl CacheIndex {
    /// No ids. It takes no memory.
    pub fn new(alloc: Global) -> CacheIndex
        ensures programs { (program : Digest) → of_program result program ≡ [] }
        ensures keys { (key : Digest) → under result key ≡ [] }
    {
        CacheIndex {
            programs: IdLists::new(alloc),
            keys: IdLists::new(alloc),
        }
    }

    /// The index of these entries. `Memory` where it is refused.
    pub fn of(alloc: Global, entries: &[Entry]) -> Result<CacheIndex, Memory>
        ensures { IfOk result (λ index. IsIndexOf entries.now index) }
    {
        let mut index = CacheIndex::new(alloc);
        for entry in entries {
            index.insert(entry)?;
        }
        Ok(index)
    }

    /// The ids with this program key, in the order of insertion. It takes no memory.
    pub fn of_program(&self, program: &Digest) -> &[u32]
        ensures { result.now ≡ of_program self.now program.now }
    {
        self.programs.under(program)
    }

    /// The ids with this program-and-data key, in the order of insertion. It takes no memory.
    pub fn under(&self, key: &Digest) -> &[u32]
        ensures { result.now ≡ under self.now key.now }
    {
        self.keys.under(key)
    }

    /// Takes the memory for so many entries more. `Memory` where it is refused. The ids stay in each case.
    pub fn reserve(&mut self, more: usize) -> Result<(), Memory>
        ensures programs { (program : Digest) → of_program self.new program ≡ of_program self.old program }
        ensures keys { (key : Digest) → under self.new key ≡ under self.old key }
        ensures index { (entries : List PlainEntry) → IsIndexOf entries self.old
            → IsIndexOf entries self.new }
        ensures room { OnOk result (HasRoom more self.new) }
    {
        self.programs.reserve(more)?;
        self.keys.reserve(more)?;
        Ok(())
    }

    /// Puts the id of this entry behind the others. `Memory` where it is refused; the ids stay then.
    pub fn insert(&mut self, entry: &Entry) -> Result<(), Memory>
        ensures programs { OnOk result ((program : Digest) → of_program self.new program
            ≡ of_program self.old program ++ added entry.now.program entry.now.id program) }
        ensures keys { OnOk result ((key : Digest) → under self.new key
            ≡ under self.old key ++ added entry.now.key entry.now.id key) }
        ensures programs_stay { OnErr result ((program : Digest)
            → of_program self.new program ≡ of_program self.old program) }
        ensures keys_stay { OnErr result ((key : Digest) → under self.new key ≡ under self.old key) }
    {
        self.reserve(1)?;
        self.insert_reserved(entry);
        Ok(())
    }

    /// Puts the id of this entry behind the others. It takes no memory.
    pub fn insert_reserved(&mut self, entry: &Entry)
        requires { HasRoom 1 self.old }
        ensures programs { (program : Digest) → of_program self.new program
            ≡ of_program self.old program ++ added entry.now.program entry.now.id program }
        ensures keys { (key : Digest) → under self.new key
            ≡ under self.old key ++ added entry.now.key entry.now.id key }
        ensures room { (more : ℕ) → HasRoom (more + 1) self.old → HasRoom more self.new }
    {
        self.programs.insert(entry.program, entry.id);
        self.keys.insert(entry.key, entry.id);
    }

    /// Puts the ids of these entries behind the others, in their order. It takes no memory.
    pub fn insert_all_reserved(&mut self, entries: &[Entry])
        requires { HasRoom (length entries.now) self.old }
        ensures { (before : List PlainEntry) → IsIndexOf before self.old
            → IsIndexOf (before ++ entries.now) self.new }
    {
        for entry in entries {
            self.insert_reserved(entry);
        }
    }

    /// Takes out this id. It takes no memory.
    pub fn remove(&mut self, id: u32)
        ensures programs { (program : Digest) → of_program self.new program
            ≡ others (id ∷ []) (of_program self.old program) }
        ensures keys { (key : Digest) → under self.new key ≡ others (id ∷ []) (under self.old key) }
        ensures room { (more : ℕ) → HasRoom more self.old → HasRoom more self.new }
    {
        self.remove_all(&[id]);
    }

    /// Takes out these ids. It takes no memory.
    pub fn remove_all(&mut self, ids: &[u32])
        ensures programs { (program : Digest) → of_program self.new program
            ≡ others ids.now (of_program self.old program) }
        ensures keys { (key : Digest) → under self.new key ≡ others ids.now (under self.old key) }
        ensures index { (entries : List PlainEntry) → IsIndexOf entries self.old
            → IsIndexOf (left_of ids.now entries) self.new }
        ensures room { (more : ℕ) → HasRoom more self.old → HasRoom more self.new }
    {
        self.programs.remove(ids);
        self.keys.remove(ids);
    }

    /// The entries, which this is the index of, but those whose ids are in `without`, for look-ups. It takes no
    /// memory.
    pub fn over<'a>(&'a self, entries: &'a [Entry], without: &'a [u32]) -> IndexedView<'a>
        requires { IsSearchable entries.now self.now }
        ensures { result ≡ filter (is_asked without.now) entries.now }
    {
        IndexedView::new(self, entries, without)
    }
}
