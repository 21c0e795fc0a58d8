//! Ids under digests.
ghost use Rattle.std.specs.Prelude.{◌≡◌, ◌+◌, ◌==◌, ℕ, [], ◌++◌, length, not, vec_capacity, IfOk, OnOk};
ghost use Rattle.std.specs.List.{All};
ghost use Rattle.indexmap.specs.IndexMap.{spare};
ghost use Rattle.rows_core.specs.declared.file_ref.Digest.{Digest};
ghost use Rattle.cache_index.specs.Lists.{ids_in, ids_under, added, others};
ghost use Rattle.cache_index.specs.Lists.{HavePlaces, IsSpare, HasRoom};

use indexmap::IndexMap;
use rows_core::{Digest, Memory};
use std::alloc::Global;

/// Lists of ids by digests, and room for ids that come next.
#[derive(Drop)]
pub struct IdLists {
    lists: IndexMap<Digest, Vec<u32>>,
    /// For digests that have no list.
    spare: Vec<Vec<u32>>,
    alloc: Global,
}

impl IdLists {
    /// No ids. It takes no memory.
    pub(crate) fn new(alloc: Global) -> IdLists
        ensures { (digest : Digest) → ids_under result digest ≡ [] }
    {
        IdLists {
            lists: IndexMap::new(alloc),
            spare: Vec::new(alloc),
            alloc,
        }
    }

    /// The ids under this digest, in the order of insertion.
    pub(crate) fn under(&self, digest: &Digest) -> &[u32]
        ensures { result.now ≡ ids_under self.now digest.now }
    {
        match self.lists.get(digest) {
            Some(ids) => ids.as_slice(),
            None => &[],
        }
    }

    /// Takes the memory for so many ids more. `Memory` where it is refused. The ids stay in each case.
    pub(crate) fn reserve(&mut self, more: usize) -> Result<(), Memory>
        ensures same { (digest : Digest) → ids_under self.new digest ≡ ids_under self.old digest }
        ensures room { OnOk result (HasRoom more self.new) }
    {
        self.lists.reserve(more)?;
        reserve_each(&mut self.lists, more)?;
        self.spare = spare_lists(self.alloc, more)?;
        Ok(())
    }

    /// Puts an id behind those under this digest. It takes no memory.
    pub(crate) fn insert(&mut self, digest: Digest, id: u32)
        requires { HasRoom 1 self.old }
        ensures ids { (other : Digest) → ids_under self.new other
            ≡ ids_under self.old other ++ added digest id other }
        ensures room { (more : ℕ) → HasRoom (more + 1) self.old → HasRoom more self.new }
    {
        if let Some(ids) = self.lists.get_mut(&digest) {
            ids.push_reserved(id);
            return;
        }
        let Some(mut ids) = self.spare.pop() else {
            unreachable!();
        };
        ids.push_reserved(id);
        match self.lists.insert(digest, ids) {
            Ok(_) => {}
            Err(_) => unreachable!(),
        }
    }

    /// Takes out these ids, wherever they stand. It takes no memory.
    pub(crate) fn remove(&mut self, ids: &[u32])
        ensures ids { (digest : Digest) → ids_under self.new digest
            ≡ others ids.now (ids_under self.old digest) }
        ensures room { (more : ℕ) → HasRoom more self.old → HasRoom more self.new }
    {
        if self.lists.len() == 0 {
            return;
        }
        self.lists.retain(|_, list| keep_others(list, ids));
    }
}

// Takes out these ids, and tells whether there are others.
fn keep_others(list: &mut Vec<u32>, ids: &[u32]) -> bool
    ensures others { list.new.items ≡ others ids.now list.old.items }
    ensures some { result ≡ not (length list.new.items == 0) }
    ensures room { vec_capacity list.new ≡ vec_capacity list.old }
{
    list.retain(|id| !ids.contains(id));
    !list.is_empty()
}

// Takes the memory for so many ids more under each digest.
fn reserve_each(lists: &mut IndexMap<Digest, Vec<u32>>, more: usize) -> Result<(), Memory>
    ensures same { (digest : Digest) → ids_in lists.new digest ≡ ids_in lists.old digest }
    ensures spare { spare lists.new ≡ spare lists.old }
    ensures room { OnOk result (HavePlaces more lists.new) }
{
    for place in 0..lists.len() {
        lists[place].reserve(more)?;
    }
    Ok(())
}

// So many lists without ids, each with memory for so many ids.
fn spare_lists(alloc: Global, more: usize) -> Result<Vec<Vec<u32>>, Memory>
    ensures count { IfOk result (λ lists. length lists.items ≡ more) }
    ensures each { IfOk result (λ lists. All (IsSpare more) lists.items) }
{
    let mut lists = Vec::with_capacity(alloc, more)?;
    for _ in 0..more {
        lists.push(Vec::with_capacity(alloc, more)?)?;
    }
    Ok(lists)
}
