//! Runs on an empty folder in which calls on the outside fail.

use crate::runs::outcome_over;
use crate::watched::WatchedStore;
use anyhow::Result;
use mem_outside::{MemSink, MemSource, MemStore};
use nectar_top::Exit;
use std::alloc::Global;

/// Which calls on the outside fail, by their numbers, from 0.
#[derive(Clone, Copy)]
pub enum Failing {
    /// The store's from this one on.
    StoreFrom(u64),
    /// This one of the store, and no other.
    Store(u64),
    /// This read of the source, of which each gives at most `piece` bytes.
    Read { call: u64, piece: usize },
    /// This write of the sink, where the source gives a byte a read.
    Write(u64),
}

impl Failing {
    /// A folder without files, of whose calls these fail.
    pub fn folder(self, alloc: Global) -> Result<WatchedStore> {
        let fails = match self {
            Failing::Store(call) => vec![in alloc; call]?,
            _ => Vec::new(alloc),
        };
        let mut store = MemStore::new(alloc, fails);
        if let Failing::StoreFrom(call) = self {
            store.fail_from(call);
        }
        Ok(WatchedStore::new(store))
    }

    /// The exit of a run over the folder in which these calls of the source and the sink fail, and its answers.
    pub fn outcome(
        self,
        alloc: Global,
        script: &[u8],
        folder: &mut WatchedStore,
    ) -> Result<(Exit, Vec<u8>)> {
        let script = Vec::from_slice(alloc, script)?;
        let fails = match self {
            Failing::Read { call, .. } | Failing::Write(call) => vec![in alloc; call]?,
            _ => Vec::new(alloc),
        };
        let (source, sink) = match self {
            Failing::Read { piece, .. } => (
                MemSource::new(script, piece.max(1), fails),
                MemSink::new(alloc, Vec::new(alloc)),
            ),
            Failing::Write(_) => (
                MemSource::new(script, 1, Vec::new(alloc)),
                MemSink::new(alloc, fails),
            ),
            _ => (
                MemSource::new(script, usize::MAX, fails),
                MemSink::new(alloc, Vec::new(alloc)),
            ),
        };
        outcome_over(alloc, source, sink, folder)
    }
}
