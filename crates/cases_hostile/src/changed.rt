//! Logs of which some bytes are others: what the project's loading and the plain reader make of them.

use crate::logs::{Logs, Reading, Why, read_logs};
use crate::runs::{empty, run_each};
use crate::table::Held;
use anyhow::{Context, Result, bail};
use case_text::draw::Draw;
use folder::{Folder, LoadRefusal};
use mem_outside::MemStore;
use std::alloc::Global;

/// The root, and the file with the log in use.
#[derive(Drop)]
struct Recorded {
    root: Vec<u8>,
    file: u64,
    log: Vec<u8>,
}

impl Recorded {
    fn of(alloc: Global, file: u64, store: &MemStore) -> Result<Recorded> {
        Ok(Recorded {
            root: Vec::from_slice(alloc, store.bytes(0))?,
            file,
            log: Vec::from_slice(alloc, store.bytes(file))?,
        })
    }

    fn logs(&self) -> Logs<'_> {
        Logs {
            root: &self.root,
            file: self.file,
            log: &self.log,
        }
    }

    // These logs with one to three bytes changed, one in sixteen of them in the root.
    fn changed(&self, alloc: Global, draw: &mut Draw) -> Result<Recorded> {
        let mut root = Vec::from_slice(alloc, &self.root)?;
        let mut log = Vec::from_slice(alloc, &self.log)?;
        for _ in 0..=draw.below(3) {
            match draw.below(16) {
                0 => change(draw, &mut root),
                _ => change(draw, &mut log),
            }
        }
        Ok(Recorded {
            root,
            file: self.file,
            log,
        })
    }
}

// Makes one of the bytes one more, one less, or any other.
fn change(draw: &mut Draw, bytes: &mut [u8]) {
    let place = draw.below(bytes.len() as u64) as usize;
    let by = match draw.below(4) {
        0 => 1,
        1 => 255,
        _ => draw.below(255).saturating_add(1),
    };
    if let Some(byte) = bytes.get_mut(place) {
        *byte = byte.wrapping_add((by & 0xFF) as u8);
    }
}

/// How often logs are read in each way.
#[derive(Clone, Copy, Default)]
struct Tally {
    loaded: u64,
    /// With as many commands as the logs that weren't changed.
    whole: u64,
    no_log: u64,
    no_number: u64,
    no_change: u64,
    misfit: u64,
}

impl Tally {
    fn count(&mut self, reading: Reading, whole: Reading) {
        let count = match reading {
            Reading::Loaded(_) => &mut self.loaded,
            Reading::Stops { why, .. } => match why {
                Why::NoLog => &mut self.no_log,
                Why::NoNumber => &mut self.no_number,
                Why::NoChange => &mut self.no_change,
                Why::Misfit => &mut self.misfit,
            },
        };
        *count = count.saturating_add(1);
        if ticks(reading) == ticks(whole) {
            self.whole = self.whole.saturating_add(1);
        }
    }
}

fn ticks(reading: Reading) -> Option<u64> {
    match reading {
        Reading::Loaded(held) => Some(held.tick),
        Reading::Stops { .. } => None,
    }
}

/// How often the logs that runs leave are loaded, and where reading them stops else, where one to three bytes are
/// changed: `COUNT SEED FILE RUNS`, so many times, drawn from the seed, of the root and this file. In each case the
/// catalogue holds what the plain reader makes of the logs, or loading stops where that does.
pub fn changed(alloc: Global, arguments: &str) -> Result<String> {
    let (count, arguments) = arguments.split_once(' ').context("no seed")?;
    let (seed, arguments) = arguments.split_once(' ').context("no file")?;
    let (file, runs) = arguments.split_once(' ').context("no runs")?;
    let (count, seed) = (count.parse::<u64>()?, seed.parse::<u64>()?);
    let recorded = record(alloc, file.parse::<u64>()?, runs)?;
    told(alloc, count, seed, &recorded)
}

fn record(alloc: Global, file: u64, runs: &str) -> Result<Recorded> {
    let mut store = empty(alloc);
    record_in(alloc, file, runs, &mut store)
}

fn record_in(alloc: Global, file: u64, runs: &str, store: &mut MemStore) -> Result<Recorded> {
    run_each(alloc, runs, store)?;
    Recorded::of(alloc, file, store)
}

fn told(alloc: Global, count: u64, seed: u64, recorded: &Recorded) -> Result<String> {
    let len = recorded.log.len();
    let Tally {
        loaded,
        whole,
        no_log,
        no_number,
        no_change,
        misfit,
    } = tallied(alloc, count, Draw::new(seed), recorded)?;
    Ok(format!(in alloc;
        "{len} bytes: {loaded} loaded, {whole} of them with each command; no log {no_log}, no number {no_number}, no change {no_change}, misfit {misfit}"
    )?)
}

fn tallied(alloc: Global, count: u64, mut draw: Draw, recorded: &Recorded) -> Result<Tally> {
    let whole = same_reading(alloc, recorded)?;
    let mut tally = Tally::default();
    for number in 0..count {
        match changed_reading(alloc, recorded, &mut draw) {
            Ok(reading) => tally.count(reading, whole),
            Err(error) => bail!("logs {number}: {error}"),
        }
    }
    Ok(tally)
}

fn changed_reading(alloc: Global, recorded: &Recorded, draw: &mut Draw) -> Result<Reading> {
    let changed = recorded.changed(alloc, draw)?;
    same_reading(alloc, &changed)
}

// What the logs are read as, by the plain reader and by loading. It is an error that they differ.
fn same_reading(alloc: Global, recorded: &Recorded) -> Result<Reading> {
    let plain = read_logs(alloc, &recorded.logs())?;
    let loaded = loading(alloc, recorded)?;
    let are_same = match (plain, loaded) {
        (Reading::Loaded(held), Ok(other)) => held == other,
        (Reading::Stops { file, at, .. }, Err(place)) => place == (file, at),
        _ => false,
    };
    if !are_same {
        bail!("loaded as another folder than the plain reader's");
    }
    Ok(plain)
}

// What the catalogue of a loaded folder holds, or the file and the byte where loading stops.
fn loading(alloc: Global, recorded: &Recorded) -> Result<Result<Held, (u64, u64)>> {
    let mut store = empty(alloc);
    loading_of(alloc, recorded, &mut store)
}

fn loading_of(
    alloc: Global,
    recorded: &Recorded,
    store: &mut MemStore,
) -> Result<Result<Held, (u64, u64)>> {
    store.put(0, &recorded.root)?;
    store.put(recorded.file, &recorded.log)?;
    match Folder::load(alloc, store) {
        Ok(folder) => Ok(Ok(held_by(&folder))),
        Err(LoadRefusal::NotAStore { file, at }) => Ok(Err((file, at))),
        Err(refusal) => Err(refusal.into()),
    }
}

fn held_by(folder: &Folder) -> Held {
    let catalog = folder.catalog();
    let mut uses = 0u64;
    for entry in catalog.entries() {
        uses = uses.saturating_add(u64::from(entry.uses));
    }
    Held {
        tick: u64::from(catalog.tick()),
        next_file: catalog.next_file(),
        next_id: catalog.next_id(),
        streams: catalog.streams().len() as u64,
        extents: catalog.extent_count() as u64,
        programs: catalog.programs().len() as u64,
        results: catalog.entries().len() as u64,
        uses,
    }
}
