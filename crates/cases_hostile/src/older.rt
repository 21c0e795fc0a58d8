//! Folders as an earlier program left them: their loading makes them new, and may be stopped at each call.

use crate::failing::Failing;
use crate::folders::put_all;
use crate::runs::{answers, done, empty, image};
use crate::watched::WatchedStore;
use anyhow::{Context, Result, bail};
use case_text::{script, shown};
use mem_outside::MemStore;
use std::alloc::Global;

/// The most calls that a run is tried with.
const MAX_CALLS: u64 = 1_000;

/// How many images `MemStore` makes of a moment.
const IMAGES: u64 = 8;

/// The answers of a script that records nothing, over these files, and how many calls it makes of the store. In
/// a run of its own each of them fails, and each behind it: then each image that a crash may leave, and the
/// folder itself, is answered the same.
pub fn older(alloc: Global, arguments: &str) -> Result<String> {
    let (files, text) = arguments.split_once(" : ").context("no script")?;
    let script = script::bytes(alloc, text)?;
    let mut store = empty(alloc);
    put_all(alloc, files, &mut store)?;
    let whole = answers(alloc, text, &mut store)?;
    let stops = Stops {
        alloc,
        files,
        script: &script,
        whole: &whole,
    };
    stops.told()
}

/// Runs over the same files, in each of which the calls of the store fail from one on.
#[derive(Clone, Copy)]
struct Stops<'a> {
    alloc: Global,
    files: &'a str,
    script: &'a [u8],
    whole: &'a [u8],
}

impl Stops<'_> {
    fn told(self) -> Result<String> {
        for call in 0..MAX_CALLS {
            if !self.is_stopped(call)? {
                let answers = shown::lines(self.alloc, self.whole)?;
                return Ok(format!(in self.alloc; "{call} calls: {answers}")?);
            }
        }
        bail!("too many calls")
    }

    // Whether a run makes the call. It and each behind it fail then.
    fn is_stopped(self, call: u64) -> Result<bool> {
        let failing = Failing::StoreFrom(call);
        let mut folder = failing.folder(self.alloc)?;
        self.is_stopped_in(call, failing, &mut folder)
    }

    fn is_stopped_in(self, call: u64, failing: Failing, folder: &mut WatchedStore) -> Result<bool> {
        put_all(self.alloc, self.files, &mut folder.store)?;
        failing.outcome(self.alloc, self.script, folder)?;
        if folder.failed.is_none() {
            return Ok(false);
        }
        for pick in 0..IMAGES {
            self.check(call, &mut image(&folder.store, pick)?)?;
        }
        Ok(true)
    }

    // A folder that a crash left is answered as the whole one.
    fn check(self, call: u64, folder: &mut MemStore) -> Result<()> {
        if done(self.alloc, self.script, folder)?.as_slice() != self.whole {
            bail!("call {call}: another folder than it was");
        }
        Ok(())
    }
}
