//! What is compared of a run.

use crate::performed::Performed;
use crate::runs::{done, empty, image};
use crate::worked::Worked;
use anyhow::{Result, bail};
use mem_outside::MemStore;
use std::alloc::Global;

/// How many images `MemStore` makes of a moment.
const IMAGES: u64 = 8;

/// What a crash at the end of a run may leave: the state after the commands that were performed, and that
/// after the next one.
#[derive(Drop)]
pub struct Left<'a> {
    probe: &'a [u8],
    answered: Vec<u8>,
    longer: Vec<u8>,
}

impl<'a> Left<'a> {
    /// The answers of what was performed are those of an undisturbed run on it, or a front of them.
    pub fn by(alloc: Global, worked: &'a Worked, performed: &Performed) -> Result<Left<'a>> {
        let probe = worked.probe.as_slice();
        let answered = state_after(alloc, probe, &performed.script, &performed.answers)?;
        let longer = state_after(alloc, probe, &performed.longer, &performed.answers)?;
        Ok(Left {
            probe,
            answered,
            longer,
        })
    }

    /// How many of the images have the state after the command that wasn't answered; each other one has that
    /// after those that were.
    pub fn later_images(&self, alloc: Global, store: &MemStore) -> Result<u64> {
        let mut later = 0u64;
        for pick in 0..IMAGES {
            match self.is_later_image(alloc, store, pick) {
                Ok(is_later) => later = later.saturating_add(u64::from(is_later)),
                Err(error) => bail!("image {pick}: {error}"),
            }
        }
        Ok(later)
    }

    fn is_later_image(&self, alloc: Global, store: &MemStore, pick: u64) -> Result<bool> {
        let mut image = image(store, pick)?;
        self.is_later(alloc, &mut image)
    }

    /// Whether the folder has the state after the command that wasn't answered, and another one than after
    /// those that were. It is an error that it has neither state.
    pub fn is_later(&self, alloc: Global, store: &mut MemStore) -> Result<bool> {
        let state = done(alloc, self.probe, store)?;
        if state != self.answered && state != self.longer {
            bail!("the state of no prefix that holds each answer");
        }
        Ok(state != self.answered)
    }
}

// What the probe is answered after an undisturbed run on the script, whose answers begin so.
fn state_after(alloc: Global, probe: &[u8], script: &[u8], begin: &[u8]) -> Result<Vec<u8>> {
    let mut store = empty(alloc);
    state_of(alloc, probe, script, begin, &mut store)
}

fn state_of(
    alloc: Global,
    probe: &[u8],
    script: &[u8],
    begin: &[u8],
    store: &mut MemStore,
) -> Result<Vec<u8>> {
    let answers = done(alloc, script, store)?;
    if !answers.starts_with(begin) {
        bail!("no front of the answers of an undisturbed run");
    }
    done(alloc, probe, store)
}
