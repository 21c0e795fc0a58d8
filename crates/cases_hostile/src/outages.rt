//! Worked scripts, in whose runs each call on the outside fails in turn.

use crate::checks::Left;
use crate::failing::Failing;
use crate::performed::Performed;
use crate::runs;
use crate::watched::{Call, WatchedStore};
use crate::worked::Worked;
use anyhow::{Context, Result, bail};
use case_text::{script, shown};
use mem_outside::MemStore;
use nectar_top::Exit;
use std::alloc::Global;

/// The most calls that a run is tried with.
const MAX_CALLS: u64 = 5_000;

/// Which calls fail.
#[derive(Clone, Copy)]
pub enum Outage {
    /// A call of the store, and each behind it.
    Stops,
    /// A call of the store, and no other.
    Once,
    /// A read of the source, of which each gives at most so many bytes.
    Reads(usize),
    /// A write of the sink.
    Writes,
}

impl Outage {
    fn failing(self, call: u64) -> Failing {
        match self {
            Outage::Stops => Failing::StoreFrom(call),
            Outage::Once => Failing::Store(call),
            Outage::Reads(piece) => Failing::Read { call, piece },
            Outage::Writes => Failing::Write(call),
        }
    }
}

/// Runs of a worked script on an empty folder, in each of which a call fails.
#[derive(Clone, Copy)]
struct Runs<'a> {
    alloc: Global,
    outage: Outage,
    worked: &'a Worked,
    script: &'a [u8],
}

/// How runs ended, a line each, and how often the folder was later than the answers.
#[derive(Drop)]
struct Tally {
    lines: Vec<String>,
    later: u64,
}

/// How many calls a whole run makes. In a run of its own each of them fails: which call of the store that was
/// and how these runs end, with how many commands are refused for a fault, alike ones counted. Their answers
/// but for those refusals are a front of those of an undisturbed run on the commands that were performed. The
/// folder has the state after these, or after one more that wasn't answered: how often it is the latter, over
/// the images that a crash may leave where the store fails, and else over the files as they read. The images
/// are loaded over each store that fails, and the files as they read where it doesn't go on to fail.
pub fn tell(alloc: Global, outage: Outage, arguments: &str) -> Result<String> {
    let worked = Worked::read(alloc, arguments)?;
    tell_worked(alloc, outage, &worked)
}

fn tell_worked(alloc: Global, outage: Outage, worked: &Worked) -> Result<String> {
    let script = worked.script(alloc)?;
    let runs = Runs {
        alloc,
        outage,
        worked,
        script: &script,
    };
    let mut tally = Tally {
        lines: Vec::new(alloc),
        later: 0,
    };
    runs.told(&mut tally)
}

impl Runs<'_> {
    fn told(self, tally: &mut Tally) -> Result<String> {
        let count = self.count(tally)?;
        let lines = tally.counted(self.alloc)?;
        let later = tally.later;
        Ok(format!(in self.alloc; "{count} calls: {lines}; with one more command: {later}")?)
    }

    // How many calls a whole run makes. In a run of its own each of them fails.
    fn count(self, tally: &mut Tally) -> Result<u64> {
        for call in 0..MAX_CALLS {
            match self.fails(call, tally) {
                Ok(true) => {}
                Ok(false) => return Ok(call),
                Err(error) => bail!("call {call}: {error}"),
            }
        }
        bail!("too many calls")
    }

    // Whether a run makes the call. It fails then.
    fn fails(self, call: u64, tally: &mut Tally) -> Result<bool> {
        let failing = self.outage.failing(call);
        let mut folder = failing.folder(self.alloc)?;
        self.fails_in(failing, &mut folder, tally)
    }

    fn fails_in(
        self,
        failing: Failing,
        folder: &mut WatchedStore,
        tally: &mut Tally,
    ) -> Result<bool> {
        let (exit, answers) = failing.outcome(self.alloc, self.script, folder)?;
        if exit == Exit::Done && folder.failed.is_none() {
            return Ok(false);
        }
        self.take(exit, &answers, folder, tally)?;
        Ok(true)
    }

    // Compares and counts a run.
    fn take(
        self,
        exit: Exit,
        answers: &[u8],
        folder: &mut WatchedStore,
        tally: &mut Tally,
    ) -> Result<()> {
        let performed = Performed::read(self.alloc, self.worked, answers)?;
        self.take_performed(exit, &performed, folder, tally)
    }

    fn take_performed(
        self,
        exit: Exit,
        performed: &Performed,
        folder: &mut WatchedStore,
        tally: &mut Tally,
    ) -> Result<()> {
        let (failed, refused) = (folder.failed, performed.refused);
        self.check_refusals(failed, refused)?;
        let later = self.later(performed, &mut folder.store)?;
        tally.later = tally.later.saturating_add(later);
        tally.lines.push(line(self.alloc, failed, exit, refused)?)?;
        Ok(())
    }

    // Where one call fails, a command is refused for it only where that was a size or a read.
    fn check_refusals(self, failed: Option<Call>, refused: u64) -> Result<()> {
        let most = match (self.outage, failed) {
            (Outage::Stops, _) => u64::MAX,
            (_, Some(Call::Size | Call::Read)) => 1,
            _ => 0,
        };
        if refused > most {
            bail!("{refused} commands refused for a fault");
        }
        Ok(())
    }

    // How often the folder is later than the answers.
    fn later(self, performed: &Performed, store: &mut MemStore) -> Result<u64> {
        let left = Left::by(self.alloc, self.worked, performed)?;
        self.later_than(&left, store)
    }

    fn later_than(self, left: &Left<'_>, store: &mut MemStore) -> Result<u64> {
        match self.outage {
            Outage::Stops => left.later_images(self.alloc, store),
            Outage::Once => {
                let later = left.later_images(self.alloc, store)?;
                left.is_later(self.alloc, store)?;
                Ok(later)
            }
            Outage::Reads(_) | Outage::Writes => {
                Ok(u64::from(left.is_later(self.alloc, store)?))
            }
        }
    }
}

impl Tally {
    // The lines, alike ones counted.
    fn counted(&mut self, alloc: Global) -> Result<String> {
        self.lines.sort()?;
        let mut text = String::new(alloc);
        for line in &self.lines {
            text.push_str(line.as_str())?;
        }
        shown::lines(alloc, text.as_bytes())
    }
}

// The line of a run.
fn line(alloc: Global, failed: Option<Call>, exit: Exit, refused: u64) -> Result<String> {
    let mut line = String::new(alloc);
    if let Some(call) = failed {
        line.push_str(format!(in alloc; "{call:?} ")?.as_str())?;
    }
    line.push_str(format!(in alloc; "{exit:?}")?.as_str())?;
    if refused > 0 {
        line.push_str(format!(in alloc; " with {refused} refused")?.as_str())?;
    }
    line.push('\n')?;
    Ok(line)
}

/// The exit and the answers where the store's call of this number fails, from 0, and no other.
pub fn looks(alloc: Global, arguments: &str) -> Result<String> {
    let (call, text) = arguments.split_once(' ').context("no script")?;
    let failing = Failing::Store(call.parse::<u64>()?);
    let script = script::bytes(alloc, text)?;
    let mut folder = failing.folder(alloc)?;
    looks_in(alloc, &script, failing, &mut folder)
}

fn looks_in(
    alloc: Global,
    script: &[u8],
    failing: Failing,
    folder: &mut WatchedStore,
) -> Result<String> {
    let (exit, answers) = failing.outcome(alloc, script, folder)?;
    runs::told(alloc, exit, &answers)
}
