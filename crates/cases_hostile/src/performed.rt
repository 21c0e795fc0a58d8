//! What a run performed, as its answers tell it.

use crate::worked::Worked;
use anyhow::{Context, Result};
use std::alloc::Global;
use std::str;

/// The answer to a command whose read of the store failed.
const FAULT: &str = "refused fault\n";

/// The commands whose answers were begun, without those that were refused for a fault.
#[derive(Drop)]
pub struct Performed {
    /// The script of these commands.
    pub script: Vec<u8>,
    /// Their answers.
    pub answers: Vec<u8>,
    /// How many commands were refused for a fault.
    pub refused: u64,
    /// The script with the first command that wasn't answered behind it, where there is one.
    pub longer: Vec<u8>,
}

impl Performed {
    pub fn read(alloc: Global, worked: &Worked, answers: &[u8]) -> Result<Performed> {
        let answers = str::from_utf8(answers)?;
        let mut performed = Performed {
            script: Vec::new(alloc),
            answers: Vec::new(alloc),
            refused: 0,
            longer: Vec::new(alloc),
        };
        performed.take(worked, answers)?;
        Ok(performed)
    }

    fn take(&mut self, worked: &Worked, answers: &str) -> Result<()> {
        let mut lines_left = 0u64;
        let mut commands = worked.commands.iter();
        for line in answers.split_inclusive('\n') {
            if lines_left > 0 {
                lines_left = lines_left.saturating_sub(1);
            } else {
                let command = commands.next().context("more answers than commands")?;
                if line == FAULT {
                    self.refused = self.refused.saturating_add(1);
                    continue;
                }
                self.script.extend_from_slice(command)?;
                lines_left = lines_behind(line.trim_end())?;
            }
            self.answers.extend_from_slice(line.as_bytes())?;
        }
        self.longer.extend_from_slice(&self.script)?;
        if let Some(next) = commands.next() {
            self.longer.extend_from_slice(next)?;
        }
        Ok(())
    }
}

// How many lines an answer has behind its first.
fn lines_behind(first: &str) -> Result<u64> {
    match first.split_once(' ') {
        Some(("rows", count)) => Ok(count.parse::<u64>()?.saturating_add(3)),
        Some(("entries", count)) => Ok(count.parse::<u64>()?),
        Some(("evicted", _)) => Ok(1),
        _ => Ok(0),
    }
}
