//! Worked scripts.

use anyhow::{Context, Result};
use case_text::script;
use std::alloc::Global;

/// The commands of a script, each of which has one answer, and a probe: a script whose answers tell the state
/// of a folder.
#[derive(Drop)]
pub struct Worked {
    pub probe: Vec<u8>,
    pub commands: Vec<Vec<u8>>,
}

impl Worked {
    /// The probe stands in front of ` : `, and behind it the commands, with ` ; ` between them.
    pub fn read(alloc: Global, arguments: &str) -> Result<Worked> {
        let (probe, texts) = arguments.split_once(" : ").context("no commands")?;
        let commands = commands_of(alloc, texts)?;
        let probe = script::bytes(alloc, probe)?;
        Ok(Worked { probe, commands })
    }

    /// The whole script.
    pub fn script(&self, alloc: Global) -> Result<Vec<u8>> {
        let mut script = Vec::new(alloc);
        for command in &self.commands {
            script.extend_from_slice(command)?;
        }
        Ok(script)
    }
}

fn commands_of(alloc: Global, texts: &str) -> Result<Vec<Vec<u8>>> {
    let mut commands = Vec::new(alloc);
    for text in texts.split(" ; ") {
        commands.push(script::bytes(alloc, text)?)?;
    }
    Ok(commands)
}
