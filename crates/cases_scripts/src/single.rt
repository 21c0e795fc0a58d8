//! Runs on an empty folder.

use crate::runs::{FOLDER, empty, outcome_on_none, told};
use anyhow::Result;
use case_text::script;
use mem_outside::MemStore;
use nectar_top::nectar;
use outside_traits::{ReaderSource, WriterSink};
use std::alloc::Global;
use std::io;
use std::io::Write;

/// The exit and the answers.
pub fn run(alloc: Global, text: &str) -> Result<String> {
    run_on(alloc, &FOLDER, text)
}

/// The exit and the answers, with the row lines left out.
pub fn quiet(alloc: Global, text: &str) -> Result<String> {
    run_on(alloc, &["folder", "--quiet"], text)
}

/// The exit and what is written of the generated script of this number.
pub fn generate(alloc: Global, number: &str) -> Result<String> {
    run_on(alloc, &["folder", "--generate", number], "")
}

fn run_on(alloc: Global, words: &[&str], text: &str) -> Result<String> {
    let script = script::bytes(alloc, text)?;
    let (exit, answers) = outcome_on_none(alloc, words, &script)?;
    told(alloc, exit, &answers)
}

/// The exit, and how many bytes each line of the answers has, without its LF.
pub fn lengths(alloc: Global, text: &str) -> Result<String> {
    let script = script::bytes(alloc, text)?;
    let (exit, answers) = outcome_on_none(alloc, &FOLDER, &script)?;
    let mut shown = format!(in alloc; "{exit:?}:")?;
    for line in answers.split_inclusive(|byte| *byte == b'\n') {
        let len = line.len().saturating_sub(1);
        shown.push_str(format!(in alloc; " {len}")?.as_str())?;
    }
    Ok(shown)
}

/// The exit and the answers over a reader of std and a writer that takes one byte a write.
pub fn over_std(alloc: Global, text: &str) -> Result<String> {
    let script = script::bytes(alloc, text)?;
    let mut folder = empty(alloc);
    over_std_in(alloc, &script, &mut folder)
}

fn over_std_in(alloc: Global, script: &[u8], folder: &mut MemStore) -> Result<String> {
    let mut source = ReaderSource::new(script);
    let mut writer = ByteByByte {
        taken: Vec::new(alloc),
    };
    let exit = {
        let mut sink = WriterSink::new(&mut writer);
        nectar(alloc, &FOLDER, &mut source, &mut sink, folder)
    };
    told(alloc, exit, &writer.taken)
}

/// The exit on these words, each in `<` and `>`, and how many bytes are written.
pub fn words(alloc: Global, arguments: &str) -> Result<String> {
    let mut words = Vec::new(alloc);
    for word in arguments.split(' ') {
        if !word.is_empty() {
            words.push(word.trim_matches(['<', '>']))?;
        }
    }
    let (exit, answers) = outcome_on_none(alloc, &words, b"run\n")?;
    let count = answers.len();
    Ok(format!(in alloc; "{exit:?}, {count} bytes")?)
}

// Takes one byte a write.
#[derive(Drop)]
struct ByteByByte {
    taken: Vec<u8>,
}

impl Write for ByteByByte {
    fn write(&mut self, buf: &[u8]) -> io::Result<usize> {
        let count = buf.len().min(1);
        self.taken.extend_from_slice(&buf[..count])?;
        Ok(count)
    }

    fn flush(&mut self) -> io::Result<()> {
        Ok(())
    }
}
