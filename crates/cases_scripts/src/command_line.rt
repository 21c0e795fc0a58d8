//! Command lines.

use anyhow::Result;
use command_words::read_words;
use std::alloc::Global;

/// What the words of a command line ask for, which have one space between them; the first is the program's own name.
pub fn read(alloc: Global, line: &str) -> Result<String> {
    let mut words = Vec::new(alloc);
    for word in line.split(' ').skip(1) {
        words.push(word)?;
    }
    let Some(read) = read_words(alloc, &words)? else {
        return Ok(String::from_str(alloc, "not accepted")?);
    };
    let (folder, quiet, generate) = (read.folder, read.quiet, read.generate);
    Ok(format!(in alloc; "folder {folder:?}, quiet {quiet}, generate {generate:?}")?)
}
