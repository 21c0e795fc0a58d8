//! Lines in one line: with ` | ` between them, and where one stands several times, how many times it does.

use anyhow::Result;
use std::alloc::Global;

/// The lines of a text, of which each has its LF.
pub fn lines(alloc: Global, text: &[u8]) -> Result<String> {
    let mut shown = Vec::new(alloc);
    let mut last: &[u8] = b"";
    let mut count = 0u64;
    for line in text.split_inclusive(|byte| *byte == b'\n') {
        if count > 0 && line == last {
            count = count.saturating_add(1);
            continue;
        }
        push(alloc, last, count, &mut shown)?;
        last = line;
        count = 1;
    }
    push(alloc, last, count, &mut shown)?;
    Ok(String::from_utf8(shown)?)
}

// Appends a line that stands so many times.
fn push(alloc: Global, line: &[u8], count: u64, to: &mut Vec<u8>) -> Result<()> {
    if count == 0 {
        return Ok(());
    }
    if !to.is_empty() {
        to.extend_from_slice(b" | ")?;
    }
    match line {
        [text @ .., b'\n'] => to.extend_from_slice(text)?,
        text => {
            to.extend_from_slice(text)?;
            to.extend_from_slice(b" without an end")?;
        }
    }
    if count > 1 {
        to.extend_from_slice(format!(in alloc; " x{count}")?.as_bytes())?;
    }
    Ok(())
}
