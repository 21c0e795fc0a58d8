//! Long texts, written short.

use anyhow::Result;
use std::alloc::Global;

/// The text with `{N PART}` written out, N times the part.
pub fn expanded(alloc: Global, short: &str) -> Result<String> {
    let mut text = String::new(alloc);
    for part in short.split('}') {
        let (before, repeated) = part.split_once('{').unwrap_or((part, "0 "));
        text.push_str(before)?;
        let (count, part) = repeated.split_once(' ').unwrap_or(("0", ""));
        push_times(&mut text, count.parse::<u32>()?, part)?;
    }
    Ok(text)
}

fn push_times(text: &mut String, count: u32, part: &str) -> Result<()> {
    for _ in 0..count {
        text.push_str(part)?;
    }
    Ok(())
}
