//! A script in one line: `\n`, `\r`, `\t` and `\\` stand for their bytes, and `\{FROM..TO:TEXT}` for the text
//! once for each number from FROM on and below TO, which stands where the text has `#`.

ghost use Rattle.std.specs.Prelude.{◌≡◌};
ghost use Rattle.case_text.specs.Escapes.{escaped};

use anyhow::{Context, Result};
use std::alloc::Global;

/// The bytes of the script.
pub fn bytes(alloc: Global, text: &str) -> Result<Vec<u8>> {
    let mut to = Vec::new(alloc);
    for (index, part) in text.split("\\{").enumerate() {
        if index == 0 {
            push_plain(part, &mut to)?;
        } else {
            push_repeated(alloc, part, &mut to)?;
        }
    }
    Ok(to)
}

// Appends what `FROM..TO:TEXT}` and the text behind it stand for.
fn push_repeated(alloc: Global, part: &str, to: &mut Vec<u8>) -> Result<()> {
    let (repeated, behind) = part.split_once('}').context("no end of a repeat")?;
    let (range, text) = repeated.split_once(':').context("no text of a repeat")?;
    let (from, below) = range.split_once("..").context("no range of a repeat")?;
    for number in from.parse::<u32>()?..below.parse::<u32>()? {
        push_numbered(alloc, text, number, to)?;
    }
    push_plain(behind, to)
}

// Appends a text with this number in place of each `#`.
fn push_numbered(alloc: Global, text: &str, number: u32, to: &mut Vec<u8>) -> Result<()> {
    let digits = format!(in alloc; "{number}")?;
    for (index, part) in text.split('#').enumerate() {
        if index > 0 {
            to.extend_from_slice(digits.as_bytes())?;
        }
        push_plain(part, to)?;
    }
    Ok(())
}

// Appends a text without repeats.
fn push_plain(text: &str, to: &mut Vec<u8>) -> Result<()> {
    let mut is_escaped = false;
    for byte in text.bytes() {
        if !is_escaped && byte == b'\\' {
            is_escaped = true;
            continue;
        }
        to.push(if is_escaped { escaped(byte) } else { byte })?;
        is_escaped = false;
    }
    Ok(())
}

// What the byte behind a backslash stands for.
fn escaped(byte: u8) -> u8
    ensures { result ≡ escaped byte }
{
    match byte {
        b'n' => b'\n',
        b'r' => b'\r',
        b't' => b'\t',
        other => other,
    }
}
