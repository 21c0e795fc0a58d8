//! Texts.

use anyhow::Result;
use rows_core::Txt;
use std::alloc::Global;

/// The length of a text and the text, read from a copy of it.
pub fn text(alloc: Global, bytes: &[u8]) -> Result<String> {
    let text = Txt::new(alloc, bytes)?;
    copied(alloc, &text)
}

fn copied(alloc: Global, text: &Txt) -> Result<String> {
    let copy = text.try_copy(alloc)?;
    shown(alloc, copy.bytes(), text.is_same(&copy))
}

fn shown(alloc: Global, bytes: &[u8], is_same: bool) -> Result<String> {
    let same = copy_note(is_same);
    let len = bytes.len();
    let shown = std::str::from_utf8(bytes)?;
    Ok(format!(in alloc; "length {len}: {shown}{same}")?)
}

/// What is said of a copy.
pub fn copy_note(is_same: bool) -> &'static str {
    if is_same {
        ""
    } else {
        ", and its copy is another"
    }
}

/// The text with these bytes.
pub fn text_of(alloc: Global, bytes: &[u8]) -> Result<String> {
    Ok(String::from_str(alloc, std::str::from_utf8(bytes)?)?)
}
