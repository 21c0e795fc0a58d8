//! Names and the words of kinds.

use crate::texts::text_of;
use anyhow::Result;
use rows_core::{Kind, Name};
use std::alloc::Global;

/// The word of the kind with this word.
pub fn kind(alloc: Global, word: &[u8]) -> Result<String> {
    match Kind::of(word) {
        Some(kind) => text_of(alloc, kind.word()),
        None => text_of(alloc, b"no kind"),
    }
}

/// The name, read from a copy of it.
pub fn name(alloc: Global, bytes: &[u8]) -> Result<String> {
    let copy = Name::new(alloc, bytes)?.try_copy(alloc)?;
    text_of(alloc, copy.bytes())
}

/// Whether two names, divided by a space, are the same.
pub fn names(alloc: Global, bytes: &[u8]) -> Result<String> {
    let (first, second) = std::str::from_utf8(bytes)?
        .split_once(' ')
        .unwrap_or(("", ""));
    let first = Name::new(alloc, first.as_bytes())?;
    let is_same = is_named(alloc, &first, second)?;
    text_of(alloc, sameness(is_same).as_bytes())
}

fn is_named(alloc: Global, name: &Name, text: &str) -> Result<bool> {
    Ok(name.is_same(&Name::new(alloc, text.as_bytes())?))
}

/// What stands for two values that are equal, and for two that are not.
pub fn sameness(is_same: bool) -> &'static str {
    if is_same { "the same" } else { "others" }
}
