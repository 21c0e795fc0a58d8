//! How cells and kinds are shown.

use anyhow::Result;
use rows_core::Kind;
use scalar_ops::{Cell, CellKind};
use std::alloc::Global;

/// A number, a text behind a `'`, or a truth value.
pub fn cell_shown(alloc: Global, cell: &Cell) -> Result<String> {
    Ok(match cell {
        Cell::Int(number) => format!(in alloc; "{number}")?,
        Cell::Text(text) => {
            let shown = std::str::from_utf8(text.bytes())?;
            format!(in alloc; "'{shown}")?
        }
        Cell::Bool(truth) => format!(in alloc; "{truth}")?,
    })
}

/// The word of a kind of cells.
pub fn cell_kind_shown(kind: CellKind) -> &'static str {
    match kind {
        CellKind::Int => "int",
        CellKind::Text => "text",
        CellKind::Bool => "bool",
    }
}

/// The words of kinds, behind commas.
pub fn kinds_shown(alloc: Global, kinds: &[Kind]) -> Result<String> {
    let mut shown = String::new(alloc);
    for kind in kinds {
        if !shown.is_empty() {
            shown.push_str(",")?;
        }
        shown.push_str(std::str::from_utf8(kind.word())?)?;
    }
    Ok(shown)
}

/// Numbers, behind commas.
pub fn numbers_shown(alloc: Global, numbers: &[u32]) -> Result<String> {
    let mut shown = String::new(alloc);
    for number in numbers {
        if !shown.is_empty() {
            shown.push_str(",")?;
        }
        shown.push_str(format!(in alloc; "{number}")?.as_str())?;
    }
    Ok(shown)
}
