//! The table of the scalar operations, and cells.

use crate::shown::{cell_kind_shown, cell_shown};
use anyhow::{Context, Result};
use postfix_plans::literal_of;
use scalar_ops::{Cell, CellKind, OPS, Op};
use std::alloc::Global;

/// The row of an operation at arguments of these kinds, as `Add int int`.
pub fn find(alloc: Global, arguments: &str) -> Result<String> {
    let mut words = arguments.split_whitespace();
    let op = op_of(words.next().unwrap_or("")).context("no operation")?;
    let mut kinds = Vec::new(alloc);
    for word in words {
        kinds.push(kind_of(word).context("no kind")?)?;
    }
    let table = OPS;
    match table.find(op, &kinds) {
        Some(row) => Ok(format!(in alloc; "row {row}")?),
        None => Ok(String::from_str(alloc, "no row")?),
    }
}

/// The kind of a literal and the literal, read from a copy of it.
pub fn cell(alloc: Global, word: &str) -> Result<String> {
    let cell = literal_of(alloc, word)?.context("no literal")?;
    copied(alloc, &cell)
}

fn copied(alloc: Global, cell: &Cell) -> Result<String> {
    let copy = cell.try_copy(alloc)?;
    shown(alloc, &copy, copy == *cell)
}

fn shown(alloc: Global, copy: &Cell, is_same: bool) -> Result<String> {
    let kind = cell_kind_shown(copy.kind());
    let shown = cell_shown(alloc, copy)?;
    let same = if is_same {
        ""
    } else {
        ", and its copy is another"
    };
    Ok(format!(in alloc; "{kind} {shown}{same}")?)
}

fn op_of(word: &str) -> Option<Op> {
    Some(match word {
        "Add" => Op::Add,
        "Neg" => Op::Neg,
        "Least" => Op::Least,
        "Most" => Op::Most,
        "Eq" => Op::Eq,
        "Lt" => Op::Lt,
        "Ge" => Op::Ge,
        "Len" => Op::Len,
        "Not" => Op::Not,
        _ => return None,
    })
}

fn kind_of(word: &str) -> Option<CellKind> {
    match word {
        "int" => Some(CellKind::Int),
        "text" => Some(CellKind::Text),
        "bool" => Some(CellKind::Bool),
        _ => None,
    }
}
