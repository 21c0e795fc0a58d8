//! Cuts, written as their intervals.

use anyhow::{Context, Result};
use rows_core::{Cut, Seq};
use std::alloc::Global;

/// The intervals that are written so, as `0-2,1-3`.
pub fn cuts_of(alloc: Global, text: &str) -> Result<Seq<Cut>> {
    let mut cuts = Vec::new(alloc);
    for cut in text.split(',') {
        cuts.push(cut_of(cut).context("no interval")?)?;
    }
    Ok(Seq::new(cuts))
}

fn cut_of(text: &str) -> Option<Cut> {
    let (from, to) = text.split_once('-')?;
    let from = from.parse::<u32>().ok()?;
    let to = to.parse::<u32>().ok()?;
    Some(Cut { from, to })
}
