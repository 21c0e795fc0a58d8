//! How an answer is shown.

use anyhow::Result;
use std::alloc::Global;

/// As `464 reads 336 uses 1,4`.
pub fn shown(alloc: Global, estimate: u64, reads: u64, used: &[u32]) -> Result<String> {
    let mut ids = String::new(alloc);
    for id in used {
        if !ids.is_empty() {
            ids.push_str(",")?;
        }
        ids.push_str(format!(in alloc; "{id}")?.as_str())?;
    }
    if ids.is_empty() {
        ids.push_str("none")?;
    }
    Ok(format!(in alloc; "{estimate} reads {reads} uses {ids}")?)
}
