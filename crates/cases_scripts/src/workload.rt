//! Generated scripts.

use anyhow::Result;
use sha2::{Digest, Sha256};
use std::alloc::Global;
use workload_gen::script_of;

/// The length of the script of this number, how many lines it has, and its SHA-256 digest (FIPS 180-4) in hex.
pub fn workload(alloc: Global, number: &str) -> Result<String> {
    let script = script_of(alloc, number.parse()?)?;
    let len = script.len();
    let lines = script.iter().filter(|byte| **byte == b'\n').count();
    let digest = hex::encode(alloc, Sha256::digest(&script))?;
    Ok(format!(in alloc; "{len} {lines} {digest}")?)
}
