//! Keys.

use anyhow::{Context, Result};
use plan_spelling::unspell;
use rows_core::Digest;
use std::alloc::Global;

pub fn program(alloc: Global, digits: &str) -> Result<String> {
    let bytes = hex::decode(alloc, digits)?;
    let plan = unspell(alloc, &bytes)?;
    let key = fingerprints::program_key(alloc, &plan)?;
    Ok(hex::encode(alloc, key.bytes)?)
}

pub fn data(alloc: Global, digits: &str) -> Result<String> {
    let digests = digests(alloc, digits)?;
    let (program, chains) = digests.split_first().context("no program key")?;
    Ok(hex::encode(alloc, fingerprints::data_key(program, chains).bytes)?)
}

pub fn chain(alloc: Global, digits: &str) -> Result<String> {
    let mut chain = fingerprints::chain_start();
    for extent in &digests(alloc, digits)? {
        chain = fingerprints::chain(&chain, extent);
    }
    Ok(hex::encode(alloc, chain.bytes)?)
}

/// Digests of 32 bytes each.
fn digests(alloc: Global, digits: &str) -> Result<Vec<Digest>> {
    let bytes = hex::decode(alloc, digits)?;
    let mut digests = Vec::new(alloc);
    let (whole, _) = bytes.as_chunks::<32>();
    for bytes in whole {
        digests.push(Digest { bytes: *bytes })?;
    }
    Ok(digests)
}
