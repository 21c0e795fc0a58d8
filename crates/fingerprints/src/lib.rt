//! Keys: what a plan, and a plan over its data, are looked up by.
#![tactic(auto)]

pub mod keys;

pub use keys::{chain, chain_start, data_key, program_key};
