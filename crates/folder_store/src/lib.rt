//! The store over a real folder.
#![tactic(auto)]

mod attached;
mod directory;
#[cfg(test)]
mod folder_tests;
mod patience;
mod regular;
pub mod store;

pub use store::FolderStore;
