//! The line that tells the catalogue: compact JSON whose objects have their keys in byte order.
#![tactic(auto)]

mod cuts;
mod entries;
pub mod line;
mod object;
mod programs;
mod streams;
mod texts;

pub use line::catalog_line;
