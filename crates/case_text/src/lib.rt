//! How case programs read their cases and the scripts in them, draw numbers, and show lines in one.
#![tactic(auto)]

pub mod cases;
pub mod draw;
pub mod script;
pub mod shown;
