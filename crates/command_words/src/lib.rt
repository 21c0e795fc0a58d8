//! The words of the command line: a folder and two options, as `clap` reads them.
#![tactic(auto)]

mod command;
pub mod laws;
pub mod reading;

pub use laws::{accepted_examples, unaccepted_examples};
pub use reading::{Words, read_words};
