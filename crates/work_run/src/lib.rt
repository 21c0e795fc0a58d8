//! A piece of work that is read file by file, and what it comes to: what makes it one of a plan over a table, and
//! why its rows are those of the plan as it is written, or aren't made.
#![tactic(auto)]

pub mod open;
pub mod work;

pub use open::OpenWork;
pub use work::Work;
