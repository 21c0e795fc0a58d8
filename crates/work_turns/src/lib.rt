//! Turns of work: a kept result whose file is damaged or unreadable is left out, and the files are read anew by a
//! rewriting of the others.
#![tactic(auto)]

mod dropping;
pub mod turns;
pub mod work;

pub use turns::{LastTurn, Turn, TurnEnd, run_in_turns, take_turn};
pub use work::{WorkInTurns, work_of_turns};
