//! Groups of rows: folded from rows, merged with the groups of rows behind them, and finished as rows.
#![tactic(auto)]

mod accumulate;
mod finishing;
mod folding;
mod groups;
mod joining;
mod merging;
mod table;

pub use finishing::{FinishRefusal, finish};
pub use folding::fold;
pub use groups::Groups;
pub use merging::merge;
