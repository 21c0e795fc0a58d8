//! Why a result stays unmade, whatever else is read.

use thiserror::Error;

/// Why a result stays unmade, whatever else is read. It has no want of memory, after which another try may
/// succeed.
#[derive(Clone, Copy, Debug, PartialEq, Eq, Drop, Error)]
pub enum Stop {
    /// An operator met a number outside of i64.
    #[error("overflow")]
    Overflow,
    /// The machine time, which is 1 and the rows taken in, is above 4,294,967,295, or what is kept lies
    /// outside of the bounds within which it may be worked on.
    #[error("machine time above 4294967295")]
    Machine,
}
