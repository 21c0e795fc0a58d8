//! The limits of a plan as written.

/// What a plan as written may have only so many of.
#[derive(Clone, Copy, Debug, PartialEq, Eq)]
pub enum PlanLimit {
    /// Operators and leaves together: 40.
    Nodes,
    /// `join`, `concat` and `distinct` together: 8.
    Wide,
    /// Expression nodes in all: 512.
    Exprs,
}
