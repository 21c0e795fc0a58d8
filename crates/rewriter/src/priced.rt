//! What the search answers of a plan at a cut, or between two cuts. All are numbers.

/// How a rewriting makes the result of its plan.
#[derive(Clone, Copy, PartialEq, Eq)]
pub enum Form {
    /// The operator is carried out, or the extents are read.
    Computed,
    /// The kept result of the plan and the cut is read.
    Read,
    /// The kept result of an earlier cut is read, and what came since is added.
    Grown,
}

/// The form of a least rewriting, its estimate, and the bytes under its plan at its cut.
#[derive(Clone, Copy)]
pub struct Choice {
    pub form: Form,
    pub estimate: u64,
    pub bytes: u64,
}

/// The estimate of a rewriting, and the bytes under its plan at its cut; or that of a delta, and the new
/// bytes under its plan between its cuts.
#[derive(Clone, Copy)]
pub struct Price {
    pub estimate: u64,
    pub bytes: u64,
}

/// The price of a delta, and the choice of a plan at a cut.
#[derive(Clone, Copy)]
pub struct PairPrice {
    pub delta: Price,
    pub best: Choice,
}
