//! The trees of rewritings.
use plan_core::Plan;
use rows_core::{Cut, Seq};

/// A kept result, by its id, its cut and the length of its file.
#[derive(Drop)]
pub struct Hit {
    pub id: u32,
    pub cuts: Seq<Cut>,
    pub len: u64,
}

/// How the result of a plan on a cut is made. Contracts see it as `rewriting_of` says it.
#[derive(Drop)]
#[cycle(rewriting)]
pub struct Rewriting {
    pub plan: Plan,
    pub cuts: Seq<Cut>,
    pub way: Way,
}

#[derive(Drop)]
#[cycle(rewriting)]
pub enum Way {
    /// The extents of the cut are read.
    Scan,
    /// The operator over its child.
    One(Box<Rewriting>),
    /// The operator over its two children.
    Two(Box<Rewriting>, Box<Rewriting>),
    /// The kept result of this plan and cut is read.
    Read(Hit),
    /// The kept result of this plan at an earlier cut is read, and what came since is added.
    Grown { hit: Hit, parts: Box<Parts> },
}

/// What a grown result is made of beside the earlier one.
#[derive(Drop)]
#[cycle(rewriting)]
pub enum Parts {
    /// The delta of the child, or of the right child of a concatenation.
    Tail(Delta),
    /// A join whose left input grew.
    LeftGrew {
        left: Delta,
        right: Rewriting,
    },
    /// A join whose right input grew.
    RightGrew {
        left: Rewriting,
        right: Delta,
    },
    /// A join whose inputs both grew.
    BothGrew {
        old_left: Rewriting,
        right_delta: Delta,
        left_delta: Delta,
        right: Rewriting,
    },
}

/// The rows that a plan's result has at the new cut behind those at the old one.
#[derive(Drop)]
#[cycle(rewriting)]
pub struct Delta {
    pub plan: Plan,
    pub old: Seq<Cut>,
    pub new: Seq<Cut>,
    pub way: DeltaWay,
}

#[derive(Drop)]
#[cycle(rewriting)]
pub enum DeltaWay {
    /// Nothing came.
    Unchanged,
    /// The new extents are read.
    Scan,
    /// The operator over its child's delta; the right delta of a concatenation.
    Tail(Box<Delta>),
    /// Of the child's delta the first of equal rows that the old result lacks.
    Distinct {
        old: Box<Rewriting>,
        child: Box<Delta>,
    },
    /// The join of the left delta with the right result.
    Join {
        left: Box<Delta>,
        right: Box<Rewriting>,
    },
}
