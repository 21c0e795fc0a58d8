//! The parts that a least rewriting of a plan is made of.
ghost use Rattle.std.specs.Prelude.{◌≡◌};
ghost use Rattle.rewriter.specs.Stretches.{before, after};

use plan_core::Plan;
use rows_core::Cut;

/// A plan at a cut.
#[derive(Clone, Copy)]
pub struct Part<'p, 'c> {
    pub plan: &'p Plan,
    /// The number of its place.
    pub place: u64,
    pub cuts: &'c [Cut],
}

/// A plan from one cut to another.
#[derive(Clone, Copy)]
pub struct Stretch<'p, 'c> {
    pub plan: &'p Plan,
    /// The number of its place.
    pub place: u64,
    pub old: &'c [Cut],
    pub new: &'c [Cut],
}

impl<'p, 'c> Stretch<'p, 'c> {
    /// The plan at the old cut.
    pub fn before(self) -> Part<'p, 'c>
        ensures { result ≡ before self.entry }
    {
        Part {
            plan: self.plan,
            place: self.place,
            cuts: self.old,
        }
    }

    /// The plan at the new cut.
    pub fn after(self) -> Part<'p, 'c>
        ensures { result ≡ after self.entry }
    {
        Part {
            plan: self.plan,
            place: self.place,
            cuts: self.new,
        }
    }
}

/// What the operator of a plan takes in.
#[derive(Clone, Copy)]
pub enum Inputs<'p, 'c> {
    /// The extents of a stream.
    Stream,
    One(Part<'p, 'c>),
    Two(Part<'p, 'c>, Part<'p, 'c>),
}

/// The parts by which an earlier result of a plan is grown.
#[derive(Clone, Copy)]
pub enum Growth<'p, 'c> {
    /// It isn't.
    Never,
    /// The only input, or the right one of a concatenation.
    Tail(Stretch<'p, 'c>),
    /// Of a join whose left input grew.
    Left {
        left: Stretch<'p, 'c>,
        right: Part<'p, 'c>,
    },
    /// Of a join whose right input grew.
    Right {
        left: Part<'p, 'c>,
        right: Stretch<'p, 'c>,
    },
    /// Of a join whose inputs both grew.
    Both(BothGrown<'p, 'c>),
}

/// The parts by which a join is grown whose inputs both grew.
#[derive(Clone, Copy)]
pub struct BothGrown<'p, 'c> {
    pub old_left: Part<'p, 'c>,
    pub right_delta: Stretch<'p, 'c>,
    pub left_delta: Stretch<'p, 'c>,
    pub right: Part<'p, 'c>,
}

/// The parts of which a delta of a plan is made.
#[derive(Clone, Copy)]
pub enum Increase<'p, 'c> {
    /// There is none.
    Never,
    /// Nothing came.
    Unchanged,
    /// The extents of a stream.
    NewRows,
    /// The only input, or the right one of a concatenation.
    Child(Stretch<'p, 'c>),
    /// Of a distinct.
    Distinct {
        before: Part<'p, 'c>,
        child: Stretch<'p, 'c>,
    },
    /// Of a join.
    Join {
        left: Stretch<'p, 'c>,
        right: Part<'p, 'c>,
    },
}
