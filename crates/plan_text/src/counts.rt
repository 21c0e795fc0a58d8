//! How many operators and expression nodes a plan has, up to one above the limits.
ghost use Rattle.std.specs.Prelude.{◌≡◌, ◌+◌, ◌≤◌};
ghost use Rattle.plan_text.specs.Draft.{limits, up_to, capped, plus, are_within, first_above};

use crate::PlanLimit;

/// The most operators and leaves that are kept.
const MOST_NODES: u32 = 40;

/// The most joins, concatenations and distincts that are kept.
const MOST_WIDE: u32 = 8;

/// The most expression nodes that are kept.
const MOST_EXPRS: u32 = 512;

/// How many operators and leaves, wide operators and expression nodes there are.
#[derive(Clone, Copy, PartialEq, Eq)]
pub struct Counts {
    pub nodes: u32,
    pub wide: u32,
    pub exprs: u32,
}

/// The counts of no node.
pub const NONE: Counts = Counts {
    nodes: 0,
    wide: 0,
    exprs: 0,
};

/// The counts of a node of an expression.
pub const EXPR: Counts = Counts {
    nodes: 0,
    wide: 0,
    exprs: 1,
};

/// The counts of a narrow operator, or of a leaf.
pub const NARROW: Counts = Counts {
    nodes: 1,
    wide: 0,
    exprs: 0,
};

/// The counts of a wide operator.
pub const WIDE: Counts = Counts {
    nodes: 1,
    wide: 1,
    exprs: 0,
};

impl Counts {
    /// The sum, each count up to one above its limit.
    pub fn plus(self, other: Counts) -> Counts
        ensures { result ≡ capped limits (plus self other) }
    {
        Counts {
            nodes: sum_up_to(MOST_NODES, self.nodes, other.nodes),
            wide: sum_up_to(MOST_WIDE, self.wide, other.wide),
            exprs: sum_up_to(MOST_EXPRS, self.exprs, other.exprs),
        }
    }

    pub fn are_within(self) -> bool
        ensures { result ≡ are_within limits self }
    {
        self.nodes <= MOST_NODES && (self.wide <= MOST_WIDE && self.exprs <= MOST_EXPRS)
    }

    /// The first limit that is passed, of counts that aren't all within.
    pub fn first_above(self) -> PlanLimit
        ensures { result ≡ first_above self }
    {
        if self.nodes > MOST_NODES {
            PlanLimit::Nodes
        } else if self.wide > MOST_WIDE {
            PlanLimit::Wide
        } else {
            PlanLimit::Exprs
        }
    }
}

fn sum_up_to(most: u32, one: u32, other: u32) -> u32
    requires { most ≤ 512 }
    ensures { result ≡ up_to most (one + other) }
{
    let sum = one.saturating_add(other);
    if sum <= most { sum } else { most + 1 }
}
