//! Plans with names.
ghost use Rattle.std.specs.Prelude.{◌≡◌};
ghost use Rattle.plan_text.specs.Grammar.{function_word, agg_word};

use crate::expr::NamedExpr;
use rows_core::{Name, Seq};

/// A column of a projection, with the name of the result's column.
#[derive(Drop)]
pub struct NamedColumn {
    pub name: Name,
    pub expr: NamedExpr,
}

/// What an aggregate takes of a column's values.
#[derive(Clone, Copy, PartialEq, Eq)]
pub enum AggFunction {
    Sum,
    Min,
    Max,
    First,
    Last,
    Avg,
}

/// An aggregate of a group: the count of its rows, or a function of a column that it names.
#[derive(Drop)]
pub enum NamedAgg {
    Count,
    Of(AggFunction, Name),
}

/// An aggregate, with the name of the result's column.
#[derive(Drop)]
pub struct NamedResult {
    pub name: Name,
    pub agg: NamedAgg,
}

/// Two columns that must be equal, of the left and of the right input of a join.
#[derive(Drop)]
pub struct NamedPair {
    pub left: Name,
    pub right: Name,
}

/// A key of an order, from the greatest value down where it is `down`.
#[derive(Drop)]
pub struct NamedKey {
    pub column: Name,
    pub down: bool,
}

/// The operators of a plan with names. Contracts see it as `tree_of` says it, without its boxes.
#[derive(Drop)]
pub enum NamedTree {
    /// The rows of a stream.
    From {
        stream: Name,
    },
    Where {
        child: Box<NamedTree>,
        test: NamedExpr,
    },
    Select {
        child: Box<NamedTree>,
        columns: Seq<NamedColumn>,
    },
    Distinct {
        child: Box<NamedTree>,
    },
    Group {
        child: Box<NamedTree>,
        keys: Seq<Name>,
        results: Seq<NamedResult>,
    },
    Join {
        left: Box<NamedTree>,
        right: Box<NamedTree>,
        on: Seq<NamedPair>,
    },
    Concat {
        left: Box<NamedTree>,
        right: Box<NamedTree>,
    },
    Order {
        child: Box<NamedTree>,
        keys: Seq<NamedKey>,
    },
}

impl AggFunction {
    /// The name by which a plan calls the function.
    pub fn word(&self) -> &[u8]
        ensures { result.now ≡ function_word self.now }
    {
        match self {
            AggFunction::Sum => b"sum",
            AggFunction::Min => b"min",
            AggFunction::Max => b"max",
            AggFunction::First => b"first",
            AggFunction::Last => b"last",
            AggFunction::Avg => b"avg",
        }
    }
}

impl NamedAgg {
    /// The name by which a plan calls the aggregate.
    pub fn word(&self) -> &[u8]
        ensures { result.now ≡ agg_word self.now }
    {
        match self {
            NamedAgg::Count => b"count",
            NamedAgg::Of(function, _) => function.word(),
        }
    }
}
