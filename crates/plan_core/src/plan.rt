//! Plans.
ghost use Rattle.std.specs.Prelude.{◌≡◌, ◌++◌, ◌↔◌, map, IfOk, OnOk, IsTrue};
ghost use Rattle.plan_core.specs.PlainExpr.{expr_of};
ghost use Rattle.plan_core.specs.PlainPlan.{plan_of, leaves, Scan, Filter, Project, Distinct, Group, Join};
ghost use Rattle.plan_core.specs.PlainPlan.{Concat, Order};

use crate::agg::Agg;
use crate::expr::Expr;
use rows_core::{Key, Memory, Seq};
use std::alloc::Global;

/// A query. Its leaves are its scans, from the left; columns and streams are counted from 0. Contracts see it
/// as `plan_of` says it, without its boxes.
#[derive(Debug, Drop)]
pub enum Plan {
    /// The rows of a stream.
    Scan {
        stream: u32,
    },
    /// The rows at which the test is true.
    Filter {
        child: Box<Plan>,
        test: Expr,
    },
    /// A row of these columns for each row.
    Project {
        child: Box<Plan>,
        columns: Seq<Expr>,
    },
    /// The first of equal rows.
    Distinct {
        child: Box<Plan>,
    },
    /// A row for each group of rows with equal keys: the keys and then the aggregates.
    Group {
        child: Box<Plan>,
        keys: Seq<u32>,
        aggs: Seq<Agg>,
    },
    /// Each left row with each right row that agrees with it in all pairs of columns.
    Join {
        left: Box<Plan>,
        right: Box<Plan>,
        on: Seq<(u32, u32)>,
    },
    /// The left rows, then the right ones.
    Concat {
        left: Box<Plan>,
        right: Box<Plan>,
    },
    /// The rows, stably sorted by the keys.
    Order {
        child: Box<Plan>,
        keys: Seq<Key>,
    },
}

impl Plan {
    /// A second plan that equals this one.
    pub fn try_copy(&self, alloc: Global) -> Result<Plan, Memory>
        ensures { IfOk result (λ copy. plan_of copy ≡ plan_of self.now) }
    {
        Ok(match self {
            Plan::Scan { stream } => Plan::Scan { stream: *stream },
            Plan::Filter { child, test } => Plan::Filter {
                child: Box::new(alloc, child.try_copy(alloc)?)?,
                test: test.try_copy(alloc)?,
            },
            Plan::Project { child, columns } => Plan::Project {
                child: Box::new(alloc, child.try_copy(alloc)?)?,
                columns: Seq::new(copy_exprs(alloc, columns.items())?),
            },
            Plan::Distinct { child } => Plan::Distinct {
                child: Box::new(alloc, child.try_copy(alloc)?)?,
            },
            Plan::Group { child, keys, aggs } => Plan::Group {
                child: Box::new(alloc, child.try_copy(alloc)?)?,
                keys: keys.try_copy(alloc)?,
                aggs: aggs.try_copy(alloc)?,
            },
            Plan::Join { left, right, on } => Plan::Join {
                left: Box::new(alloc, left.try_copy(alloc)?)?,
                right: Box::new(alloc, right.try_copy(alloc)?)?,
                on: on.try_copy(alloc)?,
            },
            Plan::Concat { left, right } => Plan::Concat {
                left: Box::new(alloc, left.try_copy(alloc)?)?,
                right: Box::new(alloc, right.try_copy(alloc)?)?,
            },
            Plan::Order { child, keys } => Plan::Order {
                child: Box::new(alloc, child.try_copy(alloc)?)?,
                keys: keys.try_copy(alloc)?,
            },
        })
    }

    /// The streams of its scans, from the left.
    pub fn leaves(&self, alloc: Global) -> Result<Vec<u32>, Memory>
        ensures { IfOk result (λ streams. streams.items ≡ leaves (plan_of self.now)) }
    {
        let mut streams = Vec::new(alloc);
        self.put_leaves(&mut streams)?;
        Ok(streams)
    }

    /// Whether the two are equal.
    #[cycle(same)]
    pub fn is_same(&self, other: &Plan) -> bool
        ensures { IsTrue result ↔ (plan_of self.now ≡ plan_of other.now) }
    {
        match self {
            Plan::Scan { stream } => other.is_scan(*stream),
            Plan::Filter { child, test } => other.is_filter(child, test),
            Plan::Project { child, columns } => other.is_project(child, columns.items()),
            Plan::Distinct { child } => other.is_distinct(child),
            Plan::Group { child, keys, aggs } => other.is_group(child, keys.items(), aggs.items()),
            Plan::Join { left, right, on } => other.is_join(left, right, on.items()),
            Plan::Concat { left, right } => other.is_concat(left, right),
            Plan::Order { child, keys } => other.is_order(child, keys.items()),
        }
    }

    fn is_scan(&self, stream: u32) -> bool
        ensures { IsTrue result ↔ (Scan stream ≡ plan_of self.now) }
    {
        match self {
            Plan::Scan { stream: own } => stream == *own,
            _ => false,
        }
    }

    #[cycle(same)]
    fn is_filter(&self, child: &Plan, test: &Expr) -> bool
        ensures { IsTrue result ↔ (Filter (plan_of child.now) (expr_of test.now) ≡ plan_of self.now) }
    {
        match self {
            Plan::Filter {
                child: own,
                test: own_test,
            } => child.is_same(own) && test.is_same(own_test),
            _ => false,
        }
    }

    #[cycle(same)]
    fn is_project(&self, child: &Plan, columns: &[Expr]) -> bool
        ensures { IsTrue result ↔ (Project (plan_of child.now) (map expr_of columns.now) ≡ plan_of self.now) }
    {
        match self {
            Plan::Project {
                child: own,
                columns: own_columns,
            } => child.is_same(own) && are_same_exprs(columns, own_columns.items()),
            _ => false,
        }
    }

    #[cycle(same)]
    fn is_distinct(&self, child: &Plan) -> bool
        ensures { IsTrue result ↔ (Distinct (plan_of child.now) ≡ plan_of self.now) }
    {
        match self {
            Plan::Distinct { child: own } => child.is_same(own),
            _ => false,
        }
    }

    #[cycle(same)]
    fn is_group(&self, child: &Plan, keys: &[u32], aggs: &[Agg]) -> bool
        ensures { IsTrue result ↔ (Group (plan_of child.now) keys.now aggs.now ≡ plan_of self.now) }
    {
        match self {
            Plan::Group {
                child: own,
                keys: own_keys,
                aggs: own_aggs,
            } => {
                child.is_same(own)
                    && are_same_numbers(keys, own_keys.items())
                    && are_same_aggs(aggs, own_aggs.items())
            }
            _ => false,
        }
    }

    #[cycle(same)]
    fn is_join(&self, left: &Plan, right: &Plan, on: &[(u32, u32)]) -> bool
        ensures { IsTrue result ↔ (Join (plan_of left.now) (plan_of right.now) on.now ≡ plan_of self.now) }
    {
        match self {
            Plan::Join {
                left: own_left,
                right: own_right,
                on: own_on,
            } => {
                left.is_same(own_left)
                    && right.is_same(own_right)
                    && are_same_pairs(on, own_on.items())
            }
            _ => false,
        }
    }

    #[cycle(same)]
    fn is_concat(&self, left: &Plan, right: &Plan) -> bool
        ensures { IsTrue result ↔ (Concat (plan_of left.now) (plan_of right.now) ≡ plan_of self.now) }
    {
        match self {
            Plan::Concat {
                left: own_left,
                right: own_right,
            } => left.is_same(own_left) && right.is_same(own_right),
            _ => false,
        }
    }

    #[cycle(same)]
    fn is_order(&self, child: &Plan, keys: &[Key]) -> bool
        ensures { IsTrue result ↔ (Order (plan_of child.now) keys.now ≡ plan_of self.now) }
    {
        match self {
            Plan::Order {
                child: own,
                keys: own_keys,
            } => child.is_same(own) && are_same_keys(keys, own_keys.items()),
            _ => false,
        }
    }

    fn put_leaves(&self, to: &mut Vec<u32>) -> Result<(), Memory>
        ensures { OnOk result (to.new.items ≡ to.old.items ++ leaves (plan_of self.now)) }
    {
        match self {
            Plan::Scan { stream } => {
                to.push(*stream)?;
                Ok(())
            }
            Plan::Filter { child, test: _ }
            | Plan::Project { child, columns: _ }
            | Plan::Distinct { child }
            | Plan::Group {
                child,
                keys: _,
                aggs: _,
            }
            | Plan::Order { child, keys: _ } => child.put_leaves(to),
            Plan::Join { left, right, on: _ } | Plan::Concat { left, right } => {
                left.put_leaves(to)?;
                right.put_leaves(to)
            }
        }
    }
}

fn copy_exprs(alloc: Global, exprs: &[Expr]) -> Result<Vec<Expr>, Memory>
    ensures { IfOk result (λ copies. map expr_of copies.items ≡ map expr_of exprs.now) }
{
    let mut copies = Vec::with_capacity(alloc, exprs.len())?;
    for expr in exprs {
        copies.push(expr.try_copy(alloc)?)?;
    }
    Ok(copies)
}

fn are_same_exprs(exprs: &[Expr], others: &[Expr]) -> bool
    ensures { IsTrue result ↔ (map expr_of exprs.now ≡ map expr_of others.now) }
{
    match (exprs, others) {
        ([], []) => true,
        ([expr, exprs @ ..], [other, others @ ..]) => {
            expr.is_same(other) && are_same_exprs(exprs, others)
        }
        _ => false,
    }
}

fn are_same_numbers(numbers: &[u32], others: &[u32]) -> bool
    ensures { IsTrue result ↔ (numbers.now ≡ others.now) }
{
    numbers == others
}

fn are_same_aggs(aggs: &[Agg], others: &[Agg]) -> bool
    ensures { IsTrue result ↔ (aggs.now ≡ others.now) }
{
    match (aggs, others) {
        ([], []) => true,
        ([agg, aggs @ ..], [other, others @ ..]) => agg == other && are_same_aggs(aggs, others),
        _ => false,
    }
}

fn are_same_pairs(pairs: &[(u32, u32)], others: &[(u32, u32)]) -> bool
    ensures { IsTrue result ↔ (pairs.now ≡ others.now) }
{
    match (pairs, others) {
        ([], []) => true,
        ([pair, pairs @ ..], [other, others @ ..]) => {
            pair.0 == other.0 && pair.1 == other.1 && are_same_pairs(pairs, others)
        }
        _ => false,
    }
}

fn are_same_keys(keys: &[Key], others: &[Key]) -> bool
    ensures { IsTrue result ↔ (keys.now ≡ others.now) }
{
    match (keys, others) {
        ([], []) => true,
        ([key, keys @ ..], [other, others @ ..]) => {
            key.column == other.column && key.down == other.down && are_same_keys(keys, others)
        }
        _ => false,
    }
}
