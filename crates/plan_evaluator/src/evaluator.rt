//! A plain evaluator of plans. It may be quadratic.
ghost use Rattle.std.specs.Prelude.{◌≡◌, ◌≤◌, ◌++◌, length, take, drop, IfOk};
ghost use Rattle.plan_core.specs.PlainPlan.{plan_of, leaf_count};
ghost use Rattle.plan_core.specs.PlanMeaning.{plan_meaning, first_list};
ghost use Rattle.plan_core.specs.Answer.{Means};
ghost use Rattle.plan_laws.specs.TypedOn.{IsTypedOn};

use crate::aggregate::group_rows;
use crate::operators::{distinct_rows, filter_rows, join_rows, order_rows, project_rows};
use plan_core::{EvRefusal, Plan};
use plan_laws::typed_plans_give_typed_rows;
use rows_core::{Memory, Row, Seq, copy_rows};
use std::alloc::Global;

/// The meaning of a plan on one list of rows for each of its leaves, from the left: its rows, or `Overflow`
/// exactly where it is an overflow. The plan has a typing over some streams, and the lists have rows of these
/// streams.
pub fn evaluate(alloc: Global, plan: &Plan, lists: &[Seq<Row>]) -> Result<Seq<Row>, EvRefusal>
    requires { IsTypedOn (plan_of plan.now) lists.now }
    ensures { Means result (plan_meaning (plan_of plan.now) lists.now) }
{
    typed_plans_give_typed_rows();
    match plan {
        Plan::Scan { .. } => Ok(first_list(alloc, lists)?),
        Plan::Filter { child, test } => {
            let rows = evaluate(alloc, child, lists)?;
            filter_rows(alloc, rows.items(), test)
        }
        Plan::Project { child, columns } => {
            let rows = evaluate(alloc, child, lists)?;
            project_rows(alloc, rows.items(), columns.items())
        }
        Plan::Distinct { child } => {
            let rows = evaluate(alloc, child, lists)?;
            Ok(distinct_rows(alloc, rows.items())?)
        }
        Plan::Group { child, keys, aggs } => {
            let rows = evaluate(alloc, child, lists)?;
            group_rows(alloc, rows.items(), keys.items(), aggs.items())
        }
        Plan::Join { left, right, on } => {
            let (first, others) = lists_of_parts(alloc, left, lists)?;
            let lefts = evaluate(alloc, left, first)?;
            let rights = evaluate(alloc, right, others)?;
            Ok(join_rows(alloc, lefts.items(), rights.items(), on.items())?)
        }
        Plan::Concat { left, right } => {
            let (first, others) = lists_of_parts(alloc, left, lists)?;
            let lefts = evaluate(alloc, left, first)?;
            let rights = evaluate(alloc, right, others)?;
            Ok(concat_rows(lefts, rights)?)
        }
        Plan::Order { child, keys } => {
            let rows = evaluate(alloc, child, lists)?;
            Ok(order_rows(alloc, rows.items(), keys.items())?)
        }
    }
}

fn first_list(alloc: Global, lists: &[Seq<Row>]) -> Result<Seq<Row>, Memory>
    ensures { IfOk result (λ rows. rows ≡ first_list lists.now) }
{
    match lists.first() {
        Some(rows) => Ok(Seq::new(copy_rows(alloc, rows.items())?)),
        None => Ok(Seq::new(Vec::new(alloc))),
    }
}

// The lists of the left plan's leaves, and the others.
fn lists_of_parts<'a>(
    alloc: Global,
    left: &Plan,
    lists: &'a [Seq<Row>],
) -> Result<(&'a [Seq<Row>], &'a [Seq<Row>]), Memory>
    requires { leaf_count (plan_of left.now) ≤ length lists.now }
    ensures { IfOk result (λ parts. (parts.0.now ≡ take (leaf_count (plan_of left.now)) lists.now)
        × (parts.1.now ≡ drop (leaf_count (plan_of left.now)) lists.now)) }
{
    let leaves = left.leaves(alloc)?;
    Ok(lists.split_at(leaves.len()))
}

fn concat_rows(lefts: Seq<Row>, rights: Seq<Row>) -> Result<Seq<Row>, Memory>
    ensures { IfOk result (λ rows. rows ≡ lefts ++ rights) }
{
    let mut rows = lefts.into_vec();
    rows.append(&mut rights.into_vec())?;
    Ok(Seq::new(rows))
}
