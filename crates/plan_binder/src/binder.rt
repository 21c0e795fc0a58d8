//! Names of a plan resolved to numbers.
ghost use Rattle.std.specs.Prelude.{◌≡◌, map, not};
ghost use Rattle.std.specs.List.{find};
ghost use Rattle.std.specs.Option.{option_map};
ghost use Rattle.plan_core.specs.PlainPlan.{plan_of};
ghost use Rattle.plan_core.specs.ExpressionKind.{of_both};
ghost use Rattle.plan_text.specs.PlainNamed.{tree_of};
ghost use Rattle.plan_binder.specs.Binding.{Binds, binding, bound_tree, bound_join, bound_concat, is_there};
ghost use Rattle.plan_binder.specs.BoundPlan.{bound_of};
ghost use Rattle.plan_binder.specs.Resolves.{Resolves};

use crate::bound::{
    Bound, bind_concat, bind_distinct, bind_from, bind_group, bind_join, bind_order, bind_select,
    bind_where,
};
use crate::refusal::BindRefusal;
use crate::stream::{Stream, stream_is_there};
use plan_core::Plan;
use plan_text::{NamedPair, NamedPlan, NamedTree};
use rows_core::Name;
use std::alloc::Global;

/// The plan over these streams, with numbers in place of names: a stream's is its place among the streams, a
/// column's its place among the columns of its operator's input. `Unknown` exactly where a stream isn't
/// there, the first from the left; else `IllTyped` exactly where a column isn't there, or two of the columns
/// of a `select`, a `group` or a `join` have one name. A call is of the row of `OPS` that has its operation
/// and its arguments' kinds; where none has them it is of the operation's first row, and the plan has no
/// typing (`plans_without_a_row_have_no_typing`). The rules are this project's own. `Memory` where memory was
/// asked for and refused, or a place is above 4,294,967,295: no list is that long. Names may repeat: the
/// first one counts.
pub fn bind<S: Stream>(alloc: Global, plan: &NamedPlan, streams: &[S]) -> Result<Plan, BindRefusal>
    ensures { Binds result (binding (map S.name_of streams.now) (map S.columns_of streams.now) plan.now) }
{
    match first_absent(streams, plan.streams()) {
        Some(stream) => Err(BindRefusal::Unknown(stream.try_copy(alloc)?)),
        None => bind_tree(alloc, plan.tree(), streams),
    }
}

/// The first of the names that no stream has.
fn first_absent<'a, S: Stream>(streams: &[S], names: &'a [Name]) -> Option<&'a Name>
    ensures { option_map (λ name. name.now) result
        ≡ find (λ name. not (is_there (map S.name_of streams.now) name)) names.now }
{
    names
        .iter()
        .find(|name| !stream_is_there(streams, name.bytes()))
}

/// The plan of these operators, whose streams are all there.
fn bind_tree<S: Stream>(alloc: Global, tree: &NamedTree, streams: &[S]) -> Result<Plan, BindRefusal>
    ensures { Resolves plan_of result (option_map (λ b. b.plan)
        (bound_tree (map S.name_of streams.now) (map S.columns_of streams.now) (tree_of tree.now))) }
{
    let bound = bound_tree(alloc, streams, tree)?;
    Ok(Box::into_inner(bound.plan))
}

/// The plan and its columns.
#[cycle(tree)]
fn bound_tree<S: Stream>(
    alloc: Global,
    streams: &[S],
    tree: &NamedTree,
) -> Result<Bound, BindRefusal>
    ensures { Resolves bound_of result
        (bound_tree (map S.name_of streams.now) (map S.columns_of streams.now) (tree_of tree.now)) }
{
    match tree {
        NamedTree::From { stream } => bind_from(alloc, streams, stream),
        NamedTree::Where { child, test } => {
            let input = bound_tree(alloc, streams, child)?;
            bind_where(alloc, input, test)
        }
        NamedTree::Select { child, columns } => {
            let input = bound_tree(alloc, streams, child)?;
            bind_select(alloc, input, columns.items())
        }
        NamedTree::Distinct { child } => {
            let input = bound_tree(alloc, streams, child)?;
            bind_distinct(alloc, input)
        }
        NamedTree::Group {
            child,
            keys,
            results,
        } => {
            let input = bound_tree(alloc, streams, child)?;
            bind_group(alloc, input, keys.items(), results.items())
        }
        NamedTree::Join { left, right, on } => bound_join(alloc, streams, left, right, on.items()),
        NamedTree::Concat { left, right } => bound_concat(alloc, streams, left, right),
        NamedTree::Order { child, keys } => {
            let input = bound_tree(alloc, streams, child)?;
            bind_order(alloc, input, keys.items())
        }
    }
}

#[cycle(tree)]
fn bound_join<S: Stream>(
    alloc: Global,
    streams: &[S],
    left: &NamedTree,
    right: &NamedTree,
    on: &[NamedPair],
) -> Result<Bound, BindRefusal>
    ensures { Resolves bound_of result (of_both (bound_join on.now)
        (bound_tree (map S.name_of streams.now) (map S.columns_of streams.now) (tree_of left.now))
        (bound_tree (map S.name_of streams.now) (map S.columns_of streams.now) (tree_of right.now))) }
{
    let left = bound_tree(alloc, streams, left)?;
    let right = bound_tree(alloc, streams, right)?;
    bind_join(alloc, left, right, on)
}

#[cycle(tree)]
fn bound_concat<S: Stream>(
    alloc: Global,
    streams: &[S],
    left: &NamedTree,
    right: &NamedTree,
) -> Result<Bound, BindRefusal>
    ensures { Resolves bound_of result (of_both bound_concat
        (bound_tree (map S.name_of streams.now) (map S.columns_of streams.now) (tree_of left.now))
        (bound_tree (map S.name_of streams.now) (map S.columns_of streams.now) (tree_of right.now))) }
{
    let left = bound_tree(alloc, streams, left)?;
    let right = bound_tree(alloc, streams, right)?;
    bind_concat(alloc, left, right)
}
