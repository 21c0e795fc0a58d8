//! Operators with numbers in place of names. Of each the names are resolved first, and then it is put onto
//! its inputs.
ghost use Rattle.std.specs.Prelude.{◌≡◌, ◌++◌, Some, map, IfOk};
ghost use Rattle.rows_core.specs.Schema.{kinds_of};
ghost use Rattle.plan_core.specs.PlainExpr as bound;
ghost use Rattle.plan_core.specs.PlainPlan.{plan_of, Scan, Filter, Project, Group, Order};
ghost use Rattle.plan_text.specs.PlainNamed.{expr_of, column_of};
ghost use Rattle.plan_binder.specs.Binding.{with_columns, projected, grouped, joined, bound_from};
ghost use Rattle.plan_binder.specs.Binding.{bound_where, bound_select, bound_distinct, bound_group};
ghost use Rattle.plan_binder.specs.Binding.{bound_join, bound_concat, bound_order};
ghost use Rattle.plan_binder.specs.BoundPlan.{bound_of, boxed_expr_of};
ghost use Rattle.plan_binder.specs.Resolves.{Resolves};

use crate::allocation::boxed;
use crate::bind_expr::{bind_expr, bind_exprs};
use crate::bind_names::{GroupParts, bind_all, bind_pairs, bind_parts, has_repeat};
use crate::columns::{Columns, joined_columns};
use crate::refusal::BindRefusal;
use crate::result_columns::{group_columns, names_of, schema_kinds, select_columns};
use crate::stream::{Stream, stream_place};
use plan_core::{Expr, Plan};
use plan_text::{NamedColumn, NamedExpr, NamedKey, NamedPair, NamedResult};
use rows_core::{Key, Memory, Name, Schema, Seq};
use std::alloc::Global;

/// A plan with numbers, and its columns. Contracts see it as `bound_of` says it.
#[derive(Drop)]
pub struct Bound {
    pub plan: Box<Plan>,
    pub columns: Columns,
}

/// The plan with these columns, where their names differ.
fn with_columns(plan: Box<Plan>, columns: Columns) -> Result<Bound, BindRefusal>
    ensures { Resolves bound_of result (with_columns (plan_of plan.value) columns.names columns.kinds) }
{
    if has_repeat(columns.names.items()) {
        return Err(BindRefusal::IllTyped);
    }
    Ok(Bound { plan, columns })
}

/// The rows of a stream.
pub fn bind_from<S: Stream>(
    alloc: Global,
    streams: &[S],
    stream: &Name,
) -> Result<Bound, BindRefusal>
    ensures { Resolves bound_of result
        (bound_from (map S.name_of streams.now) (map S.columns_of streams.now) stream.now) }
{
    let Some(place) = stream_place(streams, stream.bytes()) else {
        return Err(BindRefusal::IllTyped);
    };
    let Ok(number) = u32::try_from(place) else {
        return Err(BindRefusal::Memory);
    };
    match streams.get(place) {
        Some(stream) => Ok(scan(alloc, number, stream.schema())?),
        None => Err(BindRefusal::IllTyped),
    }
}

fn scan(alloc: Global, number: u32, schema: &Schema) -> Result<Bound, Memory>
    ensures { IfOk result
        (λ b. bound_of b
        ≡ record {
          plan = Scan number;
          names = map (λ column. column.name) schema.now;
          kinds = kinds_of schema.now;
        }) }
{
    let plan = boxed(alloc, Plan::Scan { stream: number })?;
    let names = names_of(alloc, schema.columns())?;
    let kinds = schema_kinds(alloc, schema.columns())?;
    let columns = Columns::new(names, kinds);
    Ok(Bound { plan, columns })
}

/// The rows at which a test is true.
pub fn bind_where(alloc: Global, input: Bound, test: &NamedExpr) -> Result<Bound, BindRefusal>
    ensures { Resolves bound_of result (bound_where (expr_of test.now) (bound_of input)) }
{
    let test = bind_expr(alloc, &input.columns, test)?;
    filter(alloc, input, test)
}

fn filter(alloc: Global, input: Bound, test: Box<Expr>) -> Result<Bound, BindRefusal>
    ensures { Resolves bound_of result
        (Some (record (bound_of input) { plan = Filter (plan_of input.plan.value) (boxed_expr_of test) })) }
{
    let child = input.plan;
    let test = Box::into_inner(test);
    let plan = boxed(alloc, Plan::Filter { child, test })?;
    let columns = input.columns;
    Ok(Bound { plan, columns })
}

/// A row of these columns for each row.
pub fn bind_select(
    alloc: Global,
    input: Bound,
    columns: &[NamedColumn],
) -> Result<Bound, BindRefusal>
    ensures { Resolves bound_of result (bound_select (map column_of columns.now) (bound_of input)) }
{
    let exprs = bind_exprs(alloc, &input.columns, columns)?;
    select(alloc, input, columns, exprs)
}

/// The rows of the expressions, where the columns' names differ.
fn select(
    alloc: Global,
    input: Bound,
    columns: &[NamedColumn],
    exprs: Vec<Expr>,
) -> Result<Bound, BindRefusal>
    ensures { Resolves bound_of result
        (projected (bound_of input) (map (λ column. column.name) columns.now)
        (map bound.expr_of exprs.items)) }
{
    let columns = select_columns(alloc, &input.columns, columns, exprs.as_slice())?;
    project(alloc, input.plan, exprs, columns)
}

fn project(
    alloc: Global,
    child: Box<Plan>,
    exprs: Vec<Expr>,
    columns: Columns,
) -> Result<Bound, BindRefusal>
    ensures { Resolves bound_of result
        (with_columns (Project (plan_of child.value) (map bound.expr_of exprs.items)) columns.names
        columns.kinds) }
{
    let exprs = Seq::new(exprs);
    let plan = Plan::Project {
        child,
        columns: exprs,
    };
    with_columns(boxed(alloc, plan)?, columns)
}

/// A row for each group of rows with equal keys: the keys and then the results.
pub fn bind_group(
    alloc: Global,
    input: Bound,
    keys: &[Name],
    results: &[NamedResult],
) -> Result<Bound, BindRefusal>
    ensures { Resolves bound_of result (bound_group keys.now results.now (bound_of input)) }
{
    let parts = bind_parts(alloc, input.columns.names.items(), keys, results)?;
    group(alloc, input, keys, results, parts)
}

/// The groups, where the names of the keys and the results differ.
fn group(
    alloc: Global,
    input: Bound,
    keys: &[Name],
    results: &[NamedResult],
    parts: GroupParts,
) -> Result<Bound, BindRefusal>
    ensures { Resolves bound_of result
        (grouped (bound_of input) (keys.now ++ map (λ result. result.name) results.now) parts.places.items
        parts.aggs.items) }
{
    let columns = group_columns(alloc, &input.columns, keys, results, &parts)?;
    group_onto(alloc, input.plan, parts, columns)
}

fn group_onto(
    alloc: Global,
    child: Box<Plan>,
    parts: GroupParts,
    columns: Columns,
) -> Result<Bound, BindRefusal>
    ensures { Resolves bound_of result
        (with_columns (Group (plan_of child.value) parts.places.items parts.aggs.items) columns.names
        columns.kinds) }
{
    let keys = Seq::new(parts.places);
    let aggs = Seq::new(parts.aggs);
    let plan = boxed(alloc, Plan::Group { child, keys, aggs })?;
    with_columns(plan, columns)
}

/// Each left row with each right row that agrees with it: the left columns and then the right ones.
pub fn bind_join(
    alloc: Global,
    left: Bound,
    right: Bound,
    on: &[NamedPair],
) -> Result<Bound, BindRefusal>
    ensures { Resolves bound_of result (bound_join on.now (bound_of left) (bound_of right)) }
{
    let (lefts, rights) = (&left.columns.names, &right.columns.names);
    let pairs = bind_pairs(alloc, lefts.items(), rights.items(), on)?;
    join(alloc, left, right, pairs)
}

/// The joined rows, where the names differ.
fn join(
    alloc: Global,
    left: Bound,
    right: Bound,
    pairs: Vec<(u32, u32)>,
) -> Result<Bound, BindRefusal>
    ensures { Resolves bound_of result (joined (bound_of left) (bound_of right) pairs.items) }
{
    let columns = joined_columns(left.columns, right.columns)?;
    let (left, right) = (left.plan, right.plan);
    let on = Seq::new(pairs);
    let plan = boxed(alloc, Plan::Join { left, right, on })?;
    with_columns(plan, columns)
}

/// The first of equal rows.
pub fn bind_distinct(alloc: Global, input: Bound) -> Result<Bound, BindRefusal>
    ensures { Resolves bound_of result (Some (bound_distinct (bound_of input))) }
{
    let child = input.plan;
    let plan = boxed(alloc, Plan::Distinct { child })?;
    let columns = input.columns;
    Ok(Bound { plan, columns })
}

/// The rows sorted by keys.
pub fn bind_order(alloc: Global, input: Bound, keys: &[NamedKey]) -> Result<Bound, BindRefusal>
    ensures { Resolves bound_of result (bound_order keys.now (bound_of input)) }
{
    let keys = bind_all(alloc, input.columns.names.items(), keys)?;
    order(alloc, input, keys)
}

fn order(alloc: Global, input: Bound, keys: Vec<Key>) -> Result<Bound, BindRefusal>
    ensures { Resolves bound_of result
        (Some (record (bound_of input) { plan = Order (plan_of input.plan.value) keys.items })) }
{
    let child = input.plan;
    let keys = Seq::new(keys);
    let plan = boxed(alloc, Plan::Order { child, keys })?;
    let columns = input.columns;
    Ok(Bound { plan, columns })
}

/// The left rows and then the right ones, with the left columns' names.
pub fn bind_concat(alloc: Global, left: Bound, right: Bound) -> Result<Bound, BindRefusal>
    ensures { Resolves bound_of result (bound_concat (bound_of left) (bound_of right)) }
{
    let columns = left.columns;
    let (left, right) = (left.plan, right.plan);
    let plan = boxed(alloc, Plan::Concat { left, right })?;
    Ok(Bound { plan, columns })
}
