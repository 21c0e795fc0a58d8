//! Normal plans.
ghost use Rattle.std.specs.Prelude.{◌≡◌, ◌+◌, ◌-◌, ◌^◌, length, map, min, slice_get, unwrap_or, [], IfOk};
ghost use Rattle.plan_core.specs.PlainExpr.{expr_of};
ghost use Rattle.plan_core.specs.PlainPlan.{plan_of};
ghost use Rattle.plan_canon.specs.NormalExpr.{normal_exprs};
ghost use Rattle.plan_canon.specs.PlanRules.{put_in, are_columns, width};
ghost use Rattle.plan_canon.specs.NormalPlan.{filter_of, project_last, project_of, normal_plan};

use crate::expressions::{and_of, is_true, normal_expr};
use crate::fusion::{are_columns_from, may_fuse, put_in};
use plan_core::{Expr, Plan, Schemas};
use rows_core::{Memory, Seq};
use std::alloc::Global;

/// The normal form of a plan over these streams.
pub fn normal_plan(alloc: Global, schemas: &Schemas, plan: &Plan) -> Result<Plan, Memory>
    ensures { IfOk result (λ normal. plan_of normal ≡ normal_plan schemas.now.kinds (plan_of plan.now)) }
{
    match plan {
        Plan::Scan { stream } => Ok(Plan::Scan { stream: *stream }),
        Plan::Filter { child, test } => {
            let child = normal_plan(alloc, schemas, child)?;
            let test = normal_expr(alloc, test)?;
            filter_of(alloc, &child, test)
        }
        Plan::Project { child, columns } => {
            let child = normal_plan(alloc, schemas, child)?;
            let columns = normal_exprs(alloc, columns.items())?;
            project_of(alloc, schemas, &child, columns)
        }
        Plan::Distinct { child } => Ok(Plan::Distinct {
            child: Box::new(alloc, normal_plan(alloc, schemas, child)?)?,
        }),
        Plan::Group { child, keys, aggs } => Ok(Plan::Group {
            child: Box::new(alloc, normal_plan(alloc, schemas, child)?)?,
            keys: keys.try_copy(alloc)?,
            aggs: aggs.try_copy(alloc)?,
        }),
        Plan::Join { left, right, on } => Ok(Plan::Join {
            left: Box::new(alloc, normal_plan(alloc, schemas, left)?)?,
            right: Box::new(alloc, normal_plan(alloc, schemas, right)?)?,
            on: on.try_copy(alloc)?,
        }),
        Plan::Concat { left, right } => Ok(Plan::Concat {
            left: Box::new(alloc, normal_plan(alloc, schemas, left)?)?,
            right: Box::new(alloc, normal_plan(alloc, schemas, right)?)?,
        }),
        Plan::Order { child, keys } => Ok(Plan::Order {
            child: Box::new(alloc, normal_plan(alloc, schemas, child)?)?,
            keys: keys.try_copy(alloc)?,
        }),
    }
}

/// The normal form of a test of a normal plan by a normal expression.
fn filter_of(alloc: Global, plan: &Plan, test: Expr) -> Result<Plan, Memory>
    ensures { IfOk result (λ normal. plan_of normal ≡ filter_of (plan_of plan.now) (expr_of test)) }
{
    match plan {
        Plan::Filter { child, test: first } => {
            let both = and_of(alloc, first.try_copy(alloc)?, &test)?;
            filter_of(alloc, child, both)
        }
        Plan::Concat { left, right } => {
            let copy = test.try_copy(alloc)?;
            let left = filter_of(alloc, left, copy)?;
            let right = filter_of(alloc, right, test)?;
            Ok(Plan::Concat {
                left: Box::new(alloc, left)?,
                right: Box::new(alloc, right)?,
            })
        }
        Plan::Order { child, keys } => {
            let child = filter_of(alloc, child, test)?;
            Ok(Plan::Order {
                child: Box::new(alloc, child)?,
                keys: keys.try_copy(alloc)?,
            })
        }
        Plan::Distinct { child } => {
            let child = filter_of(alloc, child, test)?;
            Ok(Plan::Distinct {
                child: Box::new(alloc, child)?,
            })
        }
        _ => {
            if is_true(&test) {
                return plan.try_copy(alloc);
            }
            Ok(Plan::Filter {
                child: Box::new(alloc, plan.try_copy(alloc)?)?,
                test,
            })
        }
    }
}

/// The normal form of normal columns of a normal plan.
fn project_of(
    alloc: Global,
    schemas: &Schemas,
    plan: &Plan,
    columns: Seq<Expr>,
) -> Result<Plan, Memory>
    ensures { IfOk result
        (λ normal. plan_of normal ≡ project_of schemas.now.kinds (plan_of plan.now) (map expr_of columns)) }
{
    match plan {
        Plan::Project {
            child,
            columns: first,
        } => {
            if may_fuse(first.items(), columns.items()) {
                let columns_below = fused(alloc, first.items(), columns.items())?;
                project_of(alloc, schemas, child, columns_below)
            } else {
                project_last(alloc, schemas, plan, columns)
            }
        }
        _ => project_last(alloc, schemas, plan, columns),
    }
}

fn project_last(
    alloc: Global,
    schemas: &Schemas,
    plan: &Plan,
    columns: Seq<Expr>,
) -> Result<Plan, Memory>
    ensures { IfOk result
        (λ normal. plan_of normal ≡ project_last schemas.now.kinds (plan_of plan.now) (map expr_of columns)) }
{
    if are_columns(width(schemas, plan), columns.items()) {
        return plan.try_copy(alloc);
    }
    Ok(Plan::Project {
        child: Box::new(alloc, plan.try_copy(alloc)?)?,
        columns,
    })
}

/// The width of the plan's rows, cut at the greatest number.
fn width(schemas: &Schemas, plan: &Plan) -> usize
    ensures { result ≡ min (2 ^ 64 - 1) (width schemas.now.kinds (plan_of plan.now)) }
{
    match plan {
        Plan::Scan { stream } => stream_width(schemas, *stream),
        Plan::Filter { child, test: _ }
        | Plan::Distinct { child }
        | Plan::Order { child, keys: _ } => { width(schemas, child) }
        Plan::Project { child: _, columns } => columns.items().len(),
        Plan::Group {
            child: _,
            keys,
            aggs,
        } => keys.items().len().saturating_add(aggs.items().len()),
        Plan::Join { left, right, on: _ } => width(schemas, left).saturating_add(width(
            schemas, right,
        )),
        Plan::Concat { left, right: _ } => width(schemas, left),
    }
}

fn stream_width(schemas: &Schemas, stream: u32) -> usize
    ensures { result ≡ length (unwrap_or (slice_get schemas.now.kinds stream) []) }
{
    match schemas.kinds.items().get(stream as usize) {
        Some(kinds) => kinds.items().len(),
        None => 0,
    }
}

fn are_columns(width: usize, columns: &[Expr]) -> bool
    ensures { result ≡ are_columns width (map expr_of columns.now) }
{
    width == columns.len() && are_columns_from(0, columns)
}

fn normal_exprs(alloc: Global, es: &[Expr]) -> Result<Seq<Expr>, Memory>
    ensures { IfOk result (λ normal. map expr_of normal ≡ normal_exprs (map expr_of es.now)) }
{
    let mut normal = Vec::with_capacity(alloc, es.len())?;
    for e in es {
        normal.push(normal_expr(alloc, e)?)?;
    }
    Ok(Seq::new(normal))
}

/// The normal forms of columns over columns.
fn fused(alloc: Global, es: &[Expr], fs: &[Expr]) -> Result<Seq<Expr>, Memory>
    ensures { IfOk result
        (λ fused. map expr_of fused ≡ normal_exprs (map (put_in (map expr_of es.now)) (map expr_of fs.now))) }
{
    let columns = put_in_all(alloc, es, fs)?;
    normal_exprs(alloc, columns.items())
}

fn put_in_all(alloc: Global, es: &[Expr], fs: &[Expr]) -> Result<Seq<Expr>, Memory>
    ensures { IfOk result
        (λ fused. map expr_of fused ≡ map (put_in (map expr_of es.now)) (map expr_of fs.now)) }
{
    let mut fused = Vec::with_capacity(alloc, fs.len())?;
    for f in fs {
        fused.push(put_in(alloc, es, f)?)?;
    }
    Ok(Seq::new(fused))
}
