//! What a reader of a kept result expects of its file.
ghost use Rattle.std.specs.Prelude.{◌≡◌, map, IfOk};
ghost use Rattle.plan_core.specs.PlainPlan.{plan_of};
ghost use Rattle.executor.specs.Pieces.{HasTyping};
ghost use Rattle.plan_laws.specs.PlanShape.{kinds_given, kind_at, acc_kind_of, plan_shape};

use plan_core::{Agg, Plan, PlanRefusal, Schemas, type_plan};
use row_blob::{AccKind, Shape};
use rows_core::{Kind, Memory, Seq};
use std::alloc::Global;

/// The shape of what is kept of the result of a typed plan over these streams.
#[tactic(auto, using(crate::proofs::Typings::left_of_join, crate::proofs::Typings::right_of_join))]
pub fn shape_of(alloc: Global, schemas: &Schemas, plan: &Plan) -> Result<Shape, Memory>
    requires { HasTyping schemas.now.kinds (plan_of plan.now) }
    ensures { IfOk result (λ shape. shape ≡ plan_shape schemas.now.kinds (plan_of plan.now)) }
{
    match plan {
        Plan::Group { child, keys, aggs } => {
            let kinds = kinds_of(alloc, schemas, child)?;
            group_shape(alloc, kinds.as_slice(), keys.items(), aggs.items())
        }
        Plan::Join { left, right, on: _ } => {
            let mut kinds = kinds_of(alloc, schemas, left)?;
            let right = kinds_of(alloc, schemas, right)?;
            kinds.extend_from_slice(right.as_slice())?;
            Ok(Shape::Tagged(Seq::new(kinds)))
        }
        Plan::Scan { .. }
        | Plan::Filter { .. }
        | Plan::Project { .. }
        | Plan::Distinct { .. }
        | Plan::Concat { .. }
        | Plan::Order { .. } => Ok(Shape::Rows(Seq::new(kinds_of(alloc, schemas, plan)?))),
    }
}

// The kinds of its columns.
fn kinds_of(alloc: Global, schemas: &Schemas, plan: &Plan) -> Result<Vec<Kind>, Memory>
    requires { HasTyping schemas.now.kinds (plan_of plan.now) }
    ensures { IfOk result (λ kinds. kinds.items ≡ kinds_given schemas.now.kinds (plan_of plan.now)) }
{
    match type_plan(alloc, plan.try_copy(alloc)?, schemas) {
        Ok(typed) => Ok(Vec::from_slice(alloc, typed.kinds())?),
        Err(PlanRefusal::Memory) => Err(Memory),
        Err(_) => unreachable!(),
    }
}

// The shape of groups of rows of these kinds.
fn group_shape(alloc: Global, kinds: &[Kind], keys: &[u32], aggs: &[Agg]) -> Result<Shape, Memory>
    ensures { IfOk result (λ shape. shape
        ≡ Shape.Groups (map (kind_at kinds.now) keys.now) (map (acc_kind_of kinds.now) aggs.now)) }
{
    let keys = key_kinds(alloc, kinds, keys)?;
    let accs = acc_kinds(alloc, kinds, aggs)?;
    Ok(Shape::Groups {
        keys: Seq::new(keys),
        accs: Seq::new(accs),
    })
}

// The kinds of these keys.
fn key_kinds(alloc: Global, kinds: &[Kind], keys: &[u32]) -> Result<Vec<Kind>, Memory>
    ensures { IfOk result (λ found. found.items ≡ map (kind_at kinds.now) keys.now) }
{
    Ok(keys.iter().map(|key| kind_at(kinds, *key)).collect(alloc)?)
}

// What a group keeps for these aggregates.
fn acc_kinds(alloc: Global, kinds: &[Kind], aggs: &[Agg]) -> Result<Vec<AccKind>, Memory>
    ensures { IfOk result (λ found. found.items ≡ map (acc_kind_of kinds.now) aggs.now) }
{
    Ok(
        aggs.iter()
            .map(|agg| acc_kind_of(kinds, *agg))
            .collect(alloc)?,
    )
}

fn acc_kind_of(kinds: &[Kind], agg: Agg) -> AccKind
    ensures { result ≡ acc_kind_of kinds.now agg }
{
    match agg {
        Agg::Count => AccKind::Count,
        Agg::Sum(_) => AccKind::Sum,
        Agg::Avg(_) => AccKind::Avg,
        Agg::Min(column) | Agg::Max(column) | Agg::First(column) | Agg::Last(column) => {
            AccKind::Pick(kind_at(kinds, column))
        }
    }
}

// The kind of a column; of a typed plan's columns each is there.
fn kind_at(kinds: &[Kind], column: u32) -> Kind
    ensures { result ≡ kind_at kinds.now column }
{
    kinds.get(column as usize).copied().unwrap_or(Kind::Int)
}
