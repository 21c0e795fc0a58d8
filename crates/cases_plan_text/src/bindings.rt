//! Texts of plans over the streams `l (t:text, id:int)`, `r (k:text, v:int)` and `f (up:bool, n:int)`, with
//! numbers in place of names.

use crate::texts::{refused, word};
use anyhow::Result;
use plan_binder::{BindRefusal, Stream, bind as bind_plan};
use plan_core::{Plan, PlanRefusal, Schemas, type_plan};
use plan_text::{NamedPlan, parse_plan};
use rows_core::{Column, Kind, Name, Schema, Seq};
use std::alloc::Global;

/// The plan with numbers, or why there is none.
pub fn bind(alloc: Global, text: &[u8]) -> Result<String> {
    match parse_plan(alloc, text) {
        Ok(plan) => bound_shown(alloc, &plan),
        Err(refusal) => refused(alloc, refusal),
    }
}

fn bound_shown(alloc: Global, plan: &NamedPlan) -> Result<String> {
    let answer = bound(alloc, plan)?;
    answered(alloc, &answer)
}

fn answered(alloc: Global, answer: &Result<Plan, BindRefusal>) -> Result<String> {
    match answer {
        Ok(plan) => shown(alloc, plan),
        Err(BindRefusal::Unknown(name)) => unknown(alloc, name),
        Err(BindRefusal::IllTyped) => word(alloc, "ill typed"),
        Err(BindRefusal::Memory) => word(alloc, "memory"),
    }
}

fn unknown(alloc: Global, name: &Name) -> Result<String> {
    let name = std::str::from_utf8(name.bytes())?;
    Ok(format!(in alloc; "unknown {name}")?)
}

/// The numbers of a join of two streams by one pair of columns, or the plan itself.
fn shown(alloc: Global, plan: &Plan) -> Result<String> {
    let Plan::Join { left, right, on } = plan else {
        return Ok(format!(in alloc; "{plan:?}")?);
    };
    match (stream_of(left), stream_of(right), on.items()) {
        (Some(left), Some(right), [(first, second)]) => {
            Ok(format!(in alloc; "join {left} {right} on {first} = {second}")?)
        }
        _ => Ok(format!(in alloc; "{plan:?}")?),
    }
}

fn stream_of(plan: &Plan) -> Option<u32> {
    match plan {
        Plan::Scan { stream } => Some(*stream),
        _ => None,
    }
}

/// Whether the plan with numbers has a typing.
pub fn typing(alloc: Global, text: &[u8]) -> Result<String> {
    let plan = parse_plan(alloc, text)?;
    typing_of(alloc, &plan)
}

fn typing_of(alloc: Global, plan: &NamedPlan) -> Result<String> {
    let kinds = kinds(alloc)?;
    let answer = typing_by(alloc, plan, &kinds)?;
    word(alloc, answer)
}

fn typing_by(alloc: Global, plan: &NamedPlan, kinds: &Schemas) -> Result<&'static str> {
    let bound = bound(alloc, plan)??;
    Ok(match type_plan(alloc, bound, kinds) {
        Ok(_) => "typed",
        Err(PlanRefusal::IllTyped) => "ill typed",
        Err(_) => "another refusal",
    })
}

/// A stream, kept as the cases need it.
#[derive(Drop)]
struct KeptStream {
    name: Name,
    schema: Schema,
}

impl Stream for KeptStream {
    ghost name_of = { λ stream. stream.name };

    ghost columns_of = { λ stream. stream.schema };

    fn name(&self) -> &Name {
        &self.name
    }

    fn schema(&self) -> &Schema {
        &self.schema
    }
}

fn bound(alloc: Global, plan: &NamedPlan) -> Result<Result<Plan, BindRefusal>> {
    let streams = streams(alloc)?;
    Ok(bind_plan(alloc, plan, streams.as_slice()))
}

fn streams(alloc: Global) -> Result<Vec<KeptStream>> {
    let mut streams = Vec::new(alloc);
    streams.push(kept(alloc, b"l", column(alloc, b"t", Kind::Text)?, b"id")?)?;
    streams.push(kept(alloc, b"r", column(alloc, b"k", Kind::Text)?, b"v")?)?;
    streams.push(kept(alloc, b"f", column(alloc, b"up", Kind::Bool)?, b"n")?)?;
    Ok(streams)
}

/// The stream of this name with this column and one of numbers.
fn kept(alloc: Global, name: &[u8], first: Column, number: &[u8]) -> Result<KeptStream> {
    let name = Name::new(alloc, name)?;
    let schema = Schema::new(columns(alloc, first, number)?)?;
    Ok(KeptStream { name, schema })
}

fn columns(alloc: Global, first: Column, number: &[u8]) -> Result<Vec<Column>> {
    let mut columns = Vec::new(alloc);
    columns.push(first)?;
    columns.push(column(alloc, number, Kind::Int)?)?;
    Ok(columns)
}

fn column(alloc: Global, name: &[u8], kind: Kind) -> Result<Column> {
    let name = Name::new(alloc, name)?;
    Ok(Column { name, kind })
}

fn kinds(alloc: Global) -> Result<Schemas> {
    let mut kinds = Vec::new(alloc);
    kinds.push(and_number(alloc, Kind::Text)?)?;
    kinds.push(and_number(alloc, Kind::Text)?)?;
    kinds.push(and_number(alloc, Kind::Bool)?)?;
    Ok(Schemas {
        kinds: Seq::new(kinds),
    })
}

fn and_number(alloc: Global, first: Kind) -> Result<Seq<Kind>> {
    Ok(Seq::new(vec![in alloc; first, Kind::Int]?))
}
