//! The keys of programs' plans.
ghost use Rattle.std.specs.Prelude.{◌≡◌, map, IfOk};
ghost use Rattle.rows_core.specs.Schema.{kinds_of};
ghost use Rattle.plan_core.specs.PlainPlan.{plan_of};
ghost use Rattle.plan_core.specs.TypedPlan.{IsTypedOver};
ghost use Rattle.plan_text.specs.Answer.{AsPlan};
ghost use Rattle.hex.specs.Hex.{encode_lower};
ghost use Rattle.fingerprints.specs.Keys.{program_key};
ghost use Rattle.catalog_page.specs.ProgramKeys.{AreKeyed, IsKeyed, IsKeyOf, IsPlanKey};
ghost use Rattle.catalog_page.specs.ProgramKeys.{IsNormalKey, IsReadKey, schemas_of};

use crate::catalogue::{Catalogue, Keyed, ProgramLine, StreamLine};
use fingerprints::program_key;
use plan_binder::{BindRefusal, Stream, bind};
use plan_canon::canon;
use plan_core::{Plan, PlanRefusal, Schemas, Typed, type_plan};
use plan_spelling::typed_plan_has_spelling;
use plan_text::{NamedPlan, TextRefusal, parse_plan};
use rows_core::{Column, Digest, Kind, Memory, Name, Schema, Seq, Text};
use std::alloc::Global;

impl Stream for StreamLine {
    ghost name_of = { λ s. s.name };

    ghost columns_of = { λ s. s.schema };

    fn name(&self) -> &Name {
        &self.name
    }

    fn schema(&self) -> &Schema {
        &self.schema
    }
}

/// The programs of a catalogue, each with the key of its plan over the streams.
pub(crate) fn keyed(alloc: Global, catalogue: &Catalogue) -> Result<Vec<Keyed>, Memory>
    ensures { IfOk result (λ keyed.
        AreKeyed catalogue.now.streams.items catalogue.now.programs.items keyed.items) }
{
    let schemas = schemas_of(alloc, &catalogue.streams)?;
    each_keyed(alloc, &catalogue.streams, &schemas, &catalogue.programs)
}

fn each_keyed(
    alloc: Global,
    streams: &[StreamLine],
    schemas: &Schemas,
    programs: &[ProgramLine],
) -> Result<Vec<Keyed>, Memory>
    requires { schemas.now.kinds ≡ schemas_of streams.now }
    ensures { IfOk result (λ keyed. AreKeyed streams.now programs.now keyed.items) }
{
    let mut keyed = Vec::with_capacity(alloc, programs.len())?;
    for program in programs {
        let found = with_key(alloc, streams, schemas, program)?;
        keyed.push(found)?;
    }
    Ok(keyed)
}

fn with_key(
    alloc: Global,
    streams: &[StreamLine],
    schemas: &Schemas,
    program: &ProgramLine,
) -> Result<Keyed, Memory>
    requires { schemas.now.kinds ≡ schemas_of streams.now }
    ensures { IfOk result (IsKeyed streams.now program.now) }
{
    let key = key_of_text(alloc, streams, schemas, program.text.items())?;
    Ok(Keyed {
        name: program.name.try_copy(alloc)?,
        text: program.text.try_copy(alloc)?,
        key,
    })
}

fn key_of_text(
    alloc: Global,
    streams: &[StreamLine],
    schemas: &Schemas,
    text: &[u8],
) -> Result<Option<Text>, Memory>
    requires { schemas.now.kinds ≡ schemas_of streams.now }
    ensures { IfOk result (IsKeyOf streams.now text.now) }
{
    match parse_plan(alloc, text) {
        Ok(plan) => key_of_named(alloc, streams, schemas, &plan),
        Err(TextRefusal::Syntax) => Ok(None),
        Err(TextRefusal::Limit { .. }) => Ok(None),
        Err(TextRefusal::Memory) => Err(Memory),
    }
}

fn key_of_named(
    alloc: Global,
    streams: &[StreamLine],
    schemas: &Schemas,
    plan: &NamedPlan,
) -> Result<Option<Text>, Memory>
    requires { schemas.now.kinds ≡ schemas_of streams.now }
    ensures { IfOk result (IsReadKey streams.now (AsPlan plan.now)) }
{
    match bind(alloc, plan, streams) {
        Ok(bound) => key_of_bound(alloc, schemas, bound),
        Err(BindRefusal::Unknown(_)) => Ok(None),
        Err(BindRefusal::IllTyped) => Ok(None),
        Err(BindRefusal::Memory) => Err(Memory),
    }
}

fn key_of_bound(alloc: Global, schemas: &Schemas, plan: Plan) -> Result<Option<Text>, Memory>
    ensures { IfOk result (IsPlanKey schemas.now.kinds (plan_of plan)) }
{
    match type_plan(alloc, plan, schemas) {
        Ok(typed) => Ok(Some(key_of_typed(alloc, schemas, typed)?)),
        Err(PlanRefusal::Unknown { .. }) => Ok(None),
        Err(PlanRefusal::IllTyped) => Ok(None),
        Err(PlanRefusal::TooMany) => Ok(None),
        Err(PlanRefusal::Memory) => Err(Memory),
    }
}

// The key of the plan's normal form.
fn key_of_typed(alloc: Global, schemas: &Schemas, plan: Typed) -> Result<Text, Memory>
    requires { IsTypedOver schemas.now.kinds plan }
    ensures { IfOk result (IsNormalKey schemas.now.kinds plan.plan) }
{
    let normal = canon(alloc, plan, schemas)?;
    let key = key_of_normal(alloc, &normal)?;
    Ok(key)
}

fn key_of_normal(alloc: Global, normal: &Typed) -> Result<Text, Memory>
    ensures { IfOk result (λ key. key ≡ encode_lower (program_key normal.now.plan).bytes) }
{
    typed_plan_has_spelling(normal);
    let key = program_key(alloc, normal.plan())?;
    digits_of(alloc, &key)
}

fn digits_of(alloc: Global, digest: &Digest) -> Result<Text, Memory>
    ensures { IfOk result (λ digits. digits ≡ encode_lower digest.now.bytes) }
{
    let digits = hex::encode(alloc, digest.bytes.as_slice())?;
    Ok(Seq::new(digits.into_bytes()))
}

fn schemas_of(alloc: Global, streams: &[StreamLine]) -> Result<Schemas, Memory>
    ensures { IfOk result (λ schemas. schemas.kinds ≡ schemas_of streams.now) }
{
    let mut kinds = Vec::with_capacity(alloc, streams.len())?;
    for stream in streams {
        kinds.push(kinds_of(alloc, stream.schema.columns())?)?;
    }
    Ok(Schemas {
        kinds: Seq::new(kinds),
    })
}

fn kinds_of(alloc: Global, columns: &[Column]) -> Result<Seq<Kind>, Memory>
    ensures { IfOk result (λ kinds. kinds ≡ kinds_of columns.now) }
{
    let mut kinds = Vec::with_capacity(alloc, columns.len())?;
    for column in columns {
        kinds.push(column.kind)?;
    }
    Ok(Seq::new(kinds))
}
