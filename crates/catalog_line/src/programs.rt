//! Stored programs.
ghost use Rattle.std.specs.Prelude.{◌≡◌, IfOk};
ghost use Rattle.std.specs.List.{AllByRecursion};
ghost use Rattle.serde_json.specs.View.{view};
ghost use Rattle.plan_text.specs.Answer.{text_reading};
ghost use Rattle.catalog_line.specs.CatalogData.{list_of, cuts_data, leaf_names, program_data};
ghost use Rattle.catalog_line.specs.Readable.{IsReadable};

use crate::cuts::cuts_value;
use crate::object::Object;
use crate::texts::{name_value, text_value};
use catalog_types::Program;
use plan_text::{TextRefusal, parse_plan};
use rows_core::Memory;
use serde_json::Value;
use std::alloc::Global;

/// The programs in the byte order of their names.
pub(crate) fn programs_value(alloc: Global, programs: &[Program]) -> Result<Value, Memory>
    requires { AllByRecursion IsReadable programs.now }
    ensures { IfOk result (λ value. view value ≡ list_of program_data programs.now) }
{
    let mut items = Vec::with_capacity(alloc, programs.len())?;
    for program in programs {
        items.push(program_value(alloc, program)?)?;
    }
    Ok(Value::Array(items))
}

#[tactic(auto, unfolding(crate::specs::CatalogData::program_data))]
fn program_value(alloc: Global, program: &Program) -> Result<Value, Memory>
    requires { IsReadable program.now }
    ensures { IfOk result (λ value. view value ≡ program_data program.now) }
{
    let cuts = program_cuts(alloc, program)?;
    let name = name_value(alloc, &program.name)?;
    let plan = text_value(alloc, program.text.items())?;
    let object = Object::new(alloc)
        .value("cuts", cuts)?
        .value("name", name)?
        .value("plan", plan)?;
    Ok(object.into_value())
}

// The extents of the last run.
fn program_cuts(alloc: Global, program: &Program) -> Result<Value, Memory>
    requires { IsReadable program.now }
    ensures { IfOk result (λ value. view value
        ≡ cuts_data (leaf_names (text_reading program.now.text)) program.now.cuts) }
{
    match parse_plan(alloc, program.text.items()) {
        Ok(plan) => cuts_value(alloc, plan.streams(), program.cuts.items()),
        Err(TextRefusal::Syntax) => unreachable!(),
        Err(TextRefusal::Limit { .. }) => unreachable!(),
        Err(TextRefusal::Memory) => Err(Memory),
    }
}
