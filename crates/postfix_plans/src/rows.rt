//! The rows that a plan gives on streams.
ghost use Rattle.std.specs.Prelude.{◌≡◌, ◌↔◌, ◌++◌, map, codes, slice_get, string_bytes, Some};
ghost use Rattle.std.specs.Prelude.{IsTrue, IfOk, OnOk, IfSome};
ghost use Rattle.std.specs.List.{flat_map, join_by};
ghost use Rattle.rows_core.specs.Value.{kind_of};
ghost use Rattle.row_text.specs.RowSpelling.{row_spelling};
ghost use Rattle.plan_core.specs.TypedPlan.{IsTypedOver};
ghost use Rattle.plan_core.specs.TypedRows.{HaveKinds, AreOfStreams};
ghost use Rattle.postfix_plans.specs.Shown.{ShowsRows};

use crate::reader::plan_of;
use crate::streams::Streams;
use anyhow::{Context, Result};
use plan_core::{Plan, PlanRefusal, Schemas, Typed, type_plan};
use plan_evaluator::evaluate;
use row_text::print_row;
use rows_core::{Kind, Row, Seq, Value};
use std::alloc::Global;

/// The lines of the rows of a plan that is typed over the streams, with ` / ` between them, or the refusal.
pub fn rows_of(alloc: Global, typed: &Typed, streams: &Streams) -> Result<String>
    requires { IsTypedOver streams.now.schemas.kinds typed.now }
    ensures { IfOk result (λ text. ShowsRows typed.now streams.now.rows (string_bytes text)) }
{
    let lists = lists_of(alloc, typed.leaves(), streams.rows.items())?;
    if !are_of_streams(streams.schemas.kinds.items(), typed.leaves(), &lists) {
        return None.context("not rows of the streams");
    }
    let rows = evaluate(alloc, typed.plan(), &lists)?;
    printed(alloc, rows.items())
}

/// The plan with its typing over the streams, or the refusal.
pub fn typed(alloc: Global, plan: Plan, schemas: &Schemas) -> Result<Typed, PlanRefusal>
    ensures { IfOk result (λ typed. IsTypedOver schemas.now.kinds typed) }
{
    type_plan(alloc, plan, schemas)
}

/// The plan that is written so, with its typing over the streams.
pub fn typed_of(alloc: Global, text: &str, schemas: &Schemas) -> Result<Typed>
    ensures { IfOk result (λ typed. IsTypedOver schemas.now.kinds typed) }
{
    let plan = plan_of(alloc, text)?;
    Ok(typed(alloc, plan, schemas)?)
}

/// One list for each of the leaves.
fn lists_of(alloc: Global, leaves: &[u32], streams: &[Seq<Row>]) -> Result<Vec<Seq<Row>>>
    ensures { IfOk result (λ lists. map Some lists.items ≡ map (slice_get streams.now) leaves.now) }
{
    let mut lists = Vec::new(alloc);
    for leaf in leaves {
        lists.push(list_of(alloc, *leaf, streams)?)?;
    }
    Ok(lists)
}

/// The rows of the stream with this number.
fn list_of(alloc: Global, leaf: u32, streams: &[Seq<Row>]) -> Result<Seq<Row>>
    ensures { IfOk result (λ rows. Some rows ≡ slice_get streams.now leaf) }
{
    match streams.get(leaf as usize) {
        Some(rows) => copied(alloc, rows.items()),
        None => None.context("no stream"),
    }
}

fn copied(alloc: Global, rows: &[Row]) -> Result<Seq<Row>>
    ensures { IfOk result (λ copies. copies ≡ rows.now) }
{
    let mut copies = Vec::new(alloc);
    for row in rows {
        copies.push(row.try_copy(alloc)?)?;
    }
    Ok(Seq::new(copies))
}

fn has_kinds(values: &[Value], kinds: &[Kind]) -> bool
    ensures { IsTrue result ↔ map kind_of values.now ≡ kinds.now }
{
    match (values, kinds) {
        ([], []) => true,
        ([value, values @ ..], [kind, kinds @ ..]) => {
            value.kind() == *kind && has_kinds(values, kinds)
        }
        _ => false,
    }
}

fn have_kinds(rows: &[Row], kinds: &[Kind]) -> bool
    ensures { IsTrue result ↔ HaveKinds kinds.now rows.now }
{
    match rows {
        [] => true,
        [row, rows @ ..] => has_kinds(row.values(), kinds) && have_kinds(rows, kinds),
    }
}

fn is_of_stream(schemas: &[Seq<Kind>], stream: u32, rows: &[Row]) -> bool
    ensures { IsTrue result → IfSome (slice_get schemas.now stream) (λ kinds. HaveKinds kinds rows.now) }
{
    match schemas.get(stream as usize) {
        Some(kinds) => have_kinds(rows, kinds.items()),
        None => false,
    }
}

fn are_of_streams(schemas: &[Seq<Kind>], leaves: &[u32], lists: &[Seq<Row>]) -> bool
    ensures { IsTrue result → AreOfStreams schemas.now leaves.now lists.now }
{
    match (leaves, lists) {
        ([], []) => true,
        ([leaf, leaves @ ..], [rows, lists @ ..]) => {
            is_of_stream(schemas, *leaf, rows.items()) && are_of_streams(schemas, leaves, lists)
        }
        _ => false,
    }
}

fn printed(alloc: Global, rows: &[Row]) -> Result<String>
    ensures { IfOk result (λ text. string_bytes text ≡ join_by row_spelling (codes " / ") rows.now) }
{
    let mut text = Vec::new(alloc);
    match rows {
        [] => {}
        [row, others @ ..] => {
            print_row(row, &mut text)?;
            print_others(others, &mut text)?;
        }
    }
    Ok(String::from_str(alloc, std::str::from_utf8(&text)?)?)
}

/// Appends the lines of these rows, each behind ` / `.
fn print_others(rows: &[Row], text: &mut Vec<u8>) -> Result<()>
    ensures { OnOk result
        (text.new.items ≡ text.old.items ++ flat_map (λ row. codes " / " ++ row_spelling row) rows.now) }
{
    for row in rows {
        text.extend_from_slice(b" / ")?;
        print_row(row, text)?;
    }
    Ok(())
}
