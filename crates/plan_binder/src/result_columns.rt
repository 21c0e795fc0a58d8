//! The names and kinds of a result's columns.
ghost use Rattle.std.specs.Prelude.{◌≡◌, ◌++◌, ℕ, List, map, slice_get, IfOk};
ghost use Rattle.rows_core.specs.Schema.{kinds_of};
ghost use Rattle.plan_core.specs.PlainExpr as bound;
ghost use Rattle.plan_core.specs.PlanTyping.{column_kind_of, agg_kind};
ghost use Rattle.plan_binder.specs.Binding.{kind_or_int};

use crate::allocation::push;
use crate::bind_names::GroupParts;
use crate::columns::Columns;
use plan_core::{Agg, Expr, expression_kind};
use plan_text::{NamedColumn, NamedResult};
use rows_core::{Column, Kind, Memory, Name};
use scalar_ops::CellKind;
use std::alloc::Global;

/// The columns of a projection.
pub fn select_columns(
    alloc: Global,
    input: &Columns,
    columns: &[NamedColumn],
    exprs: &[Expr],
) -> Result<Columns, Memory>
    ensures { IfOk result
        (λ found. found
        ≡ record {
          names = map (λ column. column.name) columns.now;
          kinds = map (λ e. kind_or_int (column_kind_of input.now.kinds (bound.expr_of e))) exprs.now;
        }) }
{
    let names = names_of(alloc, columns)?;
    let kinds = expr_kinds(alloc, input.kinds.items(), exprs)?;
    Ok(Columns::new(names, kinds))
}

/// The columns of groups: the keys and then the results.
pub fn group_columns(
    alloc: Global,
    input: &Columns,
    keys: &[Name],
    results: &[NamedResult],
    parts: &GroupParts,
) -> Result<Columns, Memory>
    ensures { IfOk result
        (λ found. found
        ≡ record {
          names = keys.now ++ map (λ result. result.name) results.now;
          kinds = map (λ place. kind_or_int (slice_get input.now.kinds place)) parts.now.places.items
              ++ map (λ agg. kind_or_int (agg_kind input.now.kinds agg)) parts.now.aggs.items;
        }) }
{
    let names = group_names(alloc, keys, results)?;
    let (places, aggs) = (parts.places.as_slice(), parts.aggs.as_slice());
    let kinds = group_kinds(alloc, input.kinds.items(), places, aggs)?;
    Ok(Columns::new(names, kinds))
}

/// What has a name of its own.
pub trait Named {
    ghost name_of: { Self → List ℕ };

    fn name(&self) -> &Name
        ensures { result.now ≡ name_of self.now };
}

impl Named for Name {
    ghost name_of = { λ name. name };

    fn name(&self) -> &Name {
        self
    }
}

impl Named for Column {
    ghost name_of = { λ column. column.name };

    fn name(&self) -> &Name {
        &self.name
    }
}

impl Named for NamedColumn {
    ghost name_of = { λ column. column.name };

    fn name(&self) -> &Name {
        &self.name
    }
}

impl Named for NamedResult {
    ghost name_of = { λ result. result.name };

    fn name(&self) -> &Name {
        &self.name
    }
}

/// Copies of the names of these.
pub fn names_of<T: Named>(alloc: Global, items: &[T]) -> Result<Vec<Name>, Memory>
    ensures { IfOk result (λ names. names.items ≡ map T.name_of items.now) }
{
    let mut names = Vec::with_capacity(alloc, items.len())?;
    for named in items {
        let name = named.name().try_copy(alloc)?;
        push(&mut names, name)?;
    }
    Ok(names)
}

pub fn schema_kinds(alloc: Global, columns: &[Column]) -> Result<Vec<Kind>, Memory>
    ensures { IfOk result (λ kinds. kinds.items ≡ kinds_of columns.now) }
{
    Ok(columns.iter().map(|column| column.kind).collect(alloc)?)
}

/// The kinds of these expressions as columns. One that has none counts as a number: typing refuses its plan.
fn expr_kinds(alloc: Global, kinds: &[Kind], exprs: &[Expr]) -> Result<Vec<Kind>, Memory>
    ensures { IfOk result
        (λ found. found.items
        ≡ map (λ e. kind_or_int (column_kind_of kinds.now (bound.expr_of e))) exprs.now) }
{
    Ok(
        exprs
            .iter()
            .map(|expr| expr_kind(kinds, expr))
            .collect(alloc)?,
    )
}

fn expr_kind(kinds: &[Kind], expr: &Expr) -> Kind
    ensures { result ≡ kind_or_int (column_kind_of kinds.now (bound.expr_of expr.now)) }
{
    match expression_kind(kinds, expr) {
        Some(CellKind::Text) => Kind::Text,
        Some(CellKind::Bool) => Kind::Bool,
        Some(CellKind::Int) | None => Kind::Int,
    }
}

/// The names of a group's columns: its keys and then its results.
#[tactic(auto, using(crate::proofs::BindingLaws::same_names))]
fn group_names(alloc: Global, keys: &[Name], results: &[NamedResult]) -> Result<Vec<Name>, Memory>
    ensures { IfOk result (λ names. names.items ≡ keys.now ++ map (λ result. result.name) results.now) }
{
    let mut names = names_of(alloc, keys)?;
    let mut others = names_of(alloc, results)?;
    names.append(&mut others)?;
    Ok(names)
}

/// The kinds of a group's columns.
fn group_kinds(
    alloc: Global,
    kinds: &[Kind],
    places: &[u32],
    aggs: &[Agg],
) -> Result<Vec<Kind>, Memory>
    ensures { IfOk result (λ found. found.items
        ≡ map (λ place. kind_or_int (slice_get kinds.now place)) places.now ++ map
        (λ agg. kind_or_int (agg_kind kinds.now agg)) aggs.now) }
{
    let mut found = place_kinds(alloc, kinds, places)?;
    let others = agg_kinds(alloc, kinds, aggs)?;
    found.extend_from_slice(others.as_slice())?;
    Ok(found)
}

/// The kinds of the columns at these places.
fn place_kinds(alloc: Global, kinds: &[Kind], places: &[u32]) -> Result<Vec<Kind>, Memory>
    ensures { IfOk result
        (λ found. found.items ≡ map (λ place. kind_or_int (slice_get kinds.now place)) places.now) }
{
    Ok(
        places
            .iter()
            .map(|place| place_kind(kinds, *place))
            .collect(alloc)?,
    )
}

fn place_kind(kinds: &[Kind], place: u32) -> Kind
    ensures { result ≡ kind_or_int (slice_get kinds.now place) }
{
    match kinds.get(place as usize) {
        Some(kind) => *kind,
        None => Kind::Int,
    }
}

/// The kinds of these aggregates.
fn agg_kinds(alloc: Global, kinds: &[Kind], aggs: &[Agg]) -> Result<Vec<Kind>, Memory>
    ensures { IfOk result
        (λ found. found.items ≡ map (λ agg. kind_or_int (agg_kind kinds.now agg)) aggs.now) }
{
    Ok(aggs.iter().map(|agg| agg_kind(kinds, *agg)).collect(alloc)?)
}

#[tactic(auto, using(crate::proofs::BindingLaws::number_or_int))]
fn agg_kind(kinds: &[Kind], agg: Agg) -> Kind
    ensures { result ≡ kind_or_int (agg_kind kinds.now agg) }
{
    match agg {
        Agg::Count | Agg::Sum(_) | Agg::Avg(_) => Kind::Int,
        Agg::Min(column) | Agg::Max(column) | Agg::First(column) | Agg::Last(column) => {
            place_kind(kinds, column)
        }
    }
}
