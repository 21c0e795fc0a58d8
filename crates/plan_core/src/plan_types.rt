//! Typing of plans.
ghost use Rattle.std.specs.Prelude.{◌≡◌, ◌+◌, ◌||◌, map, length, nat_lt, slice_get, IfOk};
ghost use Rattle.std.specs.List.{list_all, find};
ghost use Rattle.std.specs.Option.{option_map};
ghost use Rattle.std.specs.Cmp.Lexicographic.{pointwise};
ghost use Rattle.plan_core.specs.PlainExpr.{expr_of};
ghost use Rattle.plan_core.specs.PlainPlan.{plan_of, Scan};
ghost use Rattle.plan_core.specs.PlanTyping.{same_kind, column_kind, is_truth, all_there, number_kind};
ghost use Rattle.plan_core.specs.PlanTyping.{agg_kind, are_one_kind, pair_agrees, filter_kinds};
ghost use Rattle.plan_core.specs.PlanTyping.{project_kinds, group_kinds, join_kinds, concat_kinds};
ghost use Rattle.plan_core.specs.PlanTyping.{order_kinds, column_kind_of, is_above_limit};
ghost use Rattle.plan_core.specs.Typing.{typing_with, IsTypingOf};

use crate::agg::Agg;
use crate::expr::Expr;
use crate::plan::Plan;
use crate::typing::expression_kind;
use rows_core::{Key, Kind, Memory, Seq};
use scalar_ops::CellKind;
use std::alloc::Global;

/// The greatest number of columns of an operator's rows, of keys of an order and of pairs of a join.
const MAX_COUNT: usize = 32;

/// The kinds of a plan's columns, and whether the plan has too many columns, keys or pairs.
#[derive(Drop)]
pub struct Typing {
    pub kinds: Seq<Kind>,
    pub too_many: bool,
}

/// The typing of a plan over streams of these kinds; `None` exactly where it has none.
pub fn typing_of(
    alloc: Global,
    schemas: &[Seq<Kind>],
    plan: &Plan,
) -> Result<Option<Typing>, Memory>
    ensures { IfOk result (λ typing. IsTypingOf schemas.now (plan_of plan.now) typing) }
{
    match plan {
        Plan::Scan { stream } => scan_typing(alloc, schemas, *stream),
        Plan::Filter { child, test } => match typing_of(alloc, schemas, child)? {
            Some(child) => Ok(filter_typing(child, test)),
            None => Ok(None),
        },
        Plan::Project { child, columns } => match typing_of(alloc, schemas, child)? {
            Some(child) => project_typing(alloc, &child, columns.items()),
            None => Ok(None),
        },
        Plan::Distinct { child } => typing_of(alloc, schemas, child),
        Plan::Group { child, keys, aggs } => match typing_of(alloc, schemas, child)? {
            Some(child) => group_typing(alloc, &child, keys.items(), aggs.items()),
            None => Ok(None),
        },
        Plan::Join { left, right, on } => {
            match (
                typing_of(alloc, schemas, left)?,
                typing_of(alloc, schemas, right)?,
            ) {
                (Some(left), Some(right)) => join_typing(left, &right, on.items()),
                _ => Ok(None),
            }
        }
        Plan::Concat { left, right } => {
            match (
                typing_of(alloc, schemas, left)?,
                typing_of(alloc, schemas, right)?,
            ) {
                (Some(left), Some(right)) => Ok(concat_typing(left, &right)),
                _ => Ok(None),
            }
        }
        Plan::Order { child, keys } => match typing_of(alloc, schemas, child)? {
            Some(child) => Ok(order_typing(child, keys.items())),
            None => Ok(None),
        },
    }
}

fn scan_typing(alloc: Global, schemas: &[Seq<Kind>], stream: u32) -> Result<Option<Typing>, Memory>
    ensures { IfOk result (λ typing. IsTypingOf schemas.now (Scan stream) typing) }
{
    let Some(kinds) = schemas.get(stream as usize) else {
        return Ok(None);
    };
    let kinds = kinds.try_copy(alloc)?;
    let too_many = is_above_limit(kinds.items().len());
    Ok(Some(Typing { kinds, too_many }))
}

fn filter_typing(child: Typing, test: &Expr) -> Option<Typing>
    ensures { result ≡ option_map (typing_with child.too_many) (filter_kinds (expr_of test.now) child.kinds) }
{
    if is_truth(expression_kind(child.kinds.items(), test)) {
        Some(child)
    } else {
        None
    }
}

#[tactic(auto, using(crate::proofs::PlanLaws::kinds_of_project))]
fn project_typing(alloc: Global, child: &Typing, columns: &[Expr]) -> Result<Option<Typing>, Memory>
    ensures { IfOk result (λ typing. typing
        ≡ option_map (typing_with (is_above_limit (length columns.now) || child.now.too_many))
        (project_kinds (map expr_of columns.now) child.now.kinds)) }
{
    if columns.is_empty() {
        return Ok(None);
    }
    let Some(kinds) = column_kinds(alloc, child.kinds.items(), columns)? else {
        return Ok(None);
    };
    Ok(Some(Typing {
        kinds: Seq::new(kinds),
        too_many: is_above_limit(columns.len()) || child.too_many,
    }))
}

fn group_typing(
    alloc: Global,
    child: &Typing,
    keys: &[u32],
    aggs: &[Agg],
) -> Result<Option<Typing>, Memory>
    ensures { IfOk result (λ typing. typing
        ≡ option_map (typing_with (is_above_limit (length keys.now + length aggs.now) || child.now.too_many))
        (group_kinds keys.now aggs.now child.now.kinds)) }
{
    if keys.is_empty() || aggs.is_empty() {
        return Ok(None);
    }
    let Some(mut kinds) = key_kinds(alloc, child.kinds.items(), keys)? else {
        return Ok(None);
    };
    let Some(agg_kinds) = agg_kinds(alloc, child.kinds.items(), aggs)? else {
        return Ok(None);
    };
    kinds.extend_from_slice(agg_kinds.as_slice())?;
    Ok(Some(Typing {
        kinds: Seq::new(kinds),
        too_many: are_above_limit(keys.len(), aggs.len()) || child.too_many,
    }))
}

fn join_typing(left: Typing, right: &Typing, on: &[(u32, u32)]) -> Result<Option<Typing>, Memory>
    ensures { IfOk result (λ typing. typing
        ≡ option_map (typing_with (is_above_limit (length left.kinds + length right.now.kinds)
        || is_above_limit (length on.now) || left.too_many || right.now.too_many))
        (join_kinds on.now left.kinds right.now.kinds)) }
{
    if on.is_empty() || !all_agree(left.kinds.items(), right.kinds.items(), on) {
        return Ok(None);
    }
    let too_many = are_above_limit(left.kinds.items().len(), right.kinds.items().len())
        || is_above_limit(on.len())
        || left.too_many
        || right.too_many;
    let mut kinds = left.kinds.into_vec();
    kinds.extend_from_slice(right.kinds.items())?;
    Ok(Some(Typing {
        kinds: Seq::new(kinds),
        too_many,
    }))
}

fn concat_typing(left: Typing, right: &Typing) -> Option<Typing>
    ensures { result ≡ option_map (typing_with (left.too_many || right.now.too_many))
        (concat_kinds left.kinds right.now.kinds) }
{
    if !are_same_kinds(left.kinds.items(), right.kinds.items()) {
        return None;
    }
    let too_many = left.too_many || right.too_many;
    Some(Typing {
        kinds: left.kinds,
        too_many,
    })
}

fn order_typing(child: Typing, keys: &[Key]) -> Option<Typing>
    ensures { result ≡ option_map (typing_with (is_above_limit (length keys.now) || child.too_many))
        (order_kinds keys.now child.kinds) }
{
    if keys.is_empty() || !all_within(child.kinds.items().len(), keys) {
        return None;
    }
    let too_many = is_above_limit(keys.len()) || child.too_many;
    Some(Typing {
        kinds: child.kinds,
        too_many,
    })
}

/// The kinds of these columns, where each has one.
#[tactic(auto, using(crate::specs::AllThere::found))]
fn column_kinds(
    alloc: Global,
    kinds: &[Kind],
    columns: &[Expr],
) -> Result<Option<Vec<Kind>>, Memory>
    ensures { IfOk result (λ r. option_map (λ v. v.items) r
        ≡ all_there (map (λ e. column_kind_of kinds.now (expr_of e)) columns.now)) }
{
    let mut found = Vec::with_capacity(alloc, columns.len())?;
    for column in columns {
        let Some(kind) = column_kind_of(kinds, column) else {
            return Ok(None);
        };
        found.push(kind)?;
    }
    Ok(Some(found))
}

/// The kinds of these keys, where each column is there.
#[tactic(auto, using(crate::specs::AllThere::found))]
fn key_kinds(alloc: Global, kinds: &[Kind], keys: &[u32]) -> Result<Option<Vec<Kind>>, Memory>
    ensures { IfOk result (λ r. option_map (λ v. v.items) r
        ≡ all_there (map (slice_get kinds.now) keys.now)) }
{
    let mut found = Vec::with_capacity(alloc, keys.len())?;
    for key in keys {
        let Some(kind) = kind_at(kinds, *key) else {
            return Ok(None);
        };
        found.push(kind)?;
    }
    Ok(Some(found))
}

/// The kinds of these aggregates, where each has one.
#[tactic(auto, using(crate::specs::AllThere::found))]
fn agg_kinds(alloc: Global, kinds: &[Kind], aggs: &[Agg]) -> Result<Option<Vec<Kind>>, Memory>
    ensures { IfOk result (λ r. option_map (λ v. v.items) r ≡ all_there (map (agg_kind kinds.now) aggs.now)) }
{
    let mut found = Vec::with_capacity(alloc, aggs.len())?;
    for agg in aggs {
        let Some(kind) = agg_kind(kinds, *agg) else {
            return Ok(None);
        };
        found.push(kind)?;
    }
    Ok(Some(found))
}

/// The kind of a column of a projection.
fn column_kind_of(kinds: &[Kind], column: &Expr) -> Option<Kind>
    ensures { result ≡ column_kind_of kinds.now (expr_of column.now) }
{
    match expression_kind(kinds, column)? {
        CellKind::Int => Some(Kind::Int),
        CellKind::Text => Some(Kind::Text),
        CellKind::Bool => Some(Kind::Bool),
    }
}

fn agg_kind(kinds: &[Kind], agg: Agg) -> Option<Kind>
    ensures { result ≡ agg_kind kinds.now agg }
{
    match agg {
        Agg::Count => Some(Kind::Int),
        Agg::Sum(column) | Agg::Avg(column) => number_kind(kind_at(kinds, column)),
        Agg::Min(column) | Agg::Max(column) | Agg::First(column) | Agg::Last(column) => {
            kind_at(kinds, column)
        }
    }
}

fn kind_at(kinds: &[Kind], column: u32) -> Option<Kind>
    ensures { result ≡ slice_get kinds.now column }
{
    kinds.get(column as usize).copied()
}

fn number_kind(kind: Option<Kind>) -> Option<Kind>
    ensures { result ≡ number_kind kind }
{
    match kind {
        Some(Kind::Int) => Some(Kind::Int),
        _ => None,
    }
}

fn is_truth(kind: Option<CellKind>) -> bool
    ensures { result ≡ is_truth kind }
{
    matches!(kind, Some(CellKind::Bool))
}

fn all_agree(left: &[Kind], right: &[Kind], on: &[(u32, u32)]) -> bool
    ensures { result ≡ list_all (pair_agrees left.now right.now) on.now }
{
    on.iter().all(|pair| are_one_kind(kind_at(left, pair.0), kind_at(right, pair.1)))
}

fn are_one_kind(left: Option<Kind>, right: Option<Kind>) -> bool
    ensures { result ≡ are_one_kind left right }
{
    match (left, right) {
        (Some(left), Some(right)) => same_kind(left, right),
        _ => false,
    }
}

fn same_kind(a: Kind, b: Kind) -> bool
    ensures { result ≡ same_kind a b }
{
    a == b
}

fn are_same_kinds(left: &[Kind], right: &[Kind]) -> bool
    ensures { result ≡ pointwise same_kind left.now right.now }
{
    match (left, right) {
        ([], []) => true,
        ([first, left @ ..], [other, right @ ..]) => {
            same_kind(*first, *other) && are_same_kinds(left, right)
        }
        _ => false,
    }
}

/// Whether each key is of one of this many columns.
fn all_within(count: usize, keys: &[Key]) -> bool
    ensures { result ≡ list_all (λ key. nat_lt key.column count) keys.now }
{
    keys.iter().all(|key| (key.column as usize) < count)
}

fn is_above_limit(count: usize) -> bool
    ensures { result ≡ is_above_limit count }
{
    count > MAX_COUNT
}

/// Whether there are more together than the limit.
fn are_above_limit(count: usize, other: usize) -> bool
    ensures { result ≡ is_above_limit (count + other) }
{
    count.saturating_add(other) > MAX_COUNT
}
