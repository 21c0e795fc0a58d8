//! What is kept of columns and of plans while they are read.
ghost use Rattle.std.specs.Prelude.{◌≡◌, ◌++◌, ◌∷◌, [], IfOk};
ghost use Rattle.plan_text.specs.Draft.{limits, seen};
ghost use Rattle.plan_text.specs.PlanDraft.{seen_columns, seen_plan, columns_draft_of, with_column};
ghost use Rattle.plan_text.specs.PlanDraft.{from_draft, where_draft, select_draft, distinct_draft};
ghost use Rattle.plan_text.specs.PlanDraft.{group_draft, join_draft, concat_draft, order_draft};
ghost use Rattle.plan_text.specs.Reader.{Makes};

use crate::counts::{NARROW, NONE, WIDE};
use crate::draft::{Draft, ExprDraft, boxed};
use crate::text_refusal::TextRefusal;
use crate::{NamedColumn, NamedKey, NamedPair, NamedResult, NamedTree};
use rows_core::{Memory, Name, Seq};
use std::alloc::Global;

/// What is kept of a plan.
pub type PlanDraft = Draft<Box<NamedTree>>;

/// What is kept of the columns of a projection.
pub type ColumnsDraft = Draft<Vec<NamedColumn>>;

/// The rows of the stream.
pub fn stream(alloc: Global, stream: Name) -> Result<PlanDraft, TextRefusal>
    ensures { Makes seen_plan result (from_draft limits stream) }
{
    let part = Some(boxed(alloc, NamedTree::From { stream })?);
    let counts = NARROW;
    Ok(Draft { part, counts })
}

/// The plan's rows that pass the test.
pub fn filtered(alloc: Global, plan: PlanDraft, test: ExprDraft) -> Result<PlanDraft, TextRefusal>
    ensures { Makes seen_plan result (where_draft limits (seen_plan plan) (seen test)) }
{
    let Draft { part, counts } = plan.with(test).counting(NARROW);
    let Some((child, test)) = part else {
        return Ok(Draft { part: None, counts });
    };
    let test = Box::into_inner(test);
    let part = Some(boxed(alloc, NamedTree::Where { child, test })?);
    Ok(Draft { part, counts })
}

/// The columns of each of the plan's rows.
pub fn projected(
    alloc: Global,
    plan: PlanDraft,
    columns: ColumnsDraft,
) -> Result<PlanDraft, TextRefusal>
    ensures { Makes seen_plan result (select_draft limits (seen_plan plan) (seen_columns columns)) }
{
    let Draft { part, counts } = plan.with(columns).counting(NARROW);
    let Some((child, columns)) = part else {
        return Ok(Draft { part: None, counts });
    };
    let columns = Seq::new(columns);
    let part = Some(boxed(alloc, NamedTree::Select { child, columns })?);
    Ok(Draft { part, counts })
}

/// The plan's rows, each once.
pub fn distinct(alloc: Global, plan: PlanDraft) -> Result<PlanDraft, TextRefusal>
    ensures { Makes seen_plan result (distinct_draft limits (seen_plan plan)) }
{
    let Draft { part, counts } = plan.counting(WIDE);
    let Some(child) = part else {
        return Ok(Draft { part: None, counts });
    };
    let part = Some(boxed(alloc, NamedTree::Distinct { child })?);
    Ok(Draft { part, counts })
}

/// The results of each group of the plan's rows.
pub fn grouped(
    alloc: Global,
    plan: PlanDraft,
    keys: Vec<Name>,
    results: Vec<NamedResult>,
) -> Result<PlanDraft, TextRefusal>
    ensures { Makes seen_plan result (group_draft limits (seen_plan plan) keys.items results.items) }
{
    let Draft { part, counts } = plan.counting(NARROW);
    let Some(child) = part else {
        return Ok(Draft { part: None, counts });
    };
    let keys = Seq::new(keys);
    let results = Seq::new(results);
    let part = Some(boxed(
        alloc,
        NamedTree::Group {
            child,
            keys,
            results,
        },
    )?);
    Ok(Draft { part, counts })
}

/// The pairs of rows of two plans that agree.
pub fn joined(
    alloc: Global,
    plan: PlanDraft,
    right: PlanDraft,
    on: Vec<NamedPair>,
) -> Result<PlanDraft, TextRefusal>
    ensures { Makes seen_plan result (join_draft limits (seen_plan plan) (seen_plan right) on.items) }
{
    let Draft { part, counts } = plan.with(right).counting(WIDE);
    let Some((left, right)) = part else {
        return Ok(Draft { part: None, counts });
    };
    let on = Seq::new(on);
    let part = Some(boxed(alloc, NamedTree::Join { left, right, on })?);
    Ok(Draft { part, counts })
}

/// The rows of one plan, then those of another.
pub fn concatenated(
    alloc: Global,
    first: PlanDraft,
    last: PlanDraft,
) -> Result<PlanDraft, TextRefusal>
    ensures { Makes seen_plan result (concat_draft limits (seen_plan first) (seen_plan last)) }
{
    let Draft { part, counts } = first.with(last).counting(WIDE);
    let Some((left, right)) = part else {
        return Ok(Draft { part: None, counts });
    };
    let part = Some(boxed(alloc, NamedTree::Concat { left, right })?);
    Ok(Draft { part, counts })
}

/// The plan's rows in the order of the keys.
pub fn ordered(
    alloc: Global,
    plan: PlanDraft,
    keys: Vec<NamedKey>,
) -> Result<PlanDraft, TextRefusal>
    ensures { Makes seen_plan result (order_draft limits (seen_plan plan) keys.items) }
{
    let Draft { part, counts } = plan.counting(NARROW);
    let Some(child) = part else {
        return Ok(Draft { part: None, counts });
    };
    let keys = Seq::new(keys);
    let part = Some(boxed(alloc, NamedTree::Order { child, keys })?);
    Ok(Draft { part, counts })
}

/// No column.
pub fn no_columns(alloc: Global) -> ColumnsDraft
    ensures { seen_columns result ≡ columns_draft_of limits [] }
{
    Draft {
        part: Some(Vec::new(alloc)),
        counts: NONE,
    }
}

/// One column more.
pub fn with_column(
    columns: ColumnsDraft,
    name: Name,
    expr: ExprDraft,
) -> Result<ColumnsDraft, TextRefusal>
    ensures { Makes seen_columns result (with_column limits (seen_columns columns) (name, seen expr)) }
{
    let Draft { part, counts } = columns.with(expr);
    let Some((columns, expr)) = part else {
        return Ok(Draft { part: None, counts });
    };
    let expr = Box::into_inner(expr);
    let part = Some(pushed(columns, NamedColumn { name, expr })?);
    Ok(Draft { part, counts })
}

/// The items and one more.
pub fn pushed<T: Drop>(items: Vec<T>, item: T) -> Result<Vec<T>, Memory>
    ensures { IfOk result (λ all. all.items ≡ items.items ++ item ∷ []) }
{
    let mut items = items;
    items.push(item)?;
    Ok(items)
}
