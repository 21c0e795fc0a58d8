//! The lists of a case, and the arguments of operators, which are read as plans of one operator.
ghost use Rattle.std.specs.Prelude.{◌≤◌, length, IfOk};

use anyhow::{Result, bail};
use plan_core::{Agg, Expr, Plan};
use postfix_plans::{Streams, expr_of, plan_of};
use rows_core::{Key, Row, Seq};
use std::alloc::Global;

/// Expressions, with `, ` between them.
pub fn exprs_of(alloc: Global, text: &str) -> Result<Vec<Expr>> {
    let mut exprs = Vec::new(alloc);
    for column in text.split(", ") {
        exprs.push(expr_of(alloc, column)?)?;
    }
    Ok(exprs)
}

/// The keys of an order, as `up0 down1`.
pub fn keys_of(alloc: Global, text: &str) -> Result<Seq<Key>> {
    let text = format!(in alloc; "s0 {text} order")?;
    let plan = plan_of(alloc, text.as_str())?;
    keys_in(alloc, &plan)
}

fn keys_in(alloc: Global, plan: &Plan) -> Result<Seq<Key>> {
    match plan {
        Plan::Order { keys, .. } => Ok(keys.try_copy(alloc)?),
        _ => bail!("no order"),
    }
}

/// The key columns of a grouping and its aggregates.
#[derive(Drop)]
pub struct Grouping {
    pub keys: Seq<u32>,
    pub aggs: Seq<Agg>,
}

/// The keys and the aggregates of a grouping, as `key0 count sum1`.
pub fn grouping_of(alloc: Global, text: &str) -> Result<Grouping> {
    let text = format!(in alloc; "s0 {text} group")?;
    let plan = plan_of(alloc, text.as_str())?;
    grouping_in(alloc, &plan)
}

fn grouping_in(alloc: Global, plan: &Plan) -> Result<Grouping> {
    match plan {
        Plan::Group { keys, aggs, .. } => Ok(Grouping {
            keys: keys.try_copy(alloc)?,
            aggs: aggs.try_copy(alloc)?,
        }),
        _ => bail!("no grouping"),
    }
}

/// The pairs of columns of a join, as `on0=1`.
pub fn pairs_of(alloc: Global, text: &str) -> Result<Seq<(u32, u32)>> {
    let text = format!(in alloc; "s0 s1 {text} join")?;
    let plan = plan_of(alloc, text.as_str())?;
    pairs_in(alloc, &plan)
}

fn pairs_in(alloc: Global, plan: &Plan) -> Result<Seq<(u32, u32)>> {
    match plan {
        Plan::Join { on, .. } => Ok(on.try_copy(alloc)?),
        _ => bail!("no join"),
    }
}

/// The list at this place, which has at most 4,294,967,295 rows.
pub fn list_at(lists: &Streams, place: usize) -> Result<&[Row]>
    ensures { IfOk result (λ rows. length rows.now ≤ 4294967295) }
{
    match lists.rows.items().get(place) {
        Some(rows) if rows.items().len() <= 4_294_967_295 => Ok(rows.items()),
        _ => bail!("no such list"),
    }
}
