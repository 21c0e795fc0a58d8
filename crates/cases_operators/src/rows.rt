//! Rows that pass, columns, the first of equal rows, and orders.

use crate::given::{exprs_of, keys_of};
use crate::shown::rows_shown;
use crate::typing::{all_typed, are_typed};
use anyhow::{Context, Result, bail};
use plan_core::Expr;
use postfix_plans::{Streams, expr_of};
use row_ops::{
    distinct_after, distinct_rows, merge_ordered, order_rows, select_rows, where_lent, where_rows,
};
use rows_core::{Kind, Row};
use std::alloc::Global;

/// The rows that the operator gives.
pub fn answer(alloc: Global, word: &str, arguments: &str, lists: Streams) -> Result<String> {
    let Streams { schemas, rows } = lists;
    let kinds = schemas.kinds.items().first().context("no list")?;
    let mut rows = rows.into_vec().into_iter();
    let first = rows.next().context("no list")?;
    match rows.next() {
        None => of_one(alloc, word, arguments, kinds.items(), first.into_vec()),
        Some(second) => of_two(alloc, word, arguments, first.into_vec(), second.into_vec()),
    }
}

fn of_one(
    alloc: Global,
    word: &str,
    arguments: &str,
    kinds: &[Kind],
    rows: Vec<Row>,
) -> Result<String> {
    match word {
        "where" => passing(alloc, arguments, kinds, rows),
        "lent" => passing_lent(alloc, arguments, kinds, &rows),
        "select" => selected(alloc, arguments, kinds, &rows),
        "distinct" => rows_shown(alloc, &distinct_rows(alloc, rows)?),
        "order" => ordered(alloc, arguments, rows),
        _ => bail!("no such operator"),
    }
}

fn of_two(
    alloc: Global,
    word: &str,
    arguments: &str,
    old: Vec<Row>,
    new: Vec<Row>,
) -> Result<String> {
    match word {
        "after" => rows_shown(alloc, &distinct_after(alloc, &old, new)?),
        "merge" => merged(alloc, arguments, old, new),
        _ => bail!("no such operator"),
    }
}

fn passing(alloc: Global, test: &str, kinds: &[Kind], rows: Vec<Row>) -> Result<String> {
    let test = expr_of(alloc, test)?;
    passing_by(alloc, &test, kinds, rows)
}

fn passing_by(alloc: Global, test: &Expr, kinds: &[Kind], rows: Vec<Row>) -> Result<String> {
    if !are_typed(&rows, kinds, test) {
        bail!("no typing");
    }
    rows_shown(alloc, &where_rows(alloc, rows, test)?)
}

fn passing_lent(alloc: Global, test: &str, kinds: &[Kind], rows: &[Row]) -> Result<String> {
    let test = expr_of(alloc, test)?;
    passing_lent_by(alloc, &test, kinds, rows)
}

fn passing_lent_by(alloc: Global, test: &Expr, kinds: &[Kind], rows: &[Row]) -> Result<String> {
    if !are_typed(rows, kinds, test) {
        bail!("no typing");
    }
    rows_shown(alloc, &where_lent(alloc, rows, test)?)
}

fn selected(alloc: Global, columns: &str, kinds: &[Kind], rows: &[Row]) -> Result<String> {
    let columns = exprs_of(alloc, columns)?;
    if !all_typed(rows, kinds, &columns) {
        bail!("no typing");
    }
    rows_shown(alloc, &select_rows(alloc, rows, &columns)?)
}

fn ordered(alloc: Global, keys: &str, rows: Vec<Row>) -> Result<String> {
    let keys = keys_of(alloc, keys)?;
    rows_shown(alloc, &order_rows(alloc, rows, keys.items())?)
}

fn merged(alloc: Global, keys: &str, old: Vec<Row>, new: Vec<Row>) -> Result<String> {
    let keys = keys_of(alloc, keys)?;
    rows_shown(alloc, &merge_ordered(alloc, old, new, keys.items())?)
}
