//! Values of expressions at the row 7, "tea".

use crate::shown::cell_shown;
use anyhow::Result;
use plan_core::{EvRefusal, Expr, ev, expression_kind};
use postfix_plans::expr_of;
use rows_core::{Row, Txt, Value};
use scalar_ops::Cell;
use std::alloc::Global;

/// The value of an expression, or that it has no kind.
pub fn value(alloc: Global, text: &str) -> Result<String> {
    let row = number_and_text(alloc)?;
    let e = expr_of(alloc, text)?;
    value_at(alloc, &e, &row)
}

fn number_and_text(alloc: Global) -> Result<Row> {
    let mut values = Vec::new(alloc);
    values.push(Value::Int(7))?;
    values.push(Value::Text(Txt::new(alloc, b"tea")?))?;
    Ok(Row::new(values))
}

fn value_at(alloc: Global, e: &Expr, row: &Row) -> Result<String> {
    match typed_value(alloc, e, row) {
        Some(Ok(value)) => cell_shown(alloc, &value),
        Some(Err(refusal)) => Err(refusal.into()),
        None => Ok(String::from_str(alloc, "no kind")?),
    }
}

fn typed_value(alloc: Global, e: &Expr, row: &Row) -> Option<Result<Cell, EvRefusal>> {
    match row.values() {
        [first, second] => {
            let kinds = [first.kind(), second.kind()];
            expression_kind(&kinds, e)?;
            Some(ev(alloc, e, row))
        }
        _ => None,
    }
}
