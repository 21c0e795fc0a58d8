//! How answers are shown.

use anyhow::Result;
use plan_core::Plan;
use row_text::print_row;
use rows_core::{Cut, Row};
use std::alloc::Global;

/// The lines of the rows, with ` / ` between them.
pub fn rows_shown(alloc: Global, rows: &[Row]) -> Result<String> {
    let mut shown = String::new(alloc);
    for row in rows {
        let mut text = Vec::new(alloc);
        print_row(row, &mut text)?;
        put(&mut shown, " / ", std::str::from_utf8(&text)?)?;
    }
    Ok(shown)
}

/// How many rows these lines are.
pub fn count_shown(alloc: Global, rows: &str) -> Result<String> {
    let count = rows.split(" / ").filter(|row| !row.is_empty()).count();
    Ok(format!(in alloc; "{count} rows")?)
}

/// Numbers, with `,` between them; `none` where there are none.
pub fn numbers_shown(alloc: Global, numbers: &[u32]) -> Result<String> {
    let mut shown = String::new(alloc);
    for number in numbers {
        put(&mut shown, ",", format!(in alloc; "{number}")?.as_str())?;
    }
    if shown.is_empty() {
        shown.push_str("none")?;
    }
    Ok(shown)
}

/// A cut, as `0-1,0-2`.
pub fn cuts_shown(alloc: Global, cuts: &[Cut]) -> Result<String> {
    let mut shown = String::new(alloc);
    for cut in cuts {
        let cut = format!(in alloc; "{}-{}", cut.from, cut.to)?;
        put(&mut shown, ",", cut.as_str())?;
    }
    Ok(shown)
}

/// The word of the plan's operator.
pub fn word_of(plan: &Plan) -> &'static str {
    match plan {
        Plan::Scan { .. } => "scan",
        Plan::Filter { .. } => "filter",
        Plan::Project { .. } => "columns",
        Plan::Distinct { .. } => "distinct",
        Plan::Group { .. } => "group",
        Plan::Join { .. } => "join",
        Plan::Concat { .. } => "concat",
        Plan::Order { .. } => "order",
    }
}

/// Appends a part, behind what stands between it and the part before.
pub fn put(shown: &mut String, between: &str, part: &str) -> Result<()> {
    if !shown.is_empty() {
        shown.push_str(between)?;
    }
    shown.push_str(part)?;
    Ok(())
}
