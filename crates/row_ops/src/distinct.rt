//! The first of equal rows.
ghost use Rattle.std.specs.Prelude.{◌≡◌, true, not, IfOk};
ghost use Rattle.std.specs.List.{list_any, filter};
ghost use Rattle.rows_core.specs.Value.{row_eq};
ghost use Rattle.plan_core.specs.Columns.{Row};
ghost use Rattle.plan_core.specs.Distinct.{distinct_rows};
ghost use Rattle.plan_laws.specs.GrowthOfRows.{has_row, new_rows};

use indexmap::IndexSet;
use rows_core::{Memory, Row};
use std::alloc::Global;

/// The first of equal rows, in the order of the rows: `Distinct` of LINQ to Objects, whose order is this
/// project's own.
pub fn distinct_rows(alloc: Global, rows: Vec<Row>) -> Result<Vec<Row>, Memory>
    ensures { IfOk result (λ first. first.items ≡ distinct_rows rows.items) }
{
    let first = first_rows(alloc, rows)?;
    rows_of_set(alloc, first)
}

/// The first of equal rows, without those that the old rows have: what rows that are added give behind the
/// old result. It keeps no more of the old rows in memory than it finds among the added ones.
pub fn distinct_after(alloc: Global, old: &[Row], rows: Vec<Row>) -> Result<Vec<Row>, Memory>
    ensures { IfOk result (λ new. new.items ≡ new_rows old.now rows.items) }
{
    let mut new = first_rows(alloc, rows)?;
    let known = found_in(alloc, &new, old)?;
    leave_out(&mut new, &known);
    rows_of_set(alloc, new)
}

/// The first of equal rows, as a set.
pub fn first_rows(alloc: Global, rows: Vec<Row>) -> Result<IndexSet<Row>, Memory>
    ensures { IfOk result (λ first. first.keys ≡ distinct_rows rows.items) }
{
    let mut first = IndexSet::new(alloc);
    first.extend(rows)?;
    Ok(first)
}

/// The rows of a set, in their order.
pub fn rows_of_set(alloc: Global, set: IndexSet<Row>) -> Result<Vec<Row>, Memory>
    ensures { IfOk result (λ rows. rows.items ≡ set.keys) }
{
    Ok(set.into_iter().collect(alloc)?)
}

// Those of the rows that the set has, lent.
fn found_in<'a>(
    alloc: Global,
    set: &IndexSet<Row>,
    rows: &'a [Row],
) -> Result<IndexSet<&'a Row>, Memory>
    ensures { IfOk result (λ found. (row : Row) → has_row set.now.keys row ≡ true
        → list_any (λ key. row_eq row key.now) found.keys ≡ has_row rows.now row) }
{
    let mut found = IndexSet::new(alloc);
    for row in rows {
        if set.contains(row) {
            found.insert(row)?;
        }
    }
    Ok(found)
}

// Keeps the rows of the set that aren't known.
fn leave_out(set: &mut IndexSet<Row>, known: &IndexSet<&Row>)
    ensures { set.new.keys ≡ filter
        (λ row. not (list_any (λ key. row_eq row key.now) known.now.keys)) set.old.keys }
{
    set.retain(|row| !known.contains(&row));
}
