//! How the row lines of an append are read.
ghost use Rattle.std.specs.Prelude.{ℕ, ◌<◌, ◌≤◌, take, length, not, IsTrue, IfOk, IfErr};
ghost use Rattle.rows_core.specs.Schema.{kinds_of};
ghost use Rattle.planning.specs.Rows.{Spell, SpellsRow, SpellsNone, SpellLong, AreRefused, have_long};

use row_text::{RowRefusal, read_row};
use rows_core::{Memory, Row, Schema, Text};
use script_text::{LimitKind, Refusal};
use std::alloc::Global;

/// The rows that the lines spell, one each: `Row` with the number, from 1, of the first line that spells no
/// row of the schema's kinds with texts of any length, and else `Limit(Text)` where a text is above 1,000
/// bytes.
pub(crate) fn read_rows(alloc: Global, lines: &[Text], schema: &Schema) -> Result<Vec<Row>, Refusal>
    ensures rows { IfOk result (λ rows. Spell (kinds_of schema.now) lines.now rows.items) }
    ensures short { IfOk result (λ rows. IsTrue (not (have_long rows.items))) }
    ensures refused { IfErr result (λ refusal. AreRefused (kinds_of schema.now) lines.now refusal) }
{
    let Ok(mut rows) = Vec::with_capacity(alloc, lines.len()) else {
        return Err(Refusal::Memory);
    };
    for (index, line) in lines.iter().enumerate() {
        match read_row(alloc, line.items(), schema) {
            Ok(row) => {
                if rows.push(row).is_err() {
                    return Err(Refusal::Memory);
                }
            }
            Err(RowRefusal::NotRow) => return Err(Refusal::Row(index as u64 + 1)),
            Err(RowRefusal::TooLong) => return Err(after_long(alloc, lines, index + 1, schema)),
            Err(RowRefusal::Memory) => return Err(Refusal::Memory),
        }
    }
    Ok(rows)
}

// Why the lines are refused, of which the first ones spell rows with a long text.
fn after_long(alloc: Global, lines: &[Text], start: usize, schema: &Schema) -> Refusal
    requires bound { start ≤ length lines.now }
    requires long { SpellLong (kinds_of schema.now) (take start lines.now) }
    ensures { AreRefused (kinds_of schema.now) lines.now result }
{
    for index in start..lines.len() {
        match is_row(alloc, &lines[index], schema) {
            Ok(true) => {}
            Ok(false) => return Refusal::Row(index as u64 + 1),
            Err(Memory) => return Refusal::Memory,
        }
    }
    Refusal::Limit(LimitKind::Text)
}

// Whether the line spells a row, with texts of any length.
fn is_row(alloc: Global, line: &Text, schema: &Schema) -> Result<bool, Memory>
    ensures row { IfOk result (λ is_row. IsTrue is_row → SpellsRow (kinds_of schema.now) line.now) }
    ensures none { IfOk result (λ is_row. IsTrue (not is_row) → SpellsNone (kinds_of schema.now) line.now) }
{
    match read_row(alloc, line.items(), schema) {
        Ok(_row) => Ok(true),
        Err(RowRefusal::TooLong) => Ok(true),
        Err(RowRefusal::NotRow) => Ok(false),
        Err(RowRefusal::Memory) => Err(Memory),
    }
}
