//! Fields at the end of the bytes.
ghost use Rattle.std.specs.Prelude.{◌≡◌, ◌++◌, OnOk, ◌<◌, ◌^◌, length};
ghost use Rattle.std.specs.Int.{w32, w64, w128, to_be_bytes};
ghost use Rattle.std.specs.List.{flat_map};
ghost use Rattle.row_blob.specs.Spelling.{value_spelling, acc_spelling, group_spelling, tagged_spelling};
ghost use Rattle.row_blob.specs.Spelling.{row_spelling};

use crate::kept::{Acc, GroupRow, TaggedRow};
use byte_formats::{put_flag, put_i64, put_text, put_u64, put_u128};
use rows_core::{Memory, Row, Value};

fn put_value(out: &mut Vec<u8>, value: &Value) -> Result<(), Memory>
    ensures { OnOk result (out.new.items ≡ out.old.items ++ value_spelling value.now) }
{
    match value {
        Value::Int(number) => put_i64(out, *number),
        Value::Text(text) => put_text(out, text),
        Value::Bool(truth) => put_flag(out, *truth),
    }
}

pub fn put_row(out: &mut Vec<u8>, row: &Row) -> Result<(), Memory>
    ensures { OnOk result (out.new.items ≡ out.old.items ++ row_spelling row.now) }
{
    for value in row.values() {
        put_value(out, value)?;
    }
    Ok(())
}

fn put_avg(out: &mut Vec<u8>, sum_bits: u128, count: u64) -> Result<(), Memory>
    ensures { OnOk result
        (out.new.items ≡ out.old.items ++ (to_be_bytes w128 sum_bits ++ to_be_bytes w64 count)) }
{
    put_u128(out, sum_bits)?;
    put_u64(out, count)
}

fn put_acc(out: &mut Vec<u8>, acc: &Acc) -> Result<(), Memory>
    ensures { OnOk result (out.new.items ≡ out.old.items ++ acc_spelling acc.now) }
{
    match acc {
        Acc::Count(count) => put_u64(out, *count),
        Acc::Sum(sum) => put_u128(out, sum.cast_unsigned()),
        Acc::Avg { sum, count } => put_avg(out, sum.cast_unsigned(), *count),
        Acc::Pick(value) => put_value(out, value),
    }
}

fn put_accs(out: &mut Vec<u8>, accs: &[Acc]) -> Result<(), Memory>
    ensures { OnOk result (out.new.items ≡ out.old.items ++ flat_map acc_spelling accs.now) }
{
    for acc in accs {
        put_acc(out, acc)?;
    }
    Ok(())
}

pub fn put_group(out: &mut Vec<u8>, group: &GroupRow) -> Result<(), Memory>
    ensures { OnOk result (out.new.items ≡ out.old.items ++ group_spelling group.now) }
{
    put_row(out, &group.key)?;
    put_accs(out, group.accs.items())
}

pub fn put_tagged(out: &mut Vec<u8>, tagged: &TaggedRow) -> Result<(), Memory>
    ensures { OnOk result (out.new.items ≡ out.old.items ++ tagged_spelling tagged.now) }
{
    put_u64(out, tagged.left)?;
    put_row(out, &tagged.row)
}
