//! Rows that are made by a small generator.

use anyhow::Result;
use rows_core::{Kind, Row, Seq, Txt, Value};
use std::alloc::Global;

const FACTOR: u64 = 6_364_136_223_846_793_005;

const STEP: u64 = 1_442_695_040_888_963_407;

/// A linear congruential generator, whose upper bits are the numbers.
#[derive(Clone, Copy)]
struct Generator {
    state: u64,
}

impl Generator {
    fn next(&mut self) -> u64 {
        self.state = self.state.wrapping_mul(FACTOR).wrapping_add(STEP);
        self.state >> 33
    }
}

/// So many rows of each of the streams, which have these kinds.
pub fn rows_made(alloc: Global, streams: &[Seq<Kind>], count: u32) -> Result<Seq<Seq<Row>>> {
    let mut generator = Generator { state: 1 };
    let mut lists = Vec::new(alloc);
    for kinds in streams {
        lists.push(list_made(alloc, kinds.items(), count, &mut generator)?)?;
    }
    Ok(Seq::new(lists))
}

fn list_made(
    alloc: Global,
    kinds: &[Kind],
    count: u32,
    generator: &mut Generator,
) -> Result<Seq<Row>> {
    let mut rows = Vec::new(alloc);
    for _ in 0..count {
        rows.push(row_made(alloc, kinds, generator)?)?;
    }
    Ok(Seq::new(rows))
}

fn row_made(alloc: Global, kinds: &[Kind], generator: &mut Generator) -> Result<Row> {
    let mut values = Vec::new(alloc);
    for kind in kinds {
        values.push(value_made(alloc, *kind, generator.next())?)?;
    }
    Ok(Row::new(values))
}

/// A number from -10 to 10, one of five texts, or a truth value.
fn value_made(alloc: Global, kind: Kind, number: u64) -> Result<Value> {
    match kind {
        Kind::Int => Ok(Value::Int((number % 21) as i64 - 10)),
        Kind::Text => Ok(Value::Text(Txt::new(alloc, text_made(number))?)),
        Kind::Bool => Ok(Value::Bool(number % 2 == 1)),
    }
}

fn text_made(number: u64) -> &'static [u8] {
    match number % 5 {
        0 => b"oak",
        1 => b"Oak",
        2 => b"tea",
        3 => b"teapot",
        _ => b"",
    }
}
