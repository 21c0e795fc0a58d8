//! Shapes, written as `rows:int,text`, as `groups:text/sum,avg` and as `join:int`: kinds, or the kinds of the
//! keys and what is kept of each aggregate (`count`, `sum`, `avg`, or the kind of a value).

use anyhow::{Context, Result};
use row_blob::{AccKind, Shape};
use rows_core::{Kind, Seq};
use std::alloc::Global;

pub fn shape_of(alloc: Global, text: &str) -> Result<Shape> {
    let (form, kinds) = text.split_once(':').context("no shape")?;
    match form {
        "rows" => Ok(Shape::Rows(kinds_of(alloc, kinds)?)),
        "join" => Ok(Shape::Tagged(kinds_of(alloc, kinds)?)),
        "groups" => {
            let (keys, accs) = kinds.split_once('/').context("no aggregate")?;
            Ok(Shape::Groups {
                keys: kinds_of(alloc, keys)?,
                accs: accs_of(alloc, accs)?,
            })
        }
        _ => None.context("no shape"),
    }
}

fn kinds_of(alloc: Global, text: &str) -> Result<Seq<Kind>> {
    let mut kinds = Vec::new(alloc);
    for word in text.split(',') {
        kinds.push(Kind::of(word.as_bytes()).context("no kind")?)?;
    }
    Ok(Seq::new(kinds))
}

fn accs_of(alloc: Global, text: &str) -> Result<Seq<AccKind>> {
    let mut accs = Vec::new(alloc);
    for word in text.split(',') {
        accs.push(acc_of(word)?)?;
    }
    Ok(Seq::new(accs))
}

fn acc_of(word: &str) -> Result<AccKind> {
    match word {
        "count" => Ok(AccKind::Count),
        "sum" => Ok(AccKind::Sum),
        "avg" => Ok(AccKind::Avg),
        _ => Ok(AccKind::Pick(Kind::of(word.as_bytes()).context("no kind")?)),
    }
}
