//! The texts of answers.

use anyhow::{Context, Result};
use case_text::shown;
use rows_core::{Digest, Name, Row, Seq, Value};
use script_text::{Answer, LimitKind, Refusal, line_count, print_line};
use std::alloc::Global;

/// The line of the answer of this word and argument.
pub fn answer(alloc: Global, arguments: &str) -> Result<String> {
    let (word, argument) = arguments.split_once(' ').unwrap_or((arguments, ""));
    let answer = answer_of(alloc, word, argument)?;
    line_of(alloc, &answer)
}

fn answer_of(alloc: Global, word: &str, argument: &str) -> Result<Answer> {
    Ok(match word {
        "done" => Answer::Ok,
        "held" => Answer::Held(argument.parse::<u64>()?),
        "ready" => Answer::Ready(argument.parse::<u64>()?),
        "left" => Answer::Left(argument.parse::<u64>()?),
        _ => Answer::Refused(refusal(alloc, word, argument)?),
    })
}

// The one line of the answer, behind a word.
fn line_of(alloc: Global, answer: &Answer) -> Result<String> {
    if line_count(answer, false) != 1 {
        return None.context("not one line");
    }
    let mut to = Vec::from_slice(alloc, b"before ")?;
    print_line(answer, false, 0, &mut to)?;
    shown::lines(alloc, &to)
}

/// The text of a result of so many rows of one number, with the results that were used and kept, numbers with
/// commas or `-`, and the bytes that were read.
pub fn result(alloc: Global, quiet: bool, arguments: &str) -> Result<String> {
    let answer = result_of(alloc, arguments)?;
    text_of(alloc, &answer, quiet)
}

fn result_of(alloc: Global, arguments: &str) -> Result<Answer> {
    let (count, others) = arguments.split_once(' ').context("no results")?;
    let (used, others) = others.split_once(' ').context("no kept results")?;
    let (kept, read) = others.split_once(' ').context("no bytes")?;
    let read = read.parse::<u64>()?;
    let used = Seq::new(ids(alloc, used)?);
    let kept = Seq::new(ids(alloc, kept)?);
    let rows = Seq::new(rows(alloc, count)?);
    Ok(Answer::Result {
        rows,
        used,
        kept,
        read,
    })
}

// All lines of an answer.
fn text_of(alloc: Global, answer: &Answer, quiet: bool) -> Result<String> {
    let mut to = Vec::new(alloc);
    for line in 0..line_count(answer, quiet) {
        print_line(answer, quiet, line, &mut to)?;
    }
    shown::lines(alloc, &to)
}

// The rows of the numbers below `count`.
fn rows(alloc: Global, count: &str) -> Result<Vec<Row>> {
    let count = count.parse::<i64>()?;
    let mut rows = Vec::new(alloc);
    for number in 0..count {
        rows.push(row(alloc, number)?)?;
    }
    Ok(rows)
}

fn row(alloc: Global, number: i64) -> Result<Row> {
    Ok(Row::new(vec![in alloc; Value::Int(number)]?))
}

fn ids(alloc: Global, text: &str) -> Result<Vec<u32>> {
    let mut ids = Vec::new(alloc);
    if text != "-" {
        for id in text.split(',') {
            ids.push(id.parse::<u32>()?)?;
        }
    }
    Ok(ids)
}

fn refusal(alloc: Global, word: &str, argument: &str) -> Result<Refusal> {
    Ok(match word {
        "limit" => Refusal::Limit(limit(argument)?),
        "syntax" => Refusal::Syntax,
        "unknown" => Refusal::Unknown(Name::new(alloc, argument.as_bytes())?),
        "exists" => Refusal::Exists(Name::new(alloc, argument.as_bytes())?),
        "type" => Refusal::IllTyped,
        "row" => Refusal::Row(argument.parse::<u64>()?),
        "fault" => Refusal::Fault,
        "damaged" => damaged(argument)?,
        "unreadable" => unreadable(argument)?,
        "overflow" => Refusal::Overflow,
        "memory" => Refusal::Memory,
        _ => return None.context("no such answer"),
    })
}

// Of a file's number and two digests in hex.
fn damaged(argument: &str) -> Result<Refusal> {
    let (file, digests) = argument.split_once(' ').context("no digest")?;
    let (kept, found) = digests.split_once(' ').context("one digest")?;
    Ok(Refusal::Damaged {
        file: file.parse::<u64>()?,
        kept: digest_of(kept)?,
        found: digest_of(found)?,
    })
}

fn digest_of(text: &str) -> Result<Digest> {
    let mut bytes = [0; 32];
    hex::decode_to_slice(text, &mut bytes)?;
    Ok(Digest { bytes })
}

// Of a file's number and a place.
fn unreadable(argument: &str) -> Result<Refusal> {
    let (file, at) = argument.split_once(' ').context("no place")?;
    Ok(Refusal::Unreadable {
        file: file.parse::<u64>()?,
        at: at.parse::<u64>()?,
    })
}

/// The kinds of limits by their words.
const LIMITS: [(&str, LimitKind); 17] = [
    ("line", LimitKind::Line),
    ("block", LimitKind::Block),
    ("nodes", LimitKind::Nodes),
    ("wide", LimitKind::Wide),
    ("expr", LimitKind::Expr),
    ("text", LimitKind::Text),
    ("extent", LimitKind::Extent),
    ("columns", LimitKind::Columns),
    ("streams", LimitKind::Streams),
    ("extents", LimitKind::Extents),
    ("allextents", LimitKind::AllExtents),
    ("plantext", LimitKind::PlanText),
    ("programs", LimitKind::Programs),
    ("jobs", LimitKind::Jobs),
    ("files", LimitKind::Files),
    ("commands", LimitKind::Commands),
    ("machine", LimitKind::Machine),
];

fn limit(word: &str) -> Result<LimitKind> {
    for (other, kind) in &LIMITS {
        if *other == word {
            return Ok(*kind);
        }
    }
    None.context("no such limit")
}
