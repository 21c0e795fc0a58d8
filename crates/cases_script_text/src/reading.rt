//! What a script spells, taken in pieces.

use anyhow::{Context, Result};
use case_text::{script, shown};
use plan_text::{NamedPlan, print_plan};
use rows_core::{Column, Name, Text};
use script_text::{Answer, Command, Item, Lines, Refusal, print_line};
use std::alloc::Global;

/// The commands and refusals of a script, which are the same in pieces of 1, 7 and 65,536 bytes.
pub fn spells(alloc: Global, text: &str) -> Result<String> {
    let script = script::bytes(alloc, text)?;
    let whole = items(alloc, &script, 65_536)?;
    for piece in [1, 7] {
        if items(alloc, &script, piece)? != whole {
            return None.context("other items in other pieces");
        }
    }
    shown::lines(alloc, &whole)
}

/// What a block of 1,024 row lines gives, each of 65,536 bytes with its LF, and these bytes behind them.
pub fn block(alloc: Global, text: &str) -> Result<String> {
    let last = script::bytes(alloc, text)?;
    let line = row_line(alloc)?;
    let mut reader = Lines::new(alloc)?;
    block_of(alloc, &line, &last, &mut reader)
}

fn row_line(alloc: Global) -> Result<Vec<u8>> {
    let mut line = vec![in alloc; b'x'; 65_535]?;
    line.push(b'\n')?;
    Ok(line)
}

fn block_of(alloc: Global, line: &[u8], last: &[u8], reader: &mut Lines) -> Result<String> {
    pass(b"append s t\n", reader);
    for _ in 0..1024 {
        pass(line, reader);
    }
    pass(last, reader);
    let mut to = Vec::new(alloc);
    push_item(alloc, reader.take(b"end\n").1, &mut to)?;
    shown::lines(alloc, &to)
}

// Takes bytes that end no command.
fn pass(bytes: &[u8], reader: &mut Lines) {
    let _ = reader.take(bytes);
}

// The items of a script, a line each.
fn items(alloc: Global, script: &[u8], piece: usize) -> Result<Vec<u8>> {
    let reader = Lines::new(alloc)?;
    let mut to = Vec::new(alloc);
    push_items(alloc, script, piece, reader, &mut to)?;
    Ok(to)
}

fn push_items(
    alloc: Global,
    script: &[u8],
    piece: usize,
    mut reader: Lines,
    to: &mut Vec<u8>,
) -> Result<()> {
    match push_ended(alloc, script, piece, &mut reader, to) {
        Ok(()) => push_item(alloc, reader.finish(), to),
        Err(error) => Err(error),
    }
}

// Appends the items that end within the script.
fn push_ended(
    alloc: Global,
    script: &[u8],
    piece: usize,
    reader: &mut Lines,
    to: &mut Vec<u8>,
) -> Result<()> {
    let mut rest = script;
    for _ in 0..script.len() {
        let next = &rest[..piece.min(rest.len())];
        let (taken, item) = reader.take(next);
        rest = &rest[taken..];
        push_item(alloc, item, to)?;
    }
    Ok(())
}

fn push_item(alloc: Global, item: Option<Item>, to: &mut Vec<u8>) -> Result<()> {
    match item {
        Some(Item::Command(command)) => push_command(alloc, &command, to),
        Some(Item::Refused(refusal)) => push_refusal(refusal, to),
        None => Ok(()),
    }
}

fn push_refusal(refusal: Refusal, to: &mut Vec<u8>) -> Result<()> {
    let printed = print_line(&Answer::Refused(refusal), false, 0, to);
    Ok(printed?)
}

// A stream with its columns, an append with its row lines behind `>`, a run or a job with its plan, or another
// command as it is written.
fn push_command(alloc: Global, command: &Command, to: &mut Vec<u8>) -> Result<()> {
    match command {
        Command::Stream { name, columns } => push_stream(name, columns.items(), to),
        Command::Append { name, lines } => push_append(name, lines.items(), to),
        Command::Run { name, plan } => push_run(alloc, b"run ", name, plan, to),
        Command::Fetch { name, as_run } => push_fetch(name, *as_run, to),
        Command::Collect { bytes } => push_collect(alloc, *bytes, to),
        Command::Entries => push_all(&[b"entries\n"], to),
        Command::Catalog => push_all(&[b"catalog\n"], to),
        Command::OpenJob { job, name, plan } => {
            push_all(&[b"open ", job.bytes()], to)?;
            push_run(alloc, b" ", name, plan, to)
        }
        Command::Step { job } => push_named(b"step ", job, to),
        Command::Close { job } => push_named(b"close ", job, to),
        Command::DropJob { job } => push_named(b"drop ", job, to),
    }
}

fn push_stream(name: &Name, columns: &[Column], to: &mut Vec<u8>) -> Result<()> {
    push_all(&[b"stream ", name.bytes()], to)?;
    for column in columns {
        push_all(&[b" ", column.name.bytes(), b":", column.kind.word()], to)?;
    }
    push_all(&[b"\n"], to)
}

fn push_append(name: &Name, lines: &[Text], to: &mut Vec<u8>) -> Result<()> {
    push_all(&[b"append ", name.bytes()], to)?;
    for line in lines {
        push_all(&[b">", line.items()], to)?;
    }
    push_all(&[b"\n"], to)
}

fn push_run(
    alloc: Global,
    word: &[u8],
    name: &Name,
    plan: &NamedPlan,
    to: &mut Vec<u8>,
) -> Result<()> {
    let text = print_plan(alloc, plan)?;
    push_all(&[word, name.bytes(), b" = ", text.as_slice(), b"\n"], to)
}

fn push_fetch(name: &Name, as_run: bool, to: &mut Vec<u8>) -> Result<()> {
    let behind: &[u8] = if as_run { b" as-run\n" } else { b"\n" };
    push_all(&[b"fetch ", name.bytes(), behind], to)
}

fn push_collect(alloc: Global, bytes: u64, to: &mut Vec<u8>) -> Result<()> {
    let text = format!(in alloc; "collect {bytes}\n")?;
    push_all(&[text.as_bytes()], to)
}

// A word and a name in a line.
fn push_named(word: &[u8], name: &Name, to: &mut Vec<u8>) -> Result<()> {
    push_all(&[word, name.bytes(), b"\n"], to)
}

fn push_all(parts: &[&[u8]], to: &mut Vec<u8>) -> Result<()> {
    for part in parts {
        to.extend_from_slice(part)?;
    }
    Ok(())
}
