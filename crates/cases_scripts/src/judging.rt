//! The answers to drawn commands beside what is meant.

use crate::making::{Awaited, Command, Made};
use crate::meant::{Meant, Rows, rows_meant};
use anyhow::{Context, Result, bail};
use std::alloc::Global;

/// How many commands, results of runs and fetches, closed jobs and collections there were, where all answers
/// are as they are awaited. It is an error that one isn't, with the command's number, from 1, and its first
/// line.
pub fn judged(alloc: Global, made: &Made, answers: &str) -> Result<String> {
    let mut rest = answers.strip_prefix("ok\nok\n").context("no streams")?;
    for (index, command) in made.commands.iter().enumerate() {
        match behind(alloc, command.awaited, &made.rows, rest) {
            Ok(others) => rest = others,
            Err(error) => {
                let number = index.saturating_add(1);
                bail!(
                    "command {number}: {error}, to {}",
                    head(command.text.as_str())
                );
            }
        }
    }
    match rest {
        "" => counted(alloc, &made.commands),
        _ => bail!("more answers: {}", head(rest)),
    }
}

fn counted(alloc: Global, commands: &[Command]) -> Result<String> {
    let count = commands.len();
    let (mut results, mut jobs, mut collected) = (0u64, 0u64, 0u64);
    for command in commands {
        match command.awaited {
            Awaited::Line(_) | Awaited::Entries => {}
            Awaited::Collection => collected = collected.saturating_add(1),
            Awaited::Result(_) => results = results.saturating_add(1),
            Awaited::Closed(_) => jobs = jobs.saturating_add(1),
        }
    }
    Ok(format!(in alloc;
        "{count} commands, {results} results, {jobs} closed jobs, {collected} collections: all as evaluated"
    )?)
}

/// The answers behind the one that is awaited.
fn behind<'a>(alloc: Global, awaited: Awaited, rows: &Rows, answers: &'a str) -> Result<&'a str> {
    match awaited {
        Awaited::Line(begin) => behind_line(begin, answers),
        Awaited::Collection => behind_line("reclaimed ", behind_line("evicted ", answers)?),
        Awaited::Entries => behind_entries(answers),
        Awaited::Result(meant) => behind_result(alloc, meant, rows, answers),
        Awaited::Closed(meant) => behind_result(alloc, meant, rows, answers),
    }
}

/// The answers behind a line that begins so.
fn behind_line<'a>(begin: &str, answers: &'a str) -> Result<&'a str> {
    match answers.split_once('\n') {
        Some((line, others)) if line.starts_with(begin) => Ok(others),
        _ => bail!("answered {}", head(answers)),
    }
}

fn behind_entries(answers: &str) -> Result<&str> {
    let mut others = behind_line("entries ", answers)?;
    let (_, count) = head(answers).split_once(' ').context("no number")?;
    for _ in 0..count.parse::<u64>()? {
        others = behind_line("", others)?;
    }
    Ok(others)
}

fn behind_result<'a>(
    alloc: Global,
    meant: Meant,
    rows: &Rows,
    answers: &'a str,
) -> Result<&'a str> {
    behind_line("rows ", answers)?;
    let result = result_of(alloc, rows_meant(alloc, meant, rows)?.as_str())?;
    match answers.strip_prefix(result.as_str()) {
        Some(others) => behind_line(
            "read ",
            behind_line("kept ", behind_line("used ", others)?)?,
        ),
        None => bail!("other rows, of {}", head(result.as_str())),
    }
}

/// The lines of rows in an answer.
fn result_of(alloc: Global, rows: &str) -> Result<String> {
    let mut lines = String::new(alloc);
    let mut count = 0u64;
    for row in rows.split(" / ") {
        if !row.is_empty() {
            lines.push_str(format!(in alloc; "{row}\n")?.as_str())?;
            count = count.saturating_add(1);
        }
    }
    Ok(format!(in alloc; "rows {count}\n{lines}")?)
}

/// The first line.
fn head(text: &str) -> &str {
    match text.split_once('\n') {
        Some((line, _)) => line,
        None => text,
    }
}
