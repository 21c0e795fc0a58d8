//! The words of the command line.

use crate::command::csv_command;
use clap::ArgMatches;
use clap::error::ErrorKind;
use rows_core::{Column, Kind, Memory, Name, NameRefusal, Schema};
use std::alloc::Global;

/// What the words ask for.
#[derive(Drop)]
pub enum Words<'a> {
    Append(AppendWords),
    Rows(RowsWords<'a>),
}

/// A script that appends a file's rows to a stream.
#[derive(Drop)]
pub struct AppendWords {
    pub stream: Name,
    pub schema: Schema,
    /// Whether the script makes the stream first.
    pub declares: bool,
    /// Whether records that are no row are left out.
    pub skips: bool,
}

/// The rows of a result as CSV.
#[derive(Drop)]
pub struct RowsWords<'a> {
    /// Which result, counted from 1.
    pub number: u64,
    /// The names of the header's fields.
    pub header: Vec<&'a [u8]>,
}

/// Reads the words of the command line; `None` where they aren't accepted.
pub fn read_words<'a>(alloc: Global, words: &'a [String]) -> Result<Option<Words<'a>>, Memory> {
    let command = csv_command(alloc)?;
    match command.try_get_matches_from(words) {
        Ok(matches) => words_of(alloc, &matches),
        Err(error) => match error.kind() {
            ErrorKind::OutOfMemory => Err(Memory),
            _ => Ok(None),
        },
    }
}

fn words_of<'a>(alloc: Global, matches: &ArgMatches<'a>) -> Result<Option<Words<'a>>, Memory> {
    match matches.subcommand() {
        Some(("append", given)) => append_words(alloc, given),
        Some(("rows", given)) => rows_words(alloc, given),
        _ => Ok(None),
    }
}

fn append_words<'a>(alloc: Global, given: &ArgMatches<'a>) -> Result<Option<Words<'a>>, Memory> {
    let (Some(name), Some(columns)) = (given.get_str("name"), given.get_strs("columns")) else {
        return Ok(None);
    };
    let Some(schema) = schema_of(alloc, columns)? else {
        return Ok(None);
    };
    let Some(stream) = name_of(alloc, name)? else {
        return Ok(None);
    };
    Ok(Some(Words::Append(AppendWords {
        stream,
        schema,
        declares: given.get_flag("stream"),
        skips: given.get_flag("skip"),
    })))
}

fn rows_words<'a>(alloc: Global, given: &ArgMatches<'a>) -> Result<Option<Words<'a>>, Memory> {
    let mut header = Vec::new(alloc);
    if let Some(names) = given.get_strs("header") {
        for name in names {
            header.push(name.as_bytes())?;
        }
    }
    let number = given.get_one::<u64>("number").unwrap_or(1);
    Ok(Some(Words::Rows(RowsWords { number, header })))
}

// The name that is spelled so.
fn name_of(alloc: Global, word: &str) -> Result<Option<Name>, Memory> {
    match Name::new(alloc, word.as_bytes()) {
        Ok(name) => Ok(Some(name)),
        Err(NameRefusal::NotName) => Ok(None),
        Err(NameRefusal::Memory) => Err(Memory),
    }
}

// The columns that the words `COLUMN:KIND` spell.
fn schema_of(alloc: Global, words: &[&str]) -> Result<Option<Schema>, Memory> {
    let mut columns = Vec::new(alloc);
    for word in words {
        let Some(column) = column_of(alloc, word)? else {
            return Ok(None);
        };
        columns.push(column)?;
    }
    Ok(Schema::new(columns).ok())
}

fn column_of(alloc: Global, word: &str) -> Result<Option<Column>, Memory> {
    let Some((name, kind)) = word.split_once(':') else {
        return Ok(None);
    };
    let Some(kind) = Kind::of(kind.as_bytes()) else {
        return Ok(None);
    };
    match name_of(alloc, name)? {
        Some(name) => Ok(Some(Column { name, kind })),
        None => Ok(None),
    }
}
