//! A file of CSV as a script that appends its rows to a stream.
ghost use Rattle.std.specs.Prelude.{◌≡◌, ◌≢◌, ◌≤◌, ◌+◌, ◌∷◌, ◌++◌, [], ℕ, List, length, Option, Some, IfErr, IfOk, OnOk};
ghost use Rattle.std.specs.Prelude.{IsTrue};
ghost use Rattle.std.specs.Io.KnownBytes.{Appends};
ghost use Rattle.csv.specs.Records.{fields_of};
ghost use Rattle.rows_core.specs.Schema.{kinds_of};
ghost use Rattle.rows_core.specs.declared.schema.Column.{Column};
ghost use Rattle.rows_core.specs.declared.value.Value.{Value};
ghost use Rattle.csv_script.specs.Blocks.{beginning, IsBlocked};
ghost use Rattle.csv_script.specs.Reading.{task_of, AreTaken, IsConverted, IsDone, IsReading};
ghost use Rattle.csv_script.specs.Records.{ArePicks, AreRowsOf, IsFor};
ghost use Rattle.csv_script.specs.Refusals.{HasFailed, IsRefusedFor, IsUntaken, IsUnwritten};
ghost use Rattle.csv_script.specs.declared.append.AppendRefusal.TheVariants as append;
ghost use Rattle.csv_script.specs.declared.pick.Pick.{Pick};
ghost use Rattle.csv_script.specs.declared.record.RecordRefusal.TheVariants as refusal;

use crate::blocks::{NotTaken, finish, take_line};
use crate::declaring::declare;
use crate::header::{HeaderRefusal, picks_of};
use crate::pick::Pick;
use crate::reading::{NotRead, read};
use crate::record::{RecordRefusal, put_record};
use csv::{ByteRecord, Reader};
use rows_core::{Name, Schema};
use std::alloc::{AllocError, Global};
use std::io;
use std::io::{Read, Write};

/// What a script is to append.
#[derive(Clone, Copy)]
pub struct Request<'a> {
    /// The stream's name.
    pub name: &'a Name,
    /// The stream's columns.
    pub schema: &'a Schema,
    /// Whether the stream is to be made first.
    pub declares: bool,
    /// Whether records that are no row are left out.
    pub skips: bool,
}

/// Why no whole script was written.
#[derive(Clone, Copy)]
pub enum AppendRefusal {
    /// The file has no record that could be the header.
    NoHeader,
    /// The header doesn't tell where the columns stand.
    Header(HeaderRefusal),
    /// The record of this number, counted from 1 behind the header, which begins in this line, is no row.
    Record {
        number: u64,
        line: u64,
        why: RecordRefusal,
    },
    /// A read failed.
    Input,
    /// A write failed.
    Output,
    /// Memory was refused.
    Memory,
}

impl From<NotRead> for AppendRefusal {
    ghost from_gives = { λ _ e. HasFailed e };

    fn from(why: NotRead) -> AppendRefusal {
        match why {
            NotRead::Input => AppendRefusal::Input,
            NotRead::Memory => AppendRefusal::Memory,
        }
    }
}

impl From<NotTaken> for AppendRefusal {
    ghost from_gives = { λ _ e. HasFailed e };

    fn from(why: NotTaken) -> AppendRefusal {
        match why {
            NotTaken::Output => AppendRefusal::Output,
            NotTaken::Memory => AppendRefusal::Memory,
        }
    }
}

impl From<HeaderRefusal> for AppendRefusal {
    ghost from_gives = { λ why e. e ≡ append.Header why };

    fn from(why: HeaderRefusal) -> AppendRefusal {
        AppendRefusal::Header(why)
    }
}

impl From<io::Error> for AppendRefusal {
    ghost from_gives = { λ _ e. HasFailed e };

    fn from(_error: io::Error) -> AppendRefusal {
        AppendRefusal::Output
    }
}

/// Writes the script that appends the file's rows to the stream, and gives the number of records that were
/// left out. The first record is the header; its fields name the columns, in any order and among others. Each
/// other record is a row, or is refused before a line of its block is written. `NoHeader`, `Header` and `Record`
/// come exactly where the text has their cause, since one that is converted has none; the line in `Record` is
/// the reader's own count.
pub fn write_script<R: Read, W: Write>(
    alloc: Global,
    request: &Request<'_>,
    file: &mut Reader<R>,
    script: &mut W,
) -> Result<u64, AppendRefusal>
    ensures script { IfOk result (λ skipped. (text : List ℕ) → IsReading R.remaining text [] file.old
        → IsConverted request.now.declares request.now.skips request.now.name.now request.now.schema.now text
        (W.contents script.old) (W.contents script.new) skipped) }
    ensures refused { IfErr result (λ why. (text : List ℕ) → IsReading R.remaining text [] file.old
        → IsRefusedFor request.now.declares request.now.skips request.now.name.now request.now.schema.now text
        (W.contents script.old) (W.contents script.new) why) }
{
    let mut fields = ByteRecord::new(alloc);
    if !read(file, &mut fields)? {
        return Err(AppendRefusal::NoHeader);
    }
    write_behind(alloc, request, file, &mut fields, script)
}

// Writes the script of the records behind the header, which `fields` are.
fn write_behind<R: Read, W: Write>(
    alloc: Global,
    request: &Request<'_>,
    file: &mut Reader<R>,
    fields: &mut ByteRecord,
    script: &mut W,
) -> Result<u64, AppendRefusal>
    ensures script { IfOk result (λ skipped. (text : List ℕ)
        → IsReading R.remaining text (fields_of fields.old ∷ []) file.old
        → IsConverted request.now.declares request.now.skips request.now.name.now request.now.schema.now text
        (W.contents script.old) (W.contents script.new) skipped) }
    ensures refused { IfErr result (λ why. (text : List ℕ)
        → IsReading R.remaining text (fields_of fields.old ∷ []) file.old
        → IsRefusedFor request.now.declares request.now.skips request.now.name.now request.now.schema.now text
        (W.contents script.old) (W.contents script.new) why) }
{
    let picks = picks_of(alloc, fields, request.schema.columns())?;
    begin(request, script)?;
    let width = fields.len();
    write_rows(
        alloc,
        request,
        picks.as_slice(),
        width,
        file,
        fields,
        script,
    )
}

// Writes the line that makes the stream, where that is asked for.
fn begin<W: Write>(request: &Request<'_>, script: &mut W) -> io::Result<()>
    ensures { OnOk result (Appends (W.contents script.old) (W.contents script.new)
        (beginning request.now.declares request.now.name.now request.now.schema.now)) }
{
    if request.declares {
        return declare(request.name, request.schema.columns(), script);
    }
    Ok(())
}

// Writes the blocks of the rows behind the header.
fn write_rows<R: Read, W: Write>(
    alloc: Global,
    request: &Request<'_>,
    picks: &[Pick],
    width: usize,
    file: &mut Reader<R>,
    fields: &mut ByteRecord,
    script: &mut W,
) -> Result<u64, AppendRefusal>
    ensures done { IfOk result (λ skipped. (header : List (List ℕ)) (text : List ℕ) → length request.now.schema.now ≤ 32
        → ArePicks header request.now.schema.now picks.now → IsReading R.remaining text (header ∷ []) file.old
        → IsDone text header (task_of request.now.skips request.now.name.now request.now.schema.now picks.now width
        (W.contents script.old)) (W.contents script.new) skipped) }
    ensures refused { IfErr result (λ why. (header : List (List ℕ)) (text : List ℕ) → length request.now.schema.now ≤ 32
        → ArePicks header request.now.schema.now picks.now → IsReading R.remaining text (header ∷ []) file.old
        → IsUnwritten text header (task_of request.now.skips request.now.name.now request.now.schema.now picks.now width
        (W.contents script.old)) (W.contents script.new) why) }
{
    let mut line = Vec::new(alloc);
    let mut lines = Vec::new(alloc);
    let mut skipped = 0;
    for turn in 0..u64::MAX {
        if !read(file, fields)? {
            finish(request.name, lines.as_slice(), script)?;
            return Ok(skipped);
        }
        let number = turn + 1;
        skipped += take_record(
            request, picks, width, number, fields, &mut line, &mut lines, script,
        )?;
    }
    // No file has so many records.
    Err(AppendRefusal::Memory)
}

// Takes the row that the record of this number is into the open block, and says whether it was left out: 0 or
// 1.
fn take_record<W: Write>(
    request: &Request<'_>,
    picks: &[Pick],
    width: usize,
    number: u64,
    fields: &ByteRecord,
    line: &mut Vec<u8>,
    lines: &mut Vec<u8>,
    script: &mut W,
) -> Result<u64, AppendRefusal>
    ensures refused { IfErr result (λ why. IsUntaken request.now.skips picks.now width (fields_of fields.now) number
        (W.contents script.old) (W.contents script.new) why) }
    ensures count { IfOk result (λ count. count ≤ 1) }
    ensures taken { IfOk result (λ count. (header : List (List ℕ)) (columns : List Column) (before : Option (List ℕ))
        → length columns ≤ 32 → ArePicks header columns picks.now
        → (records : List (List (List ℕ))) (rows : List (List Value)) (skipped : ℕ)
        → AreRowsOf request.now.skips picks.now width records rows skipped
        → IsBlocked (kinds_of columns) request.now.name.now before (W.contents script.old) lines.old.items rows
        → AreTaken request.now.skips picks.now width (records ++ fields_of fields.now ∷ []) (skipped + count)
        (kinds_of columns) request.now.name.now before (W.contents script.new) lines.new.items) }
{
    match put_record(picks, width, fields, line) {
        Ok(()) => {
            take_line(request.name, line.as_slice(), lines, script)?;
            Ok(0)
        }
        Err(why) => left_out(request.skips, number, fields, why),
    }
}

// One, where a record that is no row is left out.
fn left_out(
    skips: bool,
    number: u64,
    fields: &ByteRecord,
    why: RecordRefusal,
) -> Result<u64, AppendRefusal>
    ensures refused { IfErr result (λ refusal. (picks : List Pick) (width : ℕ) (now : Option (List ℕ))
        → IsFor picks width (fields_of fields.now) why
        → IsUntaken skips picks width (fields_of fields.now) number now now refusal) }
    ensures one { IfOk result (λ count. count ≡ 1) }
    ensures skips { OnOk result (IsTrue skips) }
    ensures why { OnOk result (why ≢ refusal.Memory) }
{
    if why == RecordRefusal::Memory {
        return Err(AppendRefusal::Memory);
    }
    if skips {
        return Ok(1);
    }
    let line = match fields.position() {
        Some(position) => position.line(),
        None => 0,
    };
    Err(AppendRefusal::Record { number, line, why })
}
