//! The rows of a result among a run's answers, as CSV.
ghost use Rattle.std.specs.Prelude.{◌≡◌, List, ℕ, Some, map, IfErr, IfOk, OnOk, OnErr};
ghost use Rattle.std.specs.Io.KnownBytes.{Appends};
ghost use Rattle.csv.specs.Writing.{text_written};
ghost use Rattle.csv_rows.specs.Refusals.{AreUnwritten, IsForRecord, IsRefusedFor};
ghost use Rattle.csv_rows.specs.Results.{header_text, AreWritten, IsConverted, IsFresh};

use crate::lines::{RowsRefusal, find, read_line};
use crate::row_cells::put_cells;
use csv::{ByteRecord, Error, ErrorKind, Writer};
use std::alloc::Global;
use std::io::{BufRead, Write};

/// Writes the rows of the result of this number, counted from 1, as CSV, behind the header, where it has a
/// name. `NoResult` comes exactly where there is none, and `Cut` exactly where its rows end too soon; `NotRow`
/// and `Width` name a row of the result.
pub fn write_csv<R: BufRead, W: Write + Drop>(
    alloc: Global,
    number: u64,
    header: &[&[u8]],
    answers: &mut R,
    csv: W,
) -> Result<W, RowsRefusal>
    ensures csv { IfOk result (λ after. (bytes : List ℕ) → R.remaining answers.old ≡ Some bytes
        → IsConverted bytes number (map (λ name. name.now) header.now) (W.contents csv) (W.contents after)) }
    ensures refused { IfErr result (λ why. (bytes : List ℕ) → R.remaining answers.old ≡ Some bytes
        → IsRefusedFor bytes number why) }
{
    let mut writer = Writer::from_writer(csv);
    let outcome = write_result(alloc, number, header, answers, &mut writer);
    let whole = writer.into_inner();
    match (outcome, whole) {
        (Ok(()), Ok(csv)) => Ok(csv),
        (Ok(()), Err(_)) => Err(RowsRefusal::Output),
        (Err(why), _) => Err(why),
    }
}

fn write_result<R: BufRead, W: Write + Drop>(
    alloc: Global,
    number: u64,
    header: &[&[u8]],
    answers: &mut R,
    writer: &mut Writer<W>,
) -> Result<(), RowsRefusal>
    ensures csv { OnOk result ((bytes : List ℕ) → R.remaining answers.old ≡ Some bytes → IsFresh writer.old
        → IsConverted bytes number (map (λ name. name.now) header.now) (text_written W.contents writer.old)
        (text_written W.contents writer.new)) }
    ensures refused { IfErr result (λ why. (bytes : List ℕ) → R.remaining answers.old ≡ Some bytes → IsFresh writer.old
        → IsRefusedFor bytes number why) }
{
    let mut line = Vec::new(alloc);
    match find(number, answers, &mut line)? {
        Some(count) => {
            write_header(header, writer)?;
            write_rows(alloc, count, answers, &mut line, writer)
        }
        None => Err(RowsRefusal::NoResult),
    }
}

fn write_header<W: Write + Drop>(
    header: &[&[u8]],
    writer: &mut Writer<W>,
) -> Result<(), RowsRefusal>
    ensures fresh { OnOk result (IsFresh writer.old → IsFresh writer.new) }
    ensures wrote { OnOk result (IsFresh writer.old → Appends (text_written W.contents writer.old)
        (text_written W.contents writer.new) (header_text (map (λ name. name.now) header.now))) }
    ensures refused { IfErr result (λ why. IsForRecord 0 why) }
{
    if header.is_empty() {
        return Ok(());
    }
    match writer.write_fields(header) {
        Ok(()) => Ok(()),
        Err(error) => Err(unwritten(0, &error)),
    }
}

// Writes so many rows.
fn write_rows<R: BufRead, W: Write + Drop>(
    alloc: Global,
    count: u64,
    answers: &mut R,
    line: &mut Vec<u8>,
    writer: &mut Writer<W>,
) -> Result<(), RowsRefusal>
    ensures refused { IfErr result (λ why. (bytes : List ℕ) → R.remaining answers.old ≡ Some bytes → IsFresh writer.old
        → AreUnwritten bytes count why) }
    ensures written { OnOk result ((bytes : List ℕ) → R.remaining answers.old ≡ Some bytes → IsFresh writer.old
        → AreWritten bytes count (R.remaining answers.new) (text_written W.contents writer.old)
        (text_written W.contents writer.new)) }
{
    let mut text = Vec::new(alloc);
    let mut fields = ByteRecord::new(alloc);
    for number in 0..count {
        if !read_line(answers, line)? {
            return Err(RowsRefusal::Cut);
        }
        if !put_cells(line.as_slice(), &mut text, &mut fields)? {
            return Err(RowsRefusal::NotRow { number: number + 1 });
        }
        if let Err(error) = writer.write_byte_record(&fields) {
            return Err(unwritten(number + 1, &error));
        }
    }
    Ok(())
}

// Why the record of this number wasn't written.
fn unwritten(number: u64, error: &Error) -> RowsRefusal
    ensures { IsForRecord number result }
{
    match error.kind() {
        ErrorKind::UnequalLengths { .. } => RowsRefusal::Width { number },
        ErrorKind::OutOfMemory => RowsRefusal::Memory,
        _ => RowsRefusal::Output,
    }
}
