//! The lines of an answer's text, one by one.
ghost use Rattle.std.specs.Prelude.{◌≡◌, ◌+◌, ◌<◌, ◌≤◌, ◌++◌, ◌∷◌, [], length, map, All, codes, decimal};
ghost use Rattle.std.specs.Prelude.{slice_index_or};
ghost use Rattle.row_text.specs.RowSpelling.{row_spelling};
ghost use Rattle.script_text.specs.Answer.{answer_lines, row_lines, last_lines, evicted_lines, entry_lines};
ghost use Rattle.script_text.specs.Answer.{IsNarrow, HasShortLines};
ghost use Rattle.script_text.specs.AnswerLine.{line_text, IsNarrowLine};

use crate::answer::{Answer, EntrySummary, Refusal};
use rows_core::Row;

/// What a line of an answer's text tells.
#[derive(Drop)]
pub enum AnswerLine<'a> {
    Ok,
    /// The rows that a stream now holds.
    Held(u64),
    /// The files that a job reads.
    Ready(u64),
    /// The files that a job is still to read.
    Left(u64),
    /// The number of a result's rows.
    Count(u64),
    /// A row of a result.
    Row(&'a Row),
    /// The kept results that were used.
    Used(&'a [u32]),
    /// The results that were kept.
    Kept(&'a [u32]),
    /// The bytes that were read of files.
    Read(u64),
    /// The kept results that went.
    Evicted(&'a [u32]),
    /// The bytes that their files had.
    Reclaimed(u64),
    /// The number of kept results.
    Entries(u64),
    /// A kept result.
    Entry(&'a EntrySummary),
    /// The catalogue.
    Catalog(&'a [u8]),
    Refused(&'a Refusal),
}

/// The line of this number, from 0.
pub fn line_of(answer: &Answer, quiet: bool, line: u64) -> AnswerLine
    requires { line < length (answer_lines quiet answer.now) }
    ensures text { line_text result ≡ slice_index_or (answer_lines quiet answer.now) line [] }
    ensures narrow { IsNarrow answer.now → HasShortLines answer.now → IsNarrowLine result }
{
    match answer {
        Answer::Ok => AnswerLine::Ok,
        Answer::Held(rows) => AnswerLine::Held(*rows),
        Answer::Ready(files) => AnswerLine::Ready(*files),
        Answer::Left(files) => AnswerLine::Left(*files),
        Answer::Refused(refusal) => AnswerLine::Refused(refusal),
        Answer::Result {
            rows,
            used,
            kept,
            read,
        } => {
            let rows = rows.items();
            let shown = shown_rows(rows, quiet);
            line_of_result(rows.len(), shown, used.items(), kept.items(), *read, line)
        }
        Answer::Evicted { ids, bytes } => line_of_evicted(ids.items(), *bytes, line),
        Answer::Entries(entries) => line_of_entries(entries.items(), line),
        Answer::Catalog(line) => AnswerLine::Catalog(line.items()),
    }
}

// The rows that the text shows.
fn shown_rows(rows: &[Row], quiet: bool) -> &[Row]
    ensures lines { map row_spelling result.now ≡ row_lines quiet rows.now }
    ensures narrow { All (λ row. length row ≤ 32) rows.now → All (λ row. length row ≤ 32) result.now }
{
    if quiet { &[] } else { rows }
}

// The line of this number of a result of so many rows, which shows these.
fn line_of_result<'a>(
    count: usize,
    shown: &'a [Row],
    used: &'a [u32],
    kept: &'a [u32],
    read: u64,
    line: u64,
) -> AnswerLine<'a>
    requires { line < length shown.now + 4 }
    ensures text { line_text result ≡ slice_index_or
        ((codes "rows " ++ decimal count) ∷ (map row_spelling shown.now ++ last_lines used.now kept.now read))
        line [] }
    ensures narrow { All (λ row. length row ≤ 32) shown.now → length used.now ≤ 4096
        → length kept.now ≤ 4096 → IsNarrowLine result }
{
    if line == 0 {
        return AnswerLine::Count(count as u64);
    }
    let at = (line - 1) as usize;
    if at < shown.len() {
        return AnswerLine::Row(&shown[at]);
    }
    last_line(used, kept, read, at - shown.len())
}

// The line of this number of those behind the rows.
fn last_line<'a>(used: &'a [u32], kept: &'a [u32], read: u64, line: usize) -> AnswerLine<'a>
    requires { line < 3 }
    ensures text { line_text result ≡ slice_index_or (last_lines used.now kept.now read) line [] }
    ensures narrow { length used.now ≤ 4096 → length kept.now ≤ 4096 → IsNarrowLine result }
{
    match line {
        0 => AnswerLine::Used(used),
        1 => AnswerLine::Kept(kept),
        _ => AnswerLine::Read(read),
    }
}

// The line of this number of what tells which kept results went, and the bytes that their files had.
fn line_of_evicted<'a>(ids: &'a [u32], bytes: u64, line: u64) -> AnswerLine<'a>
    requires { line < 2 }
    ensures text { line_text result ≡ slice_index_or (evicted_lines ids.now bytes) line [] }
    ensures narrow { length ids.now ≤ 4096 → IsNarrowLine result }
{
    match line {
        0 => AnswerLine::Evicted(ids),
        _ => AnswerLine::Reclaimed(bytes),
    }
}

// The line of this number of what tells these kept results.
fn line_of_entries(entries: &[EntrySummary], line: u64) -> AnswerLine
    requires { line < length entries.now + 1 }
    ensures text { line_text result ≡ slice_index_or (entry_lines entries.now) line [] }
    ensures narrow { IsNarrowLine result }
{
    if line == 0 {
        return AnswerLine::Entries(entries.len() as u64);
    }
    AnswerLine::Entry(&entries[(line - 1) as usize])
}
