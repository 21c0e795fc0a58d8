//! How long the lines of answers are.
ghost use Rattle.std.specs.Prelude.{◌≡◌, ◌+◌, ◌*◌, ◌<◌, ◌≤◌, [], length, decimal, slice_index_or};
ghost use Rattle.script_text.specs.Answer.{HasShortLines, IsNarrow, IsShort, answer_lines, entry_line};
ghost use Rattle.script_text.specs.Answer.{ids_text, refusal_line};
ghost use Rattle.script_text.specs.AnswerLine.{IsNarrowLine, line_text};
ghost use Rattle.script_text.specs.declared.answer.Refusal.TheVariants.{Damaged, Unreadable};
ghost use Rattle.hex.specs.Hex.{encode_lower};

use crate::answer::{Answer, EntrySummary, Refusal};
use crate::file_lines::hex_of;
use crate::line_of_answer::{AnswerLine, line_of};
use row_text::row_is_short;
use rows_core::{Digest, Name};

/// The line of this number, from 0, of a narrow answer that is no catalogue has at most 65,536 bytes with its
/// LF. It reads what the line tells, and does nothing else.
pub fn line_is_short(answer: &Answer, quiet: bool, line: u64)
    requires line { line < length (answer_lines quiet answer.now) }
    requires narrow { IsNarrow answer.now }
    requires short { HasShortLines answer.now }
    ensures { IsShort (slice_index_or (answer_lines quiet answer.now) line []) }
{
    answer_line_is_short(&line_of(answer, quiet, line));
}

fn answer_line_is_short(line: &AnswerLine)
    requires { IsNarrowLine line.now }
    ensures { IsShort (line_text line.now) }
{
    match line {
        AnswerLine::Ok => {}
        AnswerLine::Held(number)
        | AnswerLine::Ready(number)
        | AnswerLine::Left(number)
        | AnswerLine::Count(number)
        | AnswerLine::Read(number)
        | AnswerLine::Reclaimed(number)
        | AnswerLine::Entries(number) => number_is_short(*number),
        AnswerLine::Row(row) => row_is_short(row),
        AnswerLine::Used(ids) | AnswerLine::Kept(ids) | AnswerLine::Evicted(ids) => {
            ids_are_short(ids);
        }
        AnswerLine::Entry(entry) => entry_is_short(entry),
        AnswerLine::Catalog(_) => {}
        AnswerLine::Refused(refusal) => refusal_is_short(refusal),
    }
}

// The line of a refusal has at most 65,536 bytes with its LF.
fn refusal_is_short(refusal: &Refusal)
    ensures { IsShort (refusal_line refusal.now) }
{
    match refusal {
        Refusal::Unknown(name) | Refusal::Exists(name) => name_is_short(name),
        Refusal::Row(number) => number_is_short(*number),
        Refusal::Damaged { file, kept, found } => damage_is_short(*file, kept, found),
        Refusal::Unreadable { file, at } => place_is_short(*file, *at),
        Refusal::Limit(_)
        | Refusal::Syntax
        | Refusal::IllTyped
        | Refusal::Fault
        | Refusal::Overflow
        | Refusal::Memory => {}
    }
}

fn damage_is_short(file: u64, kept: &Digest, found: &Digest)
    ensures { IsShort (refusal_line (Damaged file kept.now found.now)) }
{
    number_is_short(file);
    digest_is_short(kept);
    digest_is_short(found);
}

fn place_is_short(file: u64, at: u64)
    ensures { IsShort (refusal_line (Unreadable file at)) }
{
    number_is_short(file);
    number_is_short(at);
}

// The line of a kept result has at most 65,536 bytes with its LF.
fn entry_is_short(entry: &EntrySummary)
    ensures { IsShort (entry_line entry.now) }
{
    number_is_short(entry.id as u64);
    number_is_short(entry.size);
    number_is_short(entry.machine as u64);
    number_is_short(entry.uses as u64);
    number_is_short(entry.last as u64);
    number_is_short(entry.made as u64);
}

fn digest_is_short(digest: &Digest)
    ensures { length (encode_lower digest.now.bytes) ≡ 64 }
{
    let _ = hex_of(digest);
}

fn name_is_short(name: &Name)
    ensures { length name.now ≤ 64 }
{
    let _ = name.bytes();
}

fn number_is_short(number: u64)
    ensures { length (decimal number) ≤ 20 }
{
    let _ = number;
}

// A number of at most ten digits and a space each, or `none`.
fn ids_are_short(ids: &[u32])
    ensures { length (ids_text ids.now) ≤ 4 + 11 * length ids.now }
{
    let _ = ids.len();
}
