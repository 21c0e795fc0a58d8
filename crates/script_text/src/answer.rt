//! What a command is answered, and the text of it.
ghost use Rattle.std.specs.Prelude.{◌≡◌, ◌∷◌, ◌+◌, ◌<◌, ◌≤◌, ◌++◌, length, vec_len, vec_capacity, OnOk};
ghost use Rattle.std.specs.Prelude.{OnErr, IsOk, IfSome, None, Bool, slice_index_or, [], decimal};
ghost use Rattle.script_text.specs.Answer.{answer_lines, refusal_line, limit_text, printed_line};
ghost use Rattle.script_text.specs.Answer.{HasShortLines};
ghost use Rattle.script_text.specs.AnswerLine.{line_text};

use crate::entry_line::print_entry;
use crate::file_lines::{print_damage, print_place};
use crate::line_of_answer::{AnswerLine, line_of};
use crate::long_lines::{print_ids, print_row_line};
use itoa::Buffer;
use rows_core::{Digest, Memory, Name, Row, Seq, Text};

/// What a command has more of than it may. Each has its word and its number in the answer's line.
#[derive(Clone, Copy, PartialEq, Eq)]
pub enum LimitKind {
    /// `line 65536`: the bytes of a line of the command, without its LF.
    Line,
    /// `block 67108864`: the bytes of the row lines of a block, with their LFs.
    Block,
    /// `nodes 40`: the operators and leaves of a plan as written.
    Nodes,
    /// `wide 8`: the joins, concatenations and distincts of a plan as written.
    Wide,
    /// `expr 512`: the nodes of all expressions of a plan as written.
    Expr,
    /// `text 1000`: the bytes of a text in a row.
    Text,
    /// `extent 16777216`: the bytes of the file of an append's rows.
    Extent,
    /// `columns 32`: the columns of a stream or of an operator's rows, the keys of an order, or the pairs of
    /// a join.
    Columns,
    /// `streams 1024`: the streams.
    Streams,
    /// `extents 65535`: the extents of one stream.
    Extents,
    /// `allextents 262144`: the extents of all streams.
    AllExtents,
    /// `plantext 65536`: the bytes of the canonical text of a plan.
    PlanText,
    /// `programs 1024`: the names that stand for a plan.
    Programs,
    /// `jobs 64`: the open jobs.
    Jobs,
    /// `files 4294967295`: the numbers of extent and result files that were ever given.
    Files,
    /// `commands 4294967295`: the recorded commands of the folder's life.
    Commands,
    /// `machine 4294967295`: the machine time of a plan, which is 1 and the rows that its operators take in.
    Machine,
}

/// Why a command changed nothing.
#[derive(PartialEq, Eq, Drop)]
pub enum Refusal {
    /// `refused limit WHAT N`: there would be more than N.
    Limit(LimitKind),
    /// `refused syntax`: the bytes spell no command.
    Syntax,
    /// `refused unknown NAME`: no stream, program or open job has this name.
    Unknown(Name),
    /// `refused exists NAME`: a stream or an open job has this name already.
    Exists(Name),
    /// `refused type`: two columns have one name, or the plan has no typing.
    IllTyped,
    /// `refused row K`: this row line, counted from 1, is the first that spells no row of the stream's
    /// schema.
    Row(u64),
    /// `refused fault`: the folder failed while a file was read.
    Fault,
    /// `refused damaged FILE KEPT FOUND`: the digest that is kept of this file isn't that of the bytes that
    /// were found. Each digest has 64 hexadecimal digits in lower case.
    Damaged {
        /// The number of the file.
        file: u64,
        /// The digest of the bytes that were written.
        kept: Digest,
        /// The digest of the bytes that were found.
        found: Digest,
    },
    /// `refused unreadable FILE AT`: the bytes of this file, whose digest is the one that is kept, spell no
    /// rows of its columns.
    Unreadable {
        /// The number of the file.
        file: u64,
        /// The place of the first byte that doesn't fit.
        at: u64,
    },
    /// `refused overflow`: an operator of the plan meets an overflow.
    Overflow,
    /// `refused memory`: memory was asked for and refused.
    Memory,
}

/// What is told of a kept result.
#[derive(Clone, Copy, PartialEq, Eq)]
pub struct EntrySummary {
    pub id: u32,
    /// The bytes of its file.
    pub size: u64,
    /// The machine time of its plan on its extents: 1 and the rows that the operators take in.
    pub machine: u32,
    /// How often it was used, its making counted.
    pub uses: u32,
    /// The tick of its last use.
    pub last: u32,
    /// The tick of its making.
    pub made: u32,
}

/// What a command is answered.
#[derive(PartialEq, Eq, Drop)]
pub enum Answer {
    /// `ok`
    Ok,
    /// `ok N`: the rows that the stream now holds.
    Held(u64),
    /// `ok N`: the files that the job reads.
    Ready(u64),
    /// `left N`: the files that are still to be read.
    Left(u64),
    /// `rows N`, the rows, and then `used IDS`, `kept IDS` and `read B`.
    Result {
        /// The rows of the result.
        rows: Seq<Row>,
        /// The kept results that were used, in ascending order.
        used: Seq<u32>,
        /// The results that were kept, in the order of making.
        kept: Seq<u32>,
        /// The bytes that were read of files.
        read: u64,
    },
    /// `evicted IDS` and `reclaimed B`.
    Evicted {
        /// The kept results that went, in the order of going.
        ids: Seq<u32>,
        /// The bytes that their files had.
        bytes: u64,
    },
    /// `entries N`, and then for each kept result `ID size B machine M uses N last T made T`.
    Entries(Seq<EntrySummary>),
    /// One line of JSON that tells the catalogue.
    Catalog(Text),
    Refused(Refusal),
}

/// The number of lines of the answer's text. With `quiet` the row lines don't count.
pub fn line_count(answer: &Answer, quiet: bool) -> u64
    ensures { result ≡ length (answer_lines quiet answer.now) }
{
    match answer {
        Answer::Ok | Answer::Held(_) | Answer::Ready(_) | Answer::Left(_) => 1,
        Answer::Catalog(_) | Answer::Refused(_) => 1,
        Answer::Result { .. } if quiet => 4,
        Answer::Result { rows, .. } => rows.items().len() as u64 + 4,
        Answer::Evicted { .. } => 2,
        Answer::Entries(entries) => entries.items().len() as u64 + 1,
    }
}

/// The one line of an answer that may have more than 65,536 bytes, without its LF: the catalogue. None for
/// each other answer.
pub fn long_line(answer: &Answer) -> Option<&[u8]>
    ensures catalog { IfSome result (λ line. answer.now ≡ Answer.Catalog line.now) }
    ensures some { IfSome result (λ line. (quiet : Bool) → answer_lines quiet answer.now ≡ line.now ∷ []) }
    ensures none { result ≡ None → HasShortLines answer.now }
{
    match answer {
        Answer::Catalog(line) => Some(line.items()),
        _ => None,
    }
}

/// Appends the line of this number, from 0, with its LF. After want of memory `to` has what it had.
pub fn print_line(answer: &Answer, quiet: bool, line: u64, to: &mut Vec<u8>) -> Result<(), Memory>
    requires { line < length (answer_lines quiet answer.now) }
    ensures printed { OnOk result
        (to.new.items ≡ to.old.items ++ printed_line
        (slice_index_or (answer_lines quiet answer.now) line [])) }
    ensures err { OnErr result (to.new.items ≡ to.old.items) }
    ensures room { vec_len to.old + length
        (printed_line (slice_index_or (answer_lines quiet answer.now) line [])) ≤ vec_capacity to.old
        → IsOk result }
    ensures capacity { vec_capacity to.old ≤ vec_capacity to.new }
{
    let line = line_of(answer, quiet, line);
    print_answer_line(&line, to)
}

// Appends the line with its LF, or nothing.
fn print_answer_line(line: &AnswerLine, to: &mut Vec<u8>) -> Result<(), Memory>
    ensures printed { OnOk result (to.new.items ≡ to.old.items ++ printed_line (line_text line.now)) }
    ensures err { OnErr result (to.new.items ≡ to.old.items) }
    ensures room { vec_len to.old + length (printed_line (line_text line.now)) ≤ vec_capacity to.old
        → IsOk result }
    ensures capacity { vec_capacity to.old ≤ vec_capacity to.new }
{
    match line {
        AnswerLine::Ok => append_line(to, b"ok", b""),
        AnswerLine::Held(rows) => append_number_line(to, b"ok ", *rows),
        AnswerLine::Ready(files) => append_number_line(to, b"ok ", *files),
        AnswerLine::Left(files) => append_number_line(to, b"left ", *files),
        AnswerLine::Count(rows) => append_number_line(to, b"rows ", *rows),
        AnswerLine::Row(row) => print_row_line(row, to),
        AnswerLine::Used(ids) => print_ids(b"used ", ids, to),
        AnswerLine::Kept(ids) => print_ids(b"kept ", ids, to),
        AnswerLine::Read(bytes) => append_number_line(to, b"read ", *bytes),
        AnswerLine::Evicted(ids) => print_ids(b"evicted ", ids, to),
        AnswerLine::Reclaimed(bytes) => append_number_line(to, b"reclaimed ", *bytes),
        AnswerLine::Entries(entries) => append_number_line(to, b"entries ", *entries),
        AnswerLine::Entry(entry) => print_entry(entry, to),
        AnswerLine::Catalog(line) => append_line(to, line, b""),
        AnswerLine::Refused(refusal) => print_refusal(refusal, to),
    }
}

// Appends the line of a refusal with its LF, or nothing.
fn print_refusal(refusal: &Refusal, to: &mut Vec<u8>) -> Result<(), Memory>
    ensures printed { OnOk result (to.new.items ≡ to.old.items ++ printed_line (refusal_line refusal.now)) }
    ensures err { OnErr result (to.new.items ≡ to.old.items) }
    ensures room { vec_len to.old + length (printed_line (refusal_line refusal.now)) ≤ vec_capacity to.old
        → IsOk result }
    ensures capacity { vec_capacity to.old ≤ vec_capacity to.new }
{
    match refusal {
        Refusal::Limit(kind) => append_line(to, b"refused limit ", limit_text(*kind)),
        Refusal::Syntax => append_line(to, b"refused ", b"syntax"),
        Refusal::Unknown(name) => append_line(to, b"refused unknown ", name.bytes()),
        Refusal::Exists(name) => append_line(to, b"refused exists ", name.bytes()),
        Refusal::IllTyped => append_line(to, b"refused ", b"type"),
        Refusal::Row(number) => append_number_line(to, b"refused row ", *number),
        Refusal::Fault => append_line(to, b"refused ", b"fault"),
        Refusal::Damaged { file, kept, found } => print_damage(*file, kept, found, to),
        Refusal::Unreadable { file, at } => print_place(*file, *at, to),
        Refusal::Overflow => append_line(to, b"refused ", b"overflow"),
        Refusal::Memory => append_line(to, b"refused ", b"memory"),
    }
}

// What is counted, and the most that there may be.
fn limit_text(kind: LimitKind) -> &'static [u8]
    ensures { result.now ≡ limit_text kind }
{
    match kind {
        LimitKind::Line => b"line 65536",
        LimitKind::Block => b"block 67108864",
        LimitKind::Nodes => b"nodes 40",
        LimitKind::Wide => b"wide 8",
        LimitKind::Expr => b"expr 512",
        LimitKind::Text => b"text 1000",
        LimitKind::Extent => b"extent 16777216",
        LimitKind::Columns => b"columns 32",
        LimitKind::Streams => b"streams 1024",
        LimitKind::Extents => b"extents 65535",
        LimitKind::AllExtents => b"allextents 262144",
        LimitKind::PlanText => b"plantext 65536",
        LimitKind::Programs => b"programs 1024",
        LimitKind::Jobs => b"jobs 64",
        LimitKind::Files => b"files 4294967295",
        LimitKind::Commands => b"commands 4294967295",
        LimitKind::Machine => b"machine 4294967295",
    }
}

// Appends the words, the number behind them and LF, or nothing.
fn append_number_line(to: &mut Vec<u8>, words: &[u8], number: u64) -> Result<(), Memory>
    ensures printed { OnOk result (to.new.items ≡ to.old.items ++ (words.now ++ decimal number ++ 10 ∷ [])) }
    ensures err { OnErr result (to.new.items ≡ to.old.items) }
    ensures room { vec_len to.old + (length words.now + length (decimal number) + 1) ≤ vec_capacity to.old
        → IsOk result }
    ensures capacity { vec_capacity to.old ≤ vec_capacity to.new }
{
    let mut digits = Buffer::new();
    append_line(to, words, digits.format(number).as_bytes())
}

// Appends the words, the text behind them and LF, or nothing.
fn append_line(to: &mut Vec<u8>, words: &[u8], text: &[u8]) -> Result<(), Memory>
    ensures printed { OnOk result (to.new.items ≡ to.old.items ++ (words.now ++ text.now ++ 10 ∷ [])) }
    ensures err { OnErr result (to.new.items ≡ to.old.items) }
    ensures room { vec_len to.old + (length words.now + length text.now + 1) ≤ vec_capacity to.old
        → IsOk result }
    ensures capacity { vec_capacity to.old ≤ vec_capacity to.new }
{
    let len = to.len();
    to.try_reserve(words.len() + text.len() + 1)?;
    to.extend_from_slice(words)?;
    to.extend_from_slice(text)?;
    to.push(b'\n')?;
    Ok(())
}
