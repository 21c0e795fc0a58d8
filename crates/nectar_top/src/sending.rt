//! Answers, and what they come to, on their way to the sink.
ghost use Rattle.std.specs.Prelude.{◌≡◌, ◌<◌, ◌≤◌, ◌++◌, List, ℕ, length, decimal, OnOk, OnErr};
ghost use Rattle.std.specs.Prelude.{vec_capacity, vec_len};
ghost use Rattle.std.specs.Io.KnownBytes.{Appends};
ghost use Rattle.outside_traits.specs.Counts.{Rose};
ghost use Rattle.script_text.specs.Answer.{HasShortLines, IsNarrow, answer_text, printed_line};
ghost use Rattle.nectar_top.specs.Sending.{SentInPart};
ghost use Rattle.nectar_top.specs.Summary.{summary_text};

use crate::summary::{SUMMARY_LINES, Summary};
use itoa::Buffer;
use outside_traits::{Failed, Sink};
use script_text::{Answer, line_count, line_is_short, long_line, print_line};

/// The bytes that are held back until they are written together. No line of an answer has more with its LF,
/// but for the catalogue.
const PIECE_LEN: usize = 65_536;

/// The bytes of room that sending an answer wants: a piece, and a line behind it.
pub const ROOM_LEN: usize = 131_072;

/// Writes an answer, a quiet one without its row lines. Its lines go by way of this room, as many together as
/// make a piece. The catalogue needs no room.
pub fn send<K: Sink>(
    answer: &Answer,
    quiet: bool,
    room: &mut Vec<u8>,
    sink: &mut K,
) -> Result<(), Failed>
    requires room { 131072 ≤ vec_capacity room.old }
    requires narrow { IsNarrow answer.now }
    ensures room { vec_capacity room.old ≤ vec_capacity room.new }
    ensures ok { OnOk result
        (Appends (K.written sink.old) (K.written sink.new) (answer_text quiet answer.now)) }
    ensures err { OnErr result
        (SentInPart (K.written sink.old) (K.written sink.new) (answer_text quiet answer.now)) }
    ensures cause { OnErr result (Rose (K.faults sink.old) (K.faults sink.new)) }
    ensures counts { K.faults sink.old ≤ K.faults sink.new }
{
    match long_line(answer) {
        Some(line) => send_line(line, sink),
        None => send_short_lines(answer, quiet, room, sink),
    }
}

/// Writes the seven lines of what the answers come to.
pub fn send_summary<K: Sink>(summary: &Summary, sink: &mut K) -> Result<(), Failed>
    ensures ok { OnOk result (Appends (K.written sink.old) (K.written sink.new) (summary_text summary.now)) }
    ensures err { OnErr result
        (SentInPart (K.written sink.old) (K.written sink.new) (summary_text summary.now)) }
    ensures cause { OnErr result (Rose (K.faults sink.old) (K.faults sink.new)) }
    ensures counts { K.faults sink.old ≤ K.faults sink.new }
{
    for at in 0..SUMMARY_LINES {
        let (word, number) = summary.line(at);
        match send_number_line(word, number, sink) {
            Ok(()) => {}
            Err(Failed) => return Err(Failed),
        }
    }
    Ok(())
}

// Writes the lines of an answer that is no catalogue.
fn send_short_lines<K: Sink>(
    answer: &Answer,
    quiet: bool,
    room: &mut Vec<u8>,
    sink: &mut K,
) -> Result<(), Failed>
    requires room { 131072 ≤ vec_capacity room.old }
    requires narrow { IsNarrow answer.now }
    requires short { HasShortLines answer.now }
    ensures room { vec_capacity room.old ≤ vec_capacity room.new }
    ensures ok { OnOk result
        (Appends (K.written sink.old) (K.written sink.new) (answer_text quiet answer.now)) }
    ensures err { OnErr result
        (SentInPart (K.written sink.old) (K.written sink.new) (answer_text quiet answer.now)) }
    ensures cause { OnErr result (Rose (K.faults sink.old) (K.faults sink.new)) }
    ensures counts { K.faults sink.old ≤ K.faults sink.new }
{
    room.clear();
    for line in 0..line_count(answer, quiet) {
        line_is_short(answer, quiet, line);
        match print_line(answer, quiet, line, room) {
            Ok(()) => {}
            Err(_) => unreachable!(),
        }
        if room.len() >= PIECE_LEN {
            match write_all(room, sink) {
                Ok(()) => room.clear(),
                Err(Failed) => return Err(Failed),
            }
        }
    }
    write_all(room, sink)
}

// Writes a line of a word and a number behind it.
fn send_number_line<K: Sink>(word: &[u8], number: u64, sink: &mut K) -> Result<(), Failed>
    ensures ok { OnOk result
        (Appends (K.written sink.old) (K.written sink.new) (printed_line (word.now ++ decimal number))) }
    ensures err { OnErr result
        (SentInPart (K.written sink.old) (K.written sink.new) (printed_line (word.now ++ decimal number))) }
    ensures cause { OnErr result (Rose (K.faults sink.old) (K.faults sink.new)) }
    ensures counts { K.faults sink.old ≤ K.faults sink.new }
{
    match write_all(word, sink) {
        Ok(()) => {
            let mut digits = Buffer::new();
            send_line(digits.format(number).as_bytes(), sink)
        }
        Err(Failed) => Err(Failed),
    }
}

// Writes a line, and its LF behind it.
fn send_line<K: Sink>(line: &[u8], sink: &mut K) -> Result<(), Failed>
    ensures ok { OnOk result (Appends (K.written sink.old) (K.written sink.new) (printed_line line.now)) }
    ensures err { OnErr result
        (SentInPart (K.written sink.old) (K.written sink.new) (printed_line line.now)) }
    ensures cause { OnErr result (Rose (K.faults sink.old) (K.faults sink.new)) }
    ensures counts { K.faults sink.old ≤ K.faults sink.new }
{
    match write_all(line, sink) {
        Ok(()) => write_all(b"\n", sink),
        Err(Failed) => Err(Failed),
    }
}

// Writes these bytes in as many calls as the sink wants.
fn write_all<K: Sink>(bytes: &[u8], sink: &mut K) -> Result<(), Failed>
    ensures ok { OnOk result (Appends (K.written sink.old) (K.written sink.new) bytes.now) }
    ensures err { OnErr result (SentInPart (K.written sink.old) (K.written sink.new) bytes.now) }
    ensures cause { OnErr result (Rose (K.faults sink.old) (K.faults sink.new)) }
    ensures counts { K.faults sink.old ≤ K.faults sink.new }
{
    let mut sent = 0;
    while sent < bytes.len() {
        match sink.write(&bytes[sent..]) {
            Ok(count) => sent += count,
            Err(Failed) => return Err(Failed),
        }
    }
    Ok(())
}
