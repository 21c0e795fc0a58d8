//! The line of a kept result.
ghost use Rattle.std.specs.Prelude.{◌≡◌, ◌∷◌, [], ◌+◌, ◌<◌, ◌≤◌, ◌++◌, length, take, vec_len, vec_capacity};
ghost use Rattle.std.specs.Prelude.{OnOk, OnErr, IsOk, codes, decimal};
ghost use Rattle.script_text.specs.Answer.{entry_line, told, printed_line};

use crate::answer::EntrySummary;
use itoa::Buffer;
use rows_core::Memory;

/// Appends the kept result's line with its LF. After want of memory `to` has what it had.
pub fn print_entry(entry: &EntrySummary, to: &mut Vec<u8>) -> Result<(), Memory>
    ensures printed { OnOk result (to.new.items ≡ to.old.items ++ printed_line (entry_line entry.now)) }
    ensures err { OnErr result (to.new.items ≡ to.old.items) }
    ensures room { vec_len to.old + length (printed_line (entry_line entry.now)) ≤ vec_capacity to.old
        → IsOk result }
    ensures capacity { vec_capacity to.old ≤ vec_capacity to.new }
{
    let len = to.len();
    let appended = append_entry(entry, to);
    if appended.is_err() {
        to.truncate(len);
    }
    appended
}

fn append_entry(entry: &EntrySummary, to: &mut Vec<u8>) -> Result<(), Memory>
    ensures ok { OnOk result (to.new.items ≡ to.old.items ++ printed_line (entry_line entry.now)) }
    ensures start { take (vec_len to.old) to.new.items ≡ to.old.items }
    ensures full { OnErr result
        (vec_capacity to.old < vec_len to.old + length (printed_line (entry_line entry.now))) }
    ensures capacity { vec_capacity to.old ≤ vec_capacity to.new }
{
    append_number(entry.id as u64, to)?;
    append_told(b"size", entry.size, to)?;
    append_told(b"machine", entry.machine as u64, to)?;
    append_told(b"uses", entry.uses as u64, to)?;
    append_told(b"last", entry.last as u64, to)?;
    append_told(b"made", entry.made as u64, to)?;
    to.push(b'\n')?;
    Ok(())
}

// Appends the word and the number, with a space before each.
fn append_told(word: &[u8], number: u64, to: &mut Vec<u8>) -> Result<(), Memory>
    ensures ok { OnOk result (to.new.items ≡ to.old.items ++ told word.now number) }
    ensures start { take (vec_len to.old) to.new.items ≡ to.old.items }
    ensures full { OnErr result (vec_capacity to.old < vec_len to.old + length (told word.now number)) }
    ensures capacity { vec_capacity to.old ≤ vec_capacity to.new }
{
    to.push(b' ')?;
    to.extend_from_slice(word)?;
    to.push(b' ')?;
    append_number(number, to)
}

fn append_number(number: u64, to: &mut Vec<u8>) -> Result<(), Memory>
    ensures ok { OnOk result (to.new.items ≡ to.old.items ++ decimal number) }
    ensures start { take (vec_len to.old) to.new.items ≡ to.old.items }
    ensures full { OnErr result (vec_capacity to.old < vec_len to.old + length (decimal number)) }
    ensures capacity { vec_capacity to.old ≤ vec_capacity to.new }
{
    let mut buffer = Buffer::new();
    to.extend_from_slice(buffer.format(number).as_bytes())?;
    Ok(())
}
