//! Lines of answers that may be long: those of rows, and those of lists of numbers.
ghost use Rattle.std.specs.Prelude.{◌≡◌, ◌∷◌, [], ◌+◌, ◌<◌, ◌≤◌, ◌++◌, length, take, vec_len, vec_capacity};
ghost use Rattle.std.specs.Prelude.{OnOk, OnErr, IsOk, decimal};
ghost use Rattle.std.specs.List.{flat_map};
ghost use Rattle.row_text.specs.RowSpelling.{row_spelling};
ghost use Rattle.script_text.specs.Answer.{ids_text, printed_line};

use itoa::Buffer;
use row_text::print_row;
use rows_core::{Memory, Row};

/// Appends the row's line with its LF. After want of memory `to` has what it had.
pub fn print_row_line(row: &Row, to: &mut Vec<u8>) -> Result<(), Memory>
    ensures printed { OnOk result (to.new.items ≡ to.old.items ++ printed_line (row_spelling row.now)) }
    ensures err { OnErr result (to.new.items ≡ to.old.items) }
    ensures room { vec_len to.old + length (printed_line (row_spelling row.now)) ≤ vec_capacity to.old
        → IsOk result }
    ensures capacity { vec_capacity to.old ≤ vec_capacity to.new }
{
    let len = to.len();
    let appended = append_row_line(row, to);
    if appended.is_err() {
        to.truncate(len);
    }
    appended
}

fn append_row_line(row: &Row, to: &mut Vec<u8>) -> Result<(), Memory>
    ensures ok { OnOk result (to.new.items ≡ to.old.items ++ printed_line (row_spelling row.now)) }
    ensures start { take (vec_len to.old) to.new.items ≡ to.old.items }
    ensures full { OnErr result
        (vec_capacity to.old < vec_len to.old + length (printed_line (row_spelling row.now))) }
    ensures capacity { vec_capacity to.old ≤ vec_capacity to.new }
{
    print_row(row, to)?;
    to.push(b'\n')?;
    Ok(())
}

/// Appends the words, the numbers with one space between two, or `none`, and LF. After want of memory `to`
/// has what it had.
pub fn print_ids(words: &[u8], ids: &[u32], to: &mut Vec<u8>) -> Result<(), Memory>
    ensures printed { OnOk result
        (to.new.items ≡ to.old.items ++ printed_line (words.now ++ ids_text ids.now)) }
    ensures err { OnErr result (to.new.items ≡ to.old.items) }
    ensures room { vec_len to.old + length (printed_line (words.now ++ ids_text ids.now))
        ≤ vec_capacity to.old → IsOk result }
    ensures capacity { vec_capacity to.old ≤ vec_capacity to.new }
{
    let len = to.len();
    let appended = append_ids_line(words, ids, to);
    if appended.is_err() {
        to.truncate(len);
    }
    appended
}

fn append_ids_line(words: &[u8], ids: &[u32], to: &mut Vec<u8>) -> Result<(), Memory>
    ensures ok { OnOk result
        (to.new.items ≡ to.old.items ++ printed_line (words.now ++ ids_text ids.now)) }
    ensures start { take (vec_len to.old) to.new.items ≡ to.old.items }
    ensures full { OnErr result (vec_capacity to.old
        < vec_len to.old + length (printed_line (words.now ++ ids_text ids.now))) }
    ensures capacity { vec_capacity to.old ≤ vec_capacity to.new }
{
    to.extend_from_slice(words)?;
    append_ids(ids, to)?;
    to.push(b'\n')?;
    Ok(())
}

fn append_ids(ids: &[u32], to: &mut Vec<u8>) -> Result<(), Memory>
    ensures ok { OnOk result (to.new.items ≡ to.old.items ++ ids_text ids.now) }
    ensures start { take (vec_len to.old) to.new.items ≡ to.old.items }
    ensures full { OnErr result (vec_capacity to.old < vec_len to.old + length (ids_text ids.now)) }
    ensures capacity { vec_capacity to.old ≤ vec_capacity to.new }
{
    match ids {
        [] => {
            to.extend_from_slice(b"none")?;
            Ok(())
        }
        [first, others @ ..] => {
            append_id(*first, to)?;
            append_more_ids(others, to)
        }
    }
}

// Appends each number behind a space.
fn append_more_ids(ids: &[u32], to: &mut Vec<u8>) -> Result<(), Memory>
    ensures ok { OnOk result (to.new.items ≡ to.old.items ++ flat_map (λ id. 32 ∷ decimal id) ids.now) }
    ensures start { take (vec_len to.old) to.new.items ≡ to.old.items }
    ensures full { OnErr result
        (vec_capacity to.old < vec_len to.old + length (flat_map (λ id. 32 ∷ decimal id) ids.now)) }
    ensures capacity { vec_capacity to.old ≤ vec_capacity to.new }
{
    for id in ids {
        append_next_id(*id, to)?;
    }
    Ok(())
}

fn append_next_id(id: u32, to: &mut Vec<u8>) -> Result<(), Memory>
    ensures ok { OnOk result (to.new.items ≡ to.old.items ++ 32 ∷ decimal id) }
    ensures start { take (vec_len to.old) to.new.items ≡ to.old.items }
    ensures full { OnErr result (vec_capacity to.old < vec_len to.old + length (32 ∷ decimal id)) }
    ensures capacity { vec_capacity to.old ≤ vec_capacity to.new }
{
    to.push(b' ')?;
    append_id(id, to)
}

fn append_id(id: u32, to: &mut Vec<u8>) -> Result<(), Memory>
    ensures ok { OnOk result (to.new.items ≡ to.old.items ++ decimal id) }
    ensures start { take (vec_len to.old) to.new.items ≡ to.old.items }
    ensures full { OnErr result (vec_capacity to.old < vec_len to.old + length (decimal id)) }
    ensures capacity { vec_capacity to.old ≤ vec_capacity to.new }
{
    let mut buffer = Buffer::new();
    to.extend_from_slice(buffer.format(id).as_bytes())?;
    Ok(())
}
