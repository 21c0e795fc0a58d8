//! The lines of answers.
ghost use Rattle.std.specs.Prelude.{◌≡◌, ◌≢◌, ◌↔◌, ◌^◌, ◌-◌, ◌<◌, ◌++◌, ◌∷◌, [], List, ℕ, Some, IfOk};
ghost use Rattle.std.specs.Prelude.{IfErr, IfSome, IfNone, IsTrue, MatchOption, false, true, decimal};
ghost use Rattle.csv_rows.specs.Lines.{head_of, IsHead, IsLine, IsNext};
ghost use Rattle.csv_rows.specs.Refusals.{HasFailed, HasNoResult};
ghost use Rattle.csv_rows.specs.Results.{IsFound};

use itoa::Buffer;
use rows_core::Memory;
use std::alloc::AllocError;
use std::io::{BufRead, Error, ErrorKind};

/// Why no whole result was written.
#[derive(Clone, Copy)]
pub enum RowsRefusal {
    /// The answers have no such result.
    NoResult,
    /// The answers end within the result's rows.
    Cut,
    /// This row of the result, counted from 1, isn't spelled as a row is.
    NotRow { number: u64 },
    /// This row, counted from 1, or the header (0) has another number of fields than what was written before.
    Width { number: u64 },
    /// A read failed.
    Input,
    /// A write failed.
    Output,
    /// Memory was refused.
    Memory,
}

impl From<Memory> for RowsRefusal {
    ghost from_gives = { λ _ e. HasFailed e };

    fn from(_error: Memory) -> RowsRefusal {
        RowsRefusal::Memory
    }
}

impl From<AllocError> for RowsRefusal {
    ghost from_gives = { λ _ e. HasFailed e };

    fn from(_error: AllocError) -> RowsRefusal {
        RowsRefusal::Memory
    }
}

/// Reads up to the rows of the result of this number, counted from 1, and gives their count; `None` where
/// there is no such result.
pub fn find<R: BufRead>(
    number: u64,
    answers: &mut R,
    line: &mut Vec<u8>,
) -> Result<Option<u64>, RowsRefusal>
    ensures found { IfOk result (λ found. IfSome found (λ count. (bytes : List ℕ) → R.remaining answers.old ≡ Some bytes
        → IsFound bytes number count (R.remaining answers.new))) }
    ensures none { IfOk result (λ found. IfNone found ((bytes : List ℕ) → R.remaining answers.old ≡ Some bytes
        → HasNoResult bytes number)) }
    ensures failed { IfErr result HasFailed }
{
    let mut left = number;
    for _turn in 0..u64::MAX {
        if !read_line(answers, line)? {
            return Ok(None);
        }
        let head = count_of(line.as_slice());
        if let (1, Some(count)) = (left, head) {
            return Ok(Some(count));
        }
        left = left_behind(left, head);
    }
    // No answers have so many lines.
    Err(RowsRefusal::Memory)
}

// The results that are left behind a line.
fn left_behind(left: u64, head: Option<u64>) -> u64
    ensures { MatchOption head (result ≡ left) (λ count. result ≡ left - 1) }
{
    match head {
        Some(_) => left.saturating_sub(1),
        None => left,
    }
}

/// Puts the next line, without its LF, in place of what stood in `line`; `false` where there is none that is
/// ended.
pub fn read_line<R: BufRead>(answers: &mut R, line: &mut Vec<u8>) -> Result<bool, RowsRefusal>
    ensures next { IfOk result (λ is. is ≡ true → (bytes : List ℕ) → R.remaining answers.old ≡ Some bytes
        → IsNext bytes line.new.items (R.remaining answers.new)) }
    ensures none { IfOk result (λ is. is ≡ false → (bytes : List ℕ) → R.remaining answers.old ≡ Some bytes
        → IsLine bytes) }
    ensures failed { IfErr result HasFailed }
{
    line.clear();
    match answers.read_until(b'\n', line) {
        Ok(_) => Ok(cut_end(line)),
        Err(error) => Err(unread(&error)),
    }
}

// Takes the LF off the line's end; `false` where there is none.
fn cut_end(line: &mut Vec<u8>) -> bool
    ensures cut { result ≡ true → line.old.items ≡ line.new.items ++ 10 ∷ [] }
    ensures none { result ≡ false → (front : List ℕ) → line.old.items ≢ front ++ 10 ∷ [] }
{
    match line.pop() {
        Some(b'\n') => true,
        _ => false,
    }
}

fn unread(error: &Error) -> RowsRefusal
    ensures { HasFailed result }
{
    match error.kind() {
        ErrorKind::OutOfMemory => RowsRefusal::Memory,
        _ => RowsRefusal::Input,
    }
}

// The count of a result's rows, of which this line is the head.
fn count_of(line: &[u8]) -> Option<u64>
    ensures fits { IfSome result (λ count. count < 2 ^ 64) }
    ensures some { IfSome result (λ count. line.now ≡ head_of count) }
    ensures none { IfNone result (IsHead line.now → ⊥) }
{
    let (word, digits) = line.split_at(line.len().min(5));
    if word != b"rows ".as_slice() {
        return None;
    }
    number_of(digits)
}

// The number whose decimal this is.
fn number_of(digits: &[u8]) -> Option<u64>
    ensures fits { IfSome result (λ number. number < 2 ^ 64) }
    ensures some { IfSome result (λ number. digits.now ≡ decimal number) }
    ensures none { IfNone result ((number : ℕ) → number < 2 ^ 64 → digits.now ≢ decimal number) }
{
    let Ok(text) = std::str::from_utf8(digits) else {
        return None;
    };
    let Ok(number) = text.parse::<u64>() else {
        return None;
    };
    if is_decimal_of(digits, number) {
        Some(number)
    } else {
        None
    }
}

fn is_decimal_of(digits: &[u8], number: u64) -> bool
    ensures { IsTrue result ↔ (digits.now ≡ decimal number) }
{
    Buffer::new().format(number).as_bytes() == digits
}
