//! Blocks of `append`.
ghost use Rattle.std.specs.Prelude.{◌≡◌, ◌++◌, ◌∷◌, [], ◌≤◌, ◌+◌, ℕ, List, length, Option, OnOk};
ghost use Rattle.std.specs.Io.KnownBytes.{Appends};
ghost use Rattle.rows_core.specs.declared.kind.Kind.{Kind};
ghost use Rattle.rows_core.specs.declared.value.Value.{Value};
ghost use Rattle.csv_script.specs.Blocks.{block_with, most_block_bytes, row_line, IsBlocked, IsStreamRow, IsWritten};

use rows_core::Name;
use std::alloc::AllocError;
use std::io;
use std::io::Write;

/// The most bytes of a block's row lines, with their LFs. The file of its rows then has 16,777,216 bytes at
/// most, which is the most of an extent's.
const MAX_BLOCK_BYTES: usize = 4_194_300;

/// Why a line wasn't taken.
#[derive(Clone, Copy)]
pub enum NotTaken {
    /// A write failed.
    Output,
    /// Memory was refused.
    Memory,
}

impl From<io::Error> for NotTaken {
    fn from(_error: io::Error) -> NotTaken {
        NotTaken::Output
    }
}

impl From<AllocError> for NotTaken {
    fn from(_error: AllocError) -> NotTaken {
        NotTaken::Memory
    }
}

/// Takes a row's line into the open block. Where the block would have too many bytes it is written first, and
/// a new one begins.
pub fn take_line<W: Write>(
    name: &Name,
    line: &[u8],
    lines: &mut Vec<u8>,
    script: &mut W,
) -> Result<(), NotTaken>
    ensures { OnOk result ((kinds : List Kind) (before : Option (List ℕ)) (rows : List (List Value)) (row : List Value)
        → IsStreamRow kinds row → line.now ≡ row_line row → length line.now ≤ most_block_bytes
        → IsBlocked kinds name.now before (W.contents script.old) lines.old.items rows
        → IsBlocked kinds name.now before (W.contents script.new) lines.new.items (rows ++ row ∷ [])) }
{
    make_room(name, line.len(), lines, script)?;
    lines.extend_from_slice(line)?;
    Ok(())
}

// Writes the open block where a line of this length would be too much for it.
fn make_room<W: Write>(
    name: &Name,
    len: usize,
    lines: &mut Vec<u8>,
    script: &mut W,
) -> Result<(), NotTaken>
    ensures room { OnOk result (len ≤ most_block_bytes → length lines.new.items + len ≤ most_block_bytes) }
    ensures blocked { OnOk result (len ≤ most_block_bytes
        → (kinds : List Kind) (before : Option (List ℕ)) (rows : List (List Value))
        → IsBlocked kinds name.now before (W.contents script.old) lines.old.items rows
        → IsBlocked kinds name.now before (W.contents script.new) lines.new.items rows) }
{
    if lines.len().saturating_add(len) <= MAX_BLOCK_BYTES {
        return Ok(());
    }
    write_block(name, lines.as_slice(), script)?;
    lines.clear();
    Ok(())
}

/// Writes the open block, where it has a row.
pub fn finish<W: Write>(name: &Name, lines: &[u8], script: &mut W) -> io::Result<()>
    ensures { OnOk result ((kinds : List Kind) (before : Option (List ℕ)) (rows : List (List Value))
        → IsBlocked kinds name.now before (W.contents script.old) lines.now rows
        → IsWritten kinds name.now before (W.contents script.new) rows) }
{
    if lines.is_empty() {
        return Ok(());
    }
    write_block(name, lines, script)
}

// Writes a block of these row lines.
fn write_block<W: Write>(name: &Name, lines: &[u8], script: &mut W) -> io::Result<()>
    ensures { OnOk result (Appends (W.contents script.old) (W.contents script.new) (block_with name.now lines.now)) }
{
    script.write_all(b"append ")?;
    script.write_all(name.bytes())?;
    script.write_all(b"\n")?;
    script.write_all(lines)?;
    script.write_all(b"end\n")
}
