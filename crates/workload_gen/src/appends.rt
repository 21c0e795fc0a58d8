//! Appends of drawn rows.
ghost use Rattle.std.specs.Prelude.{◌≡◌, ◌<◌, ◌*◌, ◌++◌, ◌-ℤ◌, OnOk, pos};
ghost use Rattle.workload_gen.specs.Draws.{state_after};
ghost use Rattle.workload_gen.specs.Script.{append_block, append_line, row_line, row_lines};

use crate::draws::Generator;
use crate::numbers::{push_number, push_signed};
use rows_core::Memory;

const ROWS: u64 = 500;

const STREAMS: u64 = 3;

const TAGS: u64 = 20;

const QUANTITIES: u64 = 1_000;

const LEAST_QUANTITY: i64 = -200;

/// Appends the block of append `a`, which uses 1,001 draws.
pub fn push_append(a: u64, generator: &mut Generator, to: &mut Vec<u8>) -> Result<(), Memory>
    requires { a < 200 }
    ensures block { OnOk result (to.new.items ≡ to.old.items ++ append_block generator.old.state 0 a) }
    ensures state { OnOk result (generator.new.state ≡ state_after generator.old.state 1001) }
{
    push_append_line(generator, to)?;
    push_rows(a * ROWS, generator, to)?;
    to.extend_from_slice(b"end\n")?;
    Ok(())
}

#[tactic(auto, unfolding(crate::specs::Script::append_line))]
fn push_append_line(generator: &mut Generator, to: &mut Vec<u8>) -> Result<(), Memory>
    ensures line { OnOk result (to.new.items ≡ to.old.items ++ append_line generator.old.state 0) }
    ensures state { OnOk result (generator.new.state ≡ state_after generator.old.state 1) }
{
    let stream = generator.below(STREAMS);
    to.extend_from_slice(b"append s")?;
    push_number(stream, to)?;
    to.push(b'\n')?;
    Ok(())
}

// Appends 500 rows with the ids from `first` on, each of which uses two draws.
fn push_rows(first: u64, generator: &mut Generator, to: &mut Vec<u8>) -> Result<(), Memory>
    requires { first < 100_000 }
    ensures rows { OnOk result (to.new.items ≡ to.old.items ++ row_lines generator.old.state 0 first) }
    ensures state { OnOk result (generator.new.state ≡ state_after generator.old.state 1000) }
{
    for row in 0..ROWS {
        push_row(first + row, generator, to)?;
    }
    Ok(())
}

fn push_row(id: u64, generator: &mut Generator, to: &mut Vec<u8>) -> Result<(), Memory>
    ensures row { OnOk result (to.new.items ≡ to.old.items ++ row_line generator.old.state 0 id) }
    ensures state { OnOk result (generator.new.state ≡ state_after generator.old.state 2) }
{
    let tag = generator.below(TAGS);
    let drawn = generator.below(QUANTITIES);
    push_number(id, to)?;
    to.extend_from_slice(b",\"t")?;
    push_number(tag, to)?;
    to.extend_from_slice(b"\",")?;
    push_signed(quantity_of(drawn), to)?;
    to.push(b'\n')?;
    Ok(())
}

fn quantity_of(drawn: u64) -> i64
    requires { drawn < 1000 }
    ensures { result ≡ pos drawn -ℤ pos 200 }
{
    drawn as i64 + LEAST_QUANTITY
}
