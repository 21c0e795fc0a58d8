//! Programs.
ghost use Rattle.std.specs.Prelude.{◌≡◌, []};
ghost use Rattle.byte_formats.specs.Reading.{Gives};
ghost use Rattle.byte_formats.specs.Format.{optional, chain_at};
ghost use Rattle.record_codec.specs.Reading.{last_name};
ghost use Rattle.record_codec.specs.Formats.{program, program_from, programs};

use crate::order::name_from;
use crate::parts::{cuts_at, text_at};
use byte_formats::{Unread, flag_at, name_at, u32_at};
use catalog_types::Program;
use rows_core::{Name, Seq};
use std::alloc::Global;

/// A program, or none.
pub fn program_if_at(alloc: Global, bytes: &[u8]) -> Result<(Option<Program>, &[u8]), Unread>
    ensures { Gives (λ x. (x.0, x.1.now)) result ((optional program).read bytes.now) }
{
    let (there, rest) = flag_at(bytes)?;
    if there {
        let (program, rest) = program_at(alloc, rest)?;
        return Ok((Some(program), rest));
    }
    Ok((None, rest))
}

fn program_at(alloc: Global, bytes: &[u8]) -> Result<(Program, &[u8]), Unread>
    ensures { Gives (λ x. (x.0, x.1.now)) result (program.read bytes.now) }
{
    let (name, rest) = name_at(alloc, bytes)?;
    let (text, rest) = text_at(alloc, rest)?;
    let (cuts, rest) = cuts_at(alloc, rest)?;
    Ok((Program { name, text, cuts }, rest))
}

/// A program whose name isn't below the one before.
fn program_from<'a>(
    alloc: Global,
    previous: &[u8],
    bytes: &'a [u8],
) -> Result<(Program, &'a [u8]), Unread>
    ensures { Gives (λ x. (x.0, x.1.now)) result ((program_from previous.now).read bytes.now) }
{
    let (name, rest) = name_from(alloc, previous, bytes)?;
    let (text, rest) = text_at(alloc, rest)?;
    let (cuts, rest) = cuts_at(alloc, rest)?;
    Ok((Program { name, text, cuts }, rest))
}

/// Programs in the byte order of their names.
pub fn programs_at(alloc: Global, bytes: &[u8]) -> Result<(Seq<Program>, &[u8]), Unread>
    ensures { Gives (λ x. (x.0, x.1.now)) result (programs.read bytes.now) }
{
    let (count, rest) = u32_at(bytes)?;
    let (programs, rest) = so_many_programs_at(alloc, count as usize, rest)?;
    Ok((Seq::new(programs), rest))
}

fn so_many_programs_at<'a>(
    alloc: Global,
    count: usize,
    bytes: &'a [u8],
) -> Result<(Vec<Program>, &'a [u8]), Unread>
    ensures { Gives (λ x. (x.0.items, x.1.now)) result
        (chain_at program_from (λ previous p. p.name) count [] bytes.now) }
{
    let mut programs = Vec::new(alloc);
    let mut rest = bytes;
    for _ in 0..count {
        let (program, after) = program_from(alloc, last_name(&programs), rest)?;
        programs.push(program)?;
        rest = after;
    }
    Ok((programs, rest))
}

/// The name of the last program, or no bytes.
fn last_name(programs: &[Program]) -> &[u8]
    ensures { result.now ≡ last_name programs.now }
{
    match programs.last() {
        Some(program) => program.name.bytes(),
        None => b"",
    }
}
