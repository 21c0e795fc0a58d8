//! The programs in the byte order of their names.
ghost use Rattle.std.specs.Prelude.{◌≡◌, ◌↔◌, ◌<◌, ◌≤◌, List, length, slice_get, IsTrue, Some};
ghost use Rattle.std.specs.Prelude.{vec_len, vec_capacity, option_copied, IfSome, OnOk};
ghost use Rattle.catalog_types.specs.declared.program.Program as plain;
ghost use Rattle.catalog_core.specs.Programs.{AreByName, is_below, below, with_program, program_named};
ghost use Rattle.catalog_core.specs.Table.{with_stored};
ghost use Rattle.rows_core.specs.Limits.{most_programs};

use catalog_types::Program;
use rows_core::{Memory, Name};

/// The most programs.
pub(crate) const MAX_PROGRAMS: usize = 1_024;

/// The program of this name.
pub(crate) fn program_named<'a>(programs: &'a [Program], name: &Name) -> Option<&'a Program>
    ensures { option_copied result ≡ program_named programs.entry.now name.now }
{
    programs.iter().find(|program| program.name.is_same(name))
}

/// Whether the programs stay within their limit where a program of this name is put among them.
pub(crate) fn has_room_for(programs: &[Program], program: &Program) -> bool
    requires order { AreByName programs.now }
    requires few { length programs.now ≤ most_programs }
    ensures { IsTrue result ↔ (length (with_program program.now programs.now) ≤ most_programs) }
{
    let name = &program.name;
    programs.len() < MAX_PROGRAMS || has_name_at(programs, count_below(programs, name), name)
}

/// Takes the memory for one more program, if there is one to store. The programs stay.
pub(crate) fn make_room_to_store(
    programs: &mut Vec<Program>,
    program: &Option<Program>,
) -> Result<(), Memory>
    ensures same { programs.new.items ≡ programs.old.items }
    ensures room { OnOk result
        (IfSome program.now (λ _. vec_len programs.new < vec_capacity programs.new)) }
{
    if program.is_some() {
        programs.reserve(1)?;
    }
    Ok(())
}

/// Stores the program, if there is one. It takes no memory.
pub(crate) fn store_any(programs: &mut Vec<Program>, program: Option<Program>)
    requires order { AreByName programs.old.items }
    requires room { IfSome program (λ _. vec_len programs.old < vec_capacity programs.old) }
    ensures { programs.new.items ≡ with_stored program programs.old.items }
{
    if let Some(program) = program {
        store(programs, program);
    }
}

// Puts a program in its place, or in place of the one that has its name. It takes no memory.
fn store(programs: &mut Vec<Program>, program: Program)
    requires order { AreByName programs.old.items }
    requires room { vec_len programs.old < vec_capacity programs.old }
    ensures { programs.new.items ≡ with_program program programs.old.items }
{
    let place = count_below(programs.as_slice(), &program.name);
    if has_name_at(programs.as_slice(), place, &program.name) {
        programs[place] = program;
    } else {
        match programs.insert(place, program) {
            Ok(()) => {}
            Err(_) => unreachable!(),
        }
    }
}

// The number of programs whose names are below this one.
fn count_below(programs: &[Program], name: &Name) -> usize
    ensures { result ≡ length (below name.now programs.now) }
{
    let mut count = 0;
    for program in programs {
        if is_below(&program.name, name) {
            count += 1;
        }
    }
    count
}

/// Whether the first name is below the other in the byte order.
pub fn is_below(name: &Name, other: &Name) -> bool
    ensures { result ≡ is_below name.now other.now }
{
    name.bytes().cmp(&other.bytes()).is_lt()
}

// Whether the program at this place is there and has this name.
fn has_name_at(programs: &[Program], place: usize, name: &Name) -> bool
    ensures { IsTrue result ↔ ((program : plain.Program) × (slice_get programs.now place ≡ Some program)
        × (program.name ≡ name.now)) }
{
    match programs.get(place) {
        Some(program) => program.name.is_same(name),
        None => false,
    }
}
