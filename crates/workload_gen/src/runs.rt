//! Runs of drawn programs.
ghost use Rattle.std.specs.Prelude.{◌≡◌, ◌++◌, OnOk};
ghost use Rattle.workload_gen.specs.Draws.{state_after};
ghost use Rattle.workload_gen.specs.Script.{run_line, run_lines};

use crate::draws::Generator;
use crate::numbers::push_number;
use crate::programs::program_text;
use rows_core::Memory;

const PROGRAMS: u64 = 12;

/// Appends three runs, each of which uses one draw.
pub fn push_runs(generator: &mut Generator, to: &mut Vec<u8>) -> Result<(), Memory>
    ensures runs { OnOk result (to.new.items ≡ to.old.items ++ run_lines generator.old.state 0) }
    ensures state { OnOk result (generator.new.state ≡ state_after generator.old.state 3) }
{
    for _run in 0..3u64 {
        push_run(generator, to)?;
    }
    Ok(())
}

#[tactic(auto, unfolding(crate::specs::Script::run_line))]
fn push_run(generator: &mut Generator, to: &mut Vec<u8>) -> Result<(), Memory>
    ensures run { OnOk result (to.new.items ≡ to.old.items ++ run_line generator.old.state 0) }
    ensures state { OnOk result (generator.new.state ≡ state_after generator.old.state 1) }
{
    let program = generator.below(PROGRAMS);
    to.extend_from_slice(b"run p")?;
    push_number(program, to)?;
    to.extend_from_slice(b" = ")?;
    to.extend_from_slice(program_text(program))?;
    to.push(b'\n')?;
    Ok(())
}
