//! The script.
ghost use Rattle.std.specs.Prelude.{◌≡◌, ◌≤◌, ◌<◌, ◌+◌, ◌-◌, ◌%◌, ◌==◌, ◌++◌, if◌then◌else◌};
ghost use Rattle.std.specs.Prelude.{OnOk, IfOk, vec_len};
ghost use Rattle.workload_gen.specs.Draws.{state_after};
ghost use Rattle.workload_gen.specs.Script.{each_below, stream_line, runs_behind, collection_behind};
ghost use Rattle.workload_gen.specs.Script.{round, round_start, generated_script};

use crate::appends::push_append;
use crate::draws::Generator;
use crate::laws::script_is_short;
use crate::numbers::push_number;
use crate::runs::push_runs;
use rows_core::Memory;
use std::alloc::Global;

const STREAMS: u64 = 3;

const APPENDS: u64 = 200;

/// The generated script of the number, at most 1,073,741,824 bytes. `Memory` comes only where memory was
/// refused.
pub fn script_of(alloc: Global, number: u64) -> Result<Vec<u8>, Memory>
    ensures script { IfOk result (λ script. script.items ≡ generated_script number) }
    ensures short { IfOk result (λ script. vec_len script ≤ 1_073_741_824) }
{
    script_is_short();
    let mut generator = Generator { state: number };
    let mut script = Vec::new(alloc);
    push_streams(&mut script)?;
    push_rounds(&mut generator, &mut script)?;
    Ok(script)
}

fn push_streams(to: &mut Vec<u8>) -> Result<(), Memory>
    ensures { OnOk result (to.new.items ≡ to.old.items ++ each_below 3 stream_line) }
{
    for stream in 0..STREAMS {
        push_stream(stream, to)?;
    }
    Ok(())
}

#[tactic(auto, unfolding(crate::specs::Script::stream_line))]
fn push_stream(stream: u64, to: &mut Vec<u8>) -> Result<(), Memory>
    ensures { OnOk result (to.new.items ≡ to.old.items ++ stream_line stream) }
{
    to.extend_from_slice(b"stream s")?;
    push_number(stream, to)?;
    to.extend_from_slice(b" (id:int, tag:text, qty:int)\n")?;
    Ok(())
}

fn push_rounds(generator: &mut Generator, to: &mut Vec<u8>) -> Result<(), Memory>
    ensures { OnOk result (to.new.items
        ≡ to.old.items ++ each_below 200 (λ a. round generator.old.state (round_start a) a)) }
{
    for a in 0..APPENDS {
        push_round(a, generator, to)?;
    }
    Ok(())
}

// Appends append `a`, the runs behind it and the collection behind them.
fn push_round(a: u64, generator: &mut Generator, to: &mut Vec<u8>) -> Result<(), Memory>
    requires { a < 200 }
    ensures round { OnOk result (to.new.items ≡ to.old.items ++ round generator.old.state 0 a) }
    ensures state { OnOk result
        (generator.new.state ≡ state_after generator.old.state (round_start (a + 1) - round_start a)) }
{
    push_append(a, generator, to)?;
    push_runs_behind(a, generator, to)?;
    push_collection_behind(a, to)
}

#[tactic(auto, unfolding(crate::specs::Script::runs_behind))]
fn push_runs_behind(a: u64, generator: &mut Generator, to: &mut Vec<u8>) -> Result<(), Memory>
    ensures runs { OnOk result (to.new.items ≡ to.old.items ++ runs_behind generator.old.state 0 a) }
    ensures state { OnOk result (generator.new.state
        ≡ state_after generator.old.state (if a % 10 == 9 then 3 else 0)) }
{
    if a % 10 == 9 {
        push_runs(generator, to)?;
    }
    Ok(())
}

#[tactic(auto, unfolding(crate::specs::Script::collection_behind))]
fn push_collection_behind(a: u64, to: &mut Vec<u8>) -> Result<(), Memory>
    ensures { OnOk result (to.new.items ≡ to.old.items ++ collection_behind a) }
{
    if a % 20 == 19 {
        to.extend_from_slice(b"collect 20000\n")?;
    }
    Ok(())
}
