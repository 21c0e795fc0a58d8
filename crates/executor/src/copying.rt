//! Copies of what was read.
ghost use Rattle.std.specs.Prelude.{◌≡◌, [], map, IfOk};
ghost use Rattle.executor.specs.Loads.{load_of_rows, load_of_part};
ghost use Rattle.executor.specs.Progress.{files_left, left_in};

use crate::Loaded;
use crate::part::Part;
use gathering::Gathering;
use result_ops::Made;
use rows_core::Memory;
use std::alloc::Global;

/// What is loaded of each part, in order.
pub(crate) fn copied_pieces(alloc: Global, parts: &[Part]) -> Result<Vec<Loaded>, Memory>
    requires { left_in parts.now ≡ [] }
    ensures { IfOk result (λ pieces. pieces.items ≡ map load_of_part parts.now) }
{
    let mut pieces = Vec::new(alloc);
    for part in parts {
        pieces.push(copied_piece(alloc, part)?)?;
    }
    Ok(pieces)
}

fn copied_piece(alloc: Global, part: &Part) -> Result<Loaded, Memory>
    requires { files_left part.now ≡ [] }
    ensures { IfOk result (λ piece. piece ≡ load_of_part part.now) }
{
    match part {
        Part::Entry { loaded, .. } => match loaded {
            Some(loaded) => copied(alloc, loaded),
            None => unreachable!(),
        },
        Part::Gathered { gathering, .. } => gathered_copy(alloc, gathering),
    }
}

fn copied(alloc: Global, loaded: &Loaded) -> Result<Loaded, Memory>
    ensures { IfOk result (λ copy. copy ≡ loaded.now) }
{
    match loaded {
        Ok(made) => Ok(Ok(Made {
            kept: made.kept.try_copy(alloc)?,
            taken_in: made.taken_in,
        })),
        Err(stop) => Ok(Err(*stop)),
    }
}

fn gathered_copy(alloc: Global, gathering: &Gathering) -> Result<Loaded, Memory>
    ensures { IfOk result (λ piece. piece ≡ load_of_rows gathering.now.came) }
{
    gathering.made(alloc)
}
