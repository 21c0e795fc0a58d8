//! The ids that new results get.
ghost use Rattle.std.specs.Prelude.{◌≡◌, ◌+◌, ◌≤◌, IfOk};
ghost use Rattle.work_plan.specs.Planning.{ids_from};

use rows_core::Memory;
use std::alloc::Global;

// The ids from this one on, so many.
pub(crate) fn ids_from(alloc: Global, first: u64, count: usize) -> Result<Vec<u32>, Memory>
    requires { first + count ≤ 4294967296 }
    ensures { IfOk result (λ ids. ids.items ≡ ids_from first count) }
{
    let mut ids = Vec::with_capacity(alloc, count)?;
    for id in first..first + count as u64 {
        ids.push(id as u32)?;
    }
    Ok(ids)
}
