//! The plan that goes by a name.
ghost use Rattle.std.specs.Prelude.{◌≡◌, IfOk};
ghost use Rattle.plan_core.specs.PlainPlan.{leaves};
ghost use Rattle.plan_core.specs.TypedPlan.{IsTypedOver};
ghost use Rattle.catalog_core.specs.Programs.{kinds_of_streams, AreCuts, IsPlanOf, IsStored};
ghost use Rattle.catalog_core.specs.Streams.{states_of};

use crate::program::plan_of_text;
use crate::stream::CatalogStream;
use catalog_types::Program;
use plan_core::{Schemas, Typed};
use rows_core::{Cut, Memory, Seq};
use std::alloc::Global;

/// The plan of a program, with its typing over the streams, and the extents of the last run: one interval for
/// each leaf, from the left.
#[derive(Drop)]
pub struct StoredPlan {
    pub typed: Typed,
    pub cuts: Seq<Cut>,
}

/// The plan of a program that is one over the streams.
pub(crate) fn stored_plan(
    alloc: Global,
    streams: &[CatalogStream],
    schemas: &Schemas,
    program: &Program,
) -> Result<StoredPlan, Memory>
    requires kinds { schemas.now.kinds ≡ kinds_of_streams (states_of streams.now) }
    requires stored { IsStored (states_of streams.now) program.now }
    ensures plan { IfOk result (λ stored.
        IsPlanOf (states_of streams.now) program.now.text stored.typed.plan) }
    ensures typed { IfOk result (λ stored.
        IsTypedOver (kinds_of_streams (states_of streams.now)) stored.typed) }
    ensures same_cuts { IfOk result (λ stored. stored.cuts ≡ program.now.cuts) }
    ensures cuts { IfOk result (λ stored.
        AreCuts (states_of streams.now) (leaves stored.typed.plan) program.now.cuts) }
{
    let cuts = program.cuts.try_copy(alloc)?;
    match plan_of_text(alloc, streams, schemas, program.text.items()) {
        Ok(Some(typed)) => Ok(StoredPlan { typed, cuts }),
        Ok(None) => unreachable!(),
        Err(Memory) => Err(Memory),
    }
}
