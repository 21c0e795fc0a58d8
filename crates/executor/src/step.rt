//! One file of a part, read.
ghost use Rattle.std.specs.Prelude.{◌≡◌, take, IsTrue, IfErr, IfSome, OnOk, OnErr};
ghost use Rattle.rows_core.specs.declared.file_ref.FileRef.{FileRef};
ghost use Rattle.plan_core.specs.PlainPlan.{PlainPlan, Scan, plan_of};
ghost use Rattle.plan_laws.specs.PlanShape.{plan_shape};
ghost use Rattle.outside_traits.specs.View.{View, Counts};
ghost use Rattle.outside_traits.specs.Calls.{Idles, MayRaiseReads};
ghost use Rattle.rewrite_core.specs.Files.{Extent, Result};
ghost use Rattle.executor.specs.Pieces.{HasTyping};
ghost use Rattle.extent_files.specs.Reads.{HasCause, FoundIn};
ghost use Rattle.executor.specs.Loading.{IsFitLoad};
ghost use Rattle.executor.specs.Progress.{loaded_as, IsStreamPart, LoadsNow, FeedsNow};

use crate::Loaded;
use crate::entry::read_entry;
use crate::extent::read_extent;
use extent_files::ReadRefusal;
use gathering::Gathering;
use outside_traits::Store;
use plan_core::Plan;
use result_ops::{Made, Stop};
use rewrite_core::Places;
use std::alloc::Global;

// Loads the kept result of a plan from its file.
pub(crate) fn load_entry<D: Store, P: Places>(
    alloc: Global,
    plan: &Plan,
    id: u32,
    loaded: &mut Option<Loaded>,
    store: &mut D,
    places: &P,
) -> Result<(), ReadRefusal>
    requires typed { HasTyping (P.stream_kinds places.now) (plan_of plan.now) }
    requires there { P.has places.now (Result id) }
    ensures loaded { let at = P.files places.now (Result id) in OnOk result
        (LoadsNow D.tells (plan_of plan.now) (plan_shape (P.stream_kinds places.now) (plan_of plan.now)) at
        ((D.view store.old).files at.file) (P.machines places.now id) (D.counts store.old)
        (D.counts store.new) loaded.new) }
    ensures fit { OnOk result (IfSome loaded.new (IsFitLoad (P.stream_kinds places.now) (plan_of plan.now))) }
    ensures refused { OnErr result (loaded.new ≡ loaded.old) }
    ensures cause { IfErr result
        (HasCause (P.files places.now (Result id)) (D.counts store.old) (D.counts store.new)) }
    ensures found { let at = P.files places.now (Result id) in IsTrue D.tells → IfErr result
        (FoundIn (plan_shape (P.stream_kinds places.now) (plan_of plan.now)) at
        (take at.len ((D.view store.old).files at.file)) (D.counts store.old) (D.counts store.new)) }
    ensures no_fault { OnOk result ((D.counts store.new).reads ≡ (D.counts store.old).reads) }
    ensures idles { Idles (D.view store.old) (D.view store.new) }
    ensures counts { MayRaiseReads (D.counts store.old) (D.counts store.new) }
{
    let made = read_entry(alloc, plan, id, store, places)?;
    *loaded = Some(loaded_from(made));
    Ok(())
}

// What is loaded: `Machine` where the kept result lies outside of the bounds.
fn loaded_from(made: Option<Made>) -> Loaded
    ensures { result ≡ loaded_as made }
{
    match made {
        Some(made) => Ok(made),
        None => Err(Stop::Machine),
    }
}

// Feeds the rows of an extent of the plan's stream.
pub(crate) fn feed_extent<D: Store, P: Places>(
    alloc: Global,
    gathering: &mut Gathering,
    stream: u32,
    number: u32,
    store: &mut D,
    places: &P,
) -> Result<(), ReadRefusal>
    requires part { (plan : PlainPlan)
        × IsStreamPart (P.stream_kinds places.now) plan gathering.old stream }
    requires there { P.has places.now (Extent stream number) }
    ensures plan { gathering.new.plan ≡ gathering.old.plan }
    ensures fed { let at = P.files places.now (Extent stream number) in OnOk result
        (FeedsNow D.tells (P.stream_kinds places.now) stream at ((D.view store.old).files at.file)
        (D.counts store.old) (D.counts store.new) gathering.old gathering.new) }
    ensures refused { OnErr result (gathering.new ≡ gathering.old) }
    ensures cause { IfErr result
        (HasCause (P.files places.now (Extent stream number)) (D.counts store.old) (D.counts store.new)) }
    ensures found { let at = P.files places.now (Extent stream number) in IsTrue D.tells → IfErr result
        (FoundIn (plan_shape (P.stream_kinds places.now) (Scan stream)) at
        (take at.len ((D.view store.old).files at.file)) (D.counts store.old) (D.counts store.new)) }
    ensures no_fault { OnOk result ((D.counts store.new).reads ≡ (D.counts store.old).reads) }
    ensures idles { Idles (D.view store.old) (D.view store.new) }
    ensures counts { MayRaiseReads (D.counts store.old) (D.counts store.new) }
{
    let rows = read_extent(alloc, stream, number, store, places)?;
    gathering.feed(alloc, rows)?;
    Ok(())
}
