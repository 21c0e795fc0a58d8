//! Kept results, read from their files.
ghost use Rattle.std.specs.Prelude.{◌≡◌, ◌↔◌, List, take, IsTrue, IfOk, IfErr, IfSome, OnOk};
ghost use Rattle.rows_core.specs.declared.file_ref.FileRef.{FileRef};
ghost use Rattle.row_blob.specs.Kept.{IsKept};
ghost use Rattle.plan_core.specs.PlainPlan.{plan_of};
ghost use Rattle.plan_core.specs.PlanTyping.{Kinds};
ghost use Rattle.executor.specs.Pieces.{HasTyping};
ghost use Rattle.plan_laws.specs.PlanShape.{plan_shape};
ghost use Rattle.outside_traits.specs.View.{View, Counts};
ghost use Rattle.outside_traits.specs.Calls.{Idles, MayRaiseReads};
ghost use Rattle.rewrite_core.specs.Files.{Result};
ghost use Rattle.extent_files.specs.Reads.{HasCause, FoundIn};
ghost use Rattle.result_ops.specs.Bounds.{IsBounded};
ghost use Rattle.result_ops.specs.Fitting.{IsFit, StandsInOrder};
ghost use Rattle.executor.specs.Reads.{IsOfForm, LoadsEntry};

use crate::shape_of;
use extent_files::{ReadRefusal, read_kept};
use outside_traits::Store;
use plan_core::Plan;
use result_ops::{Made, are_bounded};
use rewrite_core::Places;
use row_blob::Kept;
use std::alloc::Global;

/// The kept result of a typed plan, read from its file; `None` exactly where it lies outside of the bounds
/// within which results are worked on, as a file may have averages outside of i64. The refusals are those of
/// reading a kept form.
pub fn read_entry<D: Store, P: Places>(
    alloc: Global,
    plan: &Plan,
    id: u32,
    store: &mut D,
    places: &P,
) -> Result<Option<Made>, ReadRefusal>
    requires typed { HasTyping (P.stream_kinds places.now) (plan_of plan.now) }
    requires there { P.has places.now (Result id) }
    ensures loaded { let at = P.files places.now (Result id) in IfOk result
        (LoadsEntry D.tells (plan_of plan.now)
        (plan_shape (P.stream_kinds places.now) (plan_of plan.now)) at
        ((D.view store.old).files at.file) (P.machines places.now id) (D.counts store.old)
        (D.counts store.new)) }
    ensures fit { IfOk result (λ loaded. IfSome loaded (λ made.
        IsFit (P.stream_kinds places.now) (plan_of plan.now) made.kept × StandsInOrder made.kept)) }
    ensures cause { IfErr result
        (HasCause (P.files places.now (Result id)) (D.counts store.old) (D.counts store.new)) }
    ensures found { let at = P.files places.now (Result id) in IsTrue D.tells → IfErr result
        (FoundIn (plan_shape (P.stream_kinds places.now) (plan_of plan.now)) at
        (take at.len ((D.view store.old).files at.file)) (D.counts store.old) (D.counts store.new)) }
    ensures no_fault { OnOk result ((D.counts store.new).reads ≡ (D.counts store.old).reads) }
    ensures idles { Idles (D.view store.old) (D.view store.new) }
    ensures counts { MayRaiseReads (D.counts store.old) (D.counts store.new) }
{
    let shape = shape_of(alloc, places.schemas(), plan)?;
    let at = places.result(id);
    let machine = places.machine(id);
    let kept = read_kept(alloc, store, &at, &shape)?;
    Ok(made_before(plan, kept, machine))
}

// What was made before, with this machine time, if it lies within the bounds.
fn made_before(plan: &Plan, kept: Kept, machine: u32) -> Option<Made>
    requires { (schemas : List Kinds) × IsKept (plan_shape schemas (plan_of plan.now)) kept }
    ensures made { IsOfForm (plan_of plan.now) kept machine result }
    ensures bounded { IfSome result (λ made. IsBounded (plan_of plan.now) made.kept) }
{
    if !is_bounded(plan, &kept) {
        return None;
    }
    let taken_in = u64::from(machine).saturating_sub(1);
    Some(Made { kept, taken_in })
}

// Whether what a file of the plan's result holds lies within the bounds.
fn is_bounded(plan: &Plan, kept: &Kept) -> bool
    requires { (schemas : List Kinds) × IsKept (plan_shape schemas (plan_of plan.now)) kept.now }
    ensures { IsTrue result ↔ IsBounded (plan_of plan.now) kept.now }
{
    match kept {
        Kept::Groups(groups) => match plan {
            Plan::Group { aggs, .. } => are_bounded(groups.items(), aggs.items()),
            Plan::Scan { .. }
            | Plan::Filter { .. }
            | Plan::Project { .. }
            | Plan::Distinct { .. }
            | Plan::Join { .. }
            | Plan::Concat { .. }
            | Plan::Order { .. } => true,
        },
        Kept::Rows(_) | Kept::Tagged { .. } => true,
    }
}
