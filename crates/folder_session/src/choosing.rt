//! What is taken of a plan that is worked off.
ghost use Rattle.std.specs.Prelude.{[], IfOk};
ghost use Rattle.catalog_core.specs.Catalogs.{table_of};
ghost use Rattle.planning.specs.Running.{Target, IsTypedAt};
ghost use Rattle.work_run.specs.Chosen.{IsChosen};
ghost use Rattle.work_turns.specs.Turns.{IsChosenOf};

use catalog_core::Catalog;
use plan_choice::{
    Choice, choose_without, normal_form, results_are_left_out, serving_rewritings, taken_rewritings,
};
use plan_core::Typed;
use rows_core::{Cut, Memory};
use std::alloc::Global;

/// What is taken of a plan: its normal form, and a choice of it.
#[derive(Drop)]
pub struct NormalChoice {
    pub normal: Typed,
    pub choice: Choice,
}

/// What is taken of a plan at a cut of a catalogue's streams, which is within the limits of written plans: a
/// choice that can be worked off and recorded. `Memory` where memory was asked for and refused.
pub fn chosen(
    alloc: Global,
    catalog: &Catalog,
    typed: Typed,
    cuts: &[Cut],
) -> Result<NormalChoice, Memory>
    requires { (target : Target) × IsTypedAt (table_of catalog.now) target typed cuts.now }
    ensures of_form { IfOk result (λ taken. (target : Target)
        → IsTypedAt (table_of catalog.now) target typed cuts.now → IsChosenOf (table_of catalog.now) []
        target.plan taken.normal.plan cuts.now taken.choice) }
    ensures chosen { IfOk result (λ taken. (target : Target)
        → IsTypedAt (table_of catalog.now) target typed cuts.now
        → IsChosen (table_of catalog.now) target.plan cuts.now taken.choice) }
{
    taken_rewritings();
    serving_rewritings();
    results_are_left_out();
    let normal = normal_form(alloc, catalog, typed)?;
    let choice = choose_without(alloc, catalog, &normal, cuts, &[])?;
    Ok(NormalChoice { normal, choice })
}
