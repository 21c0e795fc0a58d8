//! The work of turns.
ghost use Rattle.std.specs.Prelude.{◌≡◌, ◌<◌, ◌≤◌, List, [], length, map, IfOk};
ghost use Rattle.plan_core.specs.PlainPlan.{PlainPlan};
ghost use Rattle.estimator.specs.Cuts.{Cuts};
ghost use Rattle.catalog_core.specs.Catalogs.{table_of};
ghost use Rattle.catalog_core.specs.Table.{FitsProgram};
ghost use Rattle.rows_core.specs.Limits.{most_ticks};
ghost use Rattle.admission.specs.Admitting.{made_of};
ghost use Rattle.folder.specs.Sound.{Care};
ghost use Rattle.folder.specs.State.{State, IsValid, table};
ghost use Rattle.work_plan.specs.Planning.{IsWorkPlan};
ghost use Rattle.work_run.specs.Ends.{HaveFewValues};
ghost use Rattle.work_turns.specs.Ends.{ComesInTurns, IsToldLast, files_among, those_among};
ghost use Rattle.work_turns.specs.Turns.{IsChosenOf, IsLastTurn};

use crate::dropping::{Dropped, dropped_results};
use crate::turns::{LastTurn, Turn};
use catalog_core::{Catalog, kept_results_of_tables, know_table};
use catalog_types::Program;
use executor::Outcome;
use plan_choice::{Choice, results_are_left_out, serving_rewritings, taken_rewritings};
use plan_laws::kept_forms_have_their_shape;
use rows_core::Memory;
use std::alloc::Global;
use work_plan::{places_of_fit_plans, plan_work};
use work_run::Work;

/// The work of turns, and what goes with it.
#[derive(Drop)]
pub struct WorkInTurns {
    pub work: Work,
    /// The ids of the kept results that are dropped.
    pub dropped: Vec<u32>,
    /// The numbers of their files, in the same order.
    pub gone: Vec<u64>,
}

/// The work of turns, by the last of them, and what is recorded of it; nothing is written. Over a state's files the rows
/// are those of the plan as it is written, whatever is kept and whatever of it is damaged. The results that were lost are
/// dropped by what is recorded, and the same plan and cut may be kept anew.
pub fn work_of_turns(
    alloc: Global,
    catalog: &Catalog,
    program: Option<Program>,
    last: LastTurn,
) -> Result<WorkInTurns, Memory>
    requires program { FitsProgram program (table_of catalog.now) }
    requires counted { (table_of catalog.now).tick < most_ticks }
    requires told { IsToldLast (table_of catalog.now) last }
    ensures ok { (care : Care) (s : State) (plan form : PlainPlan) (cuts : Cuts) (choice : Choice) → IsValid s
        → table_of catalog.now ≡ table s → IsChosenOf (table_of catalog.now) [] plan form cuts choice
        → IsLastTurn care s plan form cuts last
        → IfOk result (λ done. ComesInTurns care s program plan form cuts done.work) }
    ensures rows { IfOk result (λ done. done.work.rows ≡ last.turn.outcome.rows) }
    ensures used { IfOk result (λ done. done.work.used ≡ last.turn.used) }
    ensures read { IfOk result (λ done. done.work.read ≡ last.read) }
    // On every store what is recorded fits the table, the rows have few values, and few results are used.
    ensures plan { IfOk result (λ done. IsWorkPlan (table_of catalog.now) program done.work.used.items
        (those_among last.lost.items (table_of catalog.now).entries)
        (map made_of last.turn.outcome.made.items) done.work.plan) }
    ensures dropped { IfOk result (λ done. done.dropped.items
        ≡ those_among last.lost.items (table_of catalog.now).entries) }
    ensures gone { IfOk result (λ done. done.gone.items ≡ files_among
        (those_among last.lost.items (table_of catalog.now).entries)
        (table_of catalog.now).entries) }
    ensures narrow { IfOk result
        (λ done. HaveFewValues done.work.rows.items × (length done.work.used.items ≤ 4096)) }
{
    kept_results_of_tables();
    taken_rewritings();
    serving_rewritings();
    results_are_left_out();
    places_of_fit_plans();
    kept_forms_have_their_shape();
    know_table(catalog);
    let LastTurn { turn, read, lost } = last;
    let Turn { outcome, used, .. } = turn;
    let Outcome { rows, made } = outcome;
    let dropped = dropped_results(alloc, catalog.entries(), lost.as_slice())?;
    let Dropped { ids, files } = dropped;
    let reads = copied(alloc, used.as_slice())?;
    let goes = copied(alloc, ids.as_slice())?;
    let plan = plan_work(alloc, catalog, program, reads, ids, made)?;
    let work = Work {
        rows,
        used,
        read,
        plan,
    };
    Ok(WorkInTurns {
        work,
        dropped: goes,
        gone: files,
    })
}

// The same ids once more.
fn copied(alloc: Global, ids: &[u32]) -> Result<Vec<u32>, Memory>
    ensures { IfOk result (λ copy. copy.items ≡ ids.now) }
{
    let mut copy = Vec::with_capacity(alloc, ids.len())?;
    copy.extend_from_slice(ids)?;
    Ok(copy)
}
