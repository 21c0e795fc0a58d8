//! What a piece of work records.
ghost use Rattle.std.specs.Prelude.{◌≡◌, ◌<◌, [], map, IfOk, IfSome};
ghost use Rattle.std.specs.List.{AllByRecursion};
ghost use Rattle.rows_core.specs.Name.{IsName};
ghost use Rattle.plan_core.specs.PlainPlan.{plan_of};
ghost use Rattle.plan_spelling.specs.Spelling.{HasPlanSpelling};
ghost use Rattle.executor.specs.declared.outcome.KeptPlace.{KeptPlace};
ghost use Rattle.admission.specs.Admitting.{made_of, Admits};
ghost use Rattle.entry_table.specs.Ids.{AreIdsOf, without};
ghost use Rattle.catalog_types.specs.declared.change.Change.TheVariants as change;
ghost use Rattle.catalog_types.specs.declared.program.Program.{Program};
ghost use Rattle.catalog_core.specs.Catalogs.{table_of};
ghost use Rattle.catalog_core.specs.Table.{FitsProgram};
ghost use Rattle.rows_core.specs.Limits.{most_ticks};
ghost use Rattle.work_plan.specs.Fitting.{IsFit};
ghost use Rattle.work_plan.specs.Planning.{IsWorkPlan};

use crate::ids::ids_from;
use crate::parting::taken_apart;
use admission::{NewResult, admit, admitted_results_may_be_kept};
use catalog_core::{Catalog, know_table};
use catalog_types::{Change, NewEntry, Program};
use executor::KeptPlace;
use plan_binder::bind_laws;
use record_codec::{changes_are_short, spell_change};
use rows_core::{Memory, Seq};
use std::alloc::Global;

/// What a piece of work records: the change with its bytes, the bytes of the files of the new results in the
/// order of their numbers, and the ids that the results get.
#[derive(Drop)]
pub struct WorkPlan {
    pub change: Change,
    pub body: Vec<u8>,
    pub files: Vec<Seq<u8>>,
    pub kept: Vec<u32>,
}

/// What work records that stores this program, if there is one, used the results with these ids, drops those
/// with these, and made these results, of which those are kept that are admitted beside the ones that
/// stay. `Memory` where memory was asked for and refused.
pub fn plan_work(
    alloc: Global,
    catalog: &Catalog,
    program: Option<Program>,
    used: Vec<u32>,
    dropped: Vec<u32>,
    made: Vec<KeptPlace>,
) -> Result<WorkPlan, Memory>
    requires program { FitsProgram program (table_of catalog.now) }
    requires counted { (table_of catalog.now).tick < most_ticks }
    requires used { AreIdsOf (table_of catalog.now).entries used.items }
    requires dropped { AreIdsOf (table_of catalog.now).entries dropped.items }
    requires made { AllByRecursion (λ (kept : KeptPlace). IsFit (table_of catalog.now).streams
        (plan_of kept.plan) kept.cuts × (0 < kept.machine)) made.items }
    ensures { IfOk result
        (IsWorkPlan (table_of catalog.now) program used.items dropped.items (map made_of made.items)) }
{
    bind_laws::counts_are_of_the_written_plan();
    admitted_results_may_be_kept();
    changes_are_short();
    know_name(&program);
    know_table(catalog);
    let admitted = admitted_beside(alloc, catalog, dropped.as_slice(), made)?;
    let count = admitted.len();
    let parts = taken_apart(alloc, admitted)?;
    let kept = ids_from(alloc, catalog.next_id(), count)?;
    let change = change_of(program, used, dropped, parts.entries);
    let body = spell_change(alloc, &change)?;
    Ok(WorkPlan {
        change,
        body,
        files: parts.files,
        kept,
    })
}

// Those of the results that are admitted beside the catalogue's, but those that are dropped.
fn admitted_beside(
    alloc: Global,
    catalog: &Catalog,
    dropped: &[u32],
    made: Vec<KeptPlace>,
) -> Result<Vec<NewResult>, Memory>
    requires { AllByRecursion (λ (kept : KeptPlace). HasPlanSpelling (plan_of kept.plan)) made.items }
    ensures { IfOk result (λ admitted. Admits (without dropped.now (table_of catalog.now).entries)
        (table_of catalog.now).next_file [] (map made_of made.items) admitted.items) }
{
    admit(alloc, catalog.entries(), dropped, catalog.next_file(), made)
}

// The change that stores this program, if there is one, drops these results, and keeps those, where these were
// used.
fn change_of(
    program: Option<Program>,
    used: Vec<u32>,
    dropped: Vec<u32>,
    entries: Vec<NewEntry>,
) -> Change
    ensures { result ≡ change.Work program used.items dropped.items entries.items }
{
    Change::Work {
        program,
        reads: Seq::new(used),
        dropped: Seq::new(dropped),
        kept: Seq::new(entries),
    }
}

// The name of a program is a name, which its type says.
fn know_name(program: &Option<Program>)
    ensures { IfSome program.now (λ (program : Program). IsName program.name) }
{
    if let Some(program) = program {
        let _ = program.name.bytes();
    }
}
