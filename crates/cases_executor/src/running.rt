//! The least rewriting of a plan at a cut, and its run.
ghost use Rattle.std.specs.Prelude.{IfOk};
ghost use Rattle.std.specs.List.{AllByRecursion};
ghost use Rattle.estimator.specs.Bytes.{IsCutOf};
ghost use Rattle.plan_core.specs.TypedPlan.{IsTypedOver};
ghost use Rattle.rewrite_core.specs.Entries.{AreSound};
ghost use Rattle.growth_laws.specs.There.{IsWithin};
ghost use Rattle.postfix_plans.specs.Listed.{entries_of};
ghost use Rattle.cases_executor.specs.Filed.{counts_of, IsFiled, CanRun};

use crate::shelf::{Disk, Shelf};
use crate::shown::numbers_shown;
use crate::within::{all_filed, is_within};
use anyhow::{Result, bail};
use executor::{EndedRun, Outcome, run};
use growth_laws::named_files_are_there;
use plan_core::Typed;
use postfix_plans::{are_in_streams, are_sound};
use rewrite_core::Rewriting;
use rewriter::{laws, least, reads};
use rows_core::{Cut, Memory};
use std::alloc::Global;

/// What a run reads, as `336 bytes, uses 1,4`, and what it gives.
#[derive(Drop)]
pub struct Ran {
    pub reads: String,
    pub outcome: Result<Outcome, EndedRun>,
}

/// Runs the plan at the cut over the files.
pub fn run_at(
    alloc: Global,
    typed: &Typed,
    cuts: &[Cut],
    shelf: &Shelf,
    disk: &mut Disk,
) -> Result<Ran>
    requires { IsTypedOver shelf.now.schemas.kinds typed.now }
{
    let tree = searched(alloc, typed, cuts, shelf)?;
    run_of(alloc, tree, shelf, disk)
}

fn run_of(alloc: Global, tree: Rewriting, shelf: &Shelf, disk: &mut Disk) -> Result<Ran>
    requires { CanRun shelf.now tree }
{
    let reads = reads_shown(alloc, &tree, shelf)?;
    Ok(Ran {
        reads,
        outcome: run(alloc, tree, &mut disk.store, shelf),
    })
}

fn reads_shown(alloc: Global, tree: &Rewriting, shelf: &Shelf) -> Result<String>
    requires { CanRun shelf.now tree.now }
{
    let bytes = reads(tree, &shelf.lens);
    let used = numbers_shown(alloc, &tree.used(alloc)?)?;
    Ok(format!(in alloc; "{bytes} bytes, uses {used}")?)
}

/// The least rewriting of the plan at the cut, which can be run over the files.
pub fn searched(alloc: Global, typed: &Typed, cuts: &[Cut], shelf: &Shelf) -> Result<Rewriting>
    requires { IsTypedOver shelf.now.schemas.kinds typed.now }
    ensures { IfOk result (CanRun shelf.now) }
{
    if !are_sound(alloc, &shelf.results.results)? {
        bail!("the kept results aren't sound");
    }
    if !all_filed(shelf) {
        bail!("a kept result has no file");
    }
    if !are_in_streams(shelf.lens.lens.items(), typed.leaves(), cuts) {
        bail!("the cut isn't in the streams");
    }
    if !is_within(typed, cuts, shelf) {
        bail!("an extent has no file");
    }
    Ok(least_over(alloc, typed, cuts, shelf)?)
}

fn least_over(
    alloc: Global,
    typed: &Typed,
    cuts: &[Cut],
    shelf: &Shelf,
) -> Result<Rewriting, Memory>
    requires typed { IsTypedOver shelf.now.schemas.kinds typed.now }
    requires sound { AreSound (entries_of shelf.now.results.results.items) }
    requires filed { AllByRecursion (IsFiled shelf.now.kept.items)
        (entries_of shelf.now.results.results.items) }
    requires cuts { IsCutOf shelf.now.lens.lens typed.now.plan cuts.now }
    requires within { IsWithin (counts_of shelf.now.extents) typed.now.plan cuts.now }
    ensures { IfOk result (CanRun shelf.now) }
{
    laws::rewritings_are_formed();
    named_files_are_there();
    let tree = least(alloc, typed, cuts, &shelf.results, &shelf.lens)?;
    Ok(tree)
}
