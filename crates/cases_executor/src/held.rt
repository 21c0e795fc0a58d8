//! How many rows and groups a job holds.
ghost use Rattle.std.specs.Prelude.{List};
ghost use Rattle.std.specs.List.{AllByRecursion};
ghost use Rattle.plan_core.specs.TypedPlan.{IsTypedOver};
ghost use Rattle.growth_laws.specs.Pieces.{Piece};
ghost use Rattle.executor.specs.Progress.{left_in, ArePartsOf};
ghost use Rattle.cases_executor.specs.Filed.{HasFile};

use crate::given::Case;
use crate::running::searched;
use crate::shelf::{Disk, Shelf};
use crate::shown::put;
use anyhow::Result;
use executor::{Job, prepare, read_next};
use plan_core::Typed;
use postfix_plans::typed_of;
use rows_core::{Cut, Seq};
use std::alloc::Global;

/// How many rows and groups are held at each step.
pub fn held_at_steps(alloc: Global, case: &Case, shelf: &Shelf, disk: &mut Disk) -> Result<String> {
    let typed = typed_of(alloc, case.plan.as_str(), &shelf.schemas)?;
    held_at_each(alloc, &typed, &case.steps, shelf, disk)
}

fn held_at_each(
    alloc: Global,
    typed: &Typed,
    steps: &[Seq<Cut>],
    shelf: &Shelf,
    disk: &mut Disk,
) -> Result<String>
    requires { IsTypedOver shelf.now.schemas.kinds typed.now }
{
    let mut told = String::new(alloc);
    for cuts in steps {
        let held = held_at(alloc, typed, cuts.items(), shelf, disk)?;
        put(&mut told, "\n", held.as_str())?;
    }
    Ok(told)
}

/// How many rows and groups are held after each file that is read for the plan at the cut.
fn held_at(
    alloc: Global,
    typed: &Typed,
    cuts: &[Cut],
    shelf: &Shelf,
    disk: &mut Disk,
) -> Result<String>
    requires { IsTypedOver shelf.now.schemas.kinds typed.now }
{
    let tree = searched(alloc, typed, cuts, shelf)?;
    let mut job = prepare(alloc, tree)?;
    held_of(alloc, &mut job, shelf, disk)
}

// How many it holds after each of the files that are left.
fn held_of(alloc: Global, job: &mut Job, shelf: &Shelf, disk: &mut Disk) -> Result<String>
    requires there { AllByRecursion (HasFile shelf.now.extents shelf.now.kept.items)
        (left_in job.old.parts.items) }
    requires parts { (pieces : List Piece) × ArePartsOf shelf.now.schemas.kinds pieces job.old.parts.items }
{
    let mut held = String::new(alloc);
    while job.left() > 0 {
        read_next(alloc, job, &mut disk.store, shelf)?;
        put(
            &mut held,
            " ",
            format!(in alloc; "{}", job.held())?.as_str(),
        )?;
    }
    Ok(held)
}
