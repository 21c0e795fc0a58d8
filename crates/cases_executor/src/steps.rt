//! The steps of a case that is run.
ghost use Rattle.plan_core.specs.TypedPlan.{IsTypedOver};

use crate::given::Case;
use crate::meant::meant_at;
use crate::running::{Ran, run_at};
use crate::shelf::{Disk, Shelf, keep};
use crate::shown::{cuts_shown, put, rows_shown, word_of};
use anyhow::{Context, Result};
use executor::{EndedRun, KeptPlace, Outcome};
use plan_core::Typed;
use postfix_plans::typed_of;
use rows_core::Cut;
use std::alloc::Global;

/// What a step gives, or the refusal; what it reads and keeps; and what the plan means.
#[derive(Drop)]
struct Told {
    rows: String,
    work: String,
    meant: String,
}

/// What is given, read, kept and meant at each step.
pub fn run_at_steps(
    alloc: Global,
    case: &Case,
    shelf: &mut Shelf,
    disk: &mut Disk,
) -> Result<String> {
    let mut lines = String::new(alloc);
    for cuts in &case.steps {
        let line = step(alloc, case, cuts.items(), shelf, disk)?;
        put(&mut lines, "\n", line.as_str())?;
    }
    Ok(lines)
}

fn step(
    alloc: Global,
    case: &Case,
    cuts: &[Cut],
    shelf: &mut Shelf,
    disk: &mut Disk,
) -> Result<String> {
    let told = told_at(alloc, case, cuts, shelf, disk)?;
    line_of(alloc, &told)
}

fn line_of(alloc: Global, told: &Told) -> Result<String> {
    let judged = if told.rows == told.meant {
        "same"
    } else {
        "differs"
    };
    let rows = if told.rows.is_empty() {
        "no rows"
    } else {
        told.rows.as_str()
    };
    let work = told.work.as_str();
    Ok(format!(in alloc; "{rows} | {work} | {judged}")?)
}

/// What is given and meant at the one step.
pub fn run_once(alloc: Global, case: &Case, shelf: &mut Shelf, disk: &mut Disk) -> Result<String> {
    let cuts = case.steps.first().context("no step")?;
    let told = told_at(alloc, case, cuts.items(), shelf, disk)?;
    rows_of_both(alloc, &told)
}

fn rows_of_both(alloc: Global, told: &Told) -> Result<String> {
    let (rows, meant) = (told.rows.as_str(), told.meant.as_str());
    if rows == meant {
        return Ok(String::from_str(alloc, rows)?);
    }
    Ok(format!(in alloc; "{rows} by the run, {meant} by the evaluator")?)
}

fn told_at(
    alloc: Global,
    case: &Case,
    cuts: &[Cut],
    shelf: &mut Shelf,
    disk: &mut Disk,
) -> Result<Told> {
    let typed = typed_of(alloc, case.plan.as_str(), &shelf.schemas)?;
    told_of(alloc, case, &typed, cuts, shelf, disk)
}

fn told_of(
    alloc: Global,
    case: &Case,
    typed: &Typed,
    cuts: &[Cut],
    shelf: &mut Shelf,
    disk: &mut Disk,
) -> Result<Told>
    requires { IsTypedOver shelf.old.schemas.kinds typed.now }
{
    let meant = meant_shown(alloc, case, typed.leaves(), cuts)?;
    let ran = run_at(alloc, typed, cuts, shelf, disk)?;
    told_of_run(alloc, &ran, meant, shelf, disk)
}

fn meant_shown(alloc: Global, case: &Case, leaves: &[u32], cuts: &[Cut]) -> Result<String> {
    match meant_at(alloc, case, leaves, cuts) {
        Ok(rows) => Ok(rows),
        Err(refusal) => Ok(format!(in alloc; "{refusal}")?),
    }
}

fn told_of_run(
    alloc: Global,
    ran: &Ran,
    meant: String,
    shelf: &mut Shelf,
    disk: &mut Disk,
) -> Result<Told> {
    let rows = rows_given(alloc, &ran.outcome)?;
    let kept = all_kept(alloc, &ran.outcome, shelf, disk)?;
    let reads = ran.reads.as_str();
    let work = format!(in alloc; "{reads} | keeps {kept}")?;
    Ok(Told { rows, work, meant })
}

fn rows_given(alloc: Global, outcome: &Result<Outcome, EndedRun>) -> Result<String> {
    match outcome {
        Ok(outcome) => rows_shown(alloc, &outcome.rows),
        Err(ended) => Ok(format!(in alloc; "{}", ended.why)?),
    }
}

/// Keeps the results that aren't kept yet, and tells of each its id, its operator, its cut and its machine
/// time.
fn all_kept(
    alloc: Global,
    outcome: &Result<Outcome, EndedRun>,
    shelf: &mut Shelf,
    disk: &mut Disk,
) -> Result<String> {
    let mut told = String::new(alloc);
    if let Ok(outcome) = outcome {
        each_kept(alloc, &outcome.made, shelf, disk, &mut told)?;
    }
    if told.is_empty() {
        told.push_str("nothing")?;
    }
    Ok(told)
}

fn each_kept(
    alloc: Global,
    made: &[KeptPlace],
    shelf: &mut Shelf,
    disk: &mut Disk,
    told: &mut String,
) -> Result<()> {
    for place in made {
        if let Some(id) = keep(alloc, place, shelf, disk)? {
            put(told, "; ", place_shown(alloc, id, place)?.as_str())?;
        }
    }
    Ok(())
}

fn place_shown(alloc: Global, id: u32, place: &KeptPlace) -> Result<String> {
    let (word, machine) = (word_of(&place.plan), place.machine);
    let cuts = cuts_shown(alloc, place.cuts.items())?;
    Ok(format!(in alloc; "{id}: {word} at {cuts} in {machine}")?)
}
