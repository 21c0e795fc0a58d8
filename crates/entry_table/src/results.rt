//! Which new results may be kept.
ghost use Rattle.std.specs.Prelude.{◌≡◌, ◌↔◌, ◌+◌, ◌≤◌, length, IsTrue, IfOk};
ghost use Rattle.std.specs.List.{AllByRecursion};
ghost use Rattle.plan_core.specs.PlainPlan.{plan_of};
ghost use Rattle.plan_spelling.specs.Spelling.{HasPlanSpelling, plan_spelling};
ghost use Rattle.fingerprints.specs.Keys as fingerprints;
ghost use Rattle.entry_table.specs.Ids.{is_among, without};
ghost use Rattle.entry_table.specs.Keyed.{IsOfItsPlan};
ghost use Rattle.entry_table.specs.Results.{MayBeKept, HaveNextFiles, IsResult, IsNewTo, Differ, IsOf};
ghost use Rattle.entry_table.specs.Results.{AreNew, IsShort};
ghost use Rattle.rows_core.specs.Limits.{most_entries};

use crate::ids::{count_without, is_among};
use catalog_types::{Entry, NewEntry};
use estimator::are_same_cuts;
use fingerprints::program_key;
use plan_core::Plan;
use plan_spelling::spell;
use rows_core::limits::{FILE_END, MAX_ENTRIES, MAX_PLAN_BYTES, MAX_RESULT_BYTES};
use rows_core::{Cut, Digest, Memory};
use std::alloc::Global;

/// Whether new results may be kept where these of the entries are dropped. It asks for memory, for the plans'
/// spellings, only where all is right that is told without them.
pub(crate) fn may_be_kept(
    alloc: Global,
    entries: &[Entry],
    dropped: &[u32],
    next_file: u64,
    kept: &[NewEntry],
) -> Result<bool, Memory>
    requires few { length entries.now ≤ most_entries }
    requires keyed { AllByRecursion IsOfItsPlan entries.now }
    requires spelled { AllByRecursion (λ new. HasPlanSpelling new.plan) kept.now }
    ensures { IfOk result (λ may. IsTrue may ↔ MayBeKept entries.now dropped.now next_file kept.now) }
{
    if !have_next_files(next_file, kept) || !are_new(alloc, entries, dropped, kept)? {
        return Ok(false);
    }
    are_short(alloc, kept)
}

fn are_new(
    alloc: Global,
    entries: &[Entry],
    dropped: &[u32],
    kept: &[NewEntry],
) -> Result<bool, Memory>
    requires few { length entries.now ≤ most_entries }
    requires keyed { AllByRecursion IsOfItsPlan entries.now }
    requires spelled { AllByRecursion (λ new. HasPlanSpelling new.plan) kept.now }
    ensures { IfOk result (λ are. IsTrue are ↔ AreNew entries.now dropped.now kept.now) }
{
    if are_few(entries, dropped, kept) && are_results(kept) && differ(kept) {
        are_new_to(alloc, entries, dropped, kept)
    } else {
        Ok(false)
    }
}

fn are_few(entries: &[Entry], dropped: &[u32], kept: &[NewEntry]) -> bool
    requires { length entries.now ≤ most_entries }
    ensures { IsTrue result
        ↔ (length (without dropped.now entries.now) + length kept.now ≤ most_entries) }
{
    let count = count_without(entries, dropped);
    count <= MAX_ENTRIES && kept.len() <= MAX_ENTRIES - count
}

// Whether their files are the next ones, in order. There may be more of them than may be kept.
fn have_next_files(next_file: u64, kept: &[NewEntry]) -> bool
    ensures { IsTrue result ↔ HaveNextFiles next_file kept.now }
{
    let mut file = next_file;
    let mut rest = kept;
    while let [new, others @ ..] = rest {
        if new.file.file != file || FILE_END <= file {
            return false;
        }
        file += 1;
        rest = others;
    }
    true
}

fn are_results(kept: &[NewEntry]) -> bool
    ensures { IsTrue result ↔ AllByRecursion IsResult kept.now }
{
    match kept {
        [] => true,
        [new, others @ ..] => is_result(new) && are_results(others),
    }
}

// Whether its file is short enough, and its machine time isn't 0.
fn is_result(new: &NewEntry) -> bool
    ensures { IsTrue result ↔ IsResult new.now }
{
    new.file.len <= MAX_RESULT_BYTES && 0 < new.machine
}

fn are_new_to(
    alloc: Global,
    entries: &[Entry],
    dropped: &[u32],
    kept: &[NewEntry],
) -> Result<bool, Memory>
    requires keyed { AllByRecursion IsOfItsPlan entries.now }
    requires spelled { AllByRecursion (λ new. HasPlanSpelling new.plan) kept.now }
    ensures { IfOk result
        (λ are. IsTrue are ↔ AllByRecursion (IsNewTo entries.now dropped.now) kept.now) }
{
    let [new, others @ ..] = kept else {
        return Ok(true);
    };
    let program = program_key(alloc, &new.plan)?;
    if is_new_to(entries, dropped, &program, new) {
        are_new_to(alloc, entries, dropped, others)
    } else {
        Ok(false)
    }
}

// Whether no entry has its plan, of this program key, and its cut, but for those that are dropped.
fn is_new_to(entries: &[Entry], dropped: &[u32], program: &Digest, new: &NewEntry) -> bool
    requires keyed { AllByRecursion IsOfItsPlan entries.now }
    requires program { program.now ≡ fingerprints.program_key new.now.plan }
    ensures { IsTrue result ↔ IsNewTo entries.now dropped.now new.now }
{
    match entries {
        [] => true,
        [entry, others @ ..] => {
            let is_free = !is_entry_of(entry, program, new) || is_among(dropped, entry.id);
            is_free && is_new_to(others, dropped, program, new)
        }
    }
}

// Whether it has the plan, of this program key, and the cut of a new result. Plans are compared only where the
// keys are the same.
fn is_entry_of(entry: &Entry, program: &Digest, new: &NewEntry) -> bool
    requires keyed { IsOfItsPlan entry.now }
    requires program { program.now ≡ fingerprints.program_key new.now.plan }
    ensures { IsTrue result ↔ IsOf entry.now.plan entry.now.cuts new.now }
{
    entry.program.is_same(program) && is_of(&entry.plan, entry.cuts.items(), new)
}

// Whether no two of them have the same plan and cut.
fn differ(kept: &[NewEntry]) -> bool
    ensures { IsTrue result ↔ Differ kept.now }
{
    match kept {
        [] => true,
        [new, others @ ..] => differ_from(new, others) && differ(others),
    }
}

// Whether none of the others has this one's plan and cut.
fn differ_from(new: &NewEntry, others: &[NewEntry]) -> bool
    ensures { IsTrue result
        ↔ AllByRecursion (λ other. ¬ (IsOf new.now.plan new.now.cuts other)) others.now }
{
    match others {
        [] => true,
        [other, behind @ ..] => {
            !is_of(&new.plan, new.cuts.items(), other) && differ_from(new, behind)
        }
    }
}

// Whether it is of this plan and cut.
fn is_of(plan: &Plan, cuts: &[Cut], new: &NewEntry) -> bool
    ensures { IsTrue result ↔ IsOf (plan_of plan.now) cuts.now new.now }
{
    are_same_cuts(cuts, new.cuts.items()) && plan.is_same(&new.plan)
}

// Whether the spelling of each plan is short enough.
fn are_short(alloc: Global, kept: &[NewEntry]) -> Result<bool, Memory>
    requires { AllByRecursion (λ new. HasPlanSpelling new.plan) kept.now }
    ensures { IfOk result (λ are. IsTrue are ↔ AllByRecursion IsShort kept.now) }
{
    let [new, others @ ..] = kept else {
        return Ok(true);
    };
    if is_short(alloc, new)? {
        are_short(alloc, others)
    } else {
        Ok(false)
    }
}

fn is_short(alloc: Global, new: &NewEntry) -> Result<bool, Memory>
    requires { HasPlanSpelling new.now.plan }
    ensures { IfOk result (λ is. IsTrue is ↔ IsShort new.now) }
{
    let spelling = spell(alloc, &new.plan)?;
    Ok(spelling.len() <= MAX_PLAN_BYTES)
}
