//! Entries as they are read, without the keys of their plans and cuts.
ghost use Rattle.std.specs.Prelude.{◌≡◌, ◌↔◌, [], ◌∷◌, ◌++◌, map, IsTrue, IfOk, OnOk};
ghost use Rattle.std.specs.List.{AllByRecursion};
ghost use Rattle.plan_spelling.specs.Spelling.{HasPlanSpelling};
ghost use Rattle.entry_table.specs.AreKept.{AreKept, NoTwoAreAlike};
ghost use Rattle.entry_table.specs.Keyed.{with_keys};
ghost use Rattle.entry_table.specs.Restoring.{HaveIds, IsCounted, HasShortPlan, plan_and_cut, is_fresh};
ghost use Rattle.entry_table.specs.Work.{kept_with};

use crate::keys::{Chains, Keys};
use catalog_types::Entry;
use indexmap::IndexSet;
use plan_spelling::spell;
use rows_core::limits::{MAX_ENTRIES, MAX_PLAN_BYTES, MAX_RESULT_BYTES};
use rows_core::{Cut, Memory, Seq, Text};
use std::alloc::Global;

/// What no two entries of a table share.
#[derive(PartialEq, Eq, Hash, Drop)]
struct PlanAndCut {
    /// Of the plan, which no other plan has.
    spelling: Text,
    cuts: Seq<Cut>,
}

/// Whether they may be the entries of a table whose next id is this one, whatever their keys. It asks for
/// memory only where all but their plans is right.
pub(crate) fn are_kept(alloc: Global, next_id: u64, entries: &[Entry]) -> Result<bool, Memory>
    requires { AllByRecursion (λ e. HasPlanSpelling e.plan) entries.now }
    ensures { IfOk result (λ are. IsTrue are ↔ AreKept (kept_with next_id entries.now)) }
{
    let are = 0 < next_id
        && entries.len() <= MAX_ENTRIES
        && have_ids(0, next_id, entries)
        && are_counted(entries);
    if !are {
        return Ok(false);
    }
    differ(alloc, entries)
}

/// Gives each entry the keys of its plan and cut. `Memory` where it is refused; some of them have theirs then.
pub(crate) fn put_keys<C: Chains>(
    alloc: Global,
    chains: &C,
    entries: &mut Vec<Entry>,
) -> Result<(), Memory>
    requires { AllByRecursion (λ e. HasPlanSpelling e.plan) entries.old.items }
    ensures { OnOk result
        (entries.new.items ≡ map (with_keys (C.digests chains.now)) entries.old.items) }
{
    for place in 0..entries.len() {
        put_keys_of(alloc, chains, &mut entries[place])?;
    }
    Ok(())
}

fn put_keys_of<C: Chains>(alloc: Global, chains: &C, entry: &mut Entry) -> Result<(), Memory>
    requires { HasPlanSpelling entry.old.plan }
    ensures { OnOk result (entry.new ≡ with_keys (C.digests chains.now) entry.old) }
{
    let keys = Keys::of(alloc, chains, &entry.plan, entry.cuts.items())?;
    entry.program = keys.program;
    entry.key = keys.key;
    Ok(())
}

// Whether their ids ascend above this one and are below the next one.
fn have_ids(low: u32, next_id: u64, entries: &[Entry]) -> bool
    ensures { IsTrue result ↔ HaveIds low next_id entries.now }
{
    match entries {
        [] => true,
        [entry, others @ ..] => {
            low < entry.id && u64::from(entry.id) < next_id && have_ids(entry.id, next_id, others)
        }
    }
}

fn are_counted(entries: &[Entry]) -> bool
    ensures { IsTrue result ↔ AllByRecursion IsCounted entries.now }
{
    match entries {
        [] => true,
        [entry, others @ ..] => is_counted(entry) && are_counted(others),
    }
}

// Whether it was used, its machine time isn't 0, and its file is short enough.
fn is_counted(entry: &Entry) -> bool
    ensures { IsTrue result ↔ IsCounted entry.now }
{
    0 < entry.uses && 0 < entry.machine && entry.file.len <= MAX_RESULT_BYTES
}

// Whether the spelling of each plan is short enough, and no two entries have the same plan and cut.
fn differ(alloc: Global, entries: &[Entry]) -> Result<bool, Memory>
    requires { AllByRecursion (λ e. HasPlanSpelling e.plan) entries.now }
    ensures { IfOk result (λ differ. IsTrue differ
        ↔ (AllByRecursion HasShortPlan entries.now × NoTwoAreAlike entries.now)) }
{
    let mut seen = IndexSet::with_capacity(alloc, entries.len())?;
    let mut rest = entries;
    while let [entry, behind @ ..] = rest {
        if !is_fresh(alloc, &mut seen, entry)? {
            return Ok(false);
        }
        rest = behind;
    }
    Ok(true)
}

// Whether its plan's spelling is short enough, and its plan and cut aren't among those that were seen. They
// are then.
fn is_fresh(alloc: Global, seen: &mut IndexSet<PlanAndCut>, entry: &Entry) -> Result<bool, Memory>
    requires { HasPlanSpelling entry.now.plan }
    ensures fresh { IfOk result (λ fresh. fresh ≡ is_fresh seen.old.keys entry.now) }
    ensures seen { IfOk result
        (λ fresh. IsTrue fresh → seen.new.keys ≡ seen.old.keys ++ plan_and_cut entry.now ∷ []) }
{
    let own = plan_and_cut(alloc, entry)?;
    if own.spelling.items().len() > MAX_PLAN_BYTES {
        return Ok(false);
    }
    Ok(seen.insert(own)?)
}

fn plan_and_cut(alloc: Global, entry: &Entry) -> Result<PlanAndCut, Memory>
    requires { HasPlanSpelling entry.now.plan }
    ensures { IfOk result (λ own. own ≡ plan_and_cut entry.now) }
{
    let spelling = spell(alloc, &entry.plan)?;
    Ok(PlanAndCut {
        spelling: Seq::new(spelling),
        cuts: entry.cuts.try_copy(alloc)?,
    })
}
