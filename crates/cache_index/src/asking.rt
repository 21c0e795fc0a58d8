//! What look-ups ask of each entry.
ghost use Rattle.std.specs.Prelude.{◌≡◌, ◌↔◌, ◌==◌, Some, None, IsTrue, IfOk, IfSome};
ghost use Rattle.std.specs.List.{find};
ghost use Rattle.plan_core.specs.PlainPlan.{plan_of};
ghost use Rattle.rewrite_core.specs.Entries.{AnswersWhole, entry_of};
ghost use Rattle.rewrite_core.specs.Looking.{IsAt, ComesBefore, IsFurther, IsBestOf};
ghost use Rattle.cache_index.specs.Asked.{entry as looked_at, is_asked, asked, IsWholeAt, IsEarlierAt};
ghost use Rattle.cache_index.specs.Ids.{ids_of, ascend_above, listed};

use crate::ids::entry_of;
use catalog_types::Entry;
use estimator::{are_at_or_before, are_same_cuts, reach};
use plan_core::Plan;
use rewrite_core::Hit;
use rows_core::{Cut, Memory};
use std::alloc::Global;

/// The entry of this plan and cut, of those whose ids aren't in `without`.
pub fn whole_in(
    alloc: Global,
    entries: &[Entry],
    without: &[u32],
    plan: &Plan,
    cuts: &[Cut],
) -> Result<Option<Hit>, Memory>
    ensures { IfOk result (AnswersWhole (asked without.now entries.now) (plan_of plan.now) cuts.now) }
{
    match entries {
        [] => Ok(None),
        [first, others @ ..] => {
            if is_whole(first, without, plan, cuts) {
                return Ok(Some(hit_of(alloc, first)?));
            }
            let found = whole_in(alloc, others, without, plan, cuts)?;
            Ok(found)
        }
    }
}

/// Of the entries of this plan at earlier cuts, but those whose ids are in `without`, the one that reaches
/// furthest, and of those the one with the least id.
pub fn best_in(
    alloc: Global,
    entries: &[Entry],
    without: &[u32],
    plan: &Plan,
    cuts: &[Cut],
) -> Result<Option<Hit>, Memory>
    ensures { IfOk result (IsBestOf (asked without.now entries.now) (plan_of plan.now) cuts.now) }
{
    match entries {
        [] => Ok(None),
        [first, others @ ..] => {
            let best = best_in(alloc, others, without, plan, cuts)?;
            if comes_before(first, without, plan, cuts) && is_further(first, &best) {
                return Ok(Some(hit_of(alloc, first)?));
            }
            Ok(best)
        }
    }
}

/// The entry of this plan and cut, of those with these ids but those whose ids are in `without`.
pub fn whole_among(
    alloc: Global,
    entries: &[Entry],
    ids: &[u32],
    without: &[u32],
    plan: &Plan,
    cuts: &[Cut],
) -> Result<Option<Hit>, Memory>
    requires { IsTrue (ascend_above 0 (ids_of entries.now)) }
    ensures { IfOk result (AnswersWhole (asked without.now (listed ids.now entries.now))
        (plan_of plan.now) cuts.now) }
{
    let mut rest = ids;
    while let [id, behind @ ..] = rest {
        if let Some(entry) = whole_at(entries, *id, without, plan, cuts) {
            return Ok(Some(hit_of(alloc, entry)?));
        }
        rest = behind;
    }
    Ok(None)
}

/// Of the entries of this plan at earlier cuts with these ids, but those whose ids are in `without`, the one that
/// reaches furthest, and of those the one with the least id.
pub fn best_among(
    alloc: Global,
    entries: &[Entry],
    ids: &[u32],
    without: &[u32],
    plan: &Plan,
    cuts: &[Cut],
) -> Result<Option<Hit>, Memory>
    requires { IsTrue (ascend_above 0 (ids_of entries.now)) }
    ensures { IfOk result (IsBestOf (asked without.now (listed ids.now entries.now))
        (plan_of plan.now) cuts.now) }
{
    match ids {
        [] => Ok(None),
        [id, others @ ..] => {
            let best = best_among(alloc, entries, others, without, plan, cuts)?;
            if let Some(entry) = further_at(entries, *id, without, plan, cuts, &best) {
                return Ok(Some(hit_of(alloc, entry)?));
            }
            Ok(best)
        }
    }
}

// The entry with this id, where it is asked, and of this plan and cut.
fn whole_at<'a>(
    entries: &'a [Entry],
    id: u32,
    without: &[u32],
    plan: &Plan,
    cuts: &[Cut],
) -> Option<&'a Entry>
    requires { IsTrue (ascend_above 0 (ids_of entries.now)) }
    ensures found { IfSome result (λ e. (find (λ x. x.id == id) entries.now ≡ Some e.now)
        × IsWholeAt without.now (plan_of plan.now) cuts.now e.now) }
    ensures none { result ≡ None → IfSome (find (λ x. x.id == id) entries.now)
        (λ e. ¬ (IsWholeAt without.now (plan_of plan.now) cuts.now e)) }
{
    match entry_of(entries, id) {
        Some(entry) if is_whole(entry, without, plan, cuts) => Some(entry),
        _ => None,
    }
}

// The entry with this id, where it is asked, of this plan at an earlier cut, and further than the best one.
fn further_at<'a>(
    entries: &'a [Entry],
    id: u32,
    without: &[u32],
    plan: &Plan,
    cuts: &[Cut],
    best: &Option<Hit>,
) -> Option<&'a Entry>
    requires { IsTrue (ascend_above 0 (ids_of entries.now)) }
    ensures found { IfSome result (λ e. (find (λ x. x.id == id) entries.now ≡ Some e.now)
        × IsEarlierAt without.now (plan_of plan.now) cuts.now e.now
        × IsFurther (looked_at e.now) best.now) }
    ensures none { result ≡ None → IfSome (find (λ x. x.id == id) entries.now)
        (λ e. IsEarlierAt without.now (plan_of plan.now) cuts.now e
        → ¬ (IsFurther (looked_at e) best.now)) }
{
    match entry_of(entries, id) {
        Some(entry) if comes_before(entry, without, plan, cuts) && is_further(entry, best) => {
            Some(entry)
        }
        _ => None,
    }
}

// What a rewriting names it by.
fn hit_of(alloc: Global, entry: &Entry) -> Result<Hit, Memory>
    ensures { IfOk result (λ hit. entry_of entry.now.plan hit ≡ looked_at entry.now) }
{
    Ok(Hit {
        id: entry.id,
        cuts: entry.cuts.try_copy(alloc)?,
        len: entry.file.len,
    })
}

fn is_asked(entry: &Entry, without: &[u32]) -> bool
    ensures { result ≡ is_asked without.now entry.now }
{
    !without.contains(&entry.id)
}

// Whether it is asked, and of this plan and cut.
fn is_whole(entry: &Entry, without: &[u32], plan: &Plan, cuts: &[Cut]) -> bool
    ensures { IsTrue result ↔ (IsTrue (is_asked without.now entry.now)
        × IsAt (looked_at entry.now) (plan_of plan.now) cuts.now) }
{
    is_asked(entry, without) && entry.plan.is_same(plan) && are_same_cuts(entry.cuts.items(), cuts)
}

// Whether it is asked, and of this plan and another cut, which is at or before this one.
fn comes_before(entry: &Entry, without: &[u32], plan: &Plan, cuts: &[Cut]) -> bool
    ensures { IsTrue result ↔ (IsTrue (is_asked without.now entry.now)
        × ComesBefore (looked_at entry.now) (plan_of plan.now) cuts.now) }
{
    let old = entry.cuts.items();
    let is_earlier = !are_same_cuts(old, cuts) && are_at_or_before(old, cuts);
    is_asked(entry, without) && entry.plan.is_same(plan) && is_earlier
}

// Whether it reaches further than the best one, or as far with a smaller id.
fn is_further(entry: &Entry, best: &Option<Hit>) -> bool
    ensures { IsTrue result ↔ IsFurther (looked_at entry.now) best.now }
{
    match best {
        None => true,
        Some(best) => {
            let (new, old) = (reach(entry.cuts.items()), reach(best.cuts.items()));
            old < new || (old == new && entry.id < best.id)
        }
    }
}
