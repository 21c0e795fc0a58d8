//! The entries that a collection takes.
ghost use Rattle.std.specs.Prelude.{◌≡◌, ◌==◌, map, IfOk};
ghost use Rattle.std.specs.List.{All, filter, list_any};
ghost use Rattle.std.specs.List.Sorted.{IsPermutation, IsNonDecreasing};
ghost use Rattle.collector.specs.Candidates.{standing};
ghost use Rattle.collector.specs.Ratio.{CanBeRanked};
ghost use Rattle.collector.specs.Standing.{standing_of, may_go, first_enough};
ghost use Rattle.collector.specs.Victims.{HaveOwnIds, AreVictims};

use crate::candidate::Candidate;
use catalog_types::Entry;
use rows_core::Memory;
use std::alloc::Global;

/// The ids of the entries that go at the tick `now` so that at least `reclaim` bytes of result files are
/// freed, in the order in which they go, which is that of `ratio_cmp`: as few from the front as are enough,
/// or all that may go. An entry may go unless its id is one of `pinned`, or fewer than `lease` ticks have
/// passed since it was made; a lease of 0 holds nothing back. It takes no longer than a sort.
pub fn victims(
    alloc: Global,
    entries: &[Entry],
    now: u32,
    reclaim: u64,
    pinned: &[u32],
    lease: u32,
) -> Result<Vec<u32>, Memory>
    requires { All (CanBeRanked now) entries.now }
    ensures { IfOk result (λ ids. HaveOwnIds entries.now → AreVictims entries.now
        (record { now = now; pinned = pinned.now; lease = lease }) reclaim ids.items) }
{
    let held = in_order(alloc, pinned)?;
    let mut candidates = candidates(alloc, entries, now, &held, lease)?;
    candidates.sort_by(|a, b| a.cmp_by_ratio(b))?;
    let ids = first_ids(alloc, &candidates, reclaim)?;
    Ok(ids)
}

// The entries that may go.
fn candidates(
    alloc: Global,
    entries: &[Entry],
    now: u32,
    held: &[u32],
    lease: u32,
) -> Result<Vec<Candidate>, Memory>
    requires ranked { All (CanBeRanked now) entries.now }
    requires ascends { IsNonDecreasing held.now }
    ensures { IfOk result (λ candidates. map standing candidates.items ≡ map (standing_of now)
        (filter (may_go (record { now = now; pinned = held.now; lease = lease })) entries.now)) }
{
    let mut candidates = Vec::new(alloc);
    for entry in entries {
        if may_go(entry, now, held, lease) {
            candidates.push(Candidate::new(entry, now))?;
        }
    }
    Ok(candidates)
}

// Whether the entry may go, where these ids are held.
fn may_go(entry: &Entry, now: u32, held: &[u32], lease: u32) -> bool
    requires { IsNonDecreasing held.now }
    ensures { result ≡ may_go (record { now = now; pinned = held.now; lease = lease }) entry.now }
{
    !is_held(held, entry.id) && lease <= now.saturating_sub(entry.made)
}

fn is_held(held: &[u32], id: u32) -> bool
    requires { IsNonDecreasing held.now }
    ensures { result ≡ list_any (λ other. other == id) held.now }
{
    held.binary_search(&id).is_ok()
}

// The ids in ascending order.
fn in_order(alloc: Global, ids: &[u32]) -> Result<Vec<u32>, Memory>
    ensures same { IfOk result (λ ordered. IsPermutation ids.now ordered.items) }
    ensures ascends { IfOk result (λ ordered. IsNonDecreasing ordered.items) }
{
    let mut ordered = Vec::from_slice(alloc, ids)?;
    ordered.sort_unstable();
    Ok(ordered)
}

// The ids from the front on, until the sizes are enough.
fn first_ids(alloc: Global, candidates: &[Candidate], reclaim: u64) -> Result<Vec<u32>, Memory>
    ensures { IfOk result (λ ids. ids.items ≡
        map (λ c. c.id) (first_enough (λ c. c.size) reclaim candidates.now)) }
{
    let mut ids = Vec::new(alloc);
    let mut left = reclaim;
    for candidate in candidates {
        if left == 0 {
            break;
        }
        ids.push(candidate.id)?;
        left = left.saturating_sub(candidate.size);
    }
    Ok(ids)
}
