//! The files that a rewriting names.
ghost use Rattle.std.specs.Prelude.{◌≡◌, ℕ, length, [], ◌∷◌, ◌++◌, OnOk, IfOk};
ghost use Rattle.estimator.specs.Bytes.{capped};
ghost use Rattle.plan_core.specs.PlainPlan.{PlainPlan, plan_of, Scan};
ghost use Rattle.estimator.specs.Cuts.{Cuts};
ghost use Rattle.rewrite_core.specs.Files.{AreIdsOf, files_of, delta_files};
ghost use Rattle.rewrite_core.specs.Files.{scan_files, new_files, ids_in, way_files};
ghost use Rattle.rewrite_core.specs.PlainRewriting.{rewriting_of, delta_of, grown_way};

use crate::rewriting::{Delta, DeltaWay, Hit, Parts, Rewriting, Way};
use plan_core::Plan;
use rows_core::{Cut, Memory};
use std::alloc::Global;

impl Rewriting {
    /// The number of files that it names, each as often as it names it, cut at the greatest u64. So many
    /// files are read for it.
    #[cycle(count)]
    pub fn files(&self) -> u64
        ensures { result ≡ capped (length (files_of (rewriting_of self.now))) }
    {
        match &self.way {
            Way::Scan => scan_count(&self.plan, self.cuts.items()),
            Way::One(input) => input.files(),
            Way::Two(left, right) => left.files().saturating_add(right.files()),
            Way::Read(_) => 1,
            Way::Grown { hit, parts } => grown_count(hit, parts),
        }
    }

    /// The ids of the kept results that it names, ascending, each once.
    pub fn used(&self, alloc: Global) -> Result<Vec<u32>, Memory>
        ensures { IfOk result (λ ids. AreIdsOf (files_of (rewriting_of self.now)) ids.items) }
    {
        let mut ids = Vec::new(alloc);
        self.put_ids(&mut ids)?;
        ids.sort_unstable();
        ids.dedup();
        Ok(ids)
    }

    // Puts the ids of the kept results that it names behind the others.
    #[cycle(ids)]
    #[tactic(auto, using(crate::proofs::FileLemmas::of_ids))]
    fn put_ids(&self, to: &mut Vec<u32>) -> Result<(), Memory>
        ensures { OnOk result (to.new.items ≡ to.old.items ++ ids_in (files_of (rewriting_of self.now))) }
    {
        match &self.way {
            Way::Scan => Ok(()),
            Way::One(input) => input.put_ids(to),
            Way::Two(left, right) => {
                left.put_ids(to)?;
                right.put_ids(to)
            }
            Way::Read(hit) => put_id(hit, to),
            Way::Grown { hit, parts } => put_grown_ids(hit, parts, to),
        }
    }
}

// The files that a grown result names.
#[cycle(count)]
fn grown_count(hit: &Hit, parts: &Parts) -> u64
    ensures { (plan : PlainPlan) (cuts : Cuts)
        → result ≡ capped (length (way_files plan cuts (grown_way hit.now parts.now))) }
{
    let _ = hit;
    let behind = match parts {
        Parts::Tail(delta) => delta.files(),
        Parts::LeftGrew { left, right } => left.files().saturating_add(right.files()),
        Parts::RightGrew { left, right } => left.files().saturating_add(right.files()),
        Parts::BothGrew {
            old_left,
            right_delta,
            left_delta,
            right,
        } => {
            let old_left = old_left.files().saturating_add(right_delta.files());
            old_left
                .saturating_add(left_delta.files())
                .saturating_add(right.files())
        }
    };
    behind.saturating_add(1)
}

// Puts the ids of the kept results that a grown result names behind the others.
#[cycle(ids)]
#[tactic(auto, using(crate::proofs::FileLemmas::of_ids))]
fn put_grown_ids(hit: &Hit, parts: &Parts, to: &mut Vec<u32>) -> Result<(), Memory>
    ensures { (plan : PlainPlan) (cuts : Cuts) → OnOk result
        (to.new.items ≡ to.old.items ++ ids_in (way_files plan cuts (grown_way hit.now parts.now))) }
{
    put_id(hit, to)?;
    match parts {
        Parts::Tail(delta) => delta.put_ids(to),
        Parts::LeftGrew { left, right } => {
            left.put_ids(to)?;
            right.put_ids(to)
        }
        Parts::RightGrew { left, right } => {
            left.put_ids(to)?;
            right.put_ids(to)
        }
        Parts::BothGrew {
            old_left,
            right_delta,
            left_delta,
            right,
        } => {
            old_left.put_ids(to)?;
            right_delta.put_ids(to)?;
            left_delta.put_ids(to)?;
            right.put_ids(to)
        }
    }
}

impl Delta {
    // The number of files that it names, each as often as it names it, cut at the greatest u64.
    #[cycle(count)]
    fn files(&self) -> u64
        ensures { result ≡ capped (length (delta_files (delta_of self.now))) }
    {
        match &self.way {
            DeltaWay::Unchanged => 0,
            DeltaWay::Scan => new_count(&self.plan, self.old.items(), self.new.items()),
            DeltaWay::Tail(input) => input.files(),
            DeltaWay::Distinct { old, child } => old.files().saturating_add(child.files()),
            DeltaWay::Join { left, right } => left.files().saturating_add(right.files()),
        }
    }

    // Puts the ids of the kept results that it names behind the others.
    #[cycle(ids)]
    #[tactic(auto, using(crate::proofs::FileLemmas::of_ids))]
    fn put_ids(&self, to: &mut Vec<u32>) -> Result<(), Memory>
        ensures { OnOk result (to.new.items ≡ to.old.items ++ ids_in (delta_files (delta_of self.now))) }
    {
        match &self.way {
            DeltaWay::Unchanged | DeltaWay::Scan => Ok(()),
            DeltaWay::Tail(input) => input.put_ids(to),
            DeltaWay::Distinct { old, child } => {
                old.put_ids(to)?;
                child.put_ids(to)
            }
            DeltaWay::Join { left, right } => {
                left.put_ids(to)?;
                right.put_ids(to)
            }
        }
    }
}

// Puts the id of a kept result behind the others.
fn put_id(hit: &Hit, to: &mut Vec<u32>) -> Result<(), Memory>
    ensures { OnOk result (to.new.items ≡ to.old.items ++ hit.now.id ∷ []) }
{
    to.push(hit.id)?;
    Ok(())
}

// The number of a scan's extents.
fn scan_count(plan: &Plan, cuts: &[Cut]) -> u64
    ensures { result ≡ length (scan_files (plan_of plan.now) cuts.now) }
{
    match plan {
        Plan::Scan { stream: _ } => only_count(cuts),
        _ => 0,
    }
}

// The number of extents in an interval that stands alone.
#[tactic(auto, using(crate::proofs::FileLemmas::length_of_extents))]
fn only_count(cuts: &[Cut]) -> u64
    ensures { (stream : ℕ) → result ≡ length (scan_files (Scan stream) cuts.now) }
{
    match cuts {
        [cut] => u64::from(cut.to.saturating_sub(cut.from)),
        _ => 0,
    }
}

// The number of extents that a scan has at the new cut behind the old one.
fn new_count(plan: &Plan, old: &[Cut], new: &[Cut]) -> u64
    ensures { result ≡ length (new_files (plan_of plan.now) old.now new.now) }
{
    match plan {
        Plan::Scan { stream: _ } => only_new_count(old, new),
        _ => 0,
    }
}

// The number of extents from the end of an interval that stands alone to that of another one.
#[tactic(auto, using(crate::proofs::FileLemmas::length_of_extents))]
fn only_new_count(old: &[Cut], new: &[Cut]) -> u64
    ensures { (stream : ℕ) → result ≡ length (new_files (Scan stream) old.now new.now) }
{
    let [old] = old else {
        return 0;
    };
    let [new] = new else {
        return 0;
    };
    u64::from(new.to.saturating_sub(old.to))
}
