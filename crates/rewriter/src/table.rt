//! What was found, so that a place is asked once for each cut and once for each pair of cuts.
ghost use Rattle.std.specs.Prelude.{◌≡◌, IfSome, IfOk, OnOk};
ghost use Rattle.plan_core.specs.PlainPlan.{plan_of};
ghost use Rattle.estimator.specs.Bytes.{Lengths};
ghost use Rattle.rewrite_core.specs.Entries.{Entries};
ghost use Rattle.rewriter.specs.Search.{IsChoice, IsDeltaPriceIfAny};
ghost use Rattle.rewriter.specs.Table.{AreFound, IsKnownChoice, IsKnownDelta};

use crate::parts::{Part, Stretch};
use crate::places::key;
use crate::priced::{Choice, Price};
use estimator::are_same_cuts;
use indexmap::IndexMap;
use plan_core::Plan;
use rows_core::{Cut, Memory, Seq};
use std::alloc::Global;

/// The choice for a plan at a cut.
#[derive(Drop)]
struct KnownChoice<'p> {
    plan: &'p Plan,
    cuts: Seq<Cut>,
    choice: Choice,
}

impl KnownChoice<'_> {
    // The choice, where it is for this part.
    fn choice_of(&self, part: Part<'_, '_>) -> Option<Choice>
        ensures { (entries : Entries) (lengths : Lengths) → IsKnownChoice entries lengths self.now
            → IfSome result (IsChoice entries lengths (plan_of part.entry.plan.now) part.entry.cuts.now) }
    {
        if self.plan.is_same(part.plan) && are_same_cuts(self.cuts.items(), part.cuts) {
            return Some(self.choice);
        }
        None
    }
}

/// The price of a least delta of a plan between two cuts; none where there is no delta.
#[derive(Drop)]
struct KnownDelta<'p> {
    plan: &'p Plan,
    old: Seq<Cut>,
    new: Seq<Cut>,
    price: Option<Price>,
}

impl KnownDelta<'_> {
    // The price, where it is for this stretch.
    fn price_of(&self, stretch: Stretch<'_, '_>) -> Option<Option<Price>>
        ensures { (entries : Entries) (lengths : Lengths) → IsKnownDelta entries lengths self.now
            → IfSome result (IsDeltaPriceIfAny entries lengths (plan_of stretch.entry.plan.now)
            stretch.entry.old.now stretch.entry.new.now) }
    {
        if self.plan.is_same(stretch.plan)
            && are_same_cuts(self.old.items(), stretch.old)
            && are_same_cuts(self.new.items(), stretch.new)
        {
            return Some(self.price);
        }
        None
    }
}

/// The choices and the prices of deltas, by the keys of their places and cuts. What a key gives is compared
/// with what is asked, so that one key for two of them costs time alone.
#[derive(Drop)]
pub struct Found<'p> {
    choices: IndexMap<u64, KnownChoice<'p>>,
    deltas: IndexMap<u64, KnownDelta<'p>>,
}

impl<'p> Found<'p> {
    pub fn new(alloc: Global) -> Found<'p>
        ensures { (entries : Entries) (lengths : Lengths) → AreFound entries lengths result }
    {
        Found {
            choices: IndexMap::new(alloc),
            deltas: IndexMap::new(alloc),
        }
    }

    /// The choice for this part, if it was found.
    pub fn choice(&self, part: Part<'_, '_>) -> Option<Choice>
        ensures { (entries : Entries) (lengths : Lengths) → AreFound entries lengths self.now
            → IfSome result (IsChoice entries lengths (plan_of part.entry.plan.now) part.entry.cuts.now) }
    {
        match self.choices.get(&key(part.place, part.cuts)) {
            Some(known) => known.choice_of(part),
            None => None,
        }
    }

    /// Adds the choice for this part.
    pub fn keep_choice(
        &mut self,
        alloc: Global,
        part: Part<'p, '_>,
        choice: Choice,
    ) -> Result<(), Memory>
        ensures { OnOk result ((entries : Entries) (lengths : Lengths) → AreFound entries lengths self.old
            → IsChoice entries lengths (plan_of part.entry.plan.now) part.entry.cuts.now choice
            → AreFound entries lengths self.new) }
    {
        let cuts = copied(alloc, part.cuts)?;
        let known = KnownChoice {
            plan: part.plan,
            cuts,
            choice,
        };
        self.choices.insert(key(part.place, part.cuts), known)?;
        Ok(())
    }

    /// The price of a least delta over this stretch, if it was looked for.
    pub fn price(&self, stretch: Stretch<'_, '_>) -> Option<Option<Price>>
        ensures { (entries : Entries) (lengths : Lengths) → AreFound entries lengths self.now
            → IfSome result (IsDeltaPriceIfAny entries lengths (plan_of stretch.entry.plan.now)
            stretch.entry.old.now stretch.entry.new.now) }
    {
        match self.deltas.get(&key_of(stretch)) {
            Some(known) => known.price_of(stretch),
            None => None,
        }
    }

    /// Adds what was found of this stretch.
    pub fn keep_price(
        &mut self,
        alloc: Global,
        stretch: Stretch<'p, '_>,
        price: Option<Price>,
    ) -> Result<(), Memory>
        ensures { OnOk result ((entries : Entries) (lengths : Lengths) → AreFound entries lengths self.old
            → IsDeltaPriceIfAny entries lengths (plan_of stretch.entry.plan.now)
            stretch.entry.old.now stretch.entry.new.now price
            → AreFound entries lengths self.new) }
    {
        let old = copied(alloc, stretch.old)?;
        let new = copied(alloc, stretch.new)?;
        let known = KnownDelta {
            plan: stretch.plan,
            old,
            new,
            price,
        };
        self.deltas.insert(key_of(stretch), known)?;
        Ok(())
    }
}

fn key_of(stretch: Stretch<'_, '_>) -> u64 {
    key(key(stretch.place, stretch.old), stretch.new)
}

fn copied(alloc: Global, cuts: &[Cut]) -> Result<Seq<Cut>, Memory>
    ensures { IfOk result (λ copy. copy ≡ cuts.now) }
{
    Ok(Seq::new(Vec::from_slice(alloc, cuts)?))
}
