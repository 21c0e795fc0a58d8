//! Kept results in a list.
ghost use Rattle.std.specs.Prelude.{◌≡◌, IfOk};
ghost use Rattle.rewrite_core.specs.Entries.{entry_of};
ghost use Rattle.plan_core.specs.PlainPlan.{plan_of};
ghost use Rattle.postfix_plans.specs.Listed.{entry, entries_of};

use crate::looking::{best_in, whole_in};
use plan_core::Plan;
use rewrite_core::{Hit, Lookup};
use rows_core::{Cut, Memory, Seq};
use std::alloc::Global;

/// A kept result: its id, its plan and cut, and the length of its file.
#[derive(Drop)]
pub struct ListedResult {
    pub id: u32,
    pub plan: Plan,
    pub cuts: Seq<Cut>,
    pub len: u64,
}

impl ListedResult {
    /// What a rewriting names it by.
    pub fn hit(&self, alloc: Global) -> Result<Hit, Memory>
        ensures { IfOk result (λ hit. entry_of (plan_of self.now.plan) hit ≡ entry self.now) }
    {
        Ok(Hit {
            id: self.id,
            cuts: self.cuts.try_copy(alloc)?,
            len: self.len,
        })
    }
}

/// Kept results, of which each look-up asks all.
#[derive(Drop)]
pub struct ResultList {
    pub results: Vec<ListedResult>,
}

impl Lookup for ResultList {
    ghost entries = { λ list. entries_of list.results.items };

    fn whole(&self, alloc: Global, plan: &Plan, cuts: &[Cut]) -> Result<Option<Hit>, Memory> {
        whole_in(alloc, &self.results, plan, cuts)
    }

    fn earlier(&self, alloc: Global, plan: &Plan, cuts: &[Cut]) -> Result<Option<Hit>, Memory> {
        let best = best_in(alloc, &self.results, plan, cuts)?;
        Ok(best)
    }
}
