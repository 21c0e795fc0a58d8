//! The kept results of a catalogue but some, found by their program keys.
ghost use Rattle.std.specs.Prelude.{IfOk};
ghost use Rattle.plan_core.specs.PlainPlan.{plan_of};
ghost use Rattle.rewrite_core.specs.Entries.{AnswersWhole};
ghost use Rattle.rewrite_core.specs.Looking.{IsBestOf};
ghost use Rattle.cache_index.specs.Asked.{asked};
ghost use Rattle.cache_index.specs.Index.{IsSearchable};

use crate::asking::{best_among, best_in, whole_among, whole_in};
use crate::index::CacheIndex;
use crate::spelled::has_spelling;
use catalog_types::Entry;
use fingerprints::program_key;
use plan_core::Plan;
use rewrite_core::{Hit, Lookup};
use rows_core::{Cut, Memory};
use std::alloc::Global;
use std::marker::Model;

/// The entries of a catalogue but those of some ids, with the index of the entries. Contracts see it as the list
/// of these entries.
#[derive(Drop)]
pub struct IndexedView<'a> {
    index: &'a CacheIndex,
    entries: &'a [Entry],
    without: &'a [u32],
}

impl<'a> Model for IndexedView<'a> {
    ghost use Rattle.std.specs.Prelude.{List};
    ghost use Rattle.std.specs.Coded.{coded_list};
    ghost use Rattle.std.specs.List.{filter};
    ghost use Rattle.catalog_types.specs.PlainEntry.{PlainEntry, entry_code};
    ghost use Rattle.cache_index.specs.Asked.{is_asked};
    ghost use Rattle.cache_index.specs.Index.{IsSearchable};

    ghost Value = { List PlainEntry };

    ghost coded = { coded_list entry_code };

    ghost view = { λ v. filter (is_asked v.without.now) v.entries.now };

    ghost invariant = { λ v. IsSearchable v.entries.now v.index.now };
}

impl<'a> IndexedView<'a> {
    ghost use Rattle.std.specs.Prelude.{◌≡◌};
    ghost use Rattle.std.specs.List.{filter};
    ghost use Rattle.cache_index.specs.Asked.{is_asked};

    /// These entries, which the index is of, but those whose ids are in `without`.
    pub(crate) fn new(
        index: &'a CacheIndex,
        entries: &'a [Entry],
        without: &'a [u32],
    ) -> IndexedView<'a>
        requires { IsSearchable entries.now index.now }
        ensures { result ≡ filter (is_asked without.now) entries.now }
    {
        IndexedView {
            index,
            entries,
            without,
        }
    }
}

impl<'a> Lookup for IndexedView<'a> {
    ghost use Rattle.std.specs.Prelude.{map};
    ghost use Rattle.cache_index.specs.Asked.{entry};

    ghost entries = { λ view. map entry view };

    fn whole(&self, alloc: Global, plan: &Plan, cuts: &[Cut]) -> Result<Option<Hit>, Memory> {
        let found = whole_of(alloc, self.index, self.entries, self.without, plan, cuts)?;
        Ok(found)
    }

    fn earlier(&self, alloc: Global, plan: &Plan, cuts: &[Cut]) -> Result<Option<Hit>, Memory> {
        let best = best_of(alloc, self.index, self.entries, self.without, plan, cuts)?;
        Ok(best)
    }
}

// The entry of this plan and cut, of those whose ids aren't in `without`. Of a plan that has a spelling only the
// entries with its program key are asked, and else each one.
fn whole_of(
    alloc: Global,
    index: &CacheIndex,
    entries: &[Entry],
    without: &[u32],
    plan: &Plan,
    cuts: &[Cut],
) -> Result<Option<Hit>, Memory>
    requires { IsSearchable entries.now index.now }
    ensures { IfOk result (AnswersWhole (asked without.now entries.now) (plan_of plan.now) cuts.now) }
{
    if !has_spelling(plan) {
        return whole_in(alloc, entries, without, plan, cuts);
    }
    let program = program_key(alloc, plan)?;
    let ids = index.of_program(&program);
    let found = whole_among(alloc, entries, ids, without, plan, cuts)?;
    Ok(found)
}

// Of the entries of this plan at earlier cuts, but those whose ids are in `without`, the one that reaches
// furthest, and of those the one with the least id. They are asked as in `whole_of`.
fn best_of(
    alloc: Global,
    index: &CacheIndex,
    entries: &[Entry],
    without: &[u32],
    plan: &Plan,
    cuts: &[Cut],
) -> Result<Option<Hit>, Memory>
    requires { IsSearchable entries.now index.now }
    ensures { IfOk result (IsBestOf (asked without.now entries.now) (plan_of plan.now) cuts.now) }
{
    if !has_spelling(plan) {
        return best_in(alloc, entries, without, plan, cuts);
    }
    let program = program_key(alloc, plan)?;
    let ids = index.of_program(&program);
    let best = best_among(alloc, entries, ids, without, plan, cuts)?;
    Ok(best)
}
