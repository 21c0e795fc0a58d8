//! The kept results of a catalogue but some.

use crate::asking::{best_in, whole_in};
use catalog_types::Entry;
use plan_core::Plan;
use rewrite_core::{Hit, Lookup};
use rows_core::{Cut, Memory};
use std::alloc::Global;
use std::marker::Model;

/// The entries of a catalogue but those of some ids. Contracts see it as the list of these entries.
#[derive(Drop)]
pub struct View<'a> {
    entries: &'a [Entry],
    without: &'a [u32],
}

impl<'a> Model for View<'a> {
    ghost use Rattle.std.specs.Prelude.{List};
    ghost use Rattle.std.specs.Coded.{coded_list};
    ghost use Rattle.std.specs.List.{filter};
    ghost use Rattle.catalog_types.specs.PlainEntry.{PlainEntry, entry_code};
    ghost use Rattle.cache_index.specs.Asked.{is_asked};

    ghost Value = { List PlainEntry };

    ghost coded = { coded_list entry_code };

    ghost view = { λ v. filter (is_asked v.without.now) v.entries.now };
}

impl<'a> View<'a> {
    ghost use Rattle.std.specs.Prelude.{◌≡◌};
    ghost use Rattle.std.specs.List.{filter};
    ghost use Rattle.cache_index.specs.Asked.{is_asked};

    /// These entries but those whose ids are in `without`.
    pub fn new(entries: &'a [Entry], without: &'a [u32]) -> View<'a>
        ensures { result ≡ filter (is_asked without.now) entries.now }
    {
        View { entries, without }
    }
}

impl<'a> Lookup for View<'a> {
    ghost use Rattle.std.specs.Prelude.{map};
    ghost use Rattle.cache_index.specs.Asked.{entry};

    ghost entries = { λ view. map entry view };

    fn whole(&self, alloc: Global, plan: &Plan, cuts: &[Cut]) -> Result<Option<Hit>, Memory> {
        whole_in(alloc, self.entries, self.without, plan, cuts)
    }

    fn earlier(&self, alloc: Global, plan: &Plan, cuts: &[Cut]) -> Result<Option<Hit>, Memory> {
        let best = best_in(alloc, self.entries, self.without, plan, cuts)?;
        Ok(best)
    }
}
