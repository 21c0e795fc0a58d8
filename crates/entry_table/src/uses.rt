//! The steps of work: uses are counted, entries go and new ones come.
ghost use Rattle.std.specs.Prelude.{◌≡◌, ◌+◌, ◌≤◌, ◌++◌, length, vec_capacity};
ghost use Rattle.entry_table.specs.Ids.{without};
ghost use Rattle.entry_table.specs.Work.{with_use, used, with_uses, new_entry};
ghost use Rattle.entry_table.specs.Keying.{keyed_entries};

use crate::ids::is_among;
use crate::keys::Keys;
use catalog_types::{Entry, NewEntry};

/// Counts a use at this tick of each entry whose id is among these.
pub(crate) fn add_uses(entries: &mut Vec<Entry>, tick: u32, ids: &[u32])
    ensures entries { entries.new.items ≡ with_uses tick ids.now entries.old.items }
    ensures room { vec_capacity entries.new ≡ vec_capacity entries.old }
{
    if ids.is_empty() {
        return;
    }
    for place in 0..entries.len() {
        add_use_of(&mut entries[place], tick, ids);
    }
}

// Counts a use of the entry if its id is among these.
fn add_use_of(entry: &mut Entry, tick: u32, ids: &[u32])
    ensures { entry.new ≡ used tick ids.now entry.old }
{
    if is_among(ids, entry.id) {
        add_use(entry, tick);
    }
}

// Counts a use at this tick, unless there are the most already.
fn add_use(entry: &mut Entry, tick: u32)
    ensures { entry.new ≡ with_use tick entry.old }
{
    entry.uses = entry.uses.saturating_add(1);
    entry.last = tick;
}

/// Takes out the entries whose ids are among these.
pub(crate) fn drop_entries(entries: &mut Vec<Entry>, ids: &[u32])
    ensures entries { entries.new.items ≡ without ids.now entries.old.items }
    ensures room { vec_capacity entries.new ≡ vec_capacity entries.old }
{
    if ids.is_empty() {
        return;
    }
    entries.retain(|entry| !is_among(ids, entry.id));
}

/// Puts new results behind the entries, with these keys and the ids from this one on. It takes no memory.
pub(crate) fn add_entries(
    entries: &mut Vec<Entry>,
    tick: u32,
    first_id: u64,
    keys: &[Keys],
    kept: Vec<NewEntry>,
)
    requires many { length keys.now ≡ length kept.items }
    requires ids { first_id + length kept.items ≤ 4294967296 }
    requires room { length entries.old.items + length kept.items ≤ vec_capacity entries.old }
    ensures { entries.new.items
        ≡ entries.old.items ++ keyed_entries tick first_id keys.now kept.items }
{
    let mut id = first_id;
    let mut next_keys = keys;
    for new in kept {
        let [own, others @ ..] = next_keys else {
            unreachable!();
        };
        entries.push_reserved(entry_of(tick, id as u32, own, new));
        id += 1;
        next_keys = others;
    }
}

// A new result as an entry of this id, made at this tick.
fn entry_of(tick: u32, id: u32, keys: &Keys, new: NewEntry) -> Entry
    ensures { result ≡ new_entry tick id keys.now new }
{
    Entry {
        id,
        plan: new.plan,
        cuts: new.cuts,
        program: keys.program,
        key: keys.key,
        file: new.file,
        machine: new.machine,
        uses: 1,
        last: tick,
        made: tick,
    }
}
