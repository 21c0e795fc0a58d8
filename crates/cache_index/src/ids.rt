//! Entries by their ids.
ghost use Rattle.std.specs.Prelude.{◌≡◌, ◌==◌, ◌<◌, length, position, IsTrue, IfSome, option_copied};
ghost use Rattle.std.specs.List.{find};
ghost use Rattle.cache_index.specs.Ids.{ids_of, ascend_above};

use catalog_types::Entry;

/// The entry with this id, which is found by a binary search.
pub fn entry_of(entries: &[Entry], id: u32) -> Option<&Entry>
    requires { IsTrue (ascend_above 0 (ids_of entries.now)) }
    ensures { option_copied result ≡ find (λ e. e.id == id) entries.now }
{
    let place = place_of(entries, id)?;
    Some(&entries[place])
}

/// The place of the entry with this id, which is found by a binary search.
pub fn place_of(entries: &[Entry], id: u32) -> Option<usize>
    requires { IsTrue (ascend_above 0 (ids_of entries.now)) }
    ensures place { result ≡ position (λ e. e.id == id) entries.now }
    ensures bound { IfSome result (λ place. place < length entries.now) }
{
    entries.binary_search_by_key(&id, |entry| entry.id).ok()
}
