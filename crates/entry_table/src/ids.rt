//! Lists of ids.
ghost use Rattle.std.specs.Prelude.{◌≡◌, ◌↔◌, length, IsTrue};
ghost use Rattle.std.specs.List.{list_all};
ghost use Rattle.entry_table.specs.Ids.{ids_of, ascend_above, is_among, is_there, differ, AreIdsOf};
ghost use Rattle.entry_table.specs.Ids.{AreOwnIdsOf, without};

use cache_index::place_of;
use catalog_types::Entry;

/// Whether the ids ascend strictly from 1 on, and each is the id of an entry.
pub(crate) fn are_ids_of(entries: &[Entry], ids: &[u32]) -> bool
    requires { IsTrue (ascend_above 0 (ids_of entries.now)) }
    ensures { IsTrue result ↔ AreIdsOf entries.now ids.now }
{
    ascend(ids) && are_there(entries, ids)
}

/// Whether each is the id of an entry, and none stands there twice. More ids than entries can't differ, and aren't
/// compared.
pub(crate) fn are_own_ids_of(entries: &[Entry], ids: &[u32]) -> bool
    requires { IsTrue (ascend_above 0 (ids_of entries.now)) }
    ensures { IsTrue result ↔ AreOwnIdsOf entries.now ids.now }
{
    if ids.len() > entries.len() {
        return false;
    }
    are_there(entries, ids) && differ(ids)
}

/// Whether it is one of the ids.
pub fn is_among(ids: &[u32], id: u32) -> bool
    ensures { result ≡ is_among ids.now id }
{
    ids.contains(&id)
}

/// The number of entries whose ids aren't among these.
pub(crate) fn count_without(entries: &[Entry], ids: &[u32]) -> usize
    ensures { result ≡ length (without ids.now entries.now) }
{
    if ids.is_empty() {
        return entries.len();
    }
    let mut count = 0;
    for entry in entries {
        if !is_among(ids, entry.id) {
            count += 1;
        }
    }
    count
}

// Whether they ascend strictly from 1 on.
fn ascend(ids: &[u32]) -> bool
    ensures { result ≡ ascend_above 0 ids.now }
{
    let mut last = 0;
    let mut rest = ids;
    while let [id, behind @ ..] = rest {
        if *id <= last {
            return false;
        }
        last = *id;
        rest = behind;
    }
    true
}

// Whether none stands there twice.
fn differ(ids: &[u32]) -> bool
    ensures { result ≡ differ ids.now }
{
    let mut rest = ids;
    while let [id, behind @ ..] = rest {
        if is_among(behind, *id) {
            return false;
        }
        rest = behind;
    }
    true
}

// Whether each is the id of an entry.
fn are_there(entries: &[Entry], ids: &[u32]) -> bool
    requires { IsTrue (ascend_above 0 (ids_of entries.now)) }
    ensures { result ≡ list_all (is_there entries.now) ids.now }
{
    let mut rest = ids;
    while let [id, behind @ ..] = rest {
        if !is_there(entries, *id) {
            return false;
        }
        rest = behind;
    }
    true
}

fn is_there(entries: &[Entry], id: u32) -> bool
    requires { IsTrue (ascend_above 0 (ids_of entries.now)) }
    ensures { result ≡ is_there entries.now id }
{
    place_of(entries, id).is_some()
}
