//! The files of a store in memory, and their states at past moments.
ghost use Rattle.std.specs.Prelude.{◌≡◌, ◌↔◌, ℕ, ◌+◌, ◌^◌, ◌<◌, ◌≤◌, ◌≢◌, map, Bool, true, false, ◌++◌, []};
ghost use Rattle.std.specs.Prelude.{◌∷◌, length, take, IsTrue, IfOk, OnOk, OnErr, MatchOption, IfSome};
ghost use Rattle.std.specs.Prelude.{IsSomeAnd, Some, ◌⊎◌, if◌then◌else◌};
ghost use Rattle.std.specs.List.{list_all};
ghost use Rattle.outside_traits.specs.View.{Now, Only};
ghost use Rattle.outside_traits.specs.Calls.{Passes, Acts, Torn, Shortened, Same, Gone, NextIs};
ghost use Rattle.mem_outside.specs.Outcomes.{absent, is_sound, numbers_differ, state_in, with_file, written};
ghost use Rattle.mem_outside.specs.Outcomes.{shortened};
ghost use Rattle.mem_outside.specs.Outcomes.{synced, removed, kept, left_of, stable_file};
ghost use Rattle.mem_outside.specs.Moments.{view_of};
ghost use Rattle.mem_outside.specs.History.{shown_at, current_of, past_of, is_history};

use crate::file_state::FileState;
use crate::history::{History, Undo, Version};
use indexmap::IndexMap;
use rows_core::Memory;
use std::alloc::Global;

// The file as it is now.
fn state_of(alloc: Global, version: &Version, synced: usize) -> Result<FileState, Memory>
    ensures { IfOk result (λ state. state ≡ shown_at synced version.now) }
{
    version.state.try_copy(alloc, synced <= version.made)
}

// The state of the file of this number.
fn state_in(alloc: Global, history: &History, file: u64) -> Result<FileState, Memory>
    requires { IsTrue (is_history history.now) }
    ensures { IfOk result (λ state. state ≡ state_in (current_of history.now) file) }
{
    match history.versions.get(&file) {
        Some(version) => state_of(alloc, version, history.synced),
        None => FileState::absent(alloc, file),
    }
}

pub(crate) fn bytes_in(history: &History, file: u64) -> &[u8]
    requires { IsTrue (is_history history.now) }
    ensures { result.now ≡ (state_in (current_of history.now) file).bytes }
{
    match history.versions.get(&file) {
        Some(version) => version.state.bytes(),
        None => &[],
    }
}

pub(crate) fn empty(alloc: Global) -> History
    ensures history { IsTrue (is_history result) }
    ensures current { current_of result ≡ [] }
    ensures past { past_of result ≡ [] }
{
    History {
        versions: IndexMap::new(alloc),
        undo: Vec::new(alloc),
        synced: 0,
    }
}

// Goes on to the next moment, with this file changed. The others have their removed files, or lose them,
// which is done by the moment of the last sync alone. Room for the undo is asked for first, so that all stays
// as it was where there is none.
fn change(history: &mut History, state: FileState, all: bool) -> Result<(), Memory>
    requires history { IsTrue (is_history history.old) }
    ensures history { IsTrue (is_history history.new) }
    ensures current { OnOk result (current_of history.new ≡ with_file all state (current_of history.old)) }
    ensures past { OnOk result (past_of history.new ≡ past_of history.old ++ current_of history.old ∷ []) }
    ensures moment { OnOk result (length (past_of history.new) ≡ length (past_of history.old) + 1) }
    ensures current_stays { OnErr result (current_of history.new ≡ current_of history.old) }
    ensures past_stays { OnErr result (past_of history.new ≡ past_of history.old) }
{
    history.undo.reserve(1)?;
    let number = state.number();
    let made = history.undo.len() + 1;
    let earlier = history.versions.insert(number, Version { state, made })?;
    let undo = Undo {
        number,
        earlier,
        synced: history.synced,
    };
    history.synced = last_sync(all, history.synced, made);
    match history.undo.push(undo) {
        Ok(()) => Ok(()),
        Err(_) => unreachable!(),
    }
}

// The moment after the last sync: this one, where the other files lose their removed files.
fn last_sync(all: bool, synced: usize, made: usize) -> usize
    ensures { result ≡ (if all then synced else made) }
{
    if all { synced } else { made }
}

// A write, or one that failed.
pub(crate) fn write(
    alloc: Global,
    history: &mut History,
    file: u64,
    at: u64,
    bytes: &[u8],
    done: bool,
) -> Result<(), Memory>
    requires history { IsTrue (is_history history.old) }
    requires sound { IsTrue (list_all is_sound (current_of history.old)) }
    requires room { at + length bytes.now < 2 ^ 64 }
    ensures history { IsTrue (is_history history.new) }
    ensures sound { IsTrue (list_all is_sound (current_of history.new)) }
    ensures differ { IsTrue (numbers_differ (current_of history.old))
        → IsTrue (numbers_differ (current_of history.new)) }
    ensures state { OnOk result
        (state_in (current_of history.new) file
        ≡ written at bytes.now done (state_in (current_of history.old) file)) }
    ensures others { OnOk result
        ((g : ℕ) → g ≢ file → state_in (current_of history.new) g ≡ state_in (current_of history.old) g) }
    ensures moment { OnOk result (length (past_of history.new) ≡ length (past_of history.old) + 1) }
    ensures stays { OnErr result
        ((current_of history.new ≡ current_of history.old) × (past_of history.new ≡ past_of history.old)) }
    ensures acts { Acts file (Torn at (length bytes.now))
        (view_of (past_of history.old) (current_of history.old))
        (view_of (past_of history.new) (current_of history.new)) }
{
    let state = state_in(alloc, history, file)?;
    let next = state.written(alloc, at, bytes, done)?;
    change(history, next, true)?;
    Ok(())
}

// A cut, or one that failed.
pub(crate) fn cut(
    alloc: Global,
    history: &mut History,
    file: u64,
    len: u64,
    done: bool,
) -> Result<(), Memory>
    requires history { IsTrue (is_history history.old) }
    requires sound { IsTrue (list_all is_sound (current_of history.old)) }
    ensures history { IsTrue (is_history history.new) }
    ensures sound { IsTrue (list_all is_sound (current_of history.new)) }
    ensures differ { IsTrue (numbers_differ (current_of history.old))
        → IsTrue (numbers_differ (current_of history.new)) }
    ensures state { OnOk result
        (state_in (current_of history.new) file
        ≡ shortened len done (state_in (current_of history.old) file)) }
    ensures others { OnOk result
        ((g : ℕ) → g ≢ file → state_in (current_of history.new) g ≡ state_in (current_of history.old) g) }
    ensures moment { OnOk result (length (past_of history.new) ≡ length (past_of history.old) + 1) }
    ensures stays { OnErr result
        ((current_of history.new ≡ current_of history.old) × (past_of history.new ≡ past_of history.old)) }
    ensures acts { Acts file (Shortened len) (view_of (past_of history.old) (current_of history.old))
        (view_of (past_of history.new) (current_of history.new)) }
{
    let state = state_in(alloc, history, file)?;
    let next = state.shortened(alloc, len, done)?;
    change(history, next, true)?;
    Ok(())
}

// A sync.
pub(crate) fn sync(alloc: Global, history: &mut History, file: u64) -> Result<(), Memory>
    requires history { IsTrue (is_history history.old) }
    requires sound { IsTrue (list_all is_sound (current_of history.old)) }
    ensures history { IsTrue (is_history history.new) }
    ensures sound { IsTrue (list_all is_sound (current_of history.new)) }
    ensures differ { IsTrue (numbers_differ (current_of history.old))
        → IsTrue (numbers_differ (current_of history.new)) }
    ensures state { OnOk result
        (state_in (current_of history.new) file ≡ synced (state_in (current_of history.old) file)) }
    ensures others { OnOk result
        ((g : ℕ) → g ≢ file
        → state_in (current_of history.new) g ≡ kept false (state_in (current_of history.old) g)) }
    ensures moment { OnOk result (length (past_of history.new) ≡ length (past_of history.old) + 1) }
    ensures stays { OnErr result
        ((current_of history.new ≡ current_of history.old) × (past_of history.new ≡ past_of history.old)) }
    ensures all_gone { OnOk result ((g : ℕ) → (state_in (current_of history.new) g).gone ≡ []) }
    ensures there { (state_in (current_of history.new) file).there
        ≡ (state_in (current_of history.old) file).there }
    ensures acts { Acts file Same (view_of (past_of history.old) (current_of history.old))
        (view_of (past_of history.new) (current_of history.new)) }
{
    let state = state_in(alloc, history, file)?;
    let next = state.synced(alloc)?;
    change(history, next, false)?;
    Ok(())
}

// A removal.
pub(crate) fn remove(alloc: Global, history: &mut History, file: u64) -> Result<(), Memory>
    requires history { IsTrue (is_history history.old) }
    requires sound { IsTrue (list_all is_sound (current_of history.old)) }
    ensures history { IsTrue (is_history history.new) }
    ensures sound { IsTrue (list_all is_sound (current_of history.new)) }
    ensures differ { IsTrue (numbers_differ (current_of history.old))
        → IsTrue (numbers_differ (current_of history.new)) }
    ensures state { OnOk result
        (state_in (current_of history.new) file ≡ removed (state_in (current_of history.old) file)) }
    ensures others { OnOk result
        ((g : ℕ) → g ≢ file → state_in (current_of history.new) g ≡ state_in (current_of history.old) g) }
    ensures moment { OnOk result (length (past_of history.new) ≡ length (past_of history.old) + 1) }
    ensures stays { OnErr result
        ((current_of history.new ≡ current_of history.old) × (past_of history.new ≡ past_of history.old)) }
    ensures acts { Acts file Gone (view_of (past_of history.old) (current_of history.old))
        (view_of (past_of history.new) (current_of history.new)) }
{
    let state = state_in(alloc, history, file)?;
    let next = state.removed(alloc)?;
    change(history, next, true)?;
    Ok(())
}

// The least number of a file that is there, at or above `from`.
pub(crate) fn next_from(history: &History, from: u64) -> Option<u64>
    requires { IsTrue (numbers_differ (current_of history.now)) }
    ensures bound { IfSome result (λ file. from ≤ file) }
    ensures next { NextIs (λ file. (state_in (current_of history.now) file).there) from result }
{
    let mut next = None;
    for version in history.versions.values() {
        next = nearer(&version.state, from, next);
    }
    next
}

// The lesser of the file's number, where it is there and at or above `from`, and the one that was found so
// far.
fn nearer(state: &FileState, from: u64, next: Option<u64>) -> Option<u64>
    ensures found { IfSome result (λ n. (next ≡ Some n)
        ⊎ ((n ≡ state.now.number) × (from ≤ n) × (state.now.there ≡ true))) }
    ensures least { from ≤ state.now.number → state.now.there ≡ true
        → IsSomeAnd result (λ n. n ≤ state.now.number) }
    ensures lower { IfSome next (λ m. IsSomeAnd result (λ n. n ≤ m)) }
{
    let number = state.number();
    match next {
        Some(other) if other <= number => Some(other),
        _ if number >= from && state.is_there() => Some(number),
        _ => next,
    }
}

// The files after a crash, each as one of its outcomes.
pub(crate) fn left(
    alloc: Global,
    history: &History,
    greatest: bool,
    filler: u8,
    removed_too: bool,
) -> Result<History, Memory>
    requires history { IsTrue (is_history history.now) }
    requires sound { IsTrue (list_all is_sound (current_of history.now)) }
    ensures history { IfOk result (λ left. IsTrue (is_history left)) }
    ensures left { IfOk result (λ left. current_of left
        ≡ map (left_of greatest filler removed_too) (current_of history.now)) }
    ensures past { IfOk result (λ left. past_of left ≡ []) }
    ensures sound { IfOk result (λ left. IsTrue (list_all is_sound (current_of left))) }
    ensures differ { IsTrue (numbers_differ (current_of history.now))
        → IfOk result (λ left. IsTrue (numbers_differ (current_of left))) }
{
    let mut versions = IndexMap::new(alloc);
    for (number, version) in history.versions.iter() {
        let state = state_of(alloc, version, history.synced)?;
        let left = state.left(alloc, greatest, filler, removed_too)?;
        versions.insert(
            *number,
            Version {
                state: left,
                made: 0,
            },
        )?;
    }
    Ok(History {
        versions,
        undo: Vec::new(alloc),
        synced: 0,
    })
}

// A file with these bytes, which are stable.
pub(crate) fn put(
    alloc: Global,
    history: &mut History,
    file: u64,
    bytes: &[u8],
) -> Result<(), Memory>
    requires history { IsTrue (is_history history.old) }
    requires sound { IsTrue (list_all is_sound (current_of history.old)) }
    ensures history { IsTrue (is_history history.new) }
    ensures sound { IsTrue (list_all is_sound (current_of history.new)) }
    ensures differ { IsTrue (numbers_differ (current_of history.old))
        → IsTrue (numbers_differ (current_of history.new)) }
    ensures state { OnOk result (state_in (current_of history.new) file ≡ stable_file file bytes.now) }
    ensures stable { OnOk result
        (Only bytes.now (Now (view_of (past_of history.new) (current_of history.new)) file)) }
    ensures moment { OnOk result (length (past_of history.new) ≡ length (past_of history.old) + 1) }
    ensures stays { OnErr result
        ((current_of history.new ≡ current_of history.old) × (past_of history.new ≡ past_of history.old)) }
    ensures others { (g : ℕ) → g ≢ file
        → state_in (current_of history.new) g ≡ state_in (current_of history.old) g }
    ensures time { Passes (view_of (past_of history.old) (current_of history.old))
        (view_of (past_of history.new) (current_of history.new)) }
{
    let state = FileState::stable(alloc, file, bytes)?;
    change(history, state, true)?;
    Ok(())
}
