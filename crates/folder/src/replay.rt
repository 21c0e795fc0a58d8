//! The table to which the bodies of a log lead.
ghost use Rattle.std.specs.Prelude.{◌≡◌, ℕ, ◌^◌, ◌<◌, true, false, length, IfOk, OnOk, IsErrOf, IfErr};
ghost use Rattle.gated_log.specs.Logs.{front, contents};
ghost use Rattle.catalog_types.specs.declared.change.Change.{Change};
ghost use Rattle.catalog_core.specs.Table.{empty_table, after, Fits};
ghost use Rattle.catalog_core.specs.Catalogs.{table_of};
ghost use Rattle.folder.specs.Refusals.{catalog_as, change_as, from_place, replay_as, FitsFrom, IsStop};
ghost use Rattle.folder.specs.Replay.{IsBodyOf, MayBeMade, Replays, StopsReplay, due_in, form_in};
ghost use Rattle.folder.specs.Replay.{is_checkpoint};

use crate::refusal::LoadRefusal;
use catalog_core::{Catalog, CatalogRefusal};
use catalog_types::Change;
use journal_store::Journal;
use record_codec::{ChangeRefusal, Form, form_of, read_change};
use std::alloc::Global;

/// The place of the first gate of a log.
const FIRST_GATE: u64 = 8;

/// Why bodies aren't replayed.
#[derive(Clone, Copy)]
pub enum ReplayRefusal {
    /// Reading stops at this byte.
    Stops { at: u64 },
    /// Memory was refused.
    Memory,
}

// Whether the change is a checkpoint.
fn is_checkpoint(change: &Change) -> bool
    ensures { result ≡ is_checkpoint change.now }
{
    match change {
        Change::Checkpoint { .. } => true,
        _ => false,
    }
}

// Why a body isn't replayed, where it isn't read as a change.
fn of_change(refusal: ChangeRefusal) -> ReplayRefusal
    ensures { result ≡ change_as refusal }
{
    match refusal {
        ChangeRefusal::NotChange { at } => ReplayRefusal::Stops { at },
        ChangeRefusal::Memory => ReplayRefusal::Memory,
    }
}

// Why a body isn't replayed, where its change isn't made.
fn of_catalog(refusal: CatalogRefusal) -> ReplayRefusal
    ensures { result ≡ catalog_as refusal }
{
    match refusal {
        CatalogRefusal::Misfit => ReplayRefusal::Stops { at: 0 },
        CatalogRefusal::Memory => ReplayRefusal::Memory,
    }
}

// Makes a change that is no checkpoint.
fn apply(catalog: &mut Catalog, change: Change) -> Result<(), CatalogRefusal>
    requires { is_checkpoint change ≡ false }
    ensures fits { OnOk result (Fits change (table_of catalog.old)) }
    ensures made { OnOk result (table_of catalog.new ≡ after change (table_of catalog.old)) }
    ensures misfit { IsErrOf result CatalogRefusal.Misfit → Fits change (table_of catalog.old) → ⊥ }
{
    catalog.prepare(&change)?;
    catalog.apply(change);
    Ok(())
}

// Makes a checkpoint, the first change of its log.
fn restore(alloc: Global, catalog: &mut Catalog, change: Change) -> Result<(), CatalogRefusal>
    requires is { is_checkpoint change ≡ true }
    requires first { table_of catalog.old ≡ empty_table }
    ensures fits { OnOk result (Fits change (table_of catalog.old)) }
    ensures made { OnOk result (table_of catalog.new ≡ after change (table_of catalog.old)) }
    ensures misfit { IsErrOf result CatalogRefusal.Misfit → Fits change (table_of catalog.old) → ⊥ }
{
    match change {
        Change::Checkpoint { whole } => {
            *catalog = Catalog::restored(alloc, whole)?;
            Ok(())
        }
        _ => unreachable!(),
    }
}

// Makes the change that a body spells in this form. `Stops` says at which byte of the body reading stops.
fn make(
    alloc: Global,
    catalog: &mut Catalog,
    form: Form,
    due: bool,
    body: &[u8],
) -> Result<(), ReplayRefusal>
    requires { due ≡ true → table_of catalog.old ≡ empty_table }
    ensures made { OnOk result ((c : Change) × IsBodyOf form c body.now
        × MayBeMade due (table_of catalog.old) c × (table_of catalog.new ≡ after c (table_of catalog.old))) }
    ensures stops { IfErr result (IsStop form due (table_of catalog.old) body.now) }
{
    let change = match read_change(alloc, body, form) {
        Ok(change) => change,
        Err(refusal) => return Err(of_change(refusal)),
    };
    if is_checkpoint(&change) != due {
        return Err(ReplayRefusal::Stops { at: 0 });
    }
    let made = if due {
        restore(alloc, catalog, change)
    } else {
        apply(catalog, change)
    };
    match made {
        Ok(()) => Ok(()),
        Err(refusal) => Err(of_catalog(refusal)),
    }
}

// The refusal of a body that begins at this place.
fn behind(place: u64, refusal: ReplayRefusal) -> ReplayRefusal
    requires { FitsFrom place refusal }
    ensures { result ≡ from_place place refusal }
{
    match refusal {
        ReplayRefusal::Stops { at } => ReplayRefusal::Stops { at: place + at },
        ReplayRefusal::Memory => ReplayRefusal::Memory,
    }
}

// Why a folder isn't loaded, where the log in this file isn't replayed.
pub(crate) fn of_replay(file: u64, refusal: ReplayRefusal) -> LoadRefusal
    ensures { result ≡ replay_as file refusal }
{
    match refusal {
        ReplayRefusal::Stops { at } => LoadRefusal::NotAStore { file, at },
        ReplayRefusal::Memory => LoadRefusal::Memory,
    }
}

// The form of a log, which its first body tells.
pub(crate) fn form_in(bodies: &[Vec<u8>]) -> Form
    ensures { result ≡ form_in (contents bodies.now) }
{
    match bodies {
        [first, ..] => form_of(first),
        [] => form_of(&[]),
    }
}

// The table to which the changes of a generation's log lead. `Stops` says at which byte of the log reading
// stops.
pub(crate) fn replay(
    alloc: Global,
    generation: u64,
    bodies: &[Vec<u8>],
) -> Result<Catalog, ReplayRefusal>
    requires { length (front (contents bodies.now)) < 2 ^ 63 }
    ensures replays { IfOk result
        (λ catalog. Replays (form_in (contents bodies.now)) (due_in generation) empty_table
        (contents bodies.now) (table_of catalog)) }
    ensures stops { (at : ℕ) → IsErrOf result (ReplayRefusal.Stops at)
        → StopsReplay (form_in (contents bodies.now)) (due_in generation) empty_table 8
        (contents bodies.now) at }
{
    let form = form_in(bodies);
    let mut catalog = Catalog::new(alloc);
    let mut due = generation > 0;
    for i in 0..bodies.len() {
        match make(alloc, &mut catalog, form, due, &bodies[i]) {
            Ok(()) => due = false,
            Err(refusal) => return Err(behind(Journal::place(bodies, i), refusal)),
        }
    }
    if due {
        return Err(ReplayRefusal::Stops { at: FIRST_GATE });
    }
    Ok(catalog)
}
