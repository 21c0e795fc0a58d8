//! Plans that are read in turns.
ghost use Rattle.std.specs.Prelude.{◌≡◌, ◌⊎◌, Option, IsTrue, IfOk, IfErr, IsErrOf, OnOk};
ghost use Rattle.outside_traits.specs.Counts.{Rose};
ghost use Rattle.outside_traits.specs.View.{View, Counts};
ghost use Rattle.outside_traits.specs.Calls.{MayRaiseReads};
ghost use Rattle.outside_traits.specs.Runs.{Narrows};
ghost use Rattle.catalog_types.specs.declared.program.Program.{Program};
ghost use Rattle.catalog_core.specs.Catalogs.{table_of};
ghost use Rattle.folder.specs.Left.{IsLeft};
ghost use Rattle.folder.specs.Sound.{Care};
ghost use Rattle.folder.specs.State.{State, table};
ghost use Rattle.planning.specs.Running.{IsTypedAt};
ghost use Rattle.script_text.specs.declared.answer.Refusal.{Refusal};
ghost use Rattle.work_run.specs.Ends.{CountsRead};
ghost use Rattle.work_turns.specs.Ends.{IsToldLast};
ghost use Rattle.folder_session.specs.Machine.{WorkStep};
ghost use Rattle.folder_session.specs.Taken.{TakesNone, TakesInTurns};
ghost use Rattle.folder_session.specs.Wanted.{target_at};
ghost use Rattle.folder_session.specs.Working.{EndsInTurns, IsFoundFor};

use crate::choosing::{NormalChoice, chosen};
use crate::refusals::refusal_of;
use catalog_core::{Catalog, know_table};
use outside_traits::Store;
use plan_choice::{results_are_left_out, serving_rewritings, taken_rewritings};
use plan_core::Typed;
use rows_core::{Cut, Memory};
use script_text::{Answer, Refusal};
use std::alloc::Global;
use work_turns::{LastTurn, run_in_turns};

/// Takes a plan at a cut of a catalogue's streams, and reads the files of what is taken in turns, until one comes to its
/// end. Damage and unreadable bytes of kept results are no refusal; those of an extent are, and so are a failed read, an
/// overflow, a machine time above its limit and want of memory.
pub(crate) fn read_in_turns<D: Store>(
    alloc: Global,
    store: &mut D,
    catalog: &Catalog,
    typed: Typed,
    cuts: &[Cut],
) -> Result<LastTurn, Refusal>
    requires { IsTypedAt (table_of catalog.now) (target_at typed cuts.now) typed cuts.now }
    ensures ok { IsTrue D.tells → (care : Care) (s : State) → IsLeft care (D.view store.old) s s
        → table_of catalog.now ≡ table s → IfOk result (EndsInTurns care s typed.plan cuts.now) }
    ensures err { IsTrue D.tells → (care : Care) (s : State) → IsLeft care (D.view store.old) s s
        → table_of catalog.now ≡ table s → IfErr result (λ why. (program : Option Program)
        → WorkStep care s program typed.plan cuts.now (Answer.Refused why) s) }
    ensures told { IfOk result (IsToldLast (table_of catalog.now)) }
    ensures taken { IsTrue D.tells → (care : Care) (s : State) → IsLeft care (D.view store.old) s s
        → table_of catalog.now ≡ table s
        → IfOk result (λ last. CountsRead last.read (D.counts store.old) (D.counts store.new)) }
    ensures most { IsTrue D.tells → TakesNone (D.counts store.old) (D.counts store.new)
        ⊎ TakesInTurns (table_of catalog.now) typed.plan cuts.now (D.counts store.old)
        (D.counts store.new) }
    ensures found { IsTrue D.tells
        → IfErr result (IsFoundFor (table_of catalog.now) typed.plan cuts.now (D.view store.old).files) }
    ensures fault { IsErrOf result Refusal.Fault → Rose (D.counts store.old).reads (D.counts store.new).reads }
    ensures only_fault { (IsErrOf result Refusal.Fault → ⊥)
        → (D.counts store.new).reads ≡ (D.counts store.old).reads }
    ensures narrows { Narrows (D.view store.old) (D.view store.new) }
    ensures counts { MayRaiseReads (D.counts store.old) (D.counts store.new) }
{
    taken_rewritings();
    serving_rewritings();
    results_are_left_out();
    know_table(catalog);
    let Ok(taken) = chosen(alloc, catalog, typed, cuts) else {
        return Err(Refusal::Memory);
    };
    let NormalChoice { normal, choice } = taken;
    match run_in_turns(alloc, store, catalog, &normal, cuts, choice) {
        Ok(last) => Ok(last),
        Err(refusal) => Err(refusal_of(refusal)),
    }
}
