//! Laws of tables and states that come later, and of open work over them. Each is a function that does nothing,
//! whose contract is the law.
ghost use Rattle.std.specs.Prelude.{◌≡◌, ℕ, List, Option};
ghost use Rattle.rows_core.specs.declared.schema.Column.{Column};
ghost use Rattle.rows_core.specs.declared.value.Value.{Value};
ghost use Rattle.plan_core.specs.PlainPlan.{PlainPlan, leaves};
ghost use Rattle.estimator.specs.Cuts.{Cuts};
ghost use Rattle.catalog_types.specs.PlainEntry.{PlainNewEntry};
ghost use Rattle.catalog_types.specs.declared.change.Change.{Change};
ghost use Rattle.catalog_types.specs.declared.change.Change.TheVariants as change;
ghost use Rattle.catalog_types.specs.declared.program.Program.{Program};
ghost use Rattle.catalog_core.specs.IsTable.{IsTable};
ghost use Rattle.catalog_core.specs.Programs.{AreCuts};
ghost use Rattle.catalog_core.specs.Table.{Table, Fits, after};
ghost use Rattle.folder.specs.Next.{with_stream, with_rows, with_run, with_work, with_collection, new_extent};
ghost use Rattle.folder.specs.State.{State, extent_of, table, states_of, lists_in};
ghost use Rattle.work_run.specs.Opened.{IsOpen, HasRead};
ghost use Rattle.work_run.specs.declared.open.OpenWork.{OpenWork};
ghost use Rattle.later_states.specs.Later.{AreHeld, AreFree, SparesHeld, IsLater, IsLaterState};

use growth_laws::files_of_pieces;
use plan_choice::serving_rewritings;

/// A table comes later than itself, and one after a change that spares the held kept results comes later than
/// the one before. What comes later than a later table comes later; and where a table comes later that spares
/// some kept results, it does so with fewer of them held.
pub fn later_tables()
    ensures same { (held : List ℕ) (t : Table) → IsLater held t t }
    ensures changed { (held : List ℕ) (t : Table) (change : Change) → Fits change t
        → SparesHeld held change → IsLater held t (after change t) }
    ensures twice { (held : List ℕ) (t u v : Table) → IsLater held t u → IsLater held u v
        → IsLater held t v }
    ensures fewer { (held others : List ℕ) (t u : Table) → AreHeld held others → IsLater held t u
        → IsLater others t u }
{}

/// A state comes later than itself. So does one with one more stream, with one more extent, with what a run or a
/// piece of work leaves, and without the kept results that are collected, where those that are evicted aren't
/// held. What comes later than a later state comes later, and does so with fewer held.
pub fn later_states()
    ensures same { (held : List ℕ) (s : State) → IsLaterState held s s }
    ensures stream { (held : List ℕ) (s : State) (name : List ℕ) (columns : List Column)
        → Fits (change.Stream name columns) (table s) → IsLaterState held s (with_stream s name columns) }
    ensures rows { (held : List ℕ) (s : State) (place : ℕ) (rows : List (List Value))
        → Fits (change.Append place (extent_of (new_extent s.next_file rows))) (table s)
        → IsLaterState held s (with_rows s place rows) }
    ensures run { (held : List ℕ) (s : State) (program : Option Program)
        → IsLaterState held s (with_run s program) }
    ensures work { (held : List ℕ) (s : State) (program : Option Program) (reads dropped : List ℕ)
        (kept : List PlainNewEntry) → Fits (change.Work program reads dropped kept) (table s)
        → AreFree held dropped → IsLaterState held s (with_work s program reads dropped kept) }
    ensures collection { (held : List ℕ) (s : State) (ids : List ℕ) → Fits (change.Collect ids) (table s)
        → AreFree held ids → IsLaterState held s (with_collection s ids) }
    ensures twice { (held : List ℕ) (s u v : State) → IsLaterState held s u → IsLaterState held u v
        → IsLaterState held s v }
    ensures fewer { (held others : List ℕ) (s u : State) → AreHeld held others → IsLaterState held s u
        → IsLaterState others s u }
{}

/// Where the kept results that it reads are held, open work stays open over a later table, by the same normal
/// form, and what was read of it is what the later state's extents and kept results are. The rows of a plan at
/// a cut stay the same: those of open work are the rows of the extents at its opening.
pub fn open_work_stays()
    ensures open { (held : List ℕ) (t u : Table) (plan : PlainPlan) (work : OpenWork) → IsTable t → IsTable u
        → IsLater held t u → AreHeld held work.used.items → (old : IsOpen t plan work)
        → (new : IsOpen u plan work) × (new.normal ≡ old.normal) }
    ensures read { (held : List ℕ) (s u : State) (plan : PlainPlan) (work : OpenWork) → IsTable (table s)
        → IsTable (table u) → IsLaterState held s u → AreHeld held work.used.items
        → IsOpen (table s) plan work → HasRead s work → HasRead u work }
    ensures rows { (held : List ℕ) (s u : State) (plan : PlainPlan) (cuts : Cuts) → IsLaterState held s u
        → AreCuts (states_of s.streams) (leaves plan) cuts
        → lists_in u.streams plan cuts ≡ lists_in s.streams plan cuts }
{
    serving_rewritings();
    files_of_pieces();
}
