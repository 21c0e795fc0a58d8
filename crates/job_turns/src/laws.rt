//! Jobs over later tables. A function that does nothing, whose contract is the law.
ghost use Rattle.std.specs.Prelude.{◌≡◌, ℕ, List};
ghost use Rattle.plan_core.specs.PlainPlan.{PlainPlan};
ghost use Rattle.catalog_core.specs.IsTable.{IsTable};
ghost use Rattle.catalog_core.specs.Table.{Table};
ghost use Rattle.folder.specs.State.{State, table};
ghost use Rattle.later_states.specs.Later.{AreHeld, IsLater, IsLaterState};
ghost use Rattle.work_run.specs.Opened.{HasRead};
ghost use Rattle.job_turns.specs.Jobs.{IsJob};
ghost use Rattle.job_turns.specs.declared.job.JobWork.{JobWork};

use later_states::open_work_stays;
use plan_choice::{results_are_left_out, serving_rewritings, taken_rewritings};

/// Where the kept results that its rewriting reads are held, a job is one over a later table, also where its noted
/// results are gone; and what was read of it is what the later state's extents and kept results are.
pub fn job_work_stays()
    ensures job { (held : List ℕ) (t u : Table) (plan : PlainPlan) (job : JobWork) → IsTable t → IsTable u
        → IsLater held t u → AreHeld held job.work.used.items → IsJob t plan job → IsJob u plan job }
    ensures read { (held : List ℕ) (s u : State) (plan : PlainPlan) (job : JobWork) → IsTable (table s)
        → IsTable (table u) → IsLaterState held s u → AreHeld held job.work.used.items
        → IsJob (table s) plan job → HasRead s job.work → HasRead u job.work }
{
    open_work_stays();
    taken_rewritings();
    serving_rewritings();
    results_are_left_out();
}
