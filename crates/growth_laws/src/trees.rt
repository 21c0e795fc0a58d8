//! What rewritings make.
ghost use Rattle.std.specs.Prelude.{◌≡◌, ◌↔◌, List, Result, Ok, IfOk};
ghost use Rattle.rows_core.specs.declared.overflow.Overflow.{Overflow};
ghost use Rattle.plan_core.specs.Columns.{Rows};
ghost use Rattle.plan_core.specs.MachineTime.{machine_time};
ghost use Rattle.plan_core.specs.PlainPlan.{PlainPlan};
ghost use Rattle.plan_core.specs.PlanMeaning.{plan_meaning};
ghost use Rattle.estimator.specs.Cuts.{Cuts, AreIntervals};
ghost use Rattle.rewrite_core.specs.Entries.{Entries, AreSound};
ghost use Rattle.rewrite_core.specs.IsRewriting.{IsRewriting, IsDelta, among};
ghost use Rattle.rewrite_core.specs.PlainRewriting.{PlainRewriting, PlainDelta};
ghost use Rattle.growth_laws.specs.Growth.{Added, Made, Extends};
ghost use Rattle.growth_laws.specs.Growth.{IsMade, machine_of, rows_of_made, whole_made};
ghost use Rattle.growth_laws.specs.KeptResults.{KeptResults, AreKept, kept_among};
ghost use Rattle.growth_laws.specs.Lists.{Extents, plan_lists};
ghost use Rattle.growth_laws.specs.Trees.{made_by, added_by};

use rows_core::total_order;

/// Whatever mixture of computed, read and grown parts a rewriting is, where each result that it names is
/// that of its plan on its own cut, it makes what is kept of the plan's result at the cut, with the machine
/// time of the plan; its rows are the plan's; and it is an overflow where the plan's kept form is one.
pub fn results_of_rewritings()
    ensures made { (extents : Extents) (results : KeptResults) (plan : PlainPlan) (cuts : Cuts)
        (r : PlainRewriting) → IsRewriting (kept_among extents results) plan cuts r
        → IsMade plan (plan_lists extents plan cuts) (made_by extents results r) }
    ensures rows { (extents : Extents) (results : KeptResults) (plan : PlainPlan) (cuts : Cuts)
        (r : PlainRewriting) → IsRewriting (kept_among extents results) plan cuts r
        → rows_of_made (made_by extents results r) ≡ plan_meaning plan (plan_lists extents plan cuts) }
    ensures machine { (extents : Extents) (results : KeptResults) (plan : PlainPlan) (cuts : Cuts)
        (r : PlainRewriting) → IsRewriting (kept_among extents results) plan cuts r
        → IfOk (made_by extents results r)
        (λ made. machine_of made ≡ machine_time plan (plan_lists extents plan cuts)) }
{
    total_order();
}

/// There is one result of a plan on its lists, which the definitions give, and one addition behind the rows
/// that it gave: so two ways of making them give the same.
pub fn one_result_of_lists()
    ensures made { (plan : PlainPlan) (lists : List Rows) (given : Result Made Overflow)
        → IsMade plan lists given ↔ (given ≡ whole_made plan lists) }
    ensures added { (plan : PlainPlan) (before after : List Rows) (rows : Rows)
        (first second : Result Added Overflow) → plan_meaning plan before ≡ Ok rows
        → Extends plan before after first → Extends plan before after second → first ≡ second }
{}

/// What a delta adds is what comes behind the rows that its plan gave at the old cut.
pub fn results_of_deltas()
    ensures { (extents : Extents) (results : KeptResults) (plan : PlainPlan) (old new : Cuts)
        (d : PlainDelta) → AreIntervals old → IsDelta (kept_among extents results) plan old new d
        → Extends plan (plan_lists extents plan old) (plan_lists extents plan new)
        (added_by extents results d) }
{
    total_order();
}

/// A rewriting over a list of entries names only results of its plans on their own cuts, where each entry's
/// result is that.
pub fn results_of_entries()
    ensures { (extents : Extents) (results : KeptResults) (entries : Entries) (plan : PlainPlan)
        (cuts : Cuts) (r : PlainRewriting) → AreSound entries → AreKept extents results entries
        → IsRewriting (among entries) plan cuts r
        → IsRewriting (kept_among extents results) plan cuts r }
{}
