//! The rewritings that stand in a rewriting.
ghost use Rattle.std.specs.Prelude.{◌≤◌, ℕ};
ghost use Rattle.std.specs.List.{AllByRecursion};
ghost use Rattle.plan_core.specs.MachineTime.{machine_time};
ghost use Rattle.plan_core.specs.PlainPlan.{PlainPlan};
ghost use Rattle.estimator.specs.Cuts.{Cuts};
ghost use Rattle.rewrite_core.specs.IsRewriting.{IsRewriting};
ghost use Rattle.rewrite_core.specs.PlainRewriting.{PlainRewriting};
ghost use Rattle.growth_laws.specs.KeptResults.{KeptResults, kept_among};
ghost use Rattle.growth_laws.specs.Lists.{Extents, plan_lists};
ghost use Rattle.growth_laws.specs.Parts.{plan_at, cuts_at, parts_of, IsOwn};

use rows_core::total_order;

/// Each rewriting that stands in a rewriting, also within its deltas and at earlier cuts, makes what is
/// kept of the result of its own plan at its own cut.
pub fn results_of_parts()
    ensures { (extents : Extents) (results : KeptResults) (plan : PlainPlan) (cuts : Cuts)
        (r : PlainRewriting) → IsRewriting (kept_among extents results) plan cuts r
        → AllByRecursion (IsOwn extents results) (parts_of r) }
{
    total_order();
}

/// Where neither the machine time of the plan nor that of a kept result is above a limit, none of a rewriting
/// that stands in a rewriting is; and a machine time bounds the counts of what is kept, as the law of the
/// shapes of kept forms says.
pub fn machine_times_of_parts()
    ensures { (extents : Extents) (results : KeptResults) (plan : PlainPlan) (cuts : Cuts)
        (r : PlainRewriting) (limit : ℕ) → ((id : ℕ) → (results id).machine ≤ limit)
        → machine_time plan (plan_lists extents plan cuts) ≤ limit
        → IsRewriting (kept_among extents results) plan cuts r
        → AllByRecursion (λ part. machine_time (plan_at part)
        (plan_lists extents (plan_at part) (cuts_at part)) ≤ limit) (parts_of r) }
{}
