//! The laws that evaluating rests on.
ghost use Rattle.std.specs.List.{AllByRecursion};
ghost use Rattle.plan_core.specs.PlainPlan.{PlainPlan};
ghost use Rattle.estimator.specs.Cuts.{Cuts};
ghost use Rattle.rewrite_core.specs.IsRewriting.{IsRewriting};
ghost use Rattle.rewrite_core.specs.PlainRewriting.{PlainRewriting};
ghost use Rattle.growth_laws.specs.KeptResults.{KeptResults, kept_among};
ghost use Rattle.growth_laws.specs.Lists.{Extents};
ghost use Rattle.growth_laws.specs.MadePlaces.{made_places};
ghost use Rattle.growth_laws.specs.Parts.{IsOwn};
ghost use Rattle.executor.specs.Laws.{Laws};
ghost use Rattle.executor.specs.Recording.{recorded_of, recorded_below, IsFoundBelow};

use growth_laws::{results_of_deltas, results_of_parts, results_of_rewritings};
use plan_laws::{typed_plans_give_typed_rows, typed_plans_give_valid_rows};
use rows_core::total_order;

/// Typed plans give typed and valid rows, rewritings make the results of their plans, and deltas add what
/// comes behind them.
pub fn results_are_made()
    ensures { Laws }
{
    typed_plans_give_typed_rows();
    typed_plans_give_valid_rows();
    results_of_rewritings();
    results_of_deltas();
}

/// Over sound results each tree whose result is recorded makes what is kept of the result of its own plan at
/// its own cut.
pub fn recorded_results_are_results()
    ensures { (extents : Extents) (results : KeptResults) (plan : PlainPlan) (cuts : Cuts)
        (r : PlainRewriting) → IsRewriting (kept_among extents results) plan cuts r
        → AllByRecursion (IsOwn extents results) (recorded_below r) }
{
    results_of_parts();
}

/// At each made place that counts below a root, the result of a tree of this plan at the place's part of the
/// cut is recorded.
pub fn made_places_are_recorded()
    ensures { (extents : Extents) (results : KeptResults) (plan : PlainPlan) (cuts : Cuts)
        (r : PlainRewriting) → IsRewriting (kept_among extents results) plan cuts r
        → AllByRecursion (IsFoundBelow (recorded_of r)) (made_places plan cuts r) }
{
    total_order();
}
