//! The places at which a rewriting makes a result.
ghost use Rattle.std.specs.List.{AllByRecursion};
ghost use Rattle.plan_core.specs.PlainPlan.{PlainPlan};
ghost use Rattle.estimator.specs.Cuts.{Cuts};
ghost use Rattle.rewrite_core.specs.IsRewriting.{IsRewriting};
ghost use Rattle.rewrite_core.specs.PlainRewriting.{PlainRewriting};
ghost use Rattle.growth_laws.specs.KeptResults.{KeptResults, kept_among};
ghost use Rattle.growth_laws.specs.Lists.{Extents};
ghost use Rattle.growth_laws.specs.MadePlaces.{made_places, IsMadeBy};

use rows_core::total_order;

/// At each place that a rewriting makes, a rewriting of this plan at the place's part of the cut stands in
/// it, and makes what is kept of its result.
pub fn results_of_made_places()
    ensures { (extents : Extents) (results : KeptResults) (plan : PlainPlan) (cuts : Cuts)
        (r : PlainRewriting) → IsRewriting (kept_among extents results) plan cuts r
        → AllByRecursion (IsMadeBy extents results) (made_places plan cuts r) }
{
    total_order();
}
