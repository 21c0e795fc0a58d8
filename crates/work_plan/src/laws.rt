//! Laws of plans and cuts of which a result may be recorded.
ghost use Rattle.std.specs.Prelude.{List};
ghost use Rattle.std.specs.List.{AllByRecursion};
ghost use Rattle.plan_core.specs.PlainPlan.{PlainPlan};
ghost use Rattle.estimator.specs.Cuts.{Cuts};
ghost use Rattle.rewrite_core.specs.PlainRewriting.{PlainRewriting};
ghost use Rattle.growth_laws.specs.MadePlaces.{Place, places, made_places};
ghost use Rattle.catalog_types.specs.declared.snapshot.StreamState.{StreamState};
ghost use Rattle.work_plan.specs.Fitting.{IsFit};

/// Where a result of a plan at its cuts may be recorded, so may that of each of its places, and of each place
/// at which a rewriting makes what is kept.
pub fn places_of_fit_plans()
    ensures places { (streams : List StreamState) (plan : PlainPlan) (cuts : Cuts)
        → IsFit streams plan cuts
        → AllByRecursion (λ (at : Place). IsFit streams at.plan at.cuts) (places plan cuts) }
    ensures made { (streams : List StreamState) (plan : PlainPlan) (cuts : Cuts) (r : PlainRewriting)
        → IsFit streams plan cuts
        → AllByRecursion (λ (at : Place). IsFit streams at.plan at.cuts) (made_places plan cuts r) }
{}
