//! A law of made places.
ghost use Rattle.std.specs.Prelude.{Contains};
ghost use Rattle.plan_core.specs.PlainPlan.{PlainPlan};
ghost use Rattle.estimator.specs.Cuts.{Cuts};
ghost use Rattle.rewrite_core.specs.IsRewriting.{IsRewriting, whichever};
ghost use Rattle.rewrite_core.specs.PlainRewriting.{PlainRewriting};
ghost use Rattle.growth_laws.specs.MadePlaces.{Place, place, made_places};
ghost use Rattle.made_places.specs.Standing.{Counts, HasOwnTree};

/// Each place that counts and at which a computed or grown tree stands at the place's own cut is among the
/// made places, whichever results are kept.
pub fn places_with_trees_are_made()
    ensures { (plan : PlainPlan) (cuts : Cuts) (r : PlainRewriting) (at : Place)
        → IsRewriting whichever plan cuts r → Counts (place plan cuts) at → HasOwnTree plan cuts r at
        → Contains (made_places plan cuts r) at }
{}
