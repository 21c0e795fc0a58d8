//! Laws of what is made on the way.
ghost use Rattle.std.specs.Prelude.{◌≡◌, ◌≤◌, ℕ, List, ◌∷◌, Ok};
ghost use Rattle.std.specs.List.{AllByRecursion};
ghost use Rattle.rewrite_core.specs.IsRewriting.{IsRewriting};
ghost use Rattle.rewrite_core.specs.PlainRewriting.{PlainRewriting};
ghost use Rattle.growth_laws.specs.KeptResults.{KeptResults, kept_among};
ghost use Rattle.growth_laws.specs.Lists.{Extents};
ghost use Rattle.growth_laws.specs.MadePlaces.{place, made_places};
ghost use Rattle.growth_laws.specs.Parts.{plan_at, cuts_at};
ghost use Rattle.growth_laws.specs.Trees.{made_by};
ghost use Rattle.result_ops.specs.Bounds.{limit};
ghost use Rattle.result_ops.specs.Steps.{made_of};
ghost use Rattle.executor.specs.Passing.{IsWithin};
ghost use Rattle.executor.specs.Recording.{recorded_below, AreMade};
ghost use Rattle.executor.specs.declared.recording.MadePlace.{MadePlace as AMadePlace};
ghost use Rattle.executor.specs.Outcomes.{IsMadeAt, IsAnyMadeAt, IsResultAt};

use crate::{made_places_are_recorded, recorded_results_are_results};
use growth_laws::{machine_times_of_parts, results_of_rewritings};

/// Over sound results, where `own` is what the rewriting makes and `found` are the results that were recorded
/// below it: at each made place one of them was made, and where the machine time of the plan is within the
/// limit, each is what is kept of its plan's result at its cut, with a machine time within the limit.
pub fn made_results_are_results()
    ensures any { (extents : Extents) (results : KeptResults) (r : PlainRewriting) (own : AMadePlace)
        (found : List AMadePlace) → IsRewriting (kept_among extents results) (plan_at r) (cuts_at r) r
        → IsMadeAt (place (plan_at r) (cuts_at r)) own → AreMade extents results (recorded_below r) found
        → AllByRecursion (IsAnyMadeAt (own ∷ found)) (made_places (plan_at r) (cuts_at r) r) }
    ensures each { (extents : Extents) (results : KeptResults) (r : PlainRewriting) (own : AMadePlace)
        (found : List AMadePlace) → IsRewriting (kept_among extents results) (plan_at r) (cuts_at r) r
        → IsMadeAt (place (plan_at r) (cuts_at r)) own → AreMade extents results (recorded_below r) found
        → made_by extents results r ≡ Ok (made_of own.made) → ((id : ℕ) → (results id).machine ≤ limit)
        → IsWithin extents (plan_at r) (cuts_at r) → AllByRecursion (IsResultAt extents) (own ∷ found) }
{
    made_places_are_recorded();
    recorded_results_are_results();
    machine_times_of_parts();
    results_of_rewritings();
}
