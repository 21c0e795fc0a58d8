//! Plans that are evaluated one extent at a time.
ghost use Rattle.std.specs.Prelude.{◌≡◌, ◌+◌, [], ◌∷◌, ◌++◌, Ok};
ghost use Rattle.plan_core.specs.Columns.{Rows};
ghost use Rattle.plan_core.specs.MachineTime.{rows_taken_in};
ghost use Rattle.plan_core.specs.PlainPlan.{PlainPlan};
ghost use Rattle.plan_core.specs.PlanMeaning.{plan_meaning};
ghost use Rattle.plan_laws.specs.GrowthOfRows.{joined};
ghost use Rattle.growth_laws.specs.Chains.{IsChain};

/// Filters and projections over one scan give of one list and then another one what they give of each, and
/// an overflow exactly where one of the two is an overflow; where neither is, they take in what they take
/// in of each. So the rows of an extent may be taken through them as soon as it is read, in the order of
/// the extents.
pub fn chains_of_joined_lists()
    ensures rows { (plan : PlainPlan) → IsChain plan → (a b : Rows) → plan_meaning plan ((a ++ b) ∷ [])
        ≡ joined (plan_meaning plan (a ∷ [])) (plan_meaning plan (b ∷ [])) }
    ensures takes_in { (plan : PlainPlan) → IsChain plan → (a b rows : Rows)
        → plan_meaning plan ((a ++ b) ∷ []) ≡ Ok rows → rows_taken_in plan ((a ++ b) ∷ [])
        ≡ rows_taken_in plan (a ∷ []) + rows_taken_in plan (b ∷ []) }
{}
