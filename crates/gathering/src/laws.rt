//! How much is held.
ghost use Rattle.std.specs.Prelude.{◌≡◌, ℕ, List, [], ◌∷◌, length, Ok};
ghost use Rattle.plan_core.specs.declared.agg.Agg.{Agg};
ghost use Rattle.plan_core.specs.Columns.{Rows};
ghost use Rattle.plan_core.specs.Distinct.{distinct_rows};
ghost use Rattle.plan_core.specs.Group.{keys_of};
ghost use Rattle.plan_core.specs.MachineTime.{rows_given};
ghost use Rattle.plan_core.specs.PlainPlan.{PlainPlan, Distinct, Group};
ghost use Rattle.plan_core.specs.PlanMeaning.{plan_meaning};
ghost use Rattle.growth_laws.specs.Chains.{IsChain};
ghost use Rattle.growth_laws.specs.Growth.{Made, whole_made};
ghost use Rattle.gathering.specs.Gathered.{kept_length};

/// What is held where a plan has made this of the rows so far: of filters and projections the rows that they
/// give; of a distinct over such the first of equal rows among these, and of a grouping a group for each key
/// that these have, however many rows there are.
pub fn rows_that_are_held()
    ensures chain { (plan : PlainPlan) → IsChain plan → (fed : Rows) (made : Made)
        → whole_made plan (fed ∷ []) ≡ Ok made → kept_length made.kept ≡ rows_given plan (fed ∷ []) }
    ensures distinct { (child : PlainPlan) → IsChain child → (fed rows : Rows) (made : Made)
        → whole_made (Distinct child) (fed ∷ []) ≡ Ok made → plan_meaning child (fed ∷ []) ≡ Ok rows
        → kept_length made.kept ≡ length (distinct_rows rows) }
    ensures group { (child : PlainPlan) (keys : List ℕ) (aggs : List Agg) → IsChain child
        → (fed rows : Rows) (made : Made) → whole_made (Group child keys aggs) (fed ∷ []) ≡ Ok made
        → plan_meaning child (fed ∷ []) ≡ Ok rows → kept_length made.kept ≡ length (keys_of keys rows) }
{}
