//! What is made of fit results is fit again.
ghost use Rattle.std.specs.Prelude.{◌≡◌, List, IsSome, Ok};
ghost use Rattle.plan_core.specs.PlainPlan.{PlainPlan};
ghost use Rattle.plan_core.specs.PlanTyping.{Kinds, plan_kinds};
ghost use Rattle.rewrite_core.specs.IsRewriting.{OfOne, OfTwo, OfSides, OfDistinctChild};
ghost use Rattle.growth_laws.specs.Growth.{Added, Made};
ghost use Rattle.growth_laws.specs.Making.{made_of_one, made_of_two, made_of_grown, made_of_left};
ghost use Rattle.growth_laws.specs.Making.{made_of_right, made_of_both, added_of_child};
ghost use Rattle.growth_laws.specs.Making.{added_of_distinct, added_of_join};
ghost use Rattle.result_ops.specs.Bounds.{IsBounded};
ghost use Rattle.result_ops.specs.Fitting.{IsFit, FitRows, OfPassed, OfGrown, StandsInOrder};

use plan_laws::typed_plans_give_typed_rows;

/// What is made of the fit results of a typed plan's inputs is fit, where it is within the bounds, which each
/// step says: so it may be an input of the next one.
pub fn computed_results_are_fit()
    ensures one { (schemas : List Kinds) (plan : PlainPlan) (child made : Made)
        → IsSome (plan_kinds schemas plan) → OfOne (λ input. IsFit schemas input child.kept) plan
        → made_of_one plan child ≡ Ok made → IsBounded plan made.kept → IsFit schemas plan made.kept }
    ensures two { (schemas : List Kinds) (plan : PlainPlan) (left right made : Made)
        → IsSome (plan_kinds schemas plan)
        → OfTwo (λ first second. IsFit schemas first left.kept
        × IsFit schemas second right.kept) plan
        → made_of_two plan left right ≡ Ok made → IsBounded plan made.kept
        → IsFit schemas plan made.kept }
{
    typed_plans_give_typed_rows();
}

/// The rows that a step adds have the kinds of the plan's columns, where those that it takes in have the
/// kinds of the input's.
pub fn added_rows_are_fit()
    ensures child { (schemas : List Kinds) (plan : PlainPlan) (added more : Added)
        → IsSome (plan_kinds schemas plan) → OfPassed (FitRows schemas added.rows) plan
        → added_of_child plan added ≡ Ok more → FitRows schemas more.rows plan }
    ensures distinct { (schemas : List Kinds) (plan : PlainPlan) (old : Made) (added more : Added)
        → OfDistinctChild (FitRows schemas added.rows) plan
        → added_of_distinct old added ≡ Ok more → FitRows schemas more.rows plan }
    ensures join { (schemas : List Kinds) (plan : PlainPlan) (added more : Added) (right : Made)
        → IsSome (plan_kinds schemas plan)
        → OfSides (λ first second. FitRows schemas added.rows first
        × IsFit schemas second right.kept) plan
        → added_of_join plan added right ≡ Ok more → FitRows schemas more.rows plan }
{
    typed_plans_give_typed_rows();
}

/// What is made of a fit earlier result and of what came behind its inputs is fit, where it is within the
/// bounds. The earlier result of a join stands in order, as its file has it.
pub fn grown_results_are_fit()
    ensures one { (schemas : List Kinds) (plan : PlainPlan) (old made : Made) (added : Added)
        → IsSome (plan_kinds schemas plan) → IsFit schemas plan old.kept
        → OfGrown (FitRows schemas added.rows) plan → made_of_grown plan old added ≡ Ok made
        → IsBounded plan made.kept → IsFit schemas plan made.kept }
    ensures left { (schemas : List Kinds) (plan : PlainPlan) (old right made : Made) (added : Added)
        → IsSome (plan_kinds schemas plan) → IsFit schemas plan old.kept
        → OfSides (λ first second. FitRows schemas added.rows first
        × IsFit schemas second right.kept) plan
        → made_of_left plan old added right ≡ Ok made → IsBounded plan made.kept
        → IsFit schemas plan made.kept }
    ensures right { (schemas : List Kinds) (plan : PlainPlan) (old left made : Made) (added : Added)
        → IsSome (plan_kinds schemas plan) → IsFit schemas plan old.kept → StandsInOrder old.kept
        → OfSides (λ first second. IsFit schemas first left.kept
        × FitRows schemas added.rows second) plan
        → made_of_right plan old left added ≡ Ok made → IsBounded plan made.kept
        → IsFit schemas plan made.kept }
    ensures both { (schemas : List Kinds) (plan : PlainPlan) (old old_left right made : Made)
        (right_added left_added : Added) → IsSome (plan_kinds schemas plan)
        → IsFit schemas plan old.kept → StandsInOrder old.kept
        → OfSides (λ first second. IsFit schemas first old_left.kept
        × FitRows schemas right_added.rows second × FitRows schemas left_added.rows first
        × IsFit schemas second right.kept) plan
        → made_of_both plan old old_left right_added left_added right ≡ Ok made
        → IsBounded plan made.kept → IsFit schemas plan made.kept }
{
    typed_plans_give_typed_rows();
}
