//! What a plan's operator takes in.
ghost use Rattle.std.specs.Prelude.{◌↔◌, IsTrue, IfSome, MatchOption};
ghost use Rattle.plan_core.specs.PlainPlan.{PlainPlan, plan_of};
ghost use Rattle.rewriter.specs.Inputs.{HasChild, HasTwo, IsByRow, IsDistinct, IsJoin, IsConcat, IsLower};

use plan_core::Plan;

pub fn only_child(plan: &Plan) -> Option<&Plan>
    ensures child { MatchOption result ((x : PlainPlan) → HasChild (plan_of plan.now) x → ⊥)
        (λ x. HasChild (plan_of plan.now) (plan_of x.now)) }
    ensures lower { IfSome result (λ x. IsLower (plan_of x.now) (plan_of plan.now)) }
{
    match plan {
        Plan::Filter { child, test: _ } => Some(child),
        Plan::Project { child, columns: _ } => Some(child),
        Plan::Distinct { child } => Some(child),
        Plan::Group {
            child,
            keys: _,
            aggs: _,
        } => Some(child),
        Plan::Order { child, keys: _ } => Some(child),
        _ => None,
    }
}

pub fn is_by_row(plan: &Plan) -> bool
    ensures { IsTrue result ↔ IsByRow (plan_of plan.now) }
{
    matches!(plan, Plan::Filter { .. } | Plan::Project { .. })
}

pub fn is_distinct(plan: &Plan) -> bool
    ensures { IsTrue result ↔ IsDistinct (plan_of plan.now) }
{
    matches!(plan, Plan::Distinct { .. })
}

pub fn join_sides(plan: &Plan) -> Option<(&Plan, &Plan)>
    ensures sides { MatchOption result ((x y : PlainPlan) → IsJoin (plan_of plan.now) x y → ⊥)
        (λ s. IsJoin (plan_of plan.now) (plan_of s.0.now) (plan_of s.1.now)) }
    ensures lower { IfSome result (λ s. IsLower (plan_of s.0.now) (plan_of plan.now)
        × IsLower (plan_of s.1.now) (plan_of plan.now)) }
{
    match plan {
        Plan::Join { left, right, on: _ } => Some((left, right)),
        _ => None,
    }
}

pub fn concat_parts(plan: &Plan) -> Option<(&Plan, &Plan)>
    ensures parts { MatchOption result ((x y : PlainPlan) → IsConcat (plan_of plan.now) x y → ⊥)
        (λ s. IsConcat (plan_of plan.now) (plan_of s.0.now) (plan_of s.1.now)) }
    ensures lower { IfSome result (λ s. IsLower (plan_of s.0.now) (plan_of plan.now)
        × IsLower (plan_of s.1.now) (plan_of plan.now)) }
{
    match plan {
        Plan::Concat { left, right } => Some((left, right)),
        _ => None,
    }
}

pub fn two_children(plan: &Plan) -> Option<(&Plan, &Plan)>
    ensures children { MatchOption result ((x y : PlainPlan) → HasTwo (plan_of plan.now) x y → ⊥)
        (λ s. HasTwo (plan_of plan.now) (plan_of s.0.now) (plan_of s.1.now)) }
    ensures lower { IfSome result (λ s. IsLower (plan_of s.0.now) (plan_of plan.now)
        × IsLower (plan_of s.1.now) (plan_of plan.now)) }
{
    match plan {
        Plan::Join { left, right, on: _ } => Some((left, right)),
        Plan::Concat { left, right } => Some((left, right)),
        _ => None,
    }
}
