//! The normal form of a typed plan.
ghost use Rattle.std.specs.Prelude.{◌≡◌, ◌≤◌, IfOk, IsOk};
ghost use Rattle.plan_core.specs.Nesting.{expr_count, node_count, nesting};
ghost use Rattle.plan_core.specs.PlainPlan.{plan_of, leaves};
ghost use Rattle.plan_core.specs.PlanTyping.{plan_typing};
ghost use Rattle.plan_core.specs.TypedPlan.{IsTypedOver};
ghost use Rattle.plan_canon.specs.Normal.{IsNormalFormOf, MeanTheSame};

use crate::laws::{
    normal_plans_are_not_deep, normal_plans_mean_the_same, steps_end_at_the_normal_form,
};
use crate::plans::normal_plan;
use plan_core::{Plan, PlanRefusal, Schemas, Typed, type_plan};
use rows_core::Memory;
use std::alloc::Global;

/// The normal plan of a plan that is typed over the streams: it is reached from the plan by the rules, each
/// at the first place where one applies, and none applies in it. It has the plan's kinds and leaves, is typed
/// over the same streams, and gives the same rows, or an overflow where the plan does. Of a plan with at most
/// 40 operators and leaves and 512 expression nodes the normal plan has at most 1,024 nodes on its longest
/// way down.
pub fn canon(alloc: Global, plan: Typed, schemas: &Schemas) -> Result<Typed, Memory>
    requires { IsTypedOver schemas.now.kinds plan }
    ensures normal { IfOk result (λ normal. IsNormalFormOf schemas.now.kinds plan.plan normal.plan) }
    ensures meaning { IfOk result (λ normal. MeanTheSame schemas.now.kinds plan.plan normal.plan) }
    ensures typed { IfOk result (λ normal. IsTypedOver schemas.now.kinds normal) }
    ensures kinds { IfOk result (λ normal. normal.kinds ≡ plan.kinds) }
    ensures leaves { IfOk result (λ normal. normal.leaves ≡ plan.leaves) }
    ensures nesting { IfOk result (λ normal. node_count plan.plan ≤ 40 → expr_count plan.plan ≤ 512
        → nesting normal.plan ≤ 1024) }
{
    normal_plans_are_not_deep();
    steps_end_at_the_normal_form();
    normal_plans_mean_the_same();
    let normal = normal_plan(alloc, schemas, plan.plan())?;
    typed_anew(alloc, normal, schemas)
}

/// A plan that has a typing, with this typing.
fn typed_anew(alloc: Global, plan: Plan, schemas: &Schemas) -> Result<Typed, Memory>
    requires { IsOk (plan_typing schemas.now.kinds (plan_of plan)) }
    ensures typing { IfOk result (λ typed. IsTypedOver schemas.now.kinds typed) }
    ensures plan { IfOk result (λ typed. typed.plan ≡ plan_of plan) }
    ensures leaves { IfOk result (λ typed. typed.leaves ≡ leaves (plan_of plan)) }
{
    match type_plan(alloc, plan, schemas) {
        Ok(typed) => Ok(typed),
        Err(PlanRefusal::Memory) => Err(Memory),
        Err(_) => unreachable!(),
    }
}
