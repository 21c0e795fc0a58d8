//! The typing of a plan over the streams of the table.
ghost use Rattle.std.specs.Prelude.{◌≡◌, ◌⊎◌, ℕ, Some, Ok, Err, IfOk, IfErr};
ghost use Rattle.plan_core.specs.PlainPlan.{plan_of, leaves};
ghost use Rattle.plan_core.specs.TypedPlan.{IsTypedOver};
ghost use Rattle.plan_core.specs.PlanTyping.{plan_typing};
ghost use Rattle.plan_text.specs.PlainNamed.{PlainTree};
ghost use Rattle.plan_binder.specs.Binding.{Binds};
ghost use Rattle.catalog_core.specs.Catalogs.{table_of};
ghost use Rattle.catalog_core.specs.Programs.{kinds_of_streams};
ghost use Rattle.planning.specs.Running.{bound_plan, typing_of, unbound, plan_refusal, typed_refusal};

use catalog_core::Catalog;
use plan_binder::{BindRefusal, bind, bind_laws};
use plan_core::{Plan, PlanRefusal, Schemas, Typed, type_plan};
use plan_text::NamedPlan;
use script_text::{LimitKind, Refusal};
use std::alloc::Global;

// The plan with numbers for its names, and its typing, or why it is refused.
pub(crate) fn typed_plan(
    alloc: Global,
    catalog: &Catalog,
    plan: &NamedPlan,
) -> Result<Typed, Refusal>
    ensures bound { IfOk result (λ typed.
        bound_plan (table_of catalog.now).streams plan.now ≡ Ok typed.plan) }
    ensures typed { IfOk result (IsTypedOver (kinds_of_streams (table_of catalog.now).streams)) }
    ensures err { IfErr result (λ why. (plan_refusal (table_of catalog.now).streams plan.now ≡ Some why)
        ⊎ (why ≡ Refusal.Memory)) }
{
    match bound_over(alloc, catalog, plan) {
        Ok(bound) => type_bound(alloc, catalog, bound),
        Err(refusal) => Err(unbound(refusal)),
    }
}

// The plan with numbers for its names.
fn bound_over(alloc: Global, catalog: &Catalog, plan: &NamedPlan) -> Result<Plan, BindRefusal>
    ensures { Binds result (bound_plan (table_of catalog.now).streams plan.now) }
{
    bind(alloc, plan, catalog.streams())
}

// Why a plan whose names stand for nothing is refused.
fn unbound(refusal: BindRefusal) -> Refusal
    ensures { result ≡ unbound refusal }
{
    match refusal {
        BindRefusal::Unknown(name) => Refusal::Unknown(name),
        BindRefusal::IllTyped => Refusal::IllTyped,
        BindRefusal::Memory => Refusal::Memory,
    }
}

// The typing of a plan whose numbers stand for names.
fn type_bound(alloc: Global, catalog: &Catalog, plan: Plan) -> Result<Typed, Refusal>
    requires { (tree : PlainTree) × (bound_plan (table_of catalog.now).streams tree ≡ Ok (plan_of plan)) }
    ensures plan { IfOk result (λ typed. typed.plan ≡ plan_of plan) }
    ensures typed { IfOk result (IsTypedOver (kinds_of_streams (table_of catalog.now).streams)) }
    ensures err { IfErr result (λ why. (typed_refusal (typing_of (table_of catalog.now).streams (plan_of plan))
        ≡ Some why) ⊎ (why ≡ Refusal.Memory)) }
{
    bind_laws::leaves_are_the_streams();
    type_over(alloc, catalog.schemas(), plan)
}

// The typing of a plan over streams of these kinds, which are all there.
fn type_over(alloc: Global, schemas: &Schemas, plan: Plan) -> Result<Typed, Refusal>
    requires { (number : ℕ)
        → plan_typing schemas.now.kinds (plan_of plan) ≡ Err (PlanRefusal.Unknown number) → ⊥ }
    ensures plan { IfOk result (λ typed. typed.plan ≡ plan_of plan) }
    ensures typed { IfOk result (IsTypedOver schemas.now.kinds) }
    ensures err { IfErr result (λ why. (typed_refusal (plan_typing schemas.now.kinds (plan_of plan)) ≡ Some why)
        ⊎ (why ≡ Refusal.Memory)) }
{
    match type_plan(alloc, plan, schemas) {
        Ok(typed) => Ok(typed),
        Err(PlanRefusal::Unknown { .. }) => unreachable!(),
        Err(PlanRefusal::IllTyped) => Err(Refusal::IllTyped),
        Err(PlanRefusal::TooMany) => Err(Refusal::Limit(LimitKind::Columns)),
        Err(PlanRefusal::Memory) => Err(Refusal::Memory),
    }
}
