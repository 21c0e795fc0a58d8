//! Plans that have a typing.
ghost use Rattle.std.specs.Prelude.{◌≡◌, List, Some, IfOk};
ghost use Rattle.plan_core.specs.Columns.{Rows};
ghost use Rattle.plan_core.specs.PlainPlan.{PlainPlan, leaves};
ghost use Rattle.plan_core.specs.PlanMeaning.{plan_meaning};
ghost use Rattle.plan_core.specs.PlanTyping.{Kinds, plan_kinds};
ghost use Rattle.plan_core.specs.TypedRows.{HaveKinds, AreOfStreams};

use rows_core::total_order;

/// The rows that a typed plan gives have its kinds, on lists whose rows have those of their streams.
pub fn typed_plans_give_typed_rows()
    ensures { (schemas : List Kinds) (plan : PlainPlan) (kinds : Kinds) (lists : List Rows)
        → plan_kinds schemas plan ≡ Some kinds
        → AreOfStreams schemas (leaves plan) lists → IfOk (plan_meaning plan lists) (HaveKinds kinds) }
{
    total_order();
}
