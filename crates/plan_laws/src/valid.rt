//! Valid rows.
ghost use Rattle.std.specs.Prelude.{◌≡◌, ◌<◌, ◌^◌, List, Some, IfOk};
ghost use Rattle.plan_core.specs.Columns.{Rows};
ghost use Rattle.plan_core.specs.Literals.{HasValidLiterals};
ghost use Rattle.plan_core.specs.MachineTime.{machine_time};
ghost use Rattle.plan_core.specs.PlainPlan.{PlainPlan};
ghost use Rattle.plan_core.specs.PlanMeaning.{plan_meaning};
ghost use Rattle.plan_core.specs.PlanTyping.{Kinds, plan_kinds};
ghost use Rattle.plan_laws.specs.ValidRows.{AreValidRows, AreValidLists};

use scalar_ops::values_are_cells;

/// The rows that a typed plan with valid literals gives on valid lists are valid: their numbers are in i64,
/// and their texts have 1,000 bytes at most. The machine time bounds what a count can be.
pub fn typed_plans_give_valid_rows()
    ensures { (schemas : List Kinds) (plan : PlainPlan) (kinds : Kinds) (lists : List Rows) →
        plan_kinds schemas plan ≡ Some kinds → HasValidLiterals plan → AreValidLists lists →
        machine_time plan lists < 2 ^ 63 → IfOk (plan_meaning plan lists) AreValidRows }
{
    values_are_cells();
}
