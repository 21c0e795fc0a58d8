//! What is kept of a plan's result.
ghost use Rattle.std.specs.Prelude.{◌≡◌, ◌≤◌, List, Some, IfOk};
ghost use Rattle.plan_core.specs.Columns.{Rows};
ghost use Rattle.plan_core.specs.Literals.{HasValidLiterals};
ghost use Rattle.plan_core.specs.MachineTime.{machine_time};
ghost use Rattle.plan_core.specs.PlainPlan.{PlainPlan, leaves};
ghost use Rattle.plan_core.specs.PlanMeaning.{plan_meaning};
ghost use Rattle.plan_core.specs.PlanTyping.{Kinds, plan_kinds};
ghost use Rattle.plan_core.specs.TypedRows.{AreOfStreams};
ghost use Rattle.row_blob.specs.Kept.{IsKept};
ghost use Rattle.plan_laws.specs.KeptForm.{kept_form, rows_read};
ghost use Rattle.plan_laws.specs.PlanShape.{plan_shape};
ghost use Rattle.plan_laws.specs.ValidRows.{AreValidLists, AreShortLists};

use rows_core::total_order;
use scalar_ops::values_are_cells;

/// The rows of what is kept of a plan's result are the plan's rows.
pub fn rows_of_kept_forms()
    ensures { (plan : PlainPlan) (lists : List Rows) → rows_read plan lists ≡ plan_meaning plan lists }
{}

/// What is kept of a typed plan's result is a kept form of the plan's shape, within all bounds of a file,
/// where the machine time is at most 4,294,967,295: so the file of a result is always read back. The plan has
/// valid literals, and the lists valid rows of their streams.
pub fn kept_forms_have_their_shape()
    ensures { (schemas : List Kinds) (plan : PlainPlan) (kinds : Kinds) (lists : List Rows) →
        plan_kinds schemas plan ≡ Some kinds → HasValidLiterals plan
        → AreOfStreams schemas (leaves plan) lists →
        AreValidLists lists → AreShortLists lists → machine_time plan lists ≤ 4294967295 →
        IfOk (kept_form plan lists) (IsKept (plan_shape schemas plan)) }
{
    total_order();
    values_are_cells();
}
