//! Laws of the definitions: functions that do nothing, for their contracts.
ghost use Rattle.std.specs.Prelude.{◌≡◌, List};
ghost use Rattle.std.specs.List.{sum_by};
ghost use Rattle.plan_core.specs.Columns.{Rows};
ghost use Rattle.plan_core.specs.KindLaw.{ValuesHaveTheirKinds};
ghost use Rattle.plan_core.specs.MachineTime.{row_count, rows_taken_in, meanings_below};
ghost use Rattle.plan_core.specs.PlainPlan.{PlainPlan};

/// The value of an expression that has a kind over the row's kinds has that kind.
pub fn values_have_their_kinds()
    ensures { ValuesHaveTheirKinds }
{}

/// The rows that the operators of a plan take in are those of the plans below it, each counted once.
pub fn rows_taken_in_are_those_below()
    ensures { (plan : PlainPlan) (lists : List Rows) →
        rows_taken_in plan lists ≡ sum_by row_count (meanings_below plan lists) }
{}
