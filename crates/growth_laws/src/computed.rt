//! What a computed node makes.
ghost use Rattle.std.specs.Prelude.{List, take, drop, Result, Ok};
ghost use Rattle.rows_core.specs.declared.overflow.Overflow.{Overflow};
ghost use Rattle.plan_core.specs.Columns.{Rows};
ghost use Rattle.plan_core.specs.PlainPlan.{PlainPlan, leaf_count};
ghost use Rattle.rewrite_core.specs.IsRewriting.{OfOne, OfTwo, IsScan};
ghost use Rattle.growth_laws.specs.Growth.{Made, IsMade};
ghost use Rattle.growth_laws.specs.Making.{scanned, computed_one, computed_two};

/// What is made of a scan's list, of what was made of the one input of a plan, and of its two inputs, is
/// what is kept of the plan's result, with the rows that it takes in; it is an overflow where that is one.
pub fn results_that_are_computed()
    ensures scan { (plan : PlainPlan) (lists : List Rows)
        → IsScan plan → IsMade plan lists (Ok (scanned lists)) }
    ensures one { (plan : PlainPlan) (lists : List Rows) (child : Result Made Overflow)
        → OfOne (λ input. IsMade input lists child) plan
        → IsMade plan lists (computed_one plan child) }
    ensures two { (plan : PlainPlan) (lists : List Rows) (left right : Result Made Overflow)
        → OfTwo (λ l r. IsMade l (take (leaf_count l) lists) left
        × IsMade r (drop (leaf_count l) lists) right) plan
        → IsMade plan lists (computed_two plan left right) }
{}
