//! Rows that are added behind others.
ghost use Rattle.std.specs.Prelude.{◌≡◌, ℕ, ◌+◌, List, ◌++◌, length, Ok, Err, IsSorted};
ghost use Rattle.std.specs.Ordering.{is_le};
ghost use Rattle.rows_core.specs.declared.order.Key.{Key};
ghost use Rattle.rows_core.specs.RowOrder.{row_cmp};
ghost use Rattle.scalar_ops.specs.Meaning.{overflow};
ghost use Rattle.plan_core.specs.Columns.{Rows};
ghost use Rattle.plan_core.specs.Distinct.{distinct_rows};
ghost use Rattle.plan_core.specs.Filter.{filter_rows};
ghost use Rattle.plan_core.specs.MachineTime.{rows_taken_in};
ghost use Rattle.plan_core.specs.PlainExpr.{PlainExpr};
ghost use Rattle.plan_core.specs.PlainPlan.{PlainPlan, Filter, Project, Distinct, Order};
ghost use Rattle.plan_core.specs.PlanMeaning.{plan_meaning};
ghost use Rattle.plan_core.specs.Project.{project_rows};
ghost use Rattle.plan_core.specs.StableOrder.{order_rows};
ghost use Rattle.plan_laws.specs.GrowthOfRows.{Grows, joined, new_rows};
ghost use Rattle.plan_laws.specs.Merge.{merge_by};

use rows_core::total_order;

/// A test, or columns, of one list and then another one give what they give of the first and then what they
/// give of the second, and an overflow exactly where one of the two is an overflow.
pub fn rows_of_joined_lists()
    ensures filter { (test : PlainExpr) (a b : Rows) →
        filter_rows test (a ++ b) ≡ joined (filter_rows test a) (filter_rows test b) }
    ensures project { (columns : List PlainExpr) (a b : Rows) →
        project_rows columns (a ++ b) ≡ joined (project_rows columns a) (project_rows columns b) }
{}

/// The first of equal rows of one list and then another one are those of the first, and then those of the
/// second that the first doesn't have; it is the same to ask its first of equal rows.
pub fn first_of_equal_rows_of_joined_lists()
    ensures old_first { (a b : Rows) →
        distinct_rows (a ++ b) ≡ distinct_rows a ++ new_rows (distinct_rows a) b }
    ensures all_asked { (a b : Rows) → new_rows (distinct_rows a) b ≡ new_rows a b }
{}

/// Two lists may be ordered before they are joined; and the merge of two ordered lists, with the row of the
/// first where two tie, is the ordered joined list.
pub fn order_of_joined_lists()
    ensures in_parts { (keys : List Key) (a b : Rows) →
        order_rows keys (order_rows keys a ++ order_rows keys b) ≡ order_rows keys (a ++ b) }
    ensures merged { (keys : List Key) (a b : Rows) →
        IsSorted (row_cmp keys) a → IsSorted (row_cmp keys) b →
        merge_by (λ x y. is_le (row_cmp keys x y)) a b ≡ order_rows keys (a ++ b) }
{
    total_order();
}

/// Where the input of a plan grows by new rows behind the old ones, the plan takes in these beside what its
/// input takes in. A filter, a projection and a distinct grow by what their operator gives of the new rows,
/// and are an overflow where it is one;
/// an order is that of its old result and the ordered new rows.
pub fn growth_of_one_input()
    ensures filter { (child : PlainPlan) (before after : List Rows) (old new : Rows) (more : ℕ)
        (test : PlainExpr) (kept more_kept : Rows) → Grows child before after old new more →
        filter_rows test old ≡ Ok kept → filter_rows test new ≡ Ok more_kept →
        Grows (Filter child test) before after kept more_kept (length new + more) }
    ensures filter_overflow { (child : PlainPlan) (before after : List Rows) (old new : Rows) (more : ℕ)
        (test : PlainExpr) → Grows child before after old new more →
        filter_rows test new ≡ Err overflow → plan_meaning (Filter child test) after ≡ Err overflow }
    ensures project { (child : PlainPlan) (before after : List Rows) (old new : Rows) (more : ℕ)
        (columns : List PlainExpr) (kept more_kept : Rows) → Grows child before after old new more →
        project_rows columns old ≡ Ok kept → project_rows columns new ≡ Ok more_kept →
        Grows (Project child columns) before after kept more_kept (length new + more) }
    ensures project_overflow { (child : PlainPlan) (before after : List Rows) (old new : Rows) (more : ℕ)
        (columns : List PlainExpr) → Grows child before after old new more →
        project_rows columns new ≡ Err overflow →
        plan_meaning (Project child columns) after ≡ Err overflow }
    ensures distinct { (child : PlainPlan) (before after : List Rows) (old new : Rows) (more : ℕ) →
        Grows child before after old new more → Grows (Distinct child) before after
        (distinct_rows old) (new_rows (distinct_rows old) new) (length new + more) }
    ensures order { (child : PlainPlan) (before after : List Rows) (old new : Rows) (more : ℕ)
        (keys : List Key) → Grows child before after old new more →
        plan_meaning (Order child keys) after
        ≡ Ok (order_rows keys (order_rows keys old ++ order_rows keys new)) }
    ensures order_takes_in { (child : PlainPlan) (before after : List Rows) (old new : Rows) (more : ℕ)
        (keys : List Key) → Grows child before after old new more →
        rows_taken_in (Order child keys) after
        ≡ rows_taken_in (Order child keys) before + (length new + more) }
{
    total_order();
}
