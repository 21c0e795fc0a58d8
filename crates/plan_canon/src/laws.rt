//! Laws of normal plans: of each rule, of each step, and of the whole way. Each is a function that does
//! nothing, whose contract is the law.
ghost use Rattle.std.specs.Prelude.{◌≡◌, ◌↔◌, ◌+◌, ◌*◌, ◌≤◌, ◌++◌, ℕ, true, false, map, List, Some, Ok};
ghost use Rattle.std.specs.List.{All};
ghost use Rattle.rows_core.specs.declared.order.Key.{Key};
ghost use Rattle.rows_core.specs.Value.{kind_of};
ghost use Rattle.scalar_ops.specs.declared.cell.Cell.{Cell};
ghost use Rattle.scalar_ops.specs.declared.cell.CellKind.TheVariants as cell_kind;
ghost use Rattle.plan_core.specs.Columns.{Row, Rows};
ghost use Rattle.plan_core.specs.ExpressionKind.{expression_kind};
ghost use Rattle.plan_core.specs.ExpressionValue.{expression_value};
ghost use Rattle.plan_core.specs.Nesting.{expr_count, node_count, nesting};
ghost use Rattle.plan_core.specs.PlainExpr.{PlainExpr, Call1, Call2, And, Or, If};
ghost use Rattle.plan_core.specs.PlainPlan.{PlainPlan, Filter, Project, Distinct, Concat, Order};
ghost use Rattle.plan_core.specs.PlainPlan.{leaves, leaf_count};
ghost use Rattle.plan_core.specs.PlanMeaning.{plan_meaning};
ghost use Rattle.plan_core.specs.PlanTyping.{Kinds, plan_kinds, plan_typing};
ghost use Rattle.plan_canon.specs.ExprRules.{truth, call1_rule, call2_rule};
ghost use Rattle.plan_canon.specs.Normal.{IsNormal, IsNormalFormOf, MeanTheSame};
ghost use Rattle.plan_canon.specs.NormalPlan.{normal_plan};
ghost use Rattle.plan_canon.specs.Parts.{parts};
ghost use Rattle.plan_canon.specs.PlanRules.{plan_step, may_fuse, put_in, are_columns, width};

use plan_laws::typed_plans_give_typed_rows;
use rows_core::total_order;

/// Each rule of filters keeps the meaning, on all lists of rows: two filters are joined; a filter above a
/// concatenation is one of each part, and it moves below an order and a distinct; one by `true` is left out.
pub fn filters_mean_the_same()
    ensures joined { (p : PlainPlan) (a b : PlainExpr) (lists : List Rows)
        → plan_meaning (Filter p (And a b)) lists ≡ plan_meaning (Filter (Filter p a) b) lists }
    ensures above_a_concatenation { (p q : PlainPlan) (a : PlainExpr) (lists : List Rows)
        → plan_meaning (Concat (Filter p a) (Filter q a)) lists ≡ plan_meaning (Filter (Concat p q) a) lists }
    ensures above_an_order { (p : PlainPlan) (keys : List Key) (a : PlainExpr) (lists : List Rows)
        → plan_meaning (Order (Filter p a) keys) lists ≡ plan_meaning (Filter (Order p keys) a) lists }
    ensures above_a_distinct { (p : PlainPlan) (a : PlainExpr) (lists : List Rows)
        → plan_meaning (Distinct (Filter p a)) lists ≡ plan_meaning (Filter (Distinct p) a) lists }
    ensures by_true { (p : PlainPlan) (lists : List Rows)
        → plan_meaning p lists ≡ plan_meaning (Filter p (truth true)) lists }
{
    total_order();
}

/// Each rule of projections keeps the meaning of a plan with kinds, on all lists with rows of its streams:
/// two projections are fused, where the condition holds; one to all columns in order is left out.
pub fn projections_mean_the_same()
    ensures fused { (schemas : List Kinds) (p : PlainPlan) (es fs : List PlainExpr) (kinds : Kinds)
        → plan_kinds schemas (Project (Project p es) fs) ≡ Some kinds → may_fuse es fs ≡ true
        → MeanTheSame schemas (Project (Project p es) fs) (Project p (map (put_in es) fs)) }
    ensures all_columns { (schemas : List Kinds) (p : PlainPlan) (fs : List PlainExpr) (kinds : Kinds)
        → plan_kinds schemas (Project p fs) ≡ Some kinds → are_columns (width schemas p) fs ≡ true
        → MeanTheSame schemas (Project p fs) p }
{
    total_order();
    typed_plans_give_typed_rows();
}

/// Each rule of expressions keeps the value at every row. Where `and true` or `or false` is left out, the
/// other part is a truth value.
pub fn expressions_have_the_same_value()
    ensures computed_of_one { (row : ℕ) (a : PlainExpr) (value : Cell) (cells : Row)
        → call1_rule row a ≡ Some value → expression_value (Call1 row a) cells ≡ Ok value }
    ensures computed_of_two { (row : ℕ) (a b : PlainExpr) (value : Cell) (cells : Row)
        → call2_rule row a b ≡ Some value → expression_value (Call2 row a b) cells ≡ Ok value }
    ensures true_and { (a : PlainExpr) (row : Row)
        → expression_value a row ≡ expression_value (And (truth true) a) row }
    ensures and_true { (a : PlainExpr) (row : Row) → expression_kind (map kind_of row) a ≡ Some cell_kind.Bool
        → expression_value a row ≡ expression_value (And a (truth true)) row }
    ensures false_or { (a : PlainExpr) (row : Row)
        → expression_value a row ≡ expression_value (Or (truth false) a) row }
    ensures or_false { (a : PlainExpr) (row : Row) → expression_kind (map kind_of row) a ≡ Some cell_kind.Bool
        → expression_value a row ≡ expression_value (Or a (truth false)) row }
    ensures false_and { (a : PlainExpr) (row : Row)
        → expression_value (truth false) row ≡ expression_value (And (truth false) a) row }
    ensures true_or { (a : PlainExpr) (row : Row)
        → expression_value (truth true) row ≡ expression_value (Or (truth true) a) row }
    ensures if_true { (a b : PlainExpr) (row : Row)
        → expression_value a row ≡ expression_value (If (truth true) a b) row }
    ensures if_false { (a b : PlainExpr) (row : Row)
        → expression_value b row ≡ expression_value (If (truth false) a b) row }
    ensures and_to_the_left { (a b c : PlainExpr) (row : Row)
        → expression_value (And (And a b) c) row ≡ expression_value (And a (And b c)) row }
    ensures or_to_the_left { (a b c : PlainExpr) (row : Row)
        → expression_value (Or (Or a b) c) row ≡ expression_value (Or a (Or b c)) row }
{}

/// Each step of a typed plan keeps its typing, its leaves and its meaning; and the normal plan is the same
/// before the step and after it.
pub fn each_step_means_the_same()
    ensures typing { (schemas : List Kinds) (plan next : PlainPlan) (kinds : Kinds)
        → plan_typing schemas plan ≡ Ok kinds → plan_step schemas plan ≡ Some next
        → plan_typing schemas next ≡ Ok kinds }
    ensures leaves { (schemas : List Kinds) (plan next : PlainPlan) → plan_step schemas plan ≡ Some next
        → leaves next ≡ leaves plan }
    ensures meaning { (schemas : List Kinds) (plan next : PlainPlan) (kinds : Kinds)
        → plan_typing schemas plan ≡ Ok kinds → plan_step schemas plan ≡ Some next
        → MeanTheSame schemas plan next }
    ensures normal { (schemas : List Kinds) (plan next normal : PlainPlan)
        → plan_step schemas plan ≡ Some next
        → IsNormalFormOf schemas next normal ↔ IsNormalFormOf schemas plan normal }
{
    total_order();
    typed_plans_give_typed_rows();
}

/// The steps of a plan end at its normal form.
pub fn steps_end_at_the_normal_form()
    ensures { (schemas : List Kinds) (plan : PlainPlan)
        → IsNormalFormOf schemas plan (normal_plan schemas plan) }
{}

/// A plan has one normal form.
pub fn one_normal_form()
    ensures { (schemas : List Kinds) (plan one other : PlainPlan) → IsNormalFormOf schemas plan one
        → IsNormalFormOf schemas plan other → one ≡ other }
{}

/// The normal form of a typed plan has its typing and its leaves, and means the same.
pub fn normal_plans_mean_the_same()
    ensures typing { (schemas : List Kinds) (plan : PlainPlan) (kinds : Kinds)
        → plan_typing schemas plan ≡ Ok kinds → plan_typing schemas (normal_plan schemas plan) ≡ Ok kinds }
    ensures leaves { (schemas : List Kinds) (plan : PlainPlan)
        → leaves (normal_plan schemas plan) ≡ leaves plan }
    ensures meaning { (schemas : List Kinds) (plan : PlainPlan) (kinds : Kinds)
        → plan_typing schemas plan ≡ Ok kinds → MeanTheSame schemas plan (normal_plan schemas plan) }
{
    total_order();
    typed_plans_give_typed_rows();
}

/// On the longest way down a normal plan has at most as many nodes as the plan has expression nodes, and
/// twice as many as it has operators and leaves. Within the limits of written plans that is 1,024 at most.
pub fn normal_plans_are_not_deep()
    ensures counts { (schemas : List Kinds) (plan : PlainPlan)
        → nesting (normal_plan schemas plan) ≤ expr_count plan + 2 * node_count plan }
    ensures limits { (schemas : List Kinds) (plan : PlainPlan) → node_count plan ≤ 40
        → expr_count plan ≤ 512 → nesting (normal_plan schemas plan) ≤ 1024 }
{}

/// A normal plan isn't large: it has at most as many operators and leaves as the plan, and as many nodes of
/// expressions as the plan has of both, for each leaf of the plan. A written plan has at most nine leaves.
pub fn normal_plans_are_not_large()
    ensures nodes { (schemas : List Kinds) (plan : PlainPlan)
        → node_count (normal_plan schemas plan) ≤ leaf_count plan * node_count plan }
    ensures exprs { (schemas : List Kinds) (plan : PlainPlan)
        → expr_count (normal_plan schemas plan) ≤ leaf_count plan * (expr_count plan + node_count plan) }
{}

/// The parts of a normal plan are normal.
pub fn parts_of_normal_plans_are_normal()
    ensures { (schemas : List Kinds) (plan : PlainPlan) → IsNormal schemas plan
        → All (IsNormal schemas) (parts plan) }
{}

/// A plan that has a typing stays normal, or not, when further streams are made; and the normal plans are
/// those that are their own normal form.
pub fn normal_plans_stay_normal()
    ensures later { (schemas more : List Kinds) (plan : PlainPlan) (kinds : Kinds)
        → plan_kinds schemas plan ≡ Some kinds
        → plan_step (schemas ++ more) plan ≡ plan_step schemas plan }
    ensures own { (schemas : List Kinds) (plan : PlainPlan)
        → IsNormal schemas plan ↔ (normal_plan schemas plan ≡ plan) }
{}
