//! Laws of binding.
ghost use Rattle.std.specs.Prelude.{◌≡◌, ◌≤◌, [], ◌∷◌, map, ℕ, List, Option, None, Some, Ok, IsSome, IsTrue};
ghost use Rattle.rows_core.specs.declared.schema.Column.{Column};
ghost use Rattle.rows_core.specs.Schema.{kinds_of};
ghost use Rattle.scalar_ops.specs.declared.cell.CellKind.{CellKind};
ghost use Rattle.scalar_ops.specs.declared.table.Op.{Op};
ghost use Rattle.scalar_ops.specs.Meaning.{op_at};
ghost use Rattle.plan_core.specs.Nesting.{expr_count, node_count};
ghost use Rattle.plan_core.specs.PlainExpr.{PlainExpr};
ghost use Rattle.plan_core.specs.PlainPlan.{PlainPlan, leaves, leaf_count};
ghost use Rattle.plan_core.specs.ExpressionKind.{call_kind, expression_kind};
ghost use Rattle.plan_core.specs.PlanTyping.{Kinds, plan_kinds};
ghost use Rattle.plan_text.specs.Counts.{nodes, all_expr_nodes, IsWithinLimits};
ghost use Rattle.plan_text.specs.PlainNamed.{PlainTree, streams_of};
ghost use Rattle.plan_text.specs.PlainNamed as named;
ghost use Rattle.plan_binder.specs.OpRows.{row_for};
ghost use Rattle.plan_binder.specs.Binding.{Names, Bound, bound_tree, place_of, call1, call2, bound_expr};
ghost use Rattle.plan_binder.specs.Binding.{binding};
ghost use Rattle.plan_binder.specs.CallRows.{has_no_row, lacks_row, plan_lacks_row};

/// Where a bound plan has a typing, the kinds by which its calls' rows were chosen are those of the typing.
pub fn kinds_are_of_the_typing()
    ensures { (streams : Names) (schemas : List (List Column)) (tree : PlainTree) (b : Bound)
        (kinds : Kinds) →
        bound_tree streams schemas tree ≡ Some b → plan_kinds (map kinds_of schemas) b.plan ≡ Some kinds
        → b.kinds ≡ kinds }
{}

/// The leaves of a bound plan are the places of the streams, from the left.
pub fn leaves_are_the_streams()
    ensures { (streams : Names) (schemas : List (List Column)) (tree : PlainTree) (b : Bound) →
        bound_tree streams schemas tree ≡ Some b
        → map Some (leaves b.plan) ≡ map (place_of streams) (streams_of tree) }
{}

/// The row of a call has the call's operation; and a row with this operation that gives a kind at the
/// arguments' kinds is the one that is chosen.
pub fn rows_are_of_their_calls()
    ensures operation { (op : Op) (kinds : List (Option CellKind)) → op_at (row_for op kinds) ≡ op }
    ensures kinds { (op : Op) (kinds : List CellKind) (row : ℕ) →
        op_at row ≡ op → IsSome (call_kind row kinds) → row_for op (map Some kinds) ≡ row }
{}

/// A call whose operation has no row for its arguments' kinds has no kind, and a bound expression with such a
/// call inside has none.
pub fn calls_without_a_row_have_no_kind()
    ensures one { (kinds : Kinds) (op : Op) (a : PlainExpr) →
        IsTrue (has_no_row op (expression_kind kinds a ∷ []))
        → expression_kind kinds (call1 kinds op a) ≡ None }
    ensures two { (kinds : Kinds) (op : Op) (a b : PlainExpr) →
        IsTrue (has_no_row op (expression_kind kinds a ∷ expression_kind kinds b ∷ []))
        → expression_kind kinds (call2 kinds op a b) ≡ None }
    ensures inside { (names : Names) (kinds : Kinds) (e : named.PlainExpr) (x : PlainExpr) →
        bound_expr names kinds e ≡ Some x → IsTrue (lacks_row names kinds e)
        → expression_kind kinds x ≡ None }
{}

/// A bound plan with such a call has no typing.
pub fn plans_without_a_row_have_no_typing()
    ensures { (streams : Names) (schemas : List (List Column)) (tree : PlainTree) (plan : PlainPlan) →
        binding streams schemas tree ≡ Ok plan → IsTrue (plan_lacks_row streams schemas tree)
        → plan_kinds (map kinds_of schemas) plan ≡ None }
{}

/// A bound plan has as many operators and leaves, and as many nodes of expressions, as the plan that was
/// written. So of a plan within the limits of written plans both are within them, and it has at most nine
/// leaves.
pub fn counts_are_of_the_written_plan()
    ensures nodes { (streams : Names) (schemas : List (List Column)) (tree : PlainTree) (plan : PlainPlan) →
        binding streams schemas tree ≡ Ok plan → node_count plan ≡ nodes tree }
    ensures exprs { (streams : Names) (schemas : List (List Column)) (tree : PlainTree) (plan : PlainPlan) →
        binding streams schemas tree ≡ Ok plan → expr_count plan ≡ all_expr_nodes tree }
    ensures limits { (streams : Names) (schemas : List (List Column)) (tree : PlainTree) (plan : PlainPlan) →
        binding streams schemas tree ≡ Ok plan → IsWithinLimits tree
        → (node_count plan ≤ 40) × (expr_count plan ≤ 512) × (leaf_count plan ≤ 9) }
{}
