//! Laws of what files hold, and of the pieces of a rewriting.
ghost use Rattle.std.specs.Prelude.{◌≡◌, ℕ, List, Bool, true, take, length};
ghost use Rattle.std.specs.List.{AllByRecursion};
ghost use Rattle.rows_core.specs.declared.file_ref.FileRef.{FileRef};
ghost use Rattle.row_blob.specs.declared.kept.Kept.{Kept};
ghost use Rattle.row_blob.specs.declared.shape.Shape.{Shape};
ghost use Rattle.extent_files.specs.Reads.{Spells};
ghost use Rattle.plan_core.specs.PlainPlan.{PlainPlan, leaf_count};
ghost use Rattle.plan_core.specs.PlanTyping.{Kinds};
ghost use Rattle.estimator.specs.Cuts.{Cuts};
ghost use Rattle.rewrite_core.specs.IsRewriting.{IsRewriting, whichever};
ghost use Rattle.rewrite_core.specs.PlainRewriting.{PlainRewriting};
ghost use Rattle.growth_laws.specs.Pieces.{pieces_of};
ghost use Rattle.executor.specs.Pieces.{HasTyping};
ghost use Rattle.executor.specs.Reads.{HoldsOnly};
ghost use Rattle.executor.specs.Loads.{HasOneCut};

use crate::pieces_of_typed_rewritings;
use row_blob::one_spelling;

/// Where a store tells its files, no form may be read of a file but the one that its first bytes spell, as
/// many as count.
pub fn spelled_forms_are_read()
    ensures { (shape : Shape) (at : FileRef) (file : List ℕ) (form : Kept)
        → Spells shape (take at.len file) form → HoldsOnly true shape at file form }
{
    one_spelling();
}

/// Each gathered piece of a typed plan's rewriting has one interval, where the cut has one for each leaf.
pub fn pieces_have_one_cut()
    ensures { (schemas : List Kinds) (plan : PlainPlan) (cuts : Cuts) (r : PlainRewriting)
        → IsRewriting whichever plan cuts r → HasTyping schemas plan → length cuts ≡ leaf_count plan
        → AllByRecursion HasOneCut (pieces_of r) }
{
    pieces_of_typed_rewritings();
}
