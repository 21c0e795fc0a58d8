//! Laws of pieces.
ghost use Rattle.std.specs.Prelude.{List};
ghost use Rattle.std.specs.List.{AllByRecursion};
ghost use Rattle.plan_core.specs.PlainPlan.{PlainPlan};
ghost use Rattle.plan_core.specs.PlanTyping.{Kinds};
ghost use Rattle.estimator.specs.Cuts.{Cuts};
ghost use Rattle.rewrite_core.specs.IsRewriting.{IsRewriting, whichever};
ghost use Rattle.rewrite_core.specs.PlainRewriting.{PlainRewriting};
ghost use Rattle.growth_laws.specs.Pieces.{pieces_of};
ghost use Rattle.executor.specs.Pieces.{HasTyping, IsPiece};

/// The plan of each piece of a typed plan's rewriting is typed, and one that is gathered is of one stream.
pub fn pieces_of_typed_rewritings()
    ensures { (schemas : List Kinds) (plan : PlainPlan) (cuts : Cuts) (r : PlainRewriting)
        → IsRewriting whichever plan cuts r → HasTyping schemas plan
        → AllByRecursion (IsPiece schemas) (pieces_of r) }
{}
