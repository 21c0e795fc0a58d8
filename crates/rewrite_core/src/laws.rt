//! Laws of rewritings.
ghost use Rattle.plan_core.specs.PlainPlan.{PlainPlan};
ghost use Rattle.estimator.specs.Cuts.{Cuts};
ghost use Rattle.rewrite_core.specs.Entries.{Entries};
ghost use Rattle.rewrite_core.specs.Computed.{computed};
ghost use Rattle.rewrite_core.specs.IsRewriting.{IsRewriting, among};

/// To compute each node is a rewriting of every plan at every cut, whatever is kept.
pub fn computed_rewritings()
    ensures { (entries : Entries) (plan : PlainPlan) (cuts : Cuts)
        → IsRewriting (among entries) plan cuts (computed plan cuts) }
{}
