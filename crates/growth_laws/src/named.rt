//! The files that a rewriting names.
ghost use Rattle.std.specs.List.{AllByRecursion};
ghost use Rattle.plan_core.specs.PlainPlan.{PlainPlan};
ghost use Rattle.estimator.specs.Cuts.{Cuts};
ghost use Rattle.rewrite_core.specs.Entries.{Entries};
ghost use Rattle.rewrite_core.specs.Files.{files_of};
ghost use Rattle.rewrite_core.specs.IsRewriting.{IsRewriting, among};
ghost use Rattle.rewrite_core.specs.PlainRewriting.{PlainRewriting};
ghost use Rattle.growth_laws.specs.There.{ExtentCounts, IsThere, IsWithin};

/// The files that a rewriting over entries names at a cut within the extents are there: extents of its
/// streams, and entries' results.
pub fn named_files_are_there()
    ensures { (entries : Entries) (counts : ExtentCounts) (plan : PlainPlan) (cuts : Cuts)
        (r : PlainRewriting) → IsRewriting (among entries) plan cuts r → IsWithin counts plan cuts
        → AllByRecursion (IsThere entries counts) (files_of r) }
{}
