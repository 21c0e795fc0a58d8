//! The rows that rewritings without a grown part give.
ghost use Rattle.std.specs.Prelude.{◌≡◌};
ghost use Rattle.rewrite_core.specs.PlainRewriting.{PlainRewriting};
ghost use Rattle.growth_laws.specs.Given.{IsUngrown, rows_given_by};
ghost use Rattle.growth_laws.specs.Growth.{rows_of_made};
ghost use Rattle.growth_laws.specs.KeptResults.{KeptResults};
ghost use Rattle.growth_laws.specs.Lists.{Extents};
ghost use Rattle.growth_laws.specs.Trees.{made_by};

/// Whatever the extents and the results hold, the rows of a rewriting without a grown part are those that
/// they give, taken through the operators.
pub fn rows_of_ungrown_rewritings()
    ensures { (extents : Extents) (results : KeptResults) (r : PlainRewriting) → IsUngrown r
        → rows_of_made (made_by extents results r) ≡ rows_given_by extents results r }
{}
