//! The pieces that a rewriting is read in.
ghost use Rattle.std.specs.Prelude.{◌≡◌, true};
ghost use Rattle.std.specs.List.{flat_map};
ghost use Rattle.plan_core.specs.PlainPlan.{PlainPlan};
ghost use Rattle.estimator.specs.Cuts.{Cuts, added_cuts};
ghost use Rattle.rewrite_core.specs.Files.{files_of, delta_files};
ghost use Rattle.rewrite_core.specs.IsRewriting.{IsRewriting, IsDelta, whichever};
ghost use Rattle.rewrite_core.specs.PlainRewriting.{PlainRewriting, PlainDelta};
ghost use Rattle.growth_laws.specs.KeptResults.{KeptResults};
ghost use Rattle.growth_laws.specs.Lists.{Extents};
ghost use Rattle.growth_laws.specs.Pieces.{Gathered, is_gathered, is_chain_delta, pieces_of};
ghost use Rattle.growth_laws.specs.Pieces.{pieces_of_delta, piece_files, made_of_piece, as_added};
ghost use Rattle.growth_laws.specs.Trees.{made_by, added_by};

/// The files of a rewriting are those of its pieces, one piece after another, in the order in which they are
/// read.
pub fn files_of_pieces()
    ensures rewriting { (plan : PlainPlan) (cuts : Cuts) (r : PlainRewriting)
        → IsRewriting whichever plan cuts r → files_of r ≡ flat_map piece_files (pieces_of r) }
    ensures delta { (plan : PlainPlan) (old new : Cuts) (d : PlainDelta)
        → IsDelta whichever plan old new d
        → delta_files d ≡ flat_map piece_files (pieces_of_delta d) }
{}

/// What a rewriting makes that is gathered from one stream's extents, and what a delta adds that is, is what
/// is made of the piece: of the plan on the rows of these extents, whatever is kept.
pub fn results_of_pieces()
    ensures rewriting { (extents : Extents) (results : KeptResults) (plan : PlainPlan) (cuts : Cuts)
        (r : PlainRewriting) → IsRewriting whichever plan cuts r → is_gathered r ≡ true
        → made_by extents results r ≡ made_of_piece extents results (Gathered plan cuts) }
    ensures delta { (extents : Extents) (results : KeptResults) (plan : PlainPlan) (old new : Cuts)
        (d : PlainDelta) → IsDelta whichever plan old new d → is_chain_delta d ≡ true
        → added_by extents results d
        ≡ as_added (made_of_piece extents results (Gathered plan (added_cuts old new))) }
{}
