//! How many files are read for pieces.
ghost use Rattle.std.specs.Prelude.{◌≡◌, ◌↔◌, IsTrue, length};
ghost use Rattle.std.specs.List.{flat_map};
ghost use Rattle.estimator.specs.Bytes.{capped};
ghost use Rattle.plan_core.specs.PlainPlan.{plan_of, leaves, leaf_count};
ghost use Rattle.growth_laws.specs.Pieces.{piece_files, gathered_files};
ghost use Rattle.executor.specs.Pieces.{piece_of, pieces_said};

use crate::piece::Piece;
use plan_core::Plan;
use rows_core::Cut;

/// The number of files of these pieces, cut at the greatest u64. Of a rewriting's pieces it is that of the
/// rewriting itself.
#[tactic(auto, using(crate::proofs::PieceFiles::length_of_joined))]
pub fn file_count(pieces: &[Piece]) -> u64
    ensures { result ≡ capped (length (flat_map piece_files (pieces_said pieces.now))) }
{
    match pieces {
        [] => 0,
        [first, others @ ..] => first.files().saturating_add(file_count(others)),
    }
}

impl Piece {
    /// The number of its files.
    pub fn files(&self) -> u64
        ensures { result ≡ length (piece_files (piece_of self.now)) }
    {
        match self {
            Piece::Entry { plan: _, id: _ } => 1,
            Piece::Gathered { plan, cuts } => gathered_count(plan, cuts.items()),
        }
    }
}

// The number of extents of a plan's one stream in an interval that stands alone.
#[tactic(auto, using(crate::proofs::PieceFiles::of_gathered_files))]
fn gathered_count(plan: &Plan, cuts: &[Cut]) -> u64
    ensures { result ≡ length (gathered_files (leaves (plan_of plan.now)) cuts.now) }
{
    match cuts {
        [cut] => {
            if has_one_leaf(plan) {
                u64::from(cut.to.saturating_sub(cut.from))
            } else {
                0
            }
        }
        _ => 0,
    }
}

// Whether it is of one stream; a plan with two inputs has at least two leaves.
#[tactic(auto, using(crate::proofs::PieceFiles::of_two_inputs))]
fn has_one_leaf(plan: &Plan) -> bool
    ensures { IsTrue result ↔ (leaf_count (plan_of plan.now) ≡ 1) }
{
    match plan {
        Plan::Scan { stream: _ } => true,
        Plan::Filter { child, test: _ } => has_one_leaf(child),
        Plan::Project { child, columns: _ } => has_one_leaf(child),
        Plan::Distinct { child } => has_one_leaf(child),
        Plan::Group {
            child,
            keys: _,
            aggs: _,
        } => has_one_leaf(child),
        Plan::Order { child, keys: _ } => has_one_leaf(child),
        Plan::Join {
            left: _,
            right: _,
            on: _,
        } => false,
        Plan::Concat { left: _, right: _ } => false,
    }
}
