//! Parts of which nothing is read yet.
ghost use Rattle.std.specs.Prelude.{◌≡◌, List, [], ◌∷◌, IfOk};
ghost use Rattle.std.specs.List.{AllByRecursion};
ghost use Rattle.row_blob.specs.Kept.{AreEach};
ghost use Rattle.plan_core.specs.PlainPlan.{plan_of, leaves};
ghost use Rattle.plan_core.specs.PlanTyping.{Kinds};
ghost use Rattle.growth_laws.specs.Chains.{IsOneStream};
ghost use Rattle.executor.specs.Pieces.{piece_of, pieces_said, IsPiece};
ghost use Rattle.executor.specs.Beginning.{IsOnlyInterval, IsBegun};

use crate::Piece;
use crate::part::Part;
use gathering::Gathering;
use plan_core::Plan;
use rows_core::{Cut, Memory};
use std::alloc::Global;

// One part of each piece.
pub(crate) fn parts_of(alloc: Global, pieces: Vec<Piece>) -> Result<Vec<Part>, Memory>
    requires { (schemas : List Kinds) × AllByRecursion (IsPiece schemas) (pieces_said pieces.items) }
    ensures { IfOk result (λ parts. AreEach IsBegun (pieces_said pieces.items) parts.items) }
{
    let mut parts = Vec::new(alloc);
    for piece in pieces {
        parts.push(part_of(alloc, piece))?;
    }
    Ok(parts)
}

// A piece of which nothing is read yet.
fn part_of(alloc: Global, piece: Piece) -> Part
    requires { (schemas : List Kinds) × IsPiece schemas (piece_of piece) }
    ensures { IsBegun (piece_of piece) result }
{
    match piece {
        Piece::Entry { plan, id } => Part::Entry {
            plan,
            id,
            loaded: None,
        },
        Piece::Gathered { plan, cuts } => {
            let plan = Box::into_inner(plan);
            let stream = stream_of(&plan);
            let (next, end) = only_interval(cuts.items());
            let gathering = Gathering::new(alloc, plan);
            Part::Gathered {
                gathering,
                stream,
                next,
                end,
            }
        }
    }
}

// The stream of the plan's one scan.
fn stream_of(plan: &Plan) -> u32
    requires { IsOneStream (plan_of plan.now) }
    ensures { leaves (plan_of plan.now) ≡ result ∷ [] }
{
    match plan {
        Plan::Scan { stream } => *stream,
        Plan::Filter { child, .. }
        | Plan::Project { child, .. }
        | Plan::Distinct { child }
        | Plan::Group { child, .. } => stream_of(child),
        Plan::Join { .. } | Plan::Concat { .. } | Plan::Order { .. } => unreachable!(),
    }
}

// The ends of an interval that stands alone, else of one of no extent.
fn only_interval(cuts: &[Cut]) -> (u32, u32)
    ensures { IsOnlyInterval cuts.now result.0 result.1 }
{
    match cuts {
        [cut] => (cut.from, cut.to),
        _ => (0, 0),
    }
}
