//! Loaded pieces.
ghost use Rattle.std.specs.Prelude.{◌≡◌, [], ◌∷◌, List, reverse, IfOk, OnOk, MatchOption};
ghost use Rattle.plan_core.specs.PlanTyping.{Kinds};
ghost use Rattle.growth_laws.specs.KeptResults.{KeptResults};
ghost use Rattle.growth_laws.specs.Lists.{Extents};
ghost use Rattle.growth_laws.specs.Pieces.{Piece, made_of_piece};
ghost use Rattle.result_ops.specs.Fitting.{IsFit, StandsInOrder};
ghost use Rattle.executor.specs.Loading.{HoldAll, AreFit, Took, piece_plan};

use result_ops::{Made, MakeRefusal, Stop};
use rows_core::limits::MAX_MACHINE_TIME;

/// What reading a piece gave.
pub type Loaded = Result<Made, Stop>;

/// Takes the next piece from the stack. `Machine` also where the machine time of a kept result is above its
/// limit.
pub fn taken(pieces: &mut Vec<Loaded>) -> Result<Made, MakeRefusal>
    requires { (schemas : List Kinds) × (piece : Piece) × (rest : List Piece)
        × AreFit schemas (piece ∷ rest) (reverse pieces.old.items) }
    ensures fit { (schemas : List Kinds) (piece : Piece) (rest : List Piece)
        → AreFit schemas (piece ∷ rest) (reverse pieces.old.items)
        → IfOk result (λ made. IsFit schemas (piece_plan piece) made.kept × StandsInOrder made.kept
        × AreFit schemas rest (reverse pieces.new.items)) }
    ensures held { (extents : Extents) (results : KeptResults) (piece : Piece) (rest : List Piece)
        → HoldAll extents results (piece ∷ rest) (reverse pieces.old.items)
        → Took (piece_plan piece) (made_of_piece extents results piece) result
        × OnOk result (HoldAll extents results rest (reverse pieces.new.items)) }
{
    match next(pieces) {
        Some(Ok(made)) if made.taken_in < MAX_MACHINE_TIME => Ok(made),
        Some(Err(Stop::Overflow)) => Err(MakeRefusal::Overflow),
        Some(_) => Err(MakeRefusal::Machine),
        None => unreachable!(),
    }
}

// The piece that stands last.
fn next(pieces: &mut Vec<Loaded>) -> Option<Loaded>
    ensures { MatchOption result (reverse pieces.old.items ≡ [])
        (λ loaded. reverse pieces.old.items ≡ loaded ∷ reverse pieces.new.items) }
{
    pieces.pop()
}
