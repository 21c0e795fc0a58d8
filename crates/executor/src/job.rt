//! Jobs: rewritings that are being read.
ghost use Rattle.std.specs.Prelude.{◌≡◌, List, length, IfOk};
ghost use Rattle.plan_core.specs.PlainPlan.{plan_of};
ghost use Rattle.plan_core.specs.PlanTyping.{Kinds};
ghost use Rattle.estimator.specs.Bytes.{capped};
ghost use Rattle.estimator.specs.Cuts.{Cuts};
ghost use Rattle.rewrite_core.specs.Files.{files_of};
ghost use Rattle.rewrite_core.specs.IsRewriting.{IsRewriting, whichever};
ghost use Rattle.rewrite_core.specs.PlainRewriting.{rewriting_of};
ghost use Rattle.growth_laws.specs.KeptResults.{KeptResults};
ghost use Rattle.growth_laws.specs.Lists.{Extents};
ghost use Rattle.growth_laws.specs.Pieces.{pieces_of};
ghost use Rattle.executor.specs.Pieces.{HasTyping};
ghost use Rattle.executor.specs.Progress.{left_in, held_in, ArePartsOf, HaveRead};

use crate::beginning::parts_of;
use crate::part::Part;
use crate::{pieces, pieces_of_typed_rewritings};
use growth_laws::files_of_pieces;
use rewrite_core::Rewriting;
use rows_core::Memory;
use std::alloc::Global;

/// A rewriting whose files are being read, with its pieces as far as they are read.
#[derive(Drop)]
pub struct Job {
    pub rewriting: Rewriting,
    pub parts: Vec<Part>,
    /// How many bytes of the files that were read whole count, cut at the greatest u64.
    pub taken: u64,
}

impl Job {
    /// How many files are still to be read, cut at the greatest u64.
    pub fn left(&self) -> u64
        ensures { result ≡ capped (length (left_in self.now.parts.items)) }
    {
        left_of(self.parts.as_slice())
    }

    /// How many bytes of the files that were read whole count, each as often as it was read, cut at the
    /// greatest u64. It takes no memory.
    pub fn taken(&self) -> u64
        ensures { result ≡ self.now.taken }
    {
        self.taken
    }

    /// How many rows and groups it keeps, cut at the greatest u64.
    pub fn held(&self) -> u64
        ensures { result ≡ capped (held_in self.now.parts.items) }
    {
        held_of(self.parts.as_slice())
    }
}

/// The job of a rewriting of which no file is read yet: its files are left, and its parts are those of its
/// pieces. `Memory` where memory was asked for and refused.
pub fn prepare(alloc: Global, rewriting: Rewriting) -> Result<Job, Memory>
    requires formed { (cuts : Cuts)
        × IsRewriting whichever (plan_of rewriting.plan) cuts (rewriting_of rewriting) }
    requires typed { (schemas : List Kinds) × HasTyping schemas (plan_of rewriting.plan) }
    ensures rewriting { IfOk result (λ job. rewriting_of job.rewriting ≡ rewriting_of rewriting) }
    ensures left { IfOk result (λ job. left_in job.parts.items ≡ files_of (rewriting_of rewriting)) }
    ensures taken { IfOk result (λ job. job.taken ≡ 0) }
    ensures parts { IfOk result (λ job. (schemas : List Kinds) → HasTyping schemas (plan_of rewriting.plan)
        → ArePartsOf schemas (pieces_of (rewriting_of rewriting)) job.parts.items) }
    ensures read { IfOk result (λ job. (schemas : List Kinds) (extents : Extents) (results : KeptResults)
        → HasTyping schemas (plan_of rewriting.plan)
        → HaveRead schemas extents results (pieces_of (rewriting_of rewriting)) job.parts.items) }
{
    files_of_pieces();
    pieces_of_typed_rewritings();
    let pieces = pieces(alloc, &rewriting)?;
    let parts = parts_of(alloc, pieces)?;
    Ok(Job {
        rewriting,
        parts,
        taken: 0,
    })
}

// How many files are still to be read of these parts.
fn left_of(parts: &[Part]) -> u64
    ensures { result ≡ capped (length (left_in parts.now)) }
{
    match parts {
        [] => 0,
        [part, rest @ ..] => part.left().saturating_add(left_of(rest)),
    }
}

// How many rows and groups these parts keep.
fn held_of(parts: &[Part]) -> u64
    ensures { result ≡ capped (held_in parts.now) }
{
    match parts {
        [] => 0,
        [part, rest @ ..] => part.held().saturating_add(held_of(rest)),
    }
}
