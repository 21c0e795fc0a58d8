//! The least rewriting.
ghost use Rattle.std.specs.Prelude.{IfOk};
ghost use Rattle.estimator.specs.Bytes.{IsCutOf};
ghost use Rattle.rewrite_core.specs.Entries.{AreSound};
ghost use Rattle.rewrite_core.specs.Estimate.{IsLeast};
ghost use Rattle.rewrite_core.specs.PlainRewriting.{rewriting_of};

use crate::parts::Part;
use crate::places::ROOT;
use crate::table::Found;
use crate::trees::least_tree;
use estimator::Sizes;
use plan_core::Typed;
use rewrite_core::{Lookup, Rewriting};
use rows_core::{Cut, Memory};
use std::alloc::Global;

/// A rewriting of the plan at this cut over the kept results that the look-ups know, of which no other one
/// has a smaller estimate. Each place of the plan is asked once for each cut that it is needed at.
pub fn least<L: Lookup, Z: Sizes>(
    alloc: Global,
    plan: &Typed,
    cuts: &[Cut],
    lookup: &L,
    sizes: &Z,
) -> Result<Rewriting, Memory>
    requires sound { AreSound (L.entries lookup.now) }
    requires cuts { IsCutOf (Z.lengths sizes.now) plan.now.plan cuts.now }
    ensures { IfOk result (λ tree. IsLeast (L.entries lookup.now) (Z.lengths sizes.now) plan.now.plan
        cuts.now (rewriting_of tree)) }
{
    let mut found = Found::new(alloc);
    let whole = Part {
        plan: plan.plan(),
        place: ROOT,
        cuts,
    };
    let tree = least_tree(alloc, whole, lookup, sizes, &mut found)?;
    Ok(Box::into_inner(tree))
}
