//! The least rewriting of a case.
ghost use Rattle.estimator.specs.Bytes.{IsCutOf};
ghost use Rattle.rewrite_core.specs.IsRewriting.{IsRewriting, whichever};
ghost use Rattle.rewrite_core.specs.Entries.{AreSound};
ghost use Rattle.rewrite_core.specs.PlainRewriting.{rewriting_of};
ghost use Rattle.plan_core.specs.PlainPlan.{plan_of};
ghost use Rattle.postfix_plans.specs.Listed.{entries_of};

use crate::given::Case;
use crate::shown::shown;
use anyhow::{Result, bail};
use postfix_plans::{are_in_streams, are_sound};
use rewrite_core::Rewriting;
use rewriter::{estimate, laws, least, reads};
use std::alloc::Global;

/// The estimate of the least rewriting, the bytes that it reads and the kept results that it uses.
pub fn least_of(alloc: Global, case: &Case) -> Result<String> {
    if !are_sound(alloc, &case.kept.results)? {
        bail!("the kept results aren't sound");
    }
    let (lens, leaves) = (case.extents.lens.items(), case.typed.leaves());
    if !are_in_streams(lens, leaves, case.cuts.items()) {
        bail!("the cut isn't in the streams");
    }
    searched(alloc, case)
}

fn searched(alloc: Global, case: &Case) -> Result<String>
    requires sound { AreSound (entries_of case.now.kept.results.items) }
    requires cuts { IsCutOf case.now.extents.lens case.now.typed.plan case.now.cuts }
{
    let cuts = case.cuts.items();
    let tree = least(alloc, &case.typed, cuts, &case.kept, &case.extents)?;
    laws::rewritings_are_formed();
    told(alloc, &tree, case)
}

fn told(alloc: Global, tree: &Rewriting, case: &Case) -> Result<String>
    requires formed { IsRewriting whichever (plan_of tree.now.plan) tree.now.cuts (rewriting_of tree.now) }
    requires cuts { IsCutOf case.now.extents.lens (plan_of tree.now.plan) tree.now.cuts }
{
    let estimate = estimate(tree, &case.extents);
    let reads = reads(tree, &case.extents);
    shown(alloc, estimate, reads, &tree.used(alloc)?)
}
