//! What a rewriting costs at least, and when that is no less than what a kept result does.
ghost use Rattle.std.specs.Prelude.{◌≡◌, IfOk, IfSome};
ghost use Rattle.plan_core.specs.PlainPlan.{plan_of};
ghost use Rattle.estimator.specs.Bytes.{IsCutOf};
ghost use Rattle.rewrite_core.specs.Entries.{AreSound, IsEarlier};
ghost use Rattle.rewriter.specs.Choosing.{CostAtLeast, CostMore};
ghost use Rattle.rewriter.specs.Forms.{IsComputed, IsRead, IsGrown};
ghost use Rattle.rewriter.specs.Search.{IsEstimateIfAny, IsChoice};
ghost use Rattle.rewriter.specs.declared.priced.Form.TheVariants as form;

use crate::parts::Part;
use crate::priced::{Choice, Form};
use crate::sums::{file_len, plus};
use estimator::{Sizes, new_bytes, whole_bytes};
use rewrite_core::{Hit, Lookup};
use rows_core::Memory;
use std::alloc::Global;

/// The choice to read a kept result of the part, where its file is shorter than what each computed rewriting
/// costs at least, and no longer than what each grown one does. Then no parts need to be looked at.
pub fn read_if_least<L: Lookup, Z: Sizes>(
    alloc: Global,
    part: Part<'_, '_>,
    read: Option<u64>,
    lookup: &L,
    sizes: &Z,
) -> Result<Option<Choice>, Memory>
    requires sound { AreSound (L.entries lookup.now) }
    requires cuts { IsCutOf (Z.lengths sizes.now) (plan_of part.plan.now) part.cuts.now }
    requires read { IsEstimateIfAny IsRead (L.entries lookup.now) (Z.lengths sizes.now)
        (plan_of part.plan.now) part.cuts.now read }
    ensures least { IfOk result (λ choice. IfSome choice (IsChoice (L.entries lookup.now)
        (Z.lengths sizes.now) (plan_of part.entry.plan.now) part.entry.cuts.now)) }
    ensures reads { IfOk result (λ choice. IfSome choice (λ choice. choice.form ≡ form.Read)) }
    ensures shorter { IfOk result (λ choice. IfSome choice (λ choice. CostMore IsComputed
        (L.entries lookup.now) (Z.lengths sizes.now) (plan_of part.entry.plan.now) part.entry.cuts.now
        choice.estimate)) }
{
    let Some(read) = read else {
        return Ok(None);
    };
    let bytes = whole_bytes(part.plan, part.cuts, sizes);
    if bytes <= read {
        return Ok(None);
    }
    let grown = least_to_grow(alloc, part, lookup, sizes)?;
    if grown < read {
        return Ok(None);
    }
    Ok(Some(Choice {
        form: Form::Read,
        estimate: read,
        bytes,
    }))
}

// What each rewriting costs at least that grows an earlier result of the part; the greatest u64 where there
// is no such result.
fn least_to_grow<L: Lookup, Z: Sizes>(
    alloc: Global,
    part: Part<'_, '_>,
    lookup: &L,
    sizes: &Z,
) -> Result<u64, Memory>
    requires sound { AreSound (L.entries lookup.now) }
    requires cuts { IsCutOf (Z.lengths sizes.now) (plan_of part.plan.now) part.cuts.now }
    ensures { IfOk result (CostAtLeast IsGrown (L.entries lookup.now) (Z.lengths sizes.now)
        (plan_of part.entry.plan.now) part.entry.cuts.now) }
{
    match lookup.earlier(alloc, part.plan, part.cuts)? {
        None => Ok(u64::MAX),
        Some(hit) => Ok(least_from(&hit, part, lookup, sizes)),
    }
}

// The length of the earlier result's file, and the new bytes.
fn least_from<L: Lookup, Z: Sizes>(hit: &Hit, part: Part<'_, '_>, lookup: &L, sizes: &Z) -> u64
    requires sound { AreSound (L.entries lookup.now) }
    requires cuts { IsCutOf (Z.lengths sizes.now) (plan_of part.plan.now) part.cuts.now }
    requires hit { IsEarlier (L.entries lookup.now) (plan_of part.plan.now) part.cuts.now hit.now }
    ensures { CostAtLeast IsGrown (L.entries lookup.now) (Z.lengths sizes.now)
        (plan_of part.entry.plan.now) part.entry.cuts.now result }
{
    let bytes = new_bytes(part.plan, hit.cuts.items(), part.cuts, sizes);
    plus(file_len(hit), bytes)
}
