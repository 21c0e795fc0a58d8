//! Plans.
ghost use Rattle.std.specs.Prelude.{◌≡◌};
ghost use Rattle.plan_core.specs.PlainPlan.{plan_of, Scan};
ghost use Rattle.byte_formats.specs.Reading.{Gives};
ghost use Rattle.byte_formats.specs.Format.{symbol_at, beside, read_as, u32};
ghost use Rattle.plan_spelling.specs.Tags.{plan_tags_above};
ghost use Rattle.plan_spelling.specs.Formats.{plan_format};
ghost use Rattle.plan_spelling.specs.Reading.{plan_behind};

use crate::expr::expr_at;
use crate::lists::{aggs_at, columns_at, exprs_at, keys_at, pairs_at};
use crate::tag::PlanTag;
use byte_formats::{Unread, u32_at};
use plan_core::Plan;
use std::alloc::Global;

/// A plan of at most this nesting.
#[cycle(plan)]
pub fn plan_at<'a>(alloc: Global, depth: usize, bytes: &'a [u8]) -> Result<(Plan, &'a [u8]), Unread>
    ensures { Gives (λ x. (plan_of x.0, x.1.now)) result ((plan_format depth).read bytes.now) }
{
    if depth == 0 {
        return Err(Unread::Left(bytes.len()));
    }
    let (tag, rest) = tag_at(depth - 1, bytes)?;
    let (plan, rest) = plan_behind(alloc, depth - 1, tag, rest)?;
    Ok((plan, rest))
}

/// The tag of a node whose parts have at most this nesting.
fn tag_at(depth: usize, bytes: &[u8]) -> Result<(PlanTag, &[u8]), Unread>
    ensures { Gives (λ x. (x.0, x.1.now)) result (symbol_at (beside (plan_tags_above depth)) bytes.now) }
{
    let [byte, rest @ ..] = bytes else {
        return Err(Unread::Left(0));
    };
    match PlanTag::above(depth, *byte) {
        Some(tag) => Ok((tag, rest)),
        None => Err(Unread::Left(bytes.len())),
    }
}

/// What stands behind the tag of a plan.
#[cycle(plan)]
fn plan_behind<'a>(
    alloc: Global,
    depth: usize,
    tag: PlanTag,
    bytes: &'a [u8],
) -> Result<(Plan, &'a [u8]), Unread>
    ensures { Gives (λ x. (plan_of x.0, x.1.now)) result (plan_behind depth tag bytes.now) }
{
    match tag {
        PlanTag::Scan => scan_at(bytes),
        PlanTag::Filter => filter_at(alloc, depth, bytes),
        PlanTag::Project => project_at(alloc, depth, bytes),
        PlanTag::Distinct => distinct_at(alloc, depth, bytes),
        PlanTag::Group => group_at(alloc, depth, bytes),
        PlanTag::Join => join_at(alloc, depth, bytes),
        PlanTag::Concat => concat_at(alloc, depth, bytes),
        PlanTag::Order => order_at(alloc, depth, bytes),
    }
}

fn scan_at(bytes: &[u8]) -> Result<(Plan, &[u8]), Unread>
    ensures { Gives (λ x. (plan_of x.0, x.1.now)) result (read_as Scan (u32.read bytes.now)) }
{
    let (stream, rest) = u32_at(bytes)?;
    Ok((Plan::Scan { stream }, rest))
}

#[cycle(plan)]
fn filter_at<'a>(alloc: Global, depth: usize, bytes: &'a [u8]) -> Result<(Plan, &'a [u8]), Unread>
    ensures { Gives (λ x. (plan_of x.0, x.1.now)) result (plan_behind depth PlanTag.Filter bytes.now) }
{
    let (child, rest) = plan_at(alloc, depth, bytes)?;
    let (test, rest) = expr_at(alloc, depth, rest)?;
    let child = Box::new(alloc, child)?;
    Ok((Plan::Filter { child, test }, rest))
}

#[cycle(plan)]
fn project_at<'a>(alloc: Global, depth: usize, bytes: &'a [u8]) -> Result<(Plan, &'a [u8]), Unread>
    ensures { Gives (λ x. (plan_of x.0, x.1.now)) result (plan_behind depth PlanTag.Project bytes.now) }
{
    let (child, rest) = plan_at(alloc, depth, bytes)?;
    let (columns, rest) = exprs_at(alloc, depth, rest)?;
    let child = Box::new(alloc, child)?;
    Ok((Plan::Project { child, columns }, rest))
}

#[cycle(plan)]
fn distinct_at<'a>(alloc: Global, depth: usize, bytes: &'a [u8]) -> Result<(Plan, &'a [u8]), Unread>
    ensures { Gives (λ x. (plan_of x.0, x.1.now)) result (plan_behind depth PlanTag.Distinct bytes.now) }
{
    let (child, rest) = plan_at(alloc, depth, bytes)?;
    let child = Box::new(alloc, child)?;
    Ok((Plan::Distinct { child }, rest))
}

#[cycle(plan)]
fn group_at<'a>(alloc: Global, depth: usize, bytes: &'a [u8]) -> Result<(Plan, &'a [u8]), Unread>
    ensures { Gives (λ x. (plan_of x.0, x.1.now)) result (plan_behind depth PlanTag.Group bytes.now) }
{
    let (child, rest) = plan_at(alloc, depth, bytes)?;
    let (keys, rest) = columns_at(alloc, rest)?;
    let (aggs, rest) = aggs_at(alloc, rest)?;
    let child = Box::new(alloc, child)?;
    Ok((Plan::Group { child, keys, aggs }, rest))
}

#[cycle(plan)]
fn join_at<'a>(alloc: Global, depth: usize, bytes: &'a [u8]) -> Result<(Plan, &'a [u8]), Unread>
    ensures { Gives (λ x. (plan_of x.0, x.1.now)) result (plan_behind depth PlanTag.Join bytes.now) }
{
    let (left, rest) = plan_at(alloc, depth, bytes)?;
    let (right, rest) = plan_at(alloc, depth, rest)?;
    let (on, rest) = pairs_at(alloc, rest)?;
    let left = Box::new(alloc, left)?;
    let right = Box::new(alloc, right)?;
    Ok((Plan::Join { left, right, on }, rest))
}

#[cycle(plan)]
fn concat_at<'a>(alloc: Global, depth: usize, bytes: &'a [u8]) -> Result<(Plan, &'a [u8]), Unread>
    ensures { Gives (λ x. (plan_of x.0, x.1.now)) result (plan_behind depth PlanTag.Concat bytes.now) }
{
    let (left, rest) = plan_at(alloc, depth, bytes)?;
    let (right, rest) = plan_at(alloc, depth, rest)?;
    let left = Box::new(alloc, left)?;
    let right = Box::new(alloc, right)?;
    Ok((Plan::Concat { left, right }, rest))
}

#[cycle(plan)]
fn order_at<'a>(alloc: Global, depth: usize, bytes: &'a [u8]) -> Result<(Plan, &'a [u8]), Unread>
    ensures { Gives (λ x. (plan_of x.0, x.1.now)) result (plan_behind depth PlanTag.Order bytes.now) }
{
    let (child, rest) = plan_at(alloc, depth, bytes)?;
    let (keys, rest) = keys_at(alloc, rest)?;
    let child = Box::new(alloc, child)?;
    Ok((Plan::Order { child, keys }, rest))
}
