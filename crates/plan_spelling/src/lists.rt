//! The lists in plans, each behind its count.
ghost use Rattle.std.specs.Prelude.{◌≡◌, map};
ghost use Rattle.plan_core.specs.PlainExpr.{expr_of};
ghost use Rattle.byte_formats.specs.Reading.{Gives};
ghost use Rattle.byte_formats.specs.Format.{symbol_at, beside, read_as, byte, u32, counted, items_at};
ghost use Rattle.plan_spelling.specs.Tags.{agg_tags};
ghost use Rattle.plan_spelling.specs.Formats.{agg_fields, agg_made, agg_format, pair_format, key_format};
ghost use Rattle.plan_spelling.specs.Formats.{expr_format};

use crate::expr::expr_at;
use crate::tag::AggTag;
use byte_formats::{Unread, byte_at, flag_at, items_at, u32_at, u32_between};
use plan_core::{Agg, Expr};
use rows_core::{Key, Seq};
use std::alloc::Global;

pub fn columns_at(alloc: Global, bytes: &[u8]) -> Result<(Seq<u32>, &[u8]), Unread>
    ensures { Gives (λ x. (x.0, x.1.now)) result ((counted byte u32).read bytes.now) }
{
    let (count, rest) = byte_at(bytes)?;
    let (columns, rest) = items_at(alloc, count as usize, rest, |bytes| u32_at(bytes))?;
    Ok((Seq::new(columns), rest))
}

pub fn pairs_at(alloc: Global, bytes: &[u8]) -> Result<(Seq<(u32, u32)>, &[u8]), Unread>
    ensures { Gives (λ x. (x.0, x.1.now)) result ((counted byte pair_format).read bytes.now) }
{
    let (count, rest) = byte_at(bytes)?;
    let (pairs, rest) = items_at(alloc, count as usize, rest, |bytes| pair_at(bytes))?;
    Ok((Seq::new(pairs), rest))
}

fn pair_at(bytes: &[u8]) -> Result<((u32, u32), &[u8]), Unread>
    ensures { Gives (λ x. (x.0, x.1.now)) result (pair_format.read bytes.now) }
{
    let (left, rest) = u32_at(bytes)?;
    let (right, rest) = u32_at(rest)?;
    Ok(((left, right), rest))
}

pub fn keys_at(alloc: Global, bytes: &[u8]) -> Result<(Seq<Key>, &[u8]), Unread>
    ensures { Gives (λ x. (x.0, x.1.now)) result ((counted byte key_format).read bytes.now) }
{
    let (count, rest) = byte_at(bytes)?;
    let (keys, rest) = items_at(alloc, count as usize, rest, |bytes| key_at(bytes))?;
    Ok((Seq::new(keys), rest))
}

fn key_at(bytes: &[u8]) -> Result<(Key, &[u8]), Unread>
    ensures { Gives (λ x. (x.0, x.1.now)) result (key_format.read bytes.now) }
{
    let (column, rest) = u32_at(bytes)?;
    let (down, rest) = flag_at(rest)?;
    Ok((Key { column, down }, rest))
}

pub fn aggs_at(alloc: Global, bytes: &[u8]) -> Result<(Seq<Agg>, &[u8]), Unread>
    ensures { Gives (λ x. (x.0, x.1.now)) result ((counted byte agg_format).read bytes.now) }
{
    let (count, rest) = byte_at(bytes)?;
    let (aggs, rest) = items_at(alloc, count as usize, rest, |bytes| agg_at(bytes))?;
    Ok((Seq::new(aggs), rest))
}

fn agg_at(bytes: &[u8]) -> Result<(Agg, &[u8]), Unread>
    ensures { Gives (λ x. (x.0, x.1.now)) result (agg_format.read bytes.now) }
{
    let (tag, rest) = agg_tag_at(bytes)?;
    let (agg, rest) = agg_behind(tag, rest)?;
    Ok((agg, rest))
}

fn agg_tag_at(bytes: &[u8]) -> Result<(AggTag, &[u8]), Unread>
    ensures { Gives (λ x. (x.0, x.1.now)) result (symbol_at (beside agg_tags) bytes.now) }
{
    let [byte, rest @ ..] = bytes else {
        return Err(Unread::Left(0));
    };
    match AggTag::of(*byte) {
        Some(tag) => Ok((tag, rest)),
        None => Err(Unread::Left(bytes.len())),
    }
}

fn agg_behind(tag: AggTag, bytes: &[u8]) -> Result<(Agg, &[u8]), Unread>
    ensures { Gives (λ x. (x.0, x.1.now)) result (read_as (agg_made tag) ((agg_fields tag).read bytes.now)) }
{
    if tag == AggTag::Count {
        let (_, rest) = u32_between(0, 0, bytes)?;
        return Ok((Agg::Count, rest));
    }
    let (column, rest) = u32_at(bytes)?;
    let agg = match tag {
        AggTag::Count => Agg::Count,
        AggTag::Sum => Agg::Sum(column),
        AggTag::Min => Agg::Min(column),
        AggTag::Max => Agg::Max(column),
        AggTag::First => Agg::First(column),
        AggTag::Last => Agg::Last(column),
        AggTag::Avg => Agg::Avg(column),
    };
    Ok((agg, rest))
}

pub fn exprs_at(alloc: Global, depth: usize, bytes: &[u8]) -> Result<(Seq<Expr>, &[u8]), Unread>
    ensures { Gives (λ x. (map expr_of x.0, x.1.now)) result
        ((counted byte (expr_format depth)).read bytes.now) }
{
    let (count, rest) = byte_at(bytes)?;
    let (exprs, rest) = so_many_exprs_at(alloc, depth, count as usize, rest)?;
    Ok((Seq::new(exprs), rest))
}

fn so_many_exprs_at<'a>(
    alloc: Global,
    depth: usize,
    count: usize,
    bytes: &'a [u8],
) -> Result<(Vec<Expr>, &'a [u8]), Unread>
    ensures { Gives (λ x. (map expr_of x.0.items, x.1.now)) result
        (items_at (expr_format depth).read count bytes.now) }
{
    let mut exprs = Vec::new(alloc);
    let mut rest = bytes;
    for _ in 0..count {
        let (expr, after) = expr_at(alloc, depth, rest)?;
        exprs.push(expr)?;
        rest = after;
    }
    Ok((exprs, rest))
}
