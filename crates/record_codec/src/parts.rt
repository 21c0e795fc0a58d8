//! The parts of changes.
ghost use Rattle.std.specs.Prelude.{◌≡◌};
ghost use Rattle.plan_core.specs.PlainPlan.{plan_of};
ghost use Rattle.byte_formats.specs.Reading.{Gives};
ghost use Rattle.byte_formats.specs.Format.{u32, sized, exactly, beside};
ghost use Rattle.plan_spelling.specs.Formats.{plan_format};
ghost use Rattle.record_codec.specs.Tags.{kinds};
ghost use Rattle.record_codec.specs.Formats.{list, kind, column, columns, cut, cuts, extent, inner_plan};

use crate::form::Form;
use byte_formats::{Unread, byte_at, digest_at, items_at, name_at, u32_at};
use catalog_types::Extent;
use plan_core::Plan;
use plan_spelling::{SpellRefusal, unspell};
use rows_core::{Column, Cut, FileRef, Kind, Seq, Text};
use std::alloc::Global;

pub fn ids_at(alloc: Global, bytes: &[u8]) -> Result<(Seq<u32>, &[u8]), Unread>
    ensures { Gives (λ x. (x.0, x.1.now)) result ((list u32).read bytes.now) }
{
    let (count, rest) = u32_at(bytes)?;
    let (ids, rest) = items_at(alloc, count as usize, rest, |bytes| u32_at(bytes))?;
    Ok((Seq::new(ids), rest))
}

pub fn columns_at(alloc: Global, bytes: &[u8], form: Form) -> Result<(Seq<Column>, &[u8]), Unread>
    ensures { Gives (λ x. (x.0, x.1.now)) result ((columns form).read bytes.now) }
{
    let (count, rest) = byte_at(bytes)?;
    let (columns, rest) = items_at(
        alloc,
        count as usize,
        rest,
        |bytes| column_at(alloc, bytes, form),
    )?;
    Ok((Seq::new(columns), rest))
}

fn column_at(alloc: Global, bytes: &[u8], form: Form) -> Result<(Column, &[u8]), Unread>
    ensures { Gives (λ x. (x.0, x.1.now)) result ((column form).read bytes.now) }
{
    let (name, rest) = name_at(alloc, bytes)?;
    let (kind, rest) = kind_at(rest, form)?;
    Ok((Column { name, kind }, rest))
}

fn kind_at(bytes: &[u8], form: Form) -> Result<(Kind, &[u8]), Unread>
    ensures { Gives (λ x. (x.0, x.1.now)) result ((kind form).read bytes.now) }
{
    let [byte, rest @ ..] = bytes else {
        return Err(Unread::Left(0));
    };
    match kind_of(form, *byte) {
        Some(kind) => Ok((kind, rest)),
        None => Err(Unread::Left(bytes.len())),
    }
}

fn kind_of(form: Form, byte: u8) -> Option<Kind>
    ensures { result ≡ beside (kinds form) byte }
{
    match (byte, form) {
        (1, _) => Some(Kind::Int),
        (2, _) => Some(Kind::Text),
        (3, Form::Second) => Some(Kind::Bool),
        (_, Form::First | Form::Second) => None,
    }
}

pub fn cuts_at(alloc: Global, bytes: &[u8]) -> Result<(Seq<Cut>, &[u8]), Unread>
    ensures { Gives (λ x. (x.0, x.1.now)) result (cuts.read bytes.now) }
{
    let (count, rest) = byte_at(bytes)?;
    let (cuts, rest) = items_at(alloc, count as usize, rest, |bytes| cut_at(bytes))?;
    Ok((Seq::new(cuts), rest))
}

fn cut_at(bytes: &[u8]) -> Result<(Cut, &[u8]), Unread>
    ensures { Gives (λ x. (x.0, x.1.now)) result (cut.read bytes.now) }
{
    let (from, rest) = u32_at(bytes)?;
    let (to, rest) = u32_at(rest)?;
    Ok((Cut { from, to }, rest))
}

pub fn extents_at(alloc: Global, bytes: &[u8]) -> Result<(Seq<Extent>, &[u8]), Unread>
    ensures { Gives (λ x. (x.0, x.1.now)) result ((list extent).read bytes.now) }
{
    let (count, rest) = u32_at(bytes)?;
    let (extents, rest) = items_at(alloc, count as usize, rest, |bytes| extent_at(bytes))?;
    Ok((Seq::new(extents), rest))
}

pub fn extent_at(bytes: &[u8]) -> Result<(Extent, &[u8]), Unread>
    ensures { Gives (λ x. (x.0, x.1.now)) result (extent.read bytes.now) }
{
    let (file, rest) = u32_at(bytes)?;
    let (rows, rest) = u32_at(rest)?;
    let (len, rest) = u32_at(rest)?;
    let (digest, rest) = digest_at(rest)?;
    let file = FileRef {
        file: file as u64,
        len: len as u64,
        digest,
    };
    Ok((Extent { file, rows }, rest))
}

/// Bytes behind their length.
pub fn text_at(alloc: Global, bytes: &[u8]) -> Result<(Text, &[u8]), Unread>
    ensures { Gives (λ x. (x.0, x.1.now)) result (sized.read bytes.now) }
{
    let (len, rest) = u32_at(bytes)?;
    if rest.len() < len as usize {
        return Err(Unread::Left(0));
    }
    let (text, rest) = rest.split_at(len as usize);
    let text = Vec::from_slice(alloc, text)?;
    Ok((Seq::new(text), rest))
}

/// A plan behind the length of its spelling.
pub fn inner_plan_at(alloc: Global, bytes: &[u8]) -> Result<(Plan, &[u8]), Unread>
    ensures { Gives (λ x. (plan_of x.0, x.1.now)) result (inner_plan.read bytes.now) }
{
    let (len, rest) = u32_at(bytes)?;
    let (plan, rest) = plan_of_len(alloc, len as usize, rest)?;
    Ok((plan, rest))
}

/// A plan whose spelling has so many bytes. Within these reading stops where it does in a plan's own bytes.
fn plan_of_len(alloc: Global, len: usize, bytes: &[u8]) -> Result<(Plan, &[u8]), Unread>
    ensures { Gives (λ x. (plan_of x.0, x.1.now)) result ((exactly len (plan_format 1024)).read bytes.now) }
{
    let (front, rest) = bytes.split_at(len.min(bytes.len()));
    match unspell(alloc, front) {
        Ok(plan) => {
            if bytes.len() < len {
                return Err(Unread::Left(0));
            }
            Ok((plan, rest))
        }
        Err(SpellRefusal::Memory) => Err(Unread::Memory),
        Err(SpellRefusal::NotPlan { at }) => Err(Unread::Left(
            bytes.len().saturating_sub(at as usize),
        )),
    }
}
