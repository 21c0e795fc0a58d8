//! What bytes are read as.
ghost use Rattle.std.specs.Prelude.{◌≡◌, ◌≤◌, length, IfOk, IfErr, MatchResult};
ghost use Rattle.byte_formats.specs.Reading.{Gives};
ghost use Rattle.byte_formats.specs.Format.{all_of};
ghost use Rattle.catalog_types.specs.declared.change.Change.{Change};
ghost use Rattle.record_codec.specs.Spelling.{spelling_in, HasSpellingIn, keyless};
ghost use Rattle.record_codec.specs.Formats.{change_tag, format_in};
ghost use Rattle.record_codec.specs.Reading.{change_behind};
ghost use Rattle.record_codec.specs.Forms.{newest};
ghost use Rattle.record_codec.specs.Parts.{change_parts};
ghost use Rattle.record_codec.specs.Place.{IsPlace, Reads};

use crate::entries::new_entries_at;
use crate::form::Form;
use crate::parts::{columns_at, extent_at, ids_at};
use crate::programs::program_if_at;
use crate::refusal::ChangeRefusal;
use crate::snapshot::snapshot_at;
use crate::tag::ChangeTag;
use byte_formats::{Unread, name_at, u32_at};
use catalog_types::Change;
use std::alloc::Global;

/// The change that the bytes spell in this form: `NotChange` exactly where there is none, with the place
/// where reading stops. Within a plan's bytes it is where reading of the plan stops. The keys of a
/// checkpoint's entries aren't spelled, and 32 zero bytes stand in their place. Memory is asked for what was
/// read, never for what a count or a length only announces.
pub fn read_change(alloc: Global, bytes: &[u8], form: Form) -> Result<Change, ChangeRefusal>
    // What is read is spelled so.
    ensures found { IfOk result
        (λ change. HasSpellingIn form change × (keyless change ≡ change)
        × (bytes.now ≡ spelling_in form change)) }
    // It has no more parts than there are bytes: items of lists, bytes of names and texts, and parts of
    // plans.
    ensures few { IfOk result (λ change. change_parts change ≤ length bytes.now) }
    // What is spelled so is read, but for the keys, unless memory runs out.
    ensures only { (change : Change) → HasSpellingIn form change → bytes.now ≡ spelling_in form change
        → MatchResult result (λ found. found ≡ keyless change) (λ e. e ≡ ChangeRefusal.Memory) }
    // The first bytes up to the place begin a spelling, and not with the byte that stands there.
    ensures place { IfErr result (λ e. IsPlace form bytes.now e) }
{
    read(alloc, bytes, form)
}

fn read(alloc: Global, bytes: &[u8], form: Form) -> Result<Change, ChangeRefusal>
    ensures { Reads result (all_of (format_in form) bytes.now) (length bytes.now) }
{
    match all_at(alloc, bytes, form) {
        Ok(change) => Ok(change),
        Err(Unread::Memory) => Err(ChangeRefusal::Memory),
        Err(Unread::Left(left)) => Err(ChangeRefusal::NotChange {
            at: bytes.len().saturating_sub(left) as u64,
        }),
    }
}

fn all_at(alloc: Global, bytes: &[u8], form: Form) -> Result<Change, Unread>
    ensures { Gives (λ change. change) result (all_of (format_in form) bytes.now) }
{
    let (change, rest) = change_at(alloc, bytes, form)?;
    if !rest.is_empty() {
        return Err(Unread::Left(rest.len()));
    }
    Ok(change)
}

fn change_at(alloc: Global, bytes: &[u8], form: Form) -> Result<(Change, &[u8]), Unread>
    ensures { Gives (λ x. (x.0, x.1.now)) result ((format_in form).read bytes.now) }
{
    let (tag, rest) = tag_at(bytes, form)?;
    let (change, rest) = change_behind(alloc, tag, rest, form)?;
    Ok((change, rest))
}

fn tag_at(bytes: &[u8], form: Form) -> Result<(ChangeTag, &[u8]), Unread>
    ensures { Gives (λ x. (x.0, x.1.now)) result ((change_tag form).read bytes.now) }
{
    let [byte, rest @ ..] = bytes else {
        return Err(Unread::Left(0));
    };
    match ChangeTag::of(form, *byte) {
        Some(tag) => Ok((tag, rest)),
        None => Err(Unread::Left(bytes.len())),
    }
}

/// What stands behind the tag of a change.
fn change_behind(
    alloc: Global,
    tag: ChangeTag,
    bytes: &[u8],
    form: Form,
) -> Result<(Change, &[u8]), Unread>
    ensures { Gives (λ x. (x.0, x.1.now)) result (change_behind form tag bytes.now) }
{
    match tag {
        ChangeTag::Stream => stream_at(alloc, bytes, form),
        ChangeTag::Append => append_at(bytes),
        ChangeTag::Work => work_at(alloc, bytes),
        ChangeTag::Collect => collect_at(alloc, bytes),
        ChangeTag::Checkpoint => checkpoint_at(alloc, bytes, form),
    }
}

fn stream_at(alloc: Global, bytes: &[u8], form: Form) -> Result<(Change, &[u8]), Unread>
    ensures { Gives (λ x. (x.0, x.1.now)) result (change_behind form ChangeTag.Stream bytes.now) }
{
    let (name, rest) = name_at(alloc, bytes)?;
    let (columns, rest) = columns_at(alloc, rest, form)?;
    Ok((Change::Stream { name, columns }, rest))
}

// An append, work and a collection are alike in all forms.
fn append_at(bytes: &[u8]) -> Result<(Change, &[u8]), Unread>
    ensures { Gives (λ x. (x.0, x.1.now)) result (change_behind newest ChangeTag.Append bytes.now) }
{
    let (stream, rest) = u32_at(bytes)?;
    let (extent, rest) = extent_at(rest)?;
    Ok((Change::Append { stream, extent }, rest))
}

fn work_at(alloc: Global, bytes: &[u8]) -> Result<(Change, &[u8]), Unread>
    ensures { Gives (λ x. (x.0, x.1.now)) result (change_behind newest ChangeTag.Work bytes.now) }
{
    let (program, rest) = program_if_at(alloc, bytes)?;
    let (reads, rest) = ids_at(alloc, rest)?;
    let (dropped, rest) = ids_at(alloc, rest)?;
    let (kept, rest) = new_entries_at(alloc, rest)?;
    let work = Change::Work {
        program,
        reads,
        dropped,
        kept,
    };
    Ok((work, rest))
}

fn collect_at(alloc: Global, bytes: &[u8]) -> Result<(Change, &[u8]), Unread>
    ensures { Gives (λ x. (x.0, x.1.now)) result (change_behind newest ChangeTag.Collect bytes.now) }
{
    let (ids, rest) = ids_at(alloc, bytes)?;
    Ok((Change::Collect { ids }, rest))
}

fn checkpoint_at(alloc: Global, bytes: &[u8], form: Form) -> Result<(Change, &[u8]), Unread>
    ensures { Gives (λ x. (x.0, x.1.now)) result (change_behind form ChangeTag.Checkpoint bytes.now) }
{
    let (whole, rest) = snapshot_at(alloc, bytes, form)?;
    Ok((Change::Checkpoint { whole }, rest))
}
