//! Kept results.
ghost use Rattle.std.specs.Prelude.{◌≡◌};
ghost use Rattle.byte_formats.specs.Reading.{Gives};
ghost use Rattle.byte_formats.specs.Format.{chain_at};
ghost use Rattle.record_codec.specs.Formats.{list, id_from, new_entry, entry_from, entries};

use crate::parts::{cuts_at, inner_plan_at};
use byte_formats::{Unread, digest_at, items_at, u32_at, u32_between};
use catalog_types::{Entry, NewEntry};
use rows_core::{Digest, FileRef, Seq};
use std::alloc::Global;

/// What stands in the place of a key, which isn't spelled.
const NO_KEY: Digest = Digest { bytes: [0; 32] };

pub fn new_entries_at(alloc: Global, bytes: &[u8]) -> Result<(Seq<NewEntry>, &[u8]), Unread>
    ensures { Gives (λ x. (x.0, x.1.now)) result ((list new_entry).read bytes.now) }
{
    let (count, rest) = u32_at(bytes)?;
    let (entries, rest) = items_at(
        alloc,
        count as usize,
        rest,
        |bytes| new_entry_at(alloc, bytes),
    )?;
    Ok((Seq::new(entries), rest))
}

fn new_entry_at(alloc: Global, bytes: &[u8]) -> Result<(NewEntry, &[u8]), Unread>
    ensures { Gives (λ x. (x.0, x.1.now)) result (new_entry.read bytes.now) }
{
    let (plan, rest) = inner_plan_at(alloc, bytes)?;
    let (cuts, rest) = cuts_at(alloc, rest)?;
    let (file, rest) = u32_at(rest)?;
    let (len, rest) = u32_at(rest)?;
    let (digest, rest) = digest_at(rest)?;
    let (machine, rest) = u32_at(rest)?;
    let file = FileRef {
        file: file as u64,
        len: len as u64,
        digest,
    };
    let entry = NewEntry {
        plan,
        cuts,
        file,
        machine,
    };
    Ok((entry, rest))
}

/// Entries by their ids.
pub fn entries_at(alloc: Global, bytes: &[u8]) -> Result<(Seq<Entry>, &[u8]), Unread>
    ensures { Gives (λ x. (x.0, x.1.now)) result (entries.read bytes.now) }
{
    let (count, rest) = u32_at(bytes)?;
    let (entries, rest) = so_many_entries_at(alloc, count as usize, rest)?;
    Ok((Seq::new(entries), rest))
}

fn so_many_entries_at<'a>(
    alloc: Global,
    count: usize,
    bytes: &'a [u8],
) -> Result<(Vec<Entry>, &'a [u8]), Unread>
    ensures { Gives (λ x. (x.0.items, x.1.now)) result
        (chain_at entry_from (λ previous e. e.id) count 0 bytes.now) }
{
    let mut entries = Vec::new(alloc);
    let mut rest = bytes;
    let mut previous = 0;
    for _ in 0..count {
        let (entry, after) = entry_from(alloc, previous, rest)?;
        previous = id_of(&entry);
        entries.push(entry)?;
        rest = after;
    }
    Ok((entries, rest))
}

fn id_of(entry: &Entry) -> u32
    ensures { result ≡ entry.now.id }
{
    entry.id
}

/// An entry whose id isn't below the one before. Its keys aren't spelled.
fn entry_from(alloc: Global, previous: u32, bytes: &[u8]) -> Result<(Entry, &[u8]), Unread>
    ensures { Gives (λ x. (x.0, x.1.now)) result ((entry_from previous).read bytes.now) }
{
    let (id, rest) = id_from(previous, bytes)?;
    let (kept, rest) = new_entry_at(alloc, rest)?;
    let (uses, rest) = u32_at(rest)?;
    let (last, rest) = u32_at(rest)?;
    let (made, rest) = u32_at(rest)?;
    let NewEntry {
        plan,
        cuts,
        file,
        machine,
    } = kept;
    let entry = Entry {
        id,
        plan,
        cuts,
        program: NO_KEY,
        key: NO_KEY,
        file,
        machine,
        uses,
        last,
        made,
    };
    Ok((entry, rest))
}

fn id_from(previous: u32, bytes: &[u8]) -> Result<(u32, &[u8]), Unread>
    ensures { Gives (λ x. (x.0, x.1.now)) result ((id_from previous).read bytes.now) }
{
    let (id, rest) = u32_between(previous, u32::MAX, bytes)?;
    Ok((id, rest))
}
