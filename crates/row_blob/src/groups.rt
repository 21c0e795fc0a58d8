//! Groups.
ghost use Rattle.std.specs.Prelude.{◌≡◌, [], ◌∷◌, ◌++◌, IfOk, IsTrue, not};
ghost use Rattle.std.specs.List.{list_any};
ghost use Rattle.byte_formats.specs.Reading.{Gives};
ghost use Rattle.row_blob.specs.Reading.{acc_at, accs_at, group_at, groups_at, group_after, items_at};
ghost use Rattle.rows_core.specs.Value.{row_eq};

use crate::kept::{Acc, GroupRow};
use crate::number::{count_at, sum_at};
use crate::rows::{row_at, value_at};
use crate::shape::AccKind;
use byte_formats::{Unread, u64_at};
use indexmap::IndexSet;
use rows_core::{Kind, Memory, Row, Seq};
use std::alloc::Global;

/// An accumulator of the kind.
#[tactic(auto, unfolding(crate::specs::Reading::acc_at))]
fn acc_at(alloc: Global, kind: AccKind, bytes: &[u8]) -> Result<(Acc, &[u8]), Unread>
    ensures { Gives (λ x. (x.0, x.1.now)) result (acc_at kind bytes.now) }
{
    match kind {
        AccKind::Count => {
            let (count, rest) = count_at(bytes)?;
            Ok((Acc::Count(count), rest))
        }
        AccKind::Sum => {
            let (sum, rest) = sum_at(bytes)?;
            Ok((Acc::Sum(sum), rest))
        }
        AccKind::Avg => {
            let (sum, rest) = sum_at(bytes)?;
            let (count, rest) = count_at(rest)?;
            Ok((Acc::Avg { sum, count }, rest))
        }
        AccKind::Pick(kind) => {
            let (value, rest) = value_at(alloc, kind, bytes)?;
            Ok((Acc::Pick(value), rest))
        }
    }
}

/// Accumulators of these kinds.
#[tactic(auto, unfolding(crate::specs::Reading::accs_at))]
fn accs_at<'a>(
    alloc: Global,
    kinds: &[AccKind],
    bytes: &'a [u8],
) -> Result<(Seq<Acc>, &'a [u8]), Unread>
    ensures { Gives (λ x. (x.0, x.1.now)) result (accs_at kinds.now bytes.now) }
{
    let mut accs = Vec::new(alloc);
    let mut rest = bytes;
    for kind in kinds {
        let (acc, after) = acc_at(alloc, *kind, rest)?;
        accs.push(acc)?;
        rest = after;
    }
    Ok((Seq::new(accs), rest))
}

/// The groups behind their count.
#[tactic(auto, unfolding(crate::specs::Reading::groups_at))]
pub fn groups_at<'a>(
    alloc: Global,
    keys: &[Kind],
    kinds: &[AccKind],
    bytes: &'a [u8],
) -> Result<(Vec<GroupRow>, &'a [u8]), Unread>
    ensures { Gives (λ x. (x.0.items, x.1.now)) result (groups_at keys.now kinds.now bytes.now) }
{
    let (count, rest) = u64_at(bytes)?;
    counted_groups_at(alloc, keys, kinds, count, rest)
}

fn counted_groups_at<'a>(
    alloc: Global,
    keys: &[Kind],
    kinds: &[AccKind],
    count: u64,
    bytes: &'a [u8],
) -> Result<(Vec<GroupRow>, &'a [u8]), Unread>
    ensures { Gives (λ x. (x.0.items, x.1.now)) result
        (items_at (group_after keys.now kinds.now) count [] bytes.now) }
{
    let mut groups = Vec::new(alloc);
    let mut seen = IndexSet::new(alloc);
    let mut rest = bytes;
    for _ in 0..count {
        let (group, after) = group_at(alloc, keys, kinds, &mut seen, rest)?;
        groups.push(group)?;
        rest = after;
    }
    Ok((groups, rest))
}

/// A group whose key isn't among those that were seen, and is then.
#[tactic(auto, unfolding(crate::specs::Reading::group_at))]
fn group_at<'a>(
    alloc: Global,
    keys: &[Kind],
    kinds: &[AccKind],
    seen: &mut IndexSet<Row>,
    bytes: &'a [u8],
) -> Result<(GroupRow, &'a [u8]), Unread>
    ensures read { Gives (λ x. (x.0, x.1.now)) result (group_at keys.now kinds.now seen.old.keys bytes.now) }
    ensures seen { IfOk result (λ x. seen.new.keys ≡ seen.old.keys ++ x.0.key ∷ []) }
{
    let (key, rest) = row_at(alloc, keys, bytes)?;
    if !is_new(seen, key.try_copy(alloc)?)? {
        return Err(Unread::Left(rest.len() + 1));
    }
    let (accs, rest) = accs_at(alloc, kinds, rest)?;
    Ok((GroupRow { key, accs }, rest))
}

/// Whether the key isn't among those that were seen. It is then.
fn is_new(seen: &mut IndexSet<Row>, key: Row) -> Result<bool, Memory>
    ensures new { IfOk result (λ new. new ≡ not (list_any (row_eq key) seen.old.keys)) }
    ensures seen { IfOk result (λ new. IsTrue new → seen.new.keys ≡ seen.old.keys ++ key ∷ []) }
{
    Ok(seen.insert(key)?)
}
