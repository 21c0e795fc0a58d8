//! Whether a result may be kept.
ghost use Rattle.std.specs.Prelude.{◌≡◌, ◌↔◌, ◌+◌, ◌<◌, ◌≤◌, length, not, IsTrue, IfOk, IfSome};
ghost use Rattle.std.specs.List.{AllByRecursion};
ghost use Rattle.row_blob.specs.Spelling.{kept_spelling};
ghost use Rattle.plan_core.specs.PlainPlan.{plan_of};
ghost use Rattle.plan_spelling.specs.Spelling.{HasPlanSpelling, plan_spelling};
ghost use Rattle.entry_table.specs.Ids.{is_among, without};
ghost use Rattle.rows_core.specs.Limits.{most_entries, most_result_bytes, most_plan_bytes, file_end};
ghost use Rattle.admission.specs.declared.new_result.NewResult.{NewResult};
ghost use Rattle.admission.specs.Admitting.{made_of, kept_in, IsOther, MayBeAdmitted, Decides};

use crate::new_result::NewResult;
use catalog_types::{Entry, NewEntry};
use estimator::are_same_cuts;
use executor::KeptPlace;
use extent_files::digest_of;
use plan_core::Plan;
use plan_spelling::spell;
use row_blob::{Kept, encode, encoded_len};
use rows_core::limits::{FILE_END, MAX_ENTRIES, MAX_PLAN_BYTES, MAX_RESULT_BYTES};
use rows_core::{Cut, FileRef, Memory, Seq};
use std::alloc::Global;

/// The result as it is kept behind those before it, if it may be, where these entries are dropped. It is written
/// out only where it may.
pub(crate) fn decide(
    alloc: Global,
    entries: &[Entry],
    dropped: &[u32],
    file: u64,
    before: &[NewResult],
    made: KeptPlace,
) -> Result<Option<NewResult>, Memory>
    requires spelled { HasPlanSpelling (plan_of made.plan) }
    requires counted { length entries.now ≤ most_entries }
    requires few { length before.now ≤ most_entries }
    requires numbered { file ≤ file_end }
    ensures { IfOk result (Decides (without dropped.now entries.now) file before.now (made_of made)) }
{
    if may_be_admitted(alloc, entries, dropped, file, before, &made)? {
        let new = written(alloc, file + before.len() as u64, made)?;
        Ok(Some(new))
    } else {
        Ok(None)
    }
}

fn may_be_admitted(
    alloc: Global,
    entries: &[Entry],
    dropped: &[u32],
    file: u64,
    before: &[NewResult],
    made: &KeptPlace,
) -> Result<bool, Memory>
    requires spelled { HasPlanSpelling (plan_of made.now.plan) }
    requires counted { length entries.now ≤ most_entries }
    requires few { length before.now ≤ most_entries }
    requires numbered { file ≤ file_end }
    ensures { IfOk result (λ may. IsTrue may
        ↔ MayBeAdmitted (without dropped.now entries.now) file before.now (made_of made.now)) }
{
    if has_place(entries, dropped, file, before)
        && encoded_len(&made.kept) <= MAX_RESULT_BYTES
        && is_new(entries, dropped, made)
        && differs(before, made)
    {
        is_short(alloc, &made.plan)
    } else {
        Ok(false)
    }
}

// Whether there is room for one more, and a number for its file.
fn has_place(entries: &[Entry], dropped: &[u32], file: u64, before: &[NewResult]) -> bool
    requires counted { length entries.now ≤ most_entries }
    requires few { length before.now ≤ most_entries }
    requires numbered { file ≤ file_end }
    ensures { IsTrue result
        ↔ ((length (without dropped.now entries.now) + length before.now < most_entries)
        × (file + length before.now < file_end)) }
{
    let stay = count_that_stay(entries, dropped);
    stay + before.len() < MAX_ENTRIES && file + (before.len() as u64) < FILE_END
}

// How many entries there are but those that are dropped.
fn count_that_stay(entries: &[Entry], dropped: &[u32]) -> usize
    ensures count { result ≡ length (without dropped.now entries.now) }
    ensures most { result ≤ length entries.now }
{
    match entries {
        [] => 0,
        [entry, others @ ..] => {
            let behind = count_that_stay(others, dropped);
            if stays(entry, dropped) {
                behind + 1
            } else {
                behind
            }
        }
    }
}

fn stays(entry: &Entry, dropped: &[u32]) -> bool
    ensures { result ≡ not (is_among dropped.now entry.now.id) }
{
    !dropped.contains(&entry.id)
}

// Whether no entry has its plan and cut but one that is dropped.
fn is_new(entries: &[Entry], dropped: &[u32], made: &KeptPlace) -> bool
    ensures { IsTrue result ↔ AllByRecursion (λ e. IsOther (made_of made.now) e.plan e.cuts)
        (without dropped.now entries.now) }
{
    match entries {
        [] => true,
        [entry, others @ ..] => {
            let differs = !stays(entry, dropped) || is_other(made, &entry.plan, entry.cuts.items());
            differs && is_new(others, dropped, made)
        }
    }
}

// Whether none of those before it has its plan and cut.
fn differs(before: &[NewResult], made: &KeptPlace) -> bool
    ensures { IsTrue result ↔ AllByRecursion (λ (other : NewResult).
        IsOther (made_of made.now) other.entry.plan other.entry.cuts) before.now }
{
    match before {
        [] => true,
        [other, others @ ..] => {
            is_other(made, &other.entry.plan, other.entry.cuts.items()) && differs(others, made)
        }
    }
}

fn is_other(made: &KeptPlace, plan: &Plan, cuts: &[Cut]) -> bool
    ensures { IsTrue result ↔ IsOther (made_of made.now) (plan_of plan.now) cuts.now }
{
    !(plan.is_same(&made.plan) && are_same_cuts(cuts, made.cuts.items()))
}

// Whether the plan's spelling is short enough.
fn is_short(alloc: Global, plan: &Plan) -> Result<bool, Memory>
    requires { HasPlanSpelling (plan_of plan.now) }
    ensures { IfOk result (λ is. IsTrue is ↔ (length (plan_spelling (plan_of plan.now)) ≤ most_plan_bytes)) }
{
    let spelling = spell(alloc, plan)?;
    Ok(spelling.len() <= MAX_PLAN_BYTES)
}

// The result with the bytes of its file.
fn written(alloc: Global, file: u64, made: KeptPlace) -> Result<NewResult, Memory>
    requires { length (kept_spelling made.kept) ≤ most_result_bytes }
    ensures { IfOk result (λ new. new ≡ kept_in file (made_of made)) }
{
    let KeptPlace {
        plan,
        cuts,
        kept,
        machine,
    } = made;
    let bytes = bytes_of(alloc, &kept)?;
    let file = FileRef {
        file,
        len: bytes.len() as u64,
        digest: digest_of(&bytes),
    };
    Ok(NewResult {
        entry: NewEntry {
            plan,
            cuts,
            file,
            machine,
        },
        bytes: Seq::new(bytes),
    })
}

fn bytes_of(alloc: Global, kept: &Kept) -> Result<Vec<u8>, Memory>
    requires { length (kept_spelling kept.now) ≤ most_result_bytes }
    ensures { IfOk result (λ bytes. bytes.items ≡ kept_spelling kept.now) }
{
    encode(alloc, kept)
}
