//! Running a rewriting: its files are read, and its outcome is made.
ghost use Rattle.std.specs.Prelude.{◌≡◌, ◌≢◌, List, [], ◌∷◌, length, IsTrue, IfOk, IfErr, OnOk};
ghost use Rattle.std.specs.List.{AllByRecursion};
ghost use Rattle.plan_core.specs.PlainPlan.{plan_of, leaf_count};
ghost use Rattle.outside_traits.specs.View.{View, Counts};
ghost use Rattle.outside_traits.specs.Calls.{Idles, MayRaiseReads};
ghost use Rattle.rewrite_core.specs.Files.{FileName, files_of};
ghost use Rattle.rewrite_core.specs.PlainRewriting.{rewriting_of};
ghost use Rattle.executor.specs.Pieces.{HasTyping};
ghost use Rattle.growth_laws.specs.KeptResults.{KeptResults};
ghost use Rattle.growth_laws.specs.Lists.{Extents};
ghost use Rattle.growth_laws.specs.Pieces.{pieces_of};
ghost use Rattle.result_ops.specs.Fitting.{FitRows};
ghost use Rattle.executor.specs.Parts.{IsFormed};
ghost use Rattle.executor.specs.Outcomes.{AreKeptFrom};
ghost use Rattle.executor.specs.Running.{TookAtMost, kept_bytes};
ghost use Rattle.executor.specs.Ended.{lost_of, lost_with};
ghost use Rattle.executor.specs.Progress.{left_in};
ghost use Rattle.executor.specs.Runs.{HasRunCause, IsRunFound, EndsAt, Runs};
ghost use Rattle.executor.specs.Sources.{sources, HoldFiles};

use crate::finishing::into_outcome;
use crate::job::{Job, prepare};
use crate::outcome::Outcome;
use crate::refusal::{EndedRun, LostResult, RunRefusal};
use crate::rest::read_rest;
use extent_files::ReadRefusal;
use outside_traits::Store;
use rewrite_core::{Places, Rewriting};
use std::alloc::Global;

/// Reads the files that a rewriting names, each as often as it is named, and makes its outcome. Where the
/// files hold these extents and kept results, the outcome is what finishing gives of them, and the bytes of
/// what they hold are taken. Whatever the files hold, the rows have the kinds of the plan's columns, and what
/// is kept is of places at which the rewriting makes a result. `Overflow` and `Machine` come as in finishing,
/// `Fault` only where the store failed in this call, and `Damaged` and `Unreadable` by the bytes of one of the
/// files, of which is told whether it is a kept result's.
pub fn run<D: Store, P: Places>(
    alloc: Global,
    rewriting: Rewriting,
    store: &mut D,
    places: &P,
) -> Result<Outcome, EndedRun>
    requires formed { IsFormed (rewriting_of rewriting) }
    requires cuts { length rewriting.cuts ≡ leaf_count (plan_of rewriting.plan) }
    requires typed { HasTyping (P.stream_kinds places.now) (plan_of rewriting.plan) }
    requires there { AllByRecursion (P.has places.now) (files_of (rewriting_of rewriting)) }
    ensures outcome { (extents : Extents) (results : KeptResults) → HoldFiles (sources D.tells
        ((D.view store.old).files) (P.files places.now) (P.machines places.now) (P.stream_kinds places.now))
        extents results (pieces_of (rewriting_of rewriting))
        → Runs extents results (rewriting_of rewriting) (D.counts store.old) (D.counts store.new) result }
    ensures kinds { IfOk result (λ outcome. FitRows (P.stream_kinds places.now) outcome.rows.items
        (plan_of rewriting.plan)) }
    ensures places { IfOk result (λ outcome. AreKeptFrom (rewriting_of rewriting) outcome.made.items) }
    ensures most { IsTrue D.tells
        → TookAtMost (kept_bytes (P.files places.now) (files_of (rewriting_of rewriting)))
        (D.counts store.old) (D.counts store.new) }
    ensures cause { IfErr result (λ ended. HasRunCause (P.files places.now)
        (files_of (rewriting_of rewriting)) (D.counts store.old) (D.counts store.new) ended.why) }
    ensures found { IsTrue D.tells → IfErr result (λ ended. IsRunFound (sources D.tells
        ((D.view store.old).files) (P.files places.now) (P.machines places.now) (P.stream_kinds places.now))
        (pieces_of (rewriting_of rewriting)) (files_of (rewriting_of rewriting)) ended.why) }
    ensures lost { IfErr result (λ ended. EndsAt (sources D.tells ((D.view store.old).files)
        (P.files places.now) (P.machines places.now) (P.stream_kinds places.now)) (rewriting_of rewriting)
        (D.counts store.old) (D.counts store.new) ended.why ended.lost) }
    ensures no_fault { OnOk result ((D.counts store.new).reads ≡ (D.counts store.old).reads) }
    ensures idles { Idles (D.view store.old) (D.view store.new) }
    ensures counts { MayRaiseReads (D.counts store.old) (D.counts store.new) }
{
    let mut job = prepare(alloc, rewriting)?;
    match read_rest(alloc, &mut job, store, places) {
        Ok(()) => Ok(into_outcome(alloc, job)?),
        Err(refusal) => Err(EndedRun {
            why: RunRefusal::from(refusal),
            lost: lost_at(&job, &refusal),
        }),
    }
}

// The kept result at whose file reading of the job ended, if it ended at that of one.
fn lost_at(job: &Job, refusal: &ReadRefusal) -> Option<LostResult>
    requires { left_in job.now.parts.items ≢ [] }
    ensures { (name : FileName) (others : List FileName) → left_in job.now.parts.items ≡ name ∷ others
        → result ≡ lost_of name job.now.taken refusal.now }
{
    match refusal {
        ReadRefusal::Damaged { taken, .. } | ReadRefusal::Unreadable { taken, .. } => {
            next_lost(job, *taken)
        }
        ReadRefusal::Fault | ReadRefusal::Memory => None,
    }
}

// The kept result whose file is the job's next one, if it is that of one, of which so many bytes were taken.
fn next_lost(job: &Job, given: u64) -> Option<LostResult>
    requires { left_in job.now.parts.items ≢ [] }
    ensures { (name : FileName) (others : List FileName) → left_in job.now.parts.items ≡ name ∷ others
        → result ≡ lost_with name job.now.taken given }
{
    match job.next_result() {
        Some(id) => Some(LostResult {
            id,
            taken: job.taken().saturating_add(given),
        }),
        None => None,
    }
}
