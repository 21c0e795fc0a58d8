//! Reading all files of a job that are left.
ghost use Rattle.std.specs.Prelude.{◌≡◌, ◌+◌, List, [], ◌++◌, IsTrue, IfErr, OnOk};
ghost use Rattle.std.specs.List.{AllByRecursion};
ghost use Rattle.outside_traits.specs.View.{View, Counts};
ghost use Rattle.outside_traits.specs.Calls.{Idles, MayRaiseReads};
ghost use Rattle.estimator.specs.Bytes.{capped};
ghost use Rattle.rewrite_core.specs.Files.{FileName};
ghost use Rattle.growth_laws.specs.Pieces.{Piece};
ghost use Rattle.executor.specs.Progress.{left_in, ArePartsOf};
ghost use Rattle.executor.specs.Running.{ReadsOn, StopsAt, EndsBy, EndsOver, TookAtMost, kept_bytes};
ghost use Rattle.executor.specs.Sources.{sources};

use crate::job::Job;
use crate::reading::read_next;
use extent_files::ReadRefusal;
use outside_traits::Store;
use rewrite_core::Places;
use std::alloc::Global;

/// Reads the files of the job that are left, each whole, one after another, and counts their bytes. After a
/// refusal those before the refused one are read, and the others are still left. The refusals are those of
/// reading a kept form.
pub fn read_rest<D: Store, P: Places>(
    alloc: Global,
    job: &mut Job,
    store: &mut D,
    places: &P,
) -> Result<(), ReadRefusal>
    requires there { AllByRecursion (P.has places.now) (left_in job.old.parts.items) }
    requires parts { (pieces : List Piece)
        × ArePartsOf (P.stream_kinds places.now) pieces job.old.parts.items }
    ensures rewriting { job.new.rewriting ≡ job.old.rewriting }
    ensures left { OnOk result (left_in job.new.parts.items ≡ []) }
    ensures read { OnOk result (ReadsOn (sources D.tells ((D.view store.old).files) (P.files places.now)
        (P.machines places.now) (P.stream_kinds places.now)) job.old.parts.items job.new.parts.items
        (D.counts store.old) (D.counts store.new)) }
    // Before a refusal files are read as well, and what the last one gave is told.
    ensures stops { IfErr result (StopsAt (sources D.tells ((D.view store.old).files) (P.files places.now)
        (P.machines places.now) (P.stream_kinds places.now)) job.old.parts.items job.new.parts.items
        (D.counts store.old) (D.counts store.new)) }
    ensures counted { (names : List FileName)
        → left_in job.old.parts.items ≡ names ++ left_in job.new.parts.items
        → job.new.taken ≡ capped (job.old.taken + kept_bytes (P.files places.now) names) }
    ensures most { IsTrue D.tells
        → TookAtMost (kept_bytes (P.files places.now) (left_in job.old.parts.items)) (D.counts store.old)
        (D.counts store.new) }
    ensures cause { IfErr result (EndsBy (P.files places.now) (left_in job.old.parts.items)
        (D.counts store.old) (D.counts store.new)) }
    ensures found { (pieces : List Piece)
        → ArePartsOf (P.stream_kinds places.now) pieces job.old.parts.items → IsTrue D.tells → IfErr result
        (EndsOver (sources D.tells ((D.view store.old).files) (P.files places.now) (P.machines places.now)
        (P.stream_kinds places.now)) pieces (left_in job.old.parts.items)) }
    ensures idles { Idles (D.view store.old) (D.view store.new) }
    ensures counts { MayRaiseReads (D.counts store.old) (D.counts store.new) }
{
    // It fits a u64 before.
    let _taken = job.taken;
    while job.left() > 0 {
        read_next(alloc, job, store, places)?;
    }
    Ok(())
}
