//! Reading the next file of a job.
ghost use Rattle.std.specs.Prelude.{◌≡◌, ◌≢◌, ◌+◌, List, [], ◌∷◌, take, IsTrue, IfErr, OnOk, OnErr};
ghost use Rattle.std.specs.List.{AllByRecursion};
ghost use Rattle.rows_core.specs.declared.file_ref.FileRef.{FileRef};
ghost use Rattle.estimator.specs.Bytes.{capped};
ghost use Rattle.outside_traits.specs.View.{View, Counts};
ghost use Rattle.outside_traits.specs.Calls.{Idles, MayRaiseReads};
ghost use Rattle.rewrite_core.specs.Files.{FileName};
ghost use Rattle.growth_laws.specs.KeptResults.{KeptResults};
ghost use Rattle.growth_laws.specs.Lists.{Extents};
ghost use Rattle.growth_laws.specs.Pieces.{Piece};
ghost use Rattle.extent_files.specs.Reads.{HasCause, FoundIn};
ghost use Rattle.executor.specs.Firsts.{IsFirst};
ghost use Rattle.executor.specs.Progress.{files_left, left_in, result_of, next_shape, IsNextPart, IsPartOf};
ghost use Rattle.executor.specs.Progress.{ArePartsOf, HaveRead};
ghost use Rattle.executor.specs.Running.{TookAtMost};
ghost use Rattle.executor.specs.Sources.{sources, HoldFiles, HasTaken, HasReadNext};

use crate::job::Job;
use crate::part::Part;
use crate::step::{feed_extent, load_entry};
use extent_files::ReadRefusal;
use outside_traits::Store;
use rewrite_core::Places;
use std::alloc::Global;

/// Reads the next file of the job whole, feeds what it holds at once, and counts as many of its bytes as
/// count. After a refusal the job is as before. The refusals are those of reading a kept form.
pub fn read_next<D: Store, P: Places>(
    alloc: Global,
    job: &mut Job,
    store: &mut D,
    places: &P,
) -> Result<(), ReadRefusal>
    requires left { left_in job.old.parts.items ≢ [] }
    requires there { AllByRecursion (P.has places.now) (left_in job.old.parts.items) }
    requires parts { (pieces : List Piece)
        × ArePartsOf (P.stream_kinds places.now) pieces job.old.parts.items }
    ensures rewriting { job.new.rewriting ≡ job.old.rewriting }
    ensures refused { OnErr result (job.new.parts.items ≡ job.old.parts.items) }
    ensures uncounted { OnErr result (job.new.taken ≡ job.old.taken) }
    ensures counted { (name : FileName) (others : List FileName) → left_in job.old.parts.items ≡ name ∷ others
        → OnOk result (job.new.taken ≡ capped (job.old.taken + (P.files places.now name).len)) }
    ensures next { OnOk result ((name : FileName)
        × (left_in job.old.parts.items ≡ name ∷ left_in job.new.parts.items)) }
    ensures parts { OnOk result ((pieces : List Piece)
        → ArePartsOf (P.stream_kinds places.now) pieces job.old.parts.items
        → ArePartsOf (P.stream_kinds places.now) pieces job.new.parts.items) }
    // Where the files hold the pieces, what the next one holds is read, and its bytes are taken once.
    ensures read { OnOk result ((extents : Extents) (results : KeptResults) (pieces : List Piece)
        (name : FileName) (others : List FileName) → left_in job.old.parts.items ≡ name ∷ others
        → HoldFiles (sources D.tells ((D.view store.old).files) (P.files places.now) (P.machines places.now)
        (P.stream_kinds places.now)) extents results pieces
        → ArePartsOf (P.stream_kinds places.now) pieces job.old.parts.items
        → HaveRead (P.stream_kinds places.now) extents results pieces job.old.parts.items
        → HaveRead (P.stream_kinds places.now) extents results pieces job.new.parts.items
        × HasTaken extents results name (D.counts store.old) (D.counts store.new)) }
    ensures most { (name : FileName) (others : List FileName) → left_in job.old.parts.items ≡ name ∷ others
        → IsTrue D.tells → OnOk result
        (TookAtMost (P.files places.now name).len (D.counts store.old) (D.counts store.new)) }
    ensures cause { (name : FileName) (others : List FileName) → left_in job.old.parts.items ≡ name ∷ others
        → IfErr result (HasCause (P.files places.now name) (D.counts store.old) (D.counts store.new)) }
    ensures found { (next : Part) (name : FileName) (others : List FileName)
        → IsNextPart job.old.parts.items next → left_in job.old.parts.items ≡ name ∷ others
        → IsTrue D.tells → let at = P.files places.now name in IfErr result
        (FoundIn (next_shape (P.stream_kinds places.now) next) at
        (take at.len ((D.view store.old).files at.file)) (D.counts store.old) (D.counts store.new)) }
    ensures no_fault { OnOk result ((D.counts store.new).reads ≡ (D.counts store.old).reads) }
    ensures idles { Idles (D.view store.old) (D.view store.new) }
    ensures counts { MayRaiseReads (D.counts store.old) (D.counts store.new) }
{
    let next = next_of(job.parts.as_slice());
    let part = &mut job.parts[next];
    let len = next_len(part, places);
    read_part(alloc, part, store, places)?;
    job.taken = job.taken.saturating_add(len);
    Ok(())
}

impl Job {
    /// The id of the kept result whose file is read next, if it is that of one. It takes no memory.
    pub fn next_result(&self) -> Option<u32>
        requires { left_in self.now.parts.items ≢ [] }
        ensures { (name : FileName) (others : List FileName) → left_in self.now.parts.items ≡ name ∷ others
            → result ≡ result_of name }
    {
        let next = next_of(self.parts.as_slice());
        result_in(&self.parts[next])
    }
}

// The id of the kept result whose file is the next one of a part.
fn result_in(part: &Part) -> Option<u32>
    requires { files_left part.now ≢ [] }
    ensures { (name : FileName) (others : List FileName) → files_left part.now ≡ name ∷ others
        → result ≡ result_of name }
{
    match part {
        Part::Entry { id, .. } => Some(*id),
        Part::Gathered { .. } => None,
    }
}

// The place of the first part of which a file is left.
fn next_of(parts: &[Part]) -> usize
    requires { left_in parts.now ≢ [] }
    ensures { IsFirst files_left parts.now result }
{
    // No list is longer than a usize tells.
    let _len = parts.len();
    match parts {
        [] => unreachable!(),
        [part, rest @ ..] => {
            if part.left() > 0 {
                0
            } else {
                next_of(rest) + 1
            }
        }
    }
}

// How many bytes of the next file of a part count.
fn next_len<P: Places>(part: &Part, places: &P) -> u64
    requires left { files_left part.now ≢ [] }
    requires there { AllByRecursion (P.has places.now) (files_left part.now) }
    ensures { (name : FileName) (others : List FileName) → files_left part.now ≡ name ∷ others
        → result ≡ (P.files places.now name).len }
{
    match part {
        Part::Entry { id, .. } => places.result(*id).len,
        Part::Gathered { stream, next, .. } => places.extent(*stream, *next).len,
    }
}

// Reads the next file of a part. After a refusal it is as before.
pub(crate) fn read_part<D: Store, P: Places>(
    alloc: Global,
    part: &mut Part,
    store: &mut D,
    places: &P,
) -> Result<(), ReadRefusal>
    requires left { files_left part.old ≢ [] }
    requires there { AllByRecursion (P.has places.now) (files_left part.old) }
    requires part { (piece : Piece) × IsPartOf (P.stream_kinds places.now) piece part.old }
    ensures refused { OnErr result (part.new ≡ part.old) }
    ensures next { OnOk result ((name : FileName) × (files_left part.old ≡ name ∷ files_left part.new)) }
    ensures part { OnOk result ((piece : Piece) → IsPartOf (P.stream_kinds places.now) piece part.old
        → IsPartOf (P.stream_kinds places.now) piece part.new) }
    ensures read { OnOk result ((extents : Extents) (results : KeptResults) (piece : Piece)
        → HasReadNext (sources D.tells ((D.view store.old).files) (P.files places.now) (P.machines places.now)
        (P.stream_kinds places.now)) extents results piece part.old part.new (D.counts store.old)
        (D.counts store.new)) }
    ensures most { (name : FileName) (others : List FileName) → files_left part.old ≡ name ∷ others
        → IsTrue D.tells → OnOk result
        (TookAtMost (P.files places.now name).len (D.counts store.old) (D.counts store.new)) }
    ensures cause { (name : FileName) (others : List FileName) → files_left part.old ≡ name ∷ others
        → IfErr result (HasCause (P.files places.now name) (D.counts store.old) (D.counts store.new)) }
    ensures found { (name : FileName) (others : List FileName) → files_left part.old ≡ name ∷ others
        → IsTrue D.tells → let at = P.files places.now name in IfErr result
        (FoundIn (next_shape (P.stream_kinds places.now) part.old) at
        (take at.len ((D.view store.old).files at.file)) (D.counts store.old) (D.counts store.new)) }
    ensures no_fault { OnOk result ((D.counts store.new).reads ≡ (D.counts store.old).reads) }
    ensures idles { Idles (D.view store.old) (D.view store.new) }
    ensures counts { MayRaiseReads (D.counts store.old) (D.counts store.new) }
{
    match part {
        Part::Entry { plan, id, loaded } => {
            load_entry(alloc, plan, *id, loaded, store, places)?;
        }
        Part::Gathered {
            gathering,
            stream,
            next,
            end,
        } => {
            // `next` stands before `end`, so the next number fits.
            let _end = *end;
            feed_extent(alloc, gathering, *stream, *next, store, places)?;
            *next += 1;
        }
    }
    Ok(())
}
