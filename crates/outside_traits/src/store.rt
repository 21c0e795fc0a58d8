//! Where the files lie.
ghost use Rattle.std.specs.Prelude.{◌≡◌, ◌⊎◌, ℕ, ◌+◌, ◌^◌, ◌<◌, ◌≤◌, Bool, true, false, [], length, take};
ghost use Rattle.std.specs.Prelude.{IsTrue, IfOk, OnOk, OnErr, IfSome};
ghost use Rattle.outside_traits.specs.Counts.{Rose};
ghost use Rattle.outside_traits.specs.View.{View, Counts, Now, Only};
ghost use Rattle.outside_traits.specs.Calls.{
  overlaid,
  Torn,
  Shortened,
  Same,
  Gone,
  Acts,
  Idles,
  StayGone,
  NextIs,
  IsRead,
  MayRaiseReads,
  MayRaiseWrites,
  MayRaiseRemoves,
  CountsTaken,
};

use crate::failed::Failed;

/// A folder of files, which are named by numbers. A file that isn't there reads as empty.
///
/// A crash leaves each file by itself. Between two syncs of a file its length after a crash is any from the
/// least to the greatest that it had since the first of them; each byte that was written since, or that stood
/// past some length that it had since, may be any byte; all other bytes stay. A removed file may be there or
/// not until a later successful sync of any file. After a successful sync of a file a crash leaves of it what
/// a read gives.
///
/// A store need not tell what its files are: then what the calls give, and what a sync makes stable, isn't
/// promised. What a call leaves alone, the moments and the counts are promised of every store. Only a failed
/// call raises a count of faults.
pub trait Store {
    // Whether it tells what its files are.
    ghost tells: { Bool };

    // What the files read as, and what a crash now, or at some moment before, may leave of each.
    ghost view: { Self → View };

    // How many calls have failed, by kinds, and how many bytes were taken.
    ghost counts: { Self → Counts };

    /// Makes the folder be there and in use.
    fn attach(&mut self, folder: &str) -> Result<(), Failed>
        ensures idles { Idles (view self.old) (view self.new) }
        ensures cause { OnErr result (Rose (counts self.old).reads (counts self.new).reads) }
        ensures no_fault { OnOk result ((counts self.new).reads ≡ (counts self.old).reads) }
        ensures counts { MayRaiseReads (counts self.old) (counts self.new) }
        ensures taken { (counts self.new).taken ≡ (counts self.old).taken };

    /// The file's length in bytes.
    fn size(&mut self, file: u64) -> Result<u64, Failed>
        ensures size { IsTrue tells → IfOk result (λ size. size ≡ length ((view self.old).files file)) }
        ensures idles { Idles (view self.old) (view self.new) }
        ensures cause { OnErr result (Rose (counts self.old).reads (counts self.new).reads) }
        ensures no_fault { OnOk result ((counts self.new).reads ≡ (counts self.old).reads) }
        ensures counts { MayRaiseReads (counts self.old) (counts self.new) }
        ensures taken { (counts self.new).taken ≡ (counts self.old).taken };

    /// Puts the file's bytes from `at` on in front of `buf`, as many as `buf` takes and the file has, and
    /// answers how many these are.
    fn read(&mut self, file: u64, at: u64, buf: &mut [u8]) -> Result<usize, Failed>
        ensures bound { IfOk result (λ n. n ≤ length buf.new) }
        ensures bytes { IsTrue tells
            → IfOk result (λ n. IsRead ((view self.old).files file) at (length buf.old) n buf.new) }
        ensures idles { Idles (view self.old) (view self.new) }
        ensures cause { OnErr result (Rose (counts self.old).reads (counts self.new).reads) }
        ensures no_fault { OnOk result ((counts self.new).reads ≡ (counts self.old).reads) }
        ensures counts { MayRaiseReads (counts self.old) (counts self.new) }
        ensures taken { IfOk result (λ n. CountsTaken n (counts self.old) (counts self.new)) }
        ensures none_taken { OnErr result ((counts self.new).taken ≡ (counts self.old).taken) };

    /// Writes the bytes at `at`, with zero bytes in a gap before them; so a write of no bytes past the end
    /// makes the file longer, up to `at`. After `Failed` the range, and what is past the old end up to the
    /// range's end, may be anything.
    fn write(&mut self, file: u64, at: u64, bytes: &[u8]) -> Result<(), Failed>
        requires { at + length bytes.now < 2 ^ 64 }
        ensures written { IsTrue tells
            → OnOk result ((view self.new).files file ≡ overlaid ((view self.old).files file) at bytes.now) }
        ensures there { IsTrue tells → OnOk result ((view self.new).there file ≡ true) }
        ensures acts { Acts file (Torn at (length bytes.now)) (view self.old) (view self.new) }
        ensures cause { OnErr result (Rose (counts self.old).writes (counts self.new).writes) }
        ensures no_fault { OnOk result ((counts self.new).writes ≡ (counts self.old).writes) }
        ensures counts { MayRaiseWrites (counts self.old) (counts self.new) };

    /// Cuts a longer file to this length, and leaves a shorter one as it is. After `Failed` it has the old or
    /// the new length.
    fn cut(&mut self, file: u64, len: u64) -> Result<(), Failed>
        ensures cut { IsTrue tells
            → OnOk result ((view self.new).files file ≡ take len ((view self.old).files file)) }
        ensures failed { IsTrue tells
            → OnErr result (((view self.new).files file ≡ (view self.old).files file)
            ⊎ ((view self.new).files file ≡ take len ((view self.old).files file))) }
        ensures there { (view self.new).there file ≡ (view self.old).there file }
        ensures acts { Acts file (Shortened len) (view self.old) (view self.new) }
        ensures cause { OnErr result (Rose (counts self.old).writes (counts self.new).writes) }
        ensures no_fault { OnOk result ((counts self.new).writes ≡ (counts self.old).writes) }
        ensures counts { MayRaiseWrites (counts self.old) (counts self.new) };

    /// Makes the file stable, and each removal before, of any file.
    fn sync(&mut self, file: u64) -> Result<(), Failed>
        ensures stable { IsTrue tells
            → OnOk result (Only ((view self.old).files file) (Now (view self.new) file)) }
        ensures removals { IsTrue tells → OnOk result (StayGone (view self.new)) }
        ensures there { (view self.new).there file ≡ (view self.old).there file }
        ensures acts { Acts file Same (view self.old) (view self.new) }
        ensures cause { OnErr result (Rose (counts self.old).writes (counts self.new).writes) }
        ensures no_fault { OnOk result ((counts self.new).writes ≡ (counts self.old).writes) }
        ensures counts { MayRaiseWrites (counts self.old) (counts self.new) };

    /// Makes the file not be there. After `Failed` it is there or not.
    fn remove(&mut self, file: u64) -> Result<(), Failed>
        ensures removed { IsTrue tells → OnOk result ((view self.new).there file ≡ false) }
        ensures acts { Acts file Gone (view self.old) (view self.new) }
        ensures cause { OnErr result (Rose (counts self.old).removes (counts self.new).removes) }
        ensures no_fault { OnOk result ((counts self.new).removes ≡ (counts self.old).removes) }
        ensures counts { MayRaiseRemoves (counts self.old) (counts self.new) };

    /// The least number of a file that is there, at or above `from`.
    fn next_file(&mut self, from: u64) -> Result<Option<u64>, Failed>
        ensures bound { IfOk result (λ next. IfSome next (λ file. from ≤ file)) }
        ensures next { IsTrue tells → IfOk result (NextIs (view self.old).there from) }
        ensures idles { Idles (view self.old) (view self.new) }
        ensures cause { OnErr result (Rose (counts self.old).reads (counts self.new).reads) }
        ensures no_fault { OnOk result ((counts self.new).reads ≡ (counts self.old).reads) }
        ensures counts { MayRaiseReads (counts self.old) (counts self.new) }
        ensures taken { (counts self.new).taken ≡ (counts self.old).taken };

    // What a read gives is one of the outcomes of a crash now.
    ghost reads_outcome: { (store : Self) (file : ℕ) → Now (view store) file ((view store).files file) };

    // A file that isn't there reads as empty.
    ghost absent_is_empty: { (store : Self) (file : ℕ) → (view store).there file ≡ false
        → (view store).files file ≡ [] };
}
