//! Where the files that rewritings name stand.
ghost use Rattle.std.specs.Prelude.{◌≡◌, ℕ, List};
ghost use Rattle.rows_core.specs.declared.file_ref.FileRef.{FileRef};
ghost use Rattle.plan_core.specs.PlanTyping.{Kinds};
ghost use Rattle.rewrite_core.specs.Files.{FileName, Extent, Result};

use plan_core::Schemas;
use rows_core::FileRef;

/// What tells where the files of extents and of kept results stand, and what is known of them.
pub trait Places {
    // There is such an extent, or such a kept result.
    ghost has: { Self → FileName → Type 0 };

    // The file of each of them.
    ghost files: { Self → FileName → FileRef };

    // The machine time of each kept result, by its id.
    ghost machines: { Self → ℕ → ℕ };

    // The kinds of the columns of each stream.
    ghost stream_kinds: { Self → List Kinds };

    /// The file of a stream's extent that is there; streams and extents are counted from 0.
    fn extent(&self, stream: u32, number: u32) -> FileRef
        requires { has self.now (Extent stream number) }
        ensures { result ≡ files self.now (Extent stream number) };

    /// The file of the kept result with this id, which is there.
    fn result(&self, id: u32) -> FileRef
        requires { has self.now (Result id) }
        ensures { result ≡ files self.now (Result id) };

    /// The machine time of the kept result with this id, which is there: 1 and the rows that its plan takes
    /// in.
    fn machine(&self, id: u32) -> u32
        requires { has self.now (Result id) }
        ensures { result ≡ machines self.now id };

    /// The kinds of the columns of each stream.
    fn schemas(&self) -> &Schemas
        ensures { result.now.kinds ≡ stream_kinds self.now };
}
