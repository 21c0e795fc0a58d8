//! What stands for a file's content: its number, the length that counts and the digest of that much.
ghost use Rattle.std.specs.Prelude.{◌≡◌, ◌↔◌, IsTrue};

use crate::exact_eq::ExactEq;

/// A SHA-256 digest (FIPS 180-4).
#[derive(Clone, Copy, Debug, PartialEq, Eq, Hash)]
pub struct Digest {
    pub bytes: [u8; 32],
}

impl Digest {
    /// Whether the two are equal, which is what `==` says.
    pub fn is_same(&self, other: &Digest) -> bool
        ensures { IsTrue result ↔ (self.now ≡ other.now) }
    {
        self == other
    }
}

/// A file of the store, by its number, with the length in bytes and the digest of the first bytes that count.
#[derive(Clone, Copy, PartialEq, Eq)]
pub struct FileRef {
    pub file: u64,
    pub len: u64,
    pub digest: Digest,
}

impl FileRef {
    /// Whether the two are equal, which is what `==` says.
    pub fn is_same(&self, other: &FileRef) -> bool
        ensures { IsTrue result ↔ (self.now ≡ other.now) }
    {
        self == other
    }
}

impl ExactEq for Digest {
    ghost use Rattle.std.proofs.Common.{rules};

    ghost exact = { Prim.search rules };
}

impl ExactEq for FileRef {
    ghost use Rattle.std.proofs.Common.{rules};

    ghost exact = { Prim.search rules };
}
