//! Digests of bytes.
ghost use Rattle.std.specs.Prelude.{◌≡◌};
ghost use Rattle.extent_files.specs.Files.{digest_of};

use rows_core::Digest;
use sha2::{Digest as Hasher, Sha256};

/// The SHA-256 digest of the bytes (FIPS 180-4). It takes no memory.
pub fn digest_of(bytes: &[u8]) -> Digest
    ensures { result ≡ digest_of bytes.now }
{
    Digest {
        bytes: Sha256::digest(bytes),
    }
}
