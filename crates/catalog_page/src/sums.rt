//! Bytes of kept results.
ghost use Rattle.std.specs.Prelude.{◌≡◌, if◌then◌else◌, map};
ghost use Rattle.catalog_page.specs.Page.{bytes_where, has_key, reads};
ghost use Rattle.catalog_page.specs.Plain.{kept_of};

use crate::catalogue::Kept;
use rows_core::Text;

/// The bytes of the results that read the stream of this name.
pub(crate) fn bytes_of_stream(results: &[Kept], stream: &[u8]) -> u128
    ensures { result ≡ bytes_where (reads stream.now) (map kept_of results.now) }
{
    let mut bytes = 0;
    for kept in results {
        bytes += u128::from(size_if(reads(stream, kept), kept));
    }
    bytes
}

/// The bytes of the results whose plan has this key.
pub(crate) fn bytes_of_program(results: &[Kept], key: &Option<Text>) -> u128
    ensures { result ≡ bytes_where (has_key key.now) (map kept_of results.now) }
{
    let mut bytes = 0;
    for kept in results {
        bytes += u128::from(size_if(has_key(key, kept), kept));
    }
    bytes
}

fn size_if(counts: bool, kept: &Kept) -> u64
    ensures { result ≡ (if counts then kept.now.standing.size else 0) }
{
    if counts { kept.standing.size } else { 0 }
}

fn reads(stream: &[u8], kept: &Kept) -> bool
    ensures { result ≡ reads stream.now (kept_of kept.now) }
{
    kept.cuts
        .items()
        .iter()
        .any(|cut| cut.stream.bytes() == stream)
}

/// Whether its plan has this key.
pub(crate) fn has_key(key: &Option<Text>, kept: &Kept) -> bool
    ensures { result ≡ has_key key.now (kept_of kept.now) }
{
    match key {
        Some(key) => key.items() == kept.key.items(),
        None => false,
    }
}
