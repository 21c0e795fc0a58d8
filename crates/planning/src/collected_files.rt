//! The files of kept results.
ghost use Rattle.std.specs.Prelude.{◌≡◌, ◌<◌, ◌^◌, IfOk, IsTrue};
ghost use Rattle.std.specs.List.{All};
ghost use Rattle.entry_table.specs.Ids.{is_there};
ghost use Rattle.catalog_core.specs.Catalogs.{table_of};
ghost use Rattle.planning.specs.Collecting.{files_of, bytes_of};

use catalog_core::Catalog;
use rewrite_core::Places;
use rows_core::Memory;
use std::alloc::Global;

// The numbers of the files of the kept results with these ids, in the same order.
pub(crate) fn files_of(alloc: Global, catalog: &Catalog, ids: &[u32]) -> Result<Vec<u64>, Memory>
    requires { All (λ id. IsTrue (is_there (table_of catalog.now).entries id)) ids.now }
    ensures { IfOk result (λ files. files.items ≡ files_of (table_of catalog.now) ids.now) }
{
    let mut files = Vec::with_capacity(alloc, ids.len())?;
    for id in ids {
        files.push(catalog.result(*id).file)?;
    }
    Ok(files)
}

// How many bytes the files of the kept results with these ids have together.
pub(crate) fn bytes_of(catalog: &Catalog, ids: &[u32]) -> u64
    requires there { All (λ id. IsTrue (is_there (table_of catalog.now).entries id)) ids.now }
    requires few { bytes_of (table_of catalog.now) ids.now < 2 ^ 64 }
    ensures { result ≡ bytes_of (table_of catalog.now) ids.now }
{
    let mut bytes = 0;
    for id in ids {
        bytes += catalog.result(*id).len;
    }
    bytes
}
