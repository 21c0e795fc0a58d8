//! Where the files of a catalogue's extents and kept results stand, and what is known of them.
ghost use Rattle.std.specs.Prelude.{◌≡◌};
ghost use Rattle.rewrite_core.specs.Files.{Result};
ghost use Rattle.catalog_core.specs.Catalogs.{table_of};
ghost use Rattle.catalog_core.specs.Named.{lengths_of, HasFile, file_at, machine_at};
ghost use Rattle.catalog_core.specs.Programs.{kinds_of_streams};

use crate::catalog::Catalog;
use crate::extents::extents_at;
use catalog_types::Entry;
use estimator::Sizes;
use plan_core::Schemas;
use rewrite_core::Places;
use rows_core::FileRef;

impl Sizes for Catalog {
    ghost lengths = { λ catalog. lengths_of (table_of catalog).streams };

    fn extent_len(&self, stream: u32, number: u32) -> u64 {
        self.extent(stream, number).len
    }
}

impl Places for Catalog {
    ghost has = { λ catalog. HasFile (table_of catalog) };

    ghost files = { λ catalog. file_at (table_of catalog) };

    ghost machines = { λ catalog. machine_at (table_of catalog) };

    ghost stream_kinds = { λ catalog. kinds_of_streams (table_of catalog).streams };

    fn extent(&self, stream: u32, number: u32) -> FileRef {
        extents_at(self.streams(), stream)[number as usize].file
    }

    fn result(&self, id: u32) -> FileRef {
        present_entry(self, id).file
    }

    fn machine(&self, id: u32) -> u32 {
        present_entry(self, id).machine
    }

    fn schemas(&self) -> &Schemas {
        Catalog::schemas(self)
    }
}

// The kept result with this id, which is there.
fn present_entry(catalog: &Catalog, id: u32) -> &Entry
    requires { HasFile (table_of catalog.now) (Result id) }
    ensures file { result.now.file ≡ file_at (table_of catalog.now) (Result id) }
    ensures machine { result.now.machine ≡ machine_at (table_of catalog.now) id }
{
    match catalog.entry(id) {
        Some(entry) => entry,
        None => unreachable!(),
    }
}
