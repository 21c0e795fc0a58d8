//! Files in memory, of extents and of kept results.
ghost use Rattle.std.specs.Prelude.{◌≡◌};
ghost use Rattle.cases_executor.specs.Filed.{extents_at, kept_at, file_of, HasFile};

use crate::given::Case;
use anyhow::{Context, Result, bail};
use executor::KeptPlace;
use extent_files::{digest_of, write_file};
use mem_outside::MemStore;
use plan_core::Schemas;
use postfix_plans::{ExtentLens, ListedResult, ResultList};
use rewrite_core::{Lookup, Places};
use row_blob::{Kept, encode, encoded_len};
use rows_core::{FileRef, Kind, Row, Seq, copy_rows};
use std::alloc::Global;

/// The file of a kept result, and its machine time.
#[derive(Clone, Copy)]
pub struct KeptFile {
    pub at: FileRef,
    pub machine: u32,
}

/// The kinds of the streams, where the files of their extents stand and how long these are, and the kept
/// results, whose ids count up from 0.
#[derive(Drop)]
pub struct Shelf {
    pub schemas: Schemas,
    pub extents: Seq<Seq<FileRef>>,
    pub lens: ExtentLens,
    pub results: ResultList,
    pub kept: Vec<KeptFile>,
}

impl Places for Shelf {
    ghost has = { λ shelf. HasFile shelf.extents shelf.kept.items };

    ghost files = { λ shelf. file_of shelf.extents shelf.kept.items };

    ghost machines = { λ shelf id. (kept_at shelf.kept.items id).machine };

    ghost stream_kinds = { λ shelf. shelf.schemas.kinds };

    fn extent(&self, stream: u32, number: u32) -> FileRef {
        extents_at(self.extents.items(), stream)[number as usize]
    }

    fn result(&self, id: u32) -> FileRef {
        self.kept[id as usize].at
    }

    fn machine(&self, id: u32) -> u32 {
        self.kept[id as usize].machine
    }

    fn schemas(&self) -> &Schemas {
        &self.schemas
    }
}

/// The files of a stream's extents.
pub fn extents_at(extents: &[Seq<FileRef>], stream: u32) -> &[FileRef]
    ensures { result.now ≡ extents_at extents.now stream }
{
    match extents.get(stream as usize) {
        Some(files) => files.items(),
        None => &[],
    }
}

/// A store in memory, and the number of its next file.
#[derive(Drop)]
pub struct Disk {
    pub store: MemStore,
    next: u64,
}

impl Disk {
    pub fn new(alloc: Global) -> Disk {
        Disk {
            store: MemStore::new(alloc, Vec::new(alloc)),
            next: 0,
        }
    }

    /// Writes a file that holds the kept form.
    fn write(&mut self, alloc: Global, kept: &Kept) -> Result<FileRef> {
        if encoded_len(kept) == u64::MAX {
            bail!("too long a file");
        }
        let bytes = encode(alloc, kept)?;
        let file = self.next;
        self.next = file.checked_add(1).context("too many files")?;
        write_file(&mut self.store, file, &bytes)?;
        Ok(FileRef {
            file,
            len: bytes.len() as u64,
            digest: digest_of(&bytes),
        })
    }
}

/// The files of the extents of a case, and of no kept result.
pub fn shelf_of(alloc: Global, case: &Case, disk: &mut Disk) -> Result<Shelf> {
    let mut files = Vec::new(alloc);
    let mut lens = Vec::new(alloc);
    for extents in case.extents.items() {
        put_extents(alloc, extents.items(), disk, &mut files, &mut lens)?;
    }
    let schemas = copied(alloc, &case.schemas)?;
    Ok(Shelf {
        schemas,
        extents: Seq::new(files),
        lens: ExtentLens {
            lens: Seq::new(lens),
        },
        results: ResultList {
            results: Vec::new(alloc),
        },
        kept: Vec::new(alloc),
    })
}

/// Writes a stream's extents, and appends where they stand and how long they are.
fn put_extents(
    alloc: Global,
    extents: &[Seq<Row>],
    disk: &mut Disk,
    files: &mut Vec<Seq<FileRef>>,
    lens: &mut Vec<Seq<u64>>,
) -> Result<()> {
    let written = extents_written(alloc, extents, disk)?;
    lens.push(lens_of(alloc, &written)?)?;
    Ok(files.push(Seq::new(written))?)
}

fn extents_written(alloc: Global, extents: &[Seq<Row>], disk: &mut Disk) -> Result<Vec<FileRef>> {
    let mut files = Vec::new(alloc);
    for rows in extents {
        files.push(rows_written(alloc, rows.items(), disk)?)?;
    }
    Ok(files)
}

fn rows_written(alloc: Global, rows: &[Row], disk: &mut Disk) -> Result<FileRef> {
    let kept = Kept::Rows(Seq::new(copy_rows(alloc, rows)?));
    disk.write(alloc, &kept)
}

fn lens_of(alloc: Global, files: &[FileRef]) -> Result<Seq<u64>> {
    let mut lens = Vec::new(alloc);
    for file in files {
        lens.push(file.len)?;
    }
    Ok(Seq::new(lens))
}

fn copied(alloc: Global, schemas: &Schemas) -> Result<Schemas> {
    let mut kinds = Vec::new(alloc);
    for stream in schemas.kinds.items() {
        kinds.push(kinds_copied(alloc, stream)?)?;
    }
    Ok(Schemas {
        kinds: Seq::new(kinds),
    })
}

fn kinds_copied(alloc: Global, kinds: &Seq<Kind>) -> Result<Seq<Kind>> {
    Ok(kinds.try_copy(alloc)?)
}

/// Keeps a result, unless one of its plan and cut is kept. The answer is its id.
pub fn keep(
    alloc: Global,
    place: &KeptPlace,
    shelf: &mut Shelf,
    disk: &mut Disk,
) -> Result<Option<u32>> {
    if is_kept(alloc, place, shelf)? {
        return Ok(None);
    }
    let at = disk.write(alloc, &place.kept)?;
    let id = u32::try_from(shelf.kept.len())
        .ok()
        .context("too many results")?;
    shelf.kept.push(KeptFile {
        at,
        machine: place.machine,
    })?;
    let cuts = place.cuts.try_copy(alloc)?;
    let plan = place.plan.try_copy(alloc)?;
    shelf.results.results.push(ListedResult {
        id,
        plan,
        cuts,
        len: at.len,
    })?;
    Ok(Some(id))
}

fn is_kept(alloc: Global, place: &KeptPlace, shelf: &Shelf) -> Result<bool> {
    let whole = shelf.results.whole(alloc, &place.plan, place.cuts.items())?;
    Ok(whole.is_some())
}
