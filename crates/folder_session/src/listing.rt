//! What is told of the folder: the kept results, and the catalogue.
ghost use Rattle.std.specs.Prelude.{◌≡◌, ◌⊎◌, IfOk, map};
ghost use Rattle.folder.specs.Folders.{table_in};
ghost use Rattle.folder_session.specs.Machine.{summary_of, told_catalog, told_entries};
ghost use Rattle.folder_session.specs.Standing.{folder_of};

use crate::session::FolderSession;
use catalog_line::catalog_line;
use catalog_types::Entry;
use rows_core::{Memory, Seq};
use script_text::{Answer, EntrySummary, Refusal};
use std::alloc::Global;

impl FolderSession {
    /// Tells the kept results by their ids.
    pub(crate) fn tell_entries(self) -> (FolderSession, Answer)
        ensures session { result.0 ≡ self }
        ensures told { (result.1 ≡ told_entries (table_in (folder_of self)))
            ⊎ (result.1 ≡ Answer.Refused Refusal.Memory) }
    {
        let answer = match summaries(self.alloc, self.folder.catalog().entries()) {
            Ok(summaries) => Answer::Entries(Seq::new(summaries)),
            Err(Memory) => Answer::Refused(Refusal::Memory),
        };
        (self, answer)
    }

    /// Tells streams, programs and kept results as one line.
    pub(crate) fn tell_catalog(self) -> (FolderSession, Answer)
        ensures session { result.0 ≡ self }
        ensures told { (result.1 ≡ told_catalog (table_in (folder_of self)))
            ⊎ (result.1 ≡ Answer.Refused Refusal.Memory) }
    {
        let answer = match catalog_line(self.alloc, self.folder.catalog()) {
            Ok(line) => Answer::Catalog(line),
            Err(Memory) => Answer::Refused(Refusal::Memory),
        };
        (self, answer)
    }
}

// What is told of each kept result.
fn summaries(alloc: Global, entries: &[Entry]) -> Result<Vec<EntrySummary>, Memory>
    ensures { IfOk result (λ summaries. summaries.items ≡ map summary_of entries.now) }
{
    let mut summaries = Vec::with_capacity(alloc, entries.len())?;
    for entry in entries {
        summaries.push(summary_of(entry))?;
    }
    Ok(summaries)
}

fn summary_of(entry: &Entry) -> EntrySummary
    ensures { result ≡ summary_of entry.now }
{
    EntrySummary {
        id: entry.id,
        size: entry.file.len,
        machine: entry.machine,
        uses: entry.uses,
        last: entry.last,
        made: entry.made,
    }
}
