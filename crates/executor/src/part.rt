//! Pieces of a rewriting, as far as they are read.
ghost use Rattle.std.specs.Prelude.{◌≡◌, length};
ghost use Rattle.gathering.specs.Gathered.{kept_length};
ghost use Rattle.executor.specs.Progress.{files_left, held_in_part, loaded_length};

use crate::Loaded;
use gathering::Gathering;
use plan_core::Plan;
use row_blob::Kept;

/// A piece of a rewriting, as far as it is read.
#[derive(Drop)]
pub enum Part {
    /// The kept result of this plan, by its id, and what reading it gave: `Machine` where it lies outside of
    /// the bounds within which results are worked on.
    Entry {
        plan: Box<Plan>,
        id: u32,
        loaded: Option<Loaded>,
    },
    /// What a plan over one stream has made of the stream's extents, of which those from `next` up to `end`
    /// are still to be read.
    Gathered {
        gathering: Gathering,
        stream: u32,
        next: u32,
        end: u32,
    },
}

impl Part {
    /// How many files are still to be read of it.
    #[tactic(auto, using(rewrite_core::proofs::FileLemmas::length_of_extents))]
    pub fn left(&self) -> u64
        ensures { result ≡ length (files_left self.now) }
    {
        match self {
            Part::Entry { loaded, .. } => u64::from(loaded.is_none()),
            Part::Gathered { next, end, .. } => u64::from(end.saturating_sub(*next)),
        }
    }

    /// How many rows or groups it keeps.
    pub fn held(&self) -> u64
        ensures { result ≡ held_in_part self.now }
    {
        match self {
            Part::Entry { loaded, .. } => loaded_len(loaded),
            Part::Gathered { gathering, .. } => gathering.held(),
        }
    }
}

fn loaded_len(loaded: &Option<Loaded>) -> u64
    ensures { result ≡ loaded_length loaded.now }
{
    match loaded {
        Some(Ok(made)) => kept_len(&made.kept),
        Some(Err(_)) | None => 0,
    }
}

// How many rows or groups a kept form has.
fn kept_len(kept: &Kept) -> u64
    ensures { result ≡ kept_length kept.now }
{
    match kept {
        Kept::Rows(rows) => rows.items().len() as u64,
        Kept::Groups(groups) => groups.items().len() as u64,
        Kept::Tagged { rows, .. } => rows.items().len() as u64,
    }
}
