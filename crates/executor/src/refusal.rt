//! Why a run gives no outcome.
ghost use Rattle.std.specs.Prelude.{◌≡◌};
ghost use Rattle.executor.specs.Ended.{ended_by};
ghost use Rattle.executor.specs.Runs.{of_reading, of_making};
ghost use Rattle.executor.specs.declared.refusal.RunRefusal.TheVariants as run;

use extent_files::ReadRefusal;
use result_ops::MakeRefusal;
use rows_core::{Digest, Memory};
use thiserror::Error;

/// Why a run of a rewriting gives no outcome.
#[derive(Clone, Copy, Debug, PartialEq, Eq, Error)]
pub enum RunRefusal {
    /// An operator, evaluated whole, met a number outside of i64.
    #[error("overflow")]
    Overflow,
    /// The machine time is above 4,294,967,295.
    #[error("machine time above 4294967295")]
    Machine,
    /// The store failed.
    #[error("the store failed")]
    Fault,
    /// The file's bytes have the digest `found` where `kept` was kept; so many of them were taken.
    #[error("file {file} is damaged")]
    Damaged {
        file: u64,
        kept: Digest,
        found: Digest,
        taken: u64,
    },
    /// The file's bytes are the kept ones, and spell no form of its shape: reading stops at byte `at`. So many
    /// of them were taken.
    #[error("file {file} is unreadable: byte {at}")]
    Unreadable {
        file: u64,
        at: u64,
        taken: u64,
    },
    /// Memory was refused.
    #[error("out of memory")]
    Memory,
}

/// A kept result whose file, when it was read, was damaged or unreadable.
#[derive(Clone, Copy, PartialEq, Eq)]
pub struct LostResult {
    pub id: u32,
    /// How many bytes count of the files that were read before, and how many this one gave, cut at the greatest
    /// u64.
    pub taken: u64,
}

/// Why a run ended without an outcome, and at which kept result's file, if it ended at that of one.
#[derive(Clone, Copy, PartialEq, Eq)]
pub struct EndedRun {
    pub why: RunRefusal,
    pub lost: Option<LostResult>,
}

impl From<Memory> for EndedRun {
    ghost from_gives = { λ _ e. e ≡ ended_by run.Memory };

    fn from(_memory: Memory) -> EndedRun {
        EndedRun {
            why: RunRefusal::Memory,
            lost: None,
        }
    }
}

impl From<MakeRefusal> for EndedRun {
    ghost from_gives = { λ r e. e ≡ ended_by (of_making r) };

    fn from(refusal: MakeRefusal) -> EndedRun {
        EndedRun {
            why: RunRefusal::from(refusal),
            lost: None,
        }
    }
}

impl From<Memory> for RunRefusal {
    ghost from_gives = { λ _ e. e ≡ run.Memory };

    fn from(_memory: Memory) -> RunRefusal {
        RunRefusal::Memory
    }
}

impl From<ReadRefusal> for RunRefusal {
    ghost from_gives = { λ r e. e ≡ of_reading r };

    fn from(refusal: ReadRefusal) -> RunRefusal {
        match refusal {
            ReadRefusal::Fault => RunRefusal::Fault,
            ReadRefusal::Damaged {
                file,
                kept,
                found,
                taken,
            } => RunRefusal::Damaged {
                file,
                kept,
                found,
                taken,
            },
            ReadRefusal::Unreadable { file, at, taken } => RunRefusal::Unreadable {
                file,
                at,
                taken,
            },
            ReadRefusal::Memory => RunRefusal::Memory,
        }
    }
}

impl From<MakeRefusal> for RunRefusal {
    ghost from_gives = { λ r e. e ≡ of_making r };

    fn from(refusal: MakeRefusal) -> RunRefusal {
        match refusal {
            MakeRefusal::Overflow => RunRefusal::Overflow,
            MakeRefusal::Machine => RunRefusal::Machine,
            MakeRefusal::Memory => RunRefusal::Memory,
        }
    }
}
