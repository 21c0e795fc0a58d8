//! Jobs whose work is open.
ghost use Rattle.std.specs.Prelude.{◌≡◌, length};
ghost use Rattle.estimator.specs.Bytes.{capped};
ghost use Rattle.work_run.specs.Opened.{files_left};

use plan_core::Typed;
use work_run::OpenWork;

/// The open work of a job, and what is left out of the rewritings that it takes.
#[derive(Drop)]
pub struct JobWork {
    pub work: OpenWork,
    /// The normal form of its plan.
    pub normal: Typed,
    /// The ids of the kept results whose files were damaged or unreadable when it read them, in the order of
    /// reading.
    pub noted: Vec<u32>,
    /// The bytes that it took before its rewriting was chosen, cut at the greatest u64: the lengths of the files
    /// that it read whole, and what the files of noted results gave.
    pub before: u64,
}

/// What a step comes to.
#[derive(Clone, Copy, PartialEq, Eq)]
pub enum JobStep {
    /// The next file was read whole.
    Read,
    /// The next file is that of this kept result, which is noted.
    Noted(u32),
}

impl JobWork {
    /// How many files of its rewriting are still to be read, cut at the greatest u64. It takes no memory.
    pub fn left(&self) -> u64
        ensures { result ≡ capped (length (files_left self.now.work)) }
    {
        self.work.left()
    }
}
