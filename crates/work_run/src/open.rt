//! Work that is open: the files of its rewriting are read one by one, and other commands may stand between.
ghost use Rattle.std.specs.Prelude.{◌≡◌, length};
ghost use Rattle.estimator.specs.Bytes.{capped};
ghost use Rattle.work_run.specs.Opened.{files_left};

use catalog_types::Program;
use executor::Job;

/// A piece of work that is open: a rewriting that was taken of its plan, with its files as far as they are read.
#[derive(Drop)]
pub struct OpenWork {
    /// What it is stored as when it is closed; its cuts are the extents at its opening.
    pub program: Program,
    pub job: Job,
    /// The ids of the kept results that it reads, ascending, each once.
    pub used: Vec<u32>,
    /// The bytes of the files that its rewriting names, each as often as it is named, cut at the greatest
    /// u64.
    pub read: u64,
}

impl OpenWork {
    /// How many files are still to be read, cut at the greatest u64. It takes no memory.
    pub fn left(&self) -> u64
        ensures { result ≡ capped (length (files_left self.now)) }
    {
        self.job.left()
    }
}
