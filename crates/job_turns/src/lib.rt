//! Open work of a job that goes on where the files of kept results turn out damaged or unreadable: those are noted, and
//! the files are read anew by a rewriting of the others.
#![tactic(auto)]

pub mod choosing;
pub mod closing;
pub mod job;
pub mod laws;
mod stepping;

pub use choosing::open_job;
pub use job::{JobStep, JobWork};
pub use laws::job_work_stays;
