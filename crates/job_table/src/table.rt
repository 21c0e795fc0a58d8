//! The table.
ghost use Rattle.std.specs.Prelude.{◌≡◌, ℕ, ◌<◌, ◌≤◌, List, [], ◌∷◌, ◌++◌, length, None};
ghost use Rattle.std.specs.Prelude.{IfSome, IfNone, OnOk, IfErr, OnErr};
ghost use Rattle.std.specs.List.{remove};
ghost use Rattle.job_table.specs.Jobs.{place_of, IsTakenOut, IsJobAt, IsReplaced, put_each};

use rows_core::Name;
use std::alloc::{AllocFailed, Global};
use std::mem;

/// A job that is open, and its name.
#[derive(Drop)]
pub struct OpenJob<J> {
    pub name: Name,
    pub job: J,
}

/// The open jobs, in the order in which they were opened.
#[derive(Drop)]
pub struct JobTable<J> {
    pub jobs: Vec<OpenJob<J>>,
}

impl<J: Drop> JobTable<J> {
    /// No jobs. It takes no memory.
    pub fn new(alloc: Global) -> JobTable<J>
        ensures { result.jobs.items ≡ [] }
    {
        JobTable {
            jobs: Vec::new(alloc),
        }
    }

    /// How many jobs are open.
    pub fn count(&self) -> usize
        ensures { result ≡ length self.now.jobs.items }
    {
        self.jobs.len()
    }

    /// Opens a job behind the others; who calls it keeps names apart. Where memory is refused the job is
    /// given back, and the table is as it was.
    pub fn admit(&mut self, name: Name, job: J) -> Result<(), J>
        ensures admitted { OnOk result (self.new.jobs.items
            ≡ self.old.jobs.items ++ record { name = name; job = job } ∷ []) }
        ensures given_back { IfErr result (λ back. back ≡ job) }
        ensures refused { OnErr result (self.new.jobs.items ≡ self.old.jobs.items) }
    {
        match self.jobs.push(OpenJob { name, job }) {
            Ok(()) => Ok(()),
            Err(failed) => Err(failed.value.job),
        }
    }

    /// The place of the job of this name, from 0; `None` exactly where no open job has it. It takes no
    /// memory.
    pub fn place_of(&self, name: &Name) -> Option<usize>
        ensures { result ≡ place_of self.now.jobs.items name.now }
    {
        self.jobs
            .iter()
            .position(|job| job.name.bytes() == name.bytes())
    }

    /// The job at this place, in the order of opening, from 0. It takes no memory.
    pub fn at(&self, place: usize) -> &J
        requires { place < length self.now.jobs.items }
        ensures { IsJobAt self.now.jobs.items place result.now }
    {
        &self.jobs[place].job
    }

    /// Puts this job at the place, in the order of opening, from 0, and gives back the job that was there. The
    /// name stays, and so do the other jobs. It takes no memory.
    pub fn put_at(&mut self, place: usize, job: J) -> J
        requires { place < length self.old.jobs.items }
        ensures { (name : List ℕ) × IsReplaced place (record { name = name; job = result })
            (record { name = name; job = job }) self.old.jobs.items self.new.jobs.items }
    {
        mem::replace(&mut self.jobs[place].job, job)
    }

    /// Puts the next job, where there is one, in the place of each of these jobs, in the order of opening. The
    /// names stay, and so do the jobs that have no next one. It takes no memory.
    pub fn put_each(&mut self, nexts: Vec<Option<J>>)
        requires { length nexts.items ≤ length self.old.jobs.items }
        ensures { self.new.jobs.items ≡ put_each self.old.jobs.items nexts.items }
    {
        let mut place = 0;
        for next in nexts {
            if let Some(job) = next {
                self.put_at(place, job);
            }
            place += 1;
        }
    }

    /// Lets go of the job at this place, in the order of opening, from 0; the others stay in their order. It
    /// takes no memory.
    pub fn remove_at(&mut self, place: usize)
        requires { place < length self.old.jobs.items }
        ensures { self.new.jobs.items ≡ remove self.old.jobs.items place }
    {
        self.jobs.remove(place);
    }

    /// Takes the job of this name out, where it is open; the others stay in their order. It takes no memory.
    pub fn give(&mut self, name: &Name) -> Option<J>
        ensures some { IfSome result
            (λ job. IsTakenOut name.now job self.old.jobs.items self.new.jobs.items) }
        ensures none { IfNone result (place_of self.old.jobs.items name.now ≡ None) }
        ensures stay { IfNone result (self.new.jobs.items ≡ self.old.jobs.items) }
    {
        let at = self.place_of(name)?;
        Some(self.jobs.remove(at).job)
    }
}
