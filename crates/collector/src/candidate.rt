//! What of an entry a collection goes by.
ghost use Rattle.std.specs.Prelude.{◌<◌};

use crate::exact::product;
use catalog_types::Entry;
use std::cmp::Ordering;

/// An entry that can be ranked: its id, the length of its file, and both parts of its ratio.
#[derive(Clone, Copy)]
pub struct Candidate {
    pub id: u32,
    pub size: u64,
    /// The length times the ticks since the last use.
    pub idle_bytes: u64,
    /// The uses times the machine time.
    pub used_time: u64,
    ghost positive: { 0 < used_time },
}

impl Candidate {
    ghost use Rattle.std.specs.Prelude.{◌≡◌, ◌≤◌, ◌*◌};
    ghost use Rattle.collector.specs.Ratio.{CanBeRanked};
    ghost use Rattle.collector.specs.Standing.{standing_of, standing_cmp};
    ghost use Rattle.collector.specs.Candidates.{standing};

    pub fn new(entry: &Entry, now: u32) -> Candidate
        requires { CanBeRanked now entry.now }
        ensures { standing result ≡ standing_of now entry.now }
    {
        let idle = u64::from(now - entry.last);
        Candidate::of(entry.id, entry.file.len, idle, entry.uses, entry.machine)
    }

    /// A result with this id and length in bytes, which was last used so many ticks ago, so often before, and
    /// took so much machine time.
    pub fn of(id: u32, size: u64, idle: u64, uses: u32, machine: u32) -> Candidate
        requires short { size ≤ 67108864 }
        requires since { idle ≤ 4294967296 }
        requires used { 0 < uses }
        requires worked { 0 < machine }
        ensures { standing result ≡ record {
          id = id;
          size = size;
          idle_bytes = size * idle;
          used_time = uses * machine;
        } }
    {
        Candidate {
            id,
            size,
            idle_bytes: size * idle,
            used_time: product(uses, machine),
        }
    }

    /// The greater ratio first, and of the same ones the smaller id. Ratios are compared by
    /// cross-multiplication, so nothing is rounded.
    pub fn cmp_by_ratio(&self, other: &Candidate) -> Ordering
        ensures { result ≡ standing_cmp (standing self.now) (standing other.now) }
    {
        let own = u128::from(self.idle_bytes) * u128::from(other.used_time);
        let others = u128::from(other.idle_bytes) * u128::from(self.used_time);
        others.cmp(&own).then(self.id.cmp(&other.id))
    }
}
