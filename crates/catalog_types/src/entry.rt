//! Kept results.
ghost use Rattle.std.specs.Prelude.{◌≡◌, IfOk};

use plan_core::Plan;
use rows_core::{Cut, Digest, FileRef, Memory, Seq};
use std::alloc::Global;
use std::marker::Model;

/// A result that is kept. Contracts see it with its plain plan.
#[derive(Drop)]
pub struct Entry {
    pub id: u32,
    pub plan: Plan,
    /// For each leaf of the plan, from the left, the extents that the result is of.
    pub cuts: Seq<Cut>,
    /// The digest of the plan's spelling.
    pub program: Digest,
    /// The digest of the plan over its data.
    pub key: Digest,
    pub file: FileRef,
    /// The machine time of the plan on its extents.
    pub machine: u32,
    /// How often it was used, its making counted.
    pub uses: u32,
    /// The tick of its last use.
    pub last: u32,
    /// The tick of its making.
    pub made: u32,
}

impl Model for Entry {
    ghost use Rattle.plan_core.specs.PlainPlan.{plan_of};
    ghost use Rattle.catalog_types.specs.PlainEntry.{PlainEntry, entry_code};

    ghost Value = { PlainEntry };

    ghost coded = { entry_code };

    ghost view = { λ entry.
        record {
          id = entry.id;
          plan = plan_of entry.plan;
          cuts = entry.cuts;
          program = entry.program;
          key = entry.key;
          file = entry.file;
          machine = entry.machine;
          uses = entry.uses;
          last = entry.last;
          made = entry.made;
        } };
}

/// A result to be kept, which has no id yet. Contracts see it with its plain plan.
#[derive(Drop)]
pub struct NewEntry {
    pub plan: Plan,
    /// For each leaf of the plan, from the left, the extents that the result is of.
    pub cuts: Seq<Cut>,
    pub file: FileRef,
    /// The machine time of the plan on its extents.
    pub machine: u32,
}

impl Model for NewEntry {
    ghost use Rattle.plan_core.specs.PlainPlan.{plan_of};
    ghost use Rattle.catalog_types.specs.PlainEntry.{PlainNewEntry, new_entry_code};

    ghost Value = { PlainNewEntry };

    ghost coded = { new_entry_code };

    ghost view = { λ entry.
        record { plan = plan_of entry.plan; cuts = entry.cuts; file = entry.file; machine = entry.machine } };
}

impl Entry {
    /// A second entry that equals this one.
    pub fn try_copy(&self, alloc: Global) -> Result<Entry, Memory>
        ensures { IfOk result (λ copy. copy ≡ self.now) }
    {
        Ok(Entry {
            id: self.id,
            plan: self.plan.try_copy(alloc)?,
            cuts: self.cuts.try_copy(alloc)?,
            program: self.program,
            key: self.key,
            file: self.file,
            machine: self.machine,
            uses: self.uses,
            last: self.last,
            made: self.made,
        })
    }
}

impl NewEntry {
    /// A second entry that equals this one.
    pub fn try_copy(&self, alloc: Global) -> Result<NewEntry, Memory>
        ensures { IfOk result (λ copy. copy ≡ self.now) }
    {
        Ok(NewEntry {
            plan: self.plan.try_copy(alloc)?,
            cuts: self.cuts.try_copy(alloc)?,
            file: self.file,
            machine: self.machine,
        })
    }
}
