//! The first of equal rows of lists that come one after another.
ghost use Rattle.std.specs.Prelude.{◌≡◌, [], ◌++◌, length, IfOk, OnOk, OnErr};
ghost use Rattle.plan_core.specs.Columns.{Rows};
ghost use Rattle.plan_core.specs.Distinct.{distinct_rows};
ghost use Rattle.plan_laws.specs.GrowthOfRows.{new_rows};

use crate::distinct::{first_rows, rows_of_set};
use indexmap::IndexSet;
use plan_laws::first_of_equal_rows_of_joined_lists;
use rows_core::{Memory, Row, copy_rows};
use std::alloc::Global;
use std::marker::Model;

/// The first of equal rows of the lists so far, in the order in which they came. Contracts see these rows.
#[derive(Drop)]
pub struct Seen {
    rows: IndexSet<Row>,
    alloc: Global,
}

impl Model for Seen {
    ghost use Rattle.plan_core.specs.Columns.{Rows};

    ghost Value = { Rows };

    ghost view = { λ seen. seen.rows.keys };
}

impl Seen {
    /// No rows. It takes no memory.
    pub fn new(alloc: Global) -> Seen
        ensures { result ≡ [] }
    {
        Seen {
            rows: IndexSet::new(alloc),
            alloc,
        }
    }

    /// How many rows there are. They are counted as they come, and not anew.
    pub fn len(&self) -> usize
        ensures { result ≡ length self.now }
    {
        self.rows.len()
    }

    /// Takes the rows of one more list: those that none of the rows so far is equal to come behind these, the
    /// first of equal ones. `Memory` where memory was asked for and refused; all stays as it was then.
    pub fn feed(&mut self, rows: Vec<Row>) -> Result<(), Memory>
        ensures first { OnOk result (self.new ≡ self.old ++ new_rows self.old rows.items) }
        ensures joined { OnOk result ((fed : Rows) → self.old ≡ distinct_rows fed
            → self.new ≡ distinct_rows (fed ++ rows.items)) }
        ensures refused { OnErr result (self.new ≡ self.old) }
    {
        first_of_equal_rows_of_joined_lists();
        let mut further = first_rows(self.alloc, rows)?;
        self.rows.append(&mut further)?;
        Ok(())
    }

    /// A second list of the rows.
    pub fn rows(&self, alloc: Global) -> Result<Vec<Row>, Memory>
        ensures { IfOk result (λ rows. rows.items ≡ self.now) }
    {
        copy_rows(alloc, self.rows.as_slice())
    }

    /// The rows, moved into a list.
    pub fn into_rows(self, alloc: Global) -> Result<Vec<Row>, Memory>
        ensures { IfOk result (λ rows. rows.items ≡ self) }
    {
        let Seen { rows, .. } = self;
        rows_of_set(alloc, rows)
    }
}
