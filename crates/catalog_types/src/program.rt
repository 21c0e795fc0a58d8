//! Programs.
ghost use Rattle.std.specs.Prelude.{◌≡◌, IfOk};

use rows_core::{Cut, Memory, Name, Seq, Text};
use std::alloc::Global;

/// A stored query: its name, the canonical text of its plan, and for each leaf, from the left, the extents
/// that it was last run over.
#[derive(PartialEq, Eq, Drop)]
pub struct Program {
    pub name: Name,
    pub text: Text,
    pub cuts: Seq<Cut>,
}

impl Program {
    /// A second program that equals this one.
    pub fn try_copy(&self, alloc: Global) -> Result<Program, Memory>
        ensures { IfOk result (λ copy. copy ≡ self.now) }
    {
        Ok(Program {
            name: self.name.try_copy(alloc)?,
            text: self.text.try_copy(alloc)?,
            cuts: self.cuts.try_copy(alloc)?,
        })
    }
}
