//! Rows.
ghost use Rattle.std.specs.Prelude.{◌≡◌, ◌↔◌, IfOk, IsTrue};

use crate::memory::Memory;
use crate::seq::Seq;
use crate::value::Value;
use std::alloc::Global;
use std::marker::Model;

/// Values in the order of their columns. Contracts see a row as the list of its values. `==` is equality of
/// rows, so a row may be a key.
#[derive(PartialEq, Eq, Hash, Drop)]
pub struct Row {
    values: Seq<Value>,
}

impl Model for Row {
    ghost use Rattle.std.specs.Prelude.{List};
    ghost use Rattle.rows_core.specs.declared.value.Value as value;

    ghost Value = { List value.Value };

    ghost view = { λ row. row.values };

    ghost inverse = { λ values. record { values = values } };
}

impl Row {
    /// The row of these values. It takes no memory.
    pub fn new(values: Vec<Value>) -> Row
        ensures { result ≡ values.items }
    {
        Row {
            values: Seq::new(values),
        }
    }

    pub fn values(&self) -> &[Value]
        ensures { result.now ≡ self.now }
    {
        self.values.items()
    }

    /// The row's values. It takes no memory.
    pub fn into_values(self) -> Vec<Value>
        ensures { result.items ≡ self }
    {
        let Row { values } = self;
        values.into_vec()
    }

    /// Whether the two are equal, which is what `==` says.
    pub fn is_same(&self, other: &Row) -> bool
        ensures { IsTrue result ↔ (self.now ≡ other.now) }
    {
        self == other
    }

    /// A second row with the same values.
    pub fn try_copy(&self, alloc: Global) -> Result<Row, Memory>
        ensures { IfOk result (λ row. row ≡ self.now) }
    {
        let values = copy_values(alloc, self.values())?;
        Ok(Row::new(values))
    }
}

/// A second list of the same rows.
pub fn copy_rows(alloc: Global, rows: &[Row]) -> Result<Vec<Row>, Memory>
    ensures { IfOk result (λ copies. copies.items ≡ rows.now) }
{
    let mut copies = Vec::with_capacity(alloc, rows.len())?;
    for row in rows {
        copies.push(row.try_copy(alloc)?)?;
    }
    Ok(copies)
}

fn copy_values(alloc: Global, values: &[Value]) -> Result<Vec<Value>, Memory>
    ensures { IfOk result (λ copies. copies.items ≡ values.now) }
{
    let mut copies = Vec::with_capacity(alloc, values.len())?;
    for value in values {
        copies.push(value.try_copy(alloc)?)?;
    }
    Ok(copies)
}
