//! Columns and schemas.
ghost use Rattle.std.specs.Prelude.{◌≡◌, ◌<◌, ◌↔◌, [], length, map, not, IsTrue, IfOk, IsErrOf, bytes_eq};
ghost use Rattle.std.specs.List.{list_any};
ghost use Rattle.rows_core.specs.Value.{kind_of};
ghost use Rattle.rows_core.specs.Schema.{IsSchema, kinds_of, has_repeat};

use crate::exact_eq::ExactEq;
use crate::kind::Kind;
use crate::memory::Memory;
use crate::name::Name;
use crate::row::Row;
use crate::seq::Seq;
use crate::value::Value;
use std::alloc::Global;
use std::marker::Model;
use thiserror::Error;

/// The greatest number of columns of a schema.
const MAX_COLUMNS: usize = 32;

/// A column's name and the kind of its values.
#[derive(PartialEq, Eq, Drop)]
pub struct Column {
    pub name: Name,
    pub kind: Kind,
}

impl Column {
    /// Whether the two are equal, which is what `==` says.
    pub fn is_same(&self, other: &Column) -> bool
        ensures { IsTrue result ↔ (self.now ≡ other.now) }
    {
        self == other
    }

    /// A second column of this name and kind.
    pub fn try_copy(&self, alloc: Global) -> Result<Column, Memory>
        ensures { IfOk result (λ column. column ≡ self.now) }
    {
        Ok(Column {
            name: self.name.try_copy(alloc)?,
            kind: self.kind,
        })
    }
}

/// From 1 to 32 columns with different names. The limit is this project's own. Contracts see a schema as the
/// list of its columns.
#[derive(PartialEq, Eq, Drop)]
pub struct Schema {
    columns: Seq<Column>,
}

/// Why columns are no schema.
#[derive(Clone, Copy, Debug, PartialEq, Eq, Error)]
pub enum SchemaRefusal {
    #[error("no column")]
    Empty,
    #[error("two columns have one name")]
    Duplicate,
    #[error("too many columns")]
    TooMany,
}

impl Model for Schema {
    ghost use Rattle.std.specs.Prelude.{List};
    ghost use Rattle.rows_core.specs.declared.schema.Column.{Column};
    ghost use Rattle.rows_core.specs.Schema.{IsSchema};

    ghost Value = { List Column };

    ghost view = { λ schema. schema.columns };

    ghost invariant = { λ schema. IsSchema schema.columns };

    ghost inverse = { λ columns. record { columns = columns } };
}

impl Schema {
    /// The schema of these columns: `Empty` exactly where there is none, `Duplicate` exactly where two have
    /// one name, else `TooMany` exactly where there are more than 32. It takes no memory.
    pub fn new(columns: Vec<Column>) -> Result<Schema, SchemaRefusal>
        ensures columns { IfOk result (λ schema. schema ≡ columns.items) }
        ensures schema { IfOk result (λ schema. IsSchema schema) }
        ensures empty { IsErrOf result SchemaRefusal.Empty ↔ (columns.items ≡ []) }
        ensures duplicate { IsErrOf result SchemaRefusal.Duplicate
            ↔ IsTrue (has_repeat columns.items) }
        ensures too_many { IsErrOf result SchemaRefusal.TooMany
            ↔ (IsTrue (not (has_repeat columns.items)) × (32 < length columns.items)) }
    {
        if columns.is_empty() {
            return Err(SchemaRefusal::Empty);
        }
        if has_repeat(columns.as_slice()) {
            return Err(SchemaRefusal::Duplicate);
        }
        if columns.len() > MAX_COLUMNS {
            return Err(SchemaRefusal::TooMany);
        }
        Ok(Schema {
            columns: Seq::new(columns),
        })
    }

    pub fn columns(&self) -> &[Column]
        ensures columns { result.now ≡ self.now }
        ensures schema { IsSchema self.now }
    {
        self.columns.items()
    }

    /// Whether the row has as many values as there are columns, each of its column's kind.
    pub fn admits(&self, row: &Row) -> bool
        ensures { IsTrue result ↔ (map kind_of row.now ≡ kinds_of self.now) }
    {
        have_kinds_of(row.values(), self.columns())
    }

    /// Whether the two are equal, which is what `==` says.
    pub fn is_same(&self, other: &Schema) -> bool
        ensures { IsTrue result ↔ (self.now ≡ other.now) }
    {
        self.columns.is_same(&other.columns)
    }

    /// A second schema of the same columns.
    pub fn try_copy(&self, alloc: Global) -> Result<Schema, Memory>
        ensures { IfOk result (λ schema. schema ≡ self.now) }
    {
        let columns = copy_columns(alloc, self.columns())?;
        Ok(Schema {
            columns: Seq::new(columns),
        })
    }
}

/// A second list of the same columns.
pub fn copy_columns(alloc: Global, columns: &[Column]) -> Result<Vec<Column>, Memory>
    ensures { IfOk result (λ copies. copies.items ≡ columns.now) }
{
    let mut copies = Vec::with_capacity(alloc, columns.len())?;
    for column in columns {
        copies.push(column.try_copy(alloc)?)?;
    }
    Ok(copies)
}

/// Whether two columns have one name.
pub fn has_repeat(columns: &[Column]) -> bool
    ensures { result ≡ has_repeat columns.now }
{
    let mut rest = columns;
    while let [first, others @ ..] = rest {
        if has_name(others, first.name.bytes()) {
            return true;
        }
        rest = others;
    }
    false
}

fn has_name(columns: &[Column], name: &[u8]) -> bool
    ensures { result ≡ list_any (λ column. bytes_eq column.name name.now) columns.now }
{
    columns.iter().any(|column| column.name.bytes() == name)
}

fn have_kinds_of(values: &[Value], columns: &[Column]) -> bool
    ensures { IsTrue result ↔ (map kind_of values.now ≡ kinds_of columns.now) }
{
    match (values, columns) {
        ([], []) => true,
        ([value, values @ ..], [column, columns @ ..]) => {
            value.kind() == column.kind && have_kinds_of(values, columns)
        }
        _ => false,
    }
}

impl ExactEq for Column {
    ghost use Rattle.std.proofs.Common.{rules};

    ghost exact = { Prim.search rules };
}
