//! Columns of a stream.
ghost use Rattle.std.specs.Prelude.{◌↔◌, IsTrue};
ghost use Rattle.rows_core.specs.Schema.{IsSchema};

use rows_core::{Column, has_repeat};

/// The most columns of a stream.
const MAX_COLUMNS: usize = 32;

/// Whether these columns are a schema: from 1 to 32 with different names.
pub(crate) fn are_schema(columns: &[Column]) -> bool
    ensures { IsTrue result ↔ IsSchema columns.now }
{
    !columns.is_empty() && !has_repeat(columns) && columns.len() <= MAX_COLUMNS
}
