//! The extents that the leaves of a plan were read of.
ghost use Rattle.std.specs.Prelude.{◌≡◌, ◌++◌, map, IfOk, OnOk};
ghost use Rattle.std.specs.List.{zip};
ghost use Rattle.serde_json.specs.View.{view};
ghost use Rattle.catalog_line.specs.CatalogData.{cut_data, cuts_data};

use crate::texts::name_value;
use rows_core::{Cut, Memory, Name};
use serde_json::{Value, json};
use std::alloc::Global;

/// Of each leaf the name of its stream, and where its extents begin and end.
pub(crate) fn cuts_value(alloc: Global, names: &[Name], cuts: &[Cut]) -> Result<Value, Memory>
    ensures { IfOk result (λ value. view value ≡ cuts_data names.now cuts.now) }
{
    let mut items = Vec::with_capacity(alloc, cuts.len())?;
    put_cuts(alloc, names, cuts, &mut items)?;
    Ok(Value::Array(items))
}

// Puts the leaves behind the others.
fn put_cuts(alloc: Global, names: &[Name], cuts: &[Cut], to: &mut Vec<Value>) -> Result<(), Memory>
    ensures { OnOk result (map view to.new.items
        ≡ map view to.old.items ++ map cut_data (zip names.now cuts.now)) }
{
    let [name, names @ ..] = names else {
        return Ok(());
    };
    let [cut, cuts @ ..] = cuts else {
        return Ok(());
    };
    to.push(cut_value(alloc, name, cut)?)?;
    put_cuts(alloc, names, cuts, to)
}

/// The name of a leaf's stream, and where its extents begin and end.
pub(crate) fn cut_value(alloc: Global, name: &Name, cut: &Cut) -> Result<Value, Memory>
    ensures { IfOk result (λ value. view value ≡ cut_data (name.now, cut.now)) }
{
    let name = name_value(alloc, name)?;
    let value = json!(in alloc; [name, cut.from, cut.to])?;
    Ok(value)
}
