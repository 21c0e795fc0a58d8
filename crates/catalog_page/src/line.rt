//! The page of a line.
ghost use Rattle.std.specs.Prelude.{◌≡◌, ◌≢◌, IfOk, IfErr, Err};
ghost use Rattle.catalog_page.specs.Told.{told};
ghost use Rattle.catalog_page.specs.WholePage.{IsOrdered, IsPageOf, IsPageOfCatalogue};
ghost use Rattle.catalog_page.specs.Plain.{catalogue_of};

use crate::catalogue::Catalogue;
use crate::order::in_order;
use crate::page::page_of;
use crate::program_keys::keyed;
use crate::reading::read;
use crate::refusal::ReadRefusal;
use rows_core::{Memory, Text};
use std::alloc::Global;

/// The page of the catalogue that a line of the answer `catalog` tells: one HTML document in UTF-8 without a script
/// and without an address. `NotJson` exactly where the line is no JSON (RFC 8259) that nests at most 127 deep; else
/// `Missing` or `MissingIn` with the first key that has no value, or one that isn't what it is to be, in the order
/// of `told`. `Memory` may come in place of any answer, where memory was asked for and refused.
pub fn page_of_line(alloc: Global, line: &str) -> Result<Text, ReadRefusal>
    ensures page { IfOk result (IsPageOf line.now) }
    ensures refused { IfErr result (λ e. e ≢ ReadRefusal.Memory → told line.now ≡ Err e) }
{
    let catalogue = read(alloc, line)?;
    let page = page_of_catalogue(alloc, catalogue)?;
    Ok(page)
}

fn page_of_catalogue(alloc: Global, catalogue: Catalogue) -> Result<Text, Memory>
    ensures { IfOk result (IsPageOfCatalogue (catalogue_of catalogue)) }
{
    let catalogue = ordered(catalogue)?;
    let programs = keyed(alloc, &catalogue)?;
    let page = page_of(alloc, &catalogue, &programs)?;
    Ok(page)
}

// The catalogue with its kept results in order.
fn ordered(catalogue: Catalogue) -> Result<Catalogue, Memory>
    ensures { IfOk result (IsOrdered catalogue) }
{
    let Catalogue {
        streams,
        programs,
        results,
        tick,
    } = catalogue;
    let results = in_order(results)?;
    Ok(Catalogue {
        streams,
        programs,
        results,
        tick,
    })
}
