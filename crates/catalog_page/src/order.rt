//! The order in which a collection takes kept results.
ghost use Rattle.std.specs.Prelude.{IfOk};
ghost use Rattle.std.specs.List.Sorted.{IsPermutation};
ghost use Rattle.catalog_page.specs.Order.{AreInOrder};

use crate::catalogue::Kept;
use rows_core::Memory;

/// The results in the order in which a collection takes them, which is that of `collector`.
pub(crate) fn in_order(results: Vec<Kept>) -> Result<Vec<Kept>, Memory>
    ensures same { IfOk result (λ ordered. IsPermutation results.items ordered.items) }
    ensures in_order { IfOk result (λ ordered. AreInOrder ordered.items) }
{
    let mut results = results;
    results.sort_by(|a, b| a.standing.cmp_by_ratio(&b.standing))?;
    Ok(results)
}
