//! The order of rows by keys.
ghost use Rattle.std.specs.Prelude.{◌≡◌, List};
ghost use Rattle.rows_core.specs.declared.order.Key.{Key};
ghost use Rattle.plan_core.specs.Columns.{Rows};
ghost use Rattle.plan_core.specs.StableOrder.{IsOrderedBy, order_rows};

use rows_core::total_order;

/// The ordered rows are the given ones, don't fall by the keys, and keep the order of rows with equal keys;
/// and no other list is so.
pub fn one_stable_order()
    ensures ordered { (keys : List Key) (rows : Rows) → IsOrderedBy keys rows (order_rows keys rows) }
    ensures only { (keys : List Key) (rows sorted : Rows) → IsOrderedBy keys rows sorted
        → sorted ≡ order_rows keys rows }
{
    total_order();
}
