//! The order of rows by keys.
ghost use Rattle.std.specs.Prelude.{◌≡◌, List};
ghost use Rattle.std.specs.Cmp.{IsTotalOrder};
ghost use Rattle.rows_core.specs.declared.order.Key.{Key};
ghost use Rattle.rows_core.specs.RowOrder.{key_cmp, row_cmp};

use crate::exact_eq::ExactEq;
use crate::row::Row;
use std::cmp::Ordering;

/// A column by which rows are ordered, counted from 0, and whether its order is reversed.
#[derive(Clone, Copy, Debug, PartialEq, Eq)]
pub struct Key {
    pub column: u32,
    pub down: bool,
}

/// How two rows stand by these keys, of which the first that tells them apart decides. Numbers are compared
/// by value and texts by bytes; a `down` key is reversed. So that any two rows compare, a number stands
/// before a text, and a row without the column before one that has it. It takes no memory.
pub fn cmp_by(a: &Row, b: &Row, keys: &[Key]) -> Ordering
    ensures { result ≡ row_cmp keys.now a.now b.now }
{
    for key in keys {
        let order = cmp_at(a, b, key);
        if order != Ordering::Equal {
            return order;
        }
    }
    Ordering::Equal
}

/// By any keys rows stand in a total order, up to rows that no key tells apart. So a stable sort by it has
/// one answer.
pub fn total_order()
    ensures { (keys : List Key) → IsTotalOrder (row_cmp keys) }
{}

fn cmp_at(a: &Row, b: &Row, key: &Key) -> Ordering
    ensures { result ≡ key_cmp key.now a.now b.now }
{
    let column = key.column as usize;
    let order = a.values().get(column).cmp(&b.values().get(column));
    if key.down { order.reverse() } else { order }
}

impl ExactEq for Key {
    ghost use Rattle.std.proofs.Common.{rules};

    ghost exact = { Prim.search rules };
}
