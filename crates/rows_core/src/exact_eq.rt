//! Types whose `==` is equality.
ghost use Rattle.std.specs.Prelude.{◌≡◌, ◌↔◌, IsTrue};

use crate::row::Row;
use crate::value::Value;

/// A type whose `==` says exactly whether two values are equal as contracts see them. So it is with numbers,
/// and with every type of this crate whose fields are such.
pub trait ExactEq: PartialEq {
    ghost exact: { (a b : Self) → IsTrue (Self.eq a b) ↔ (a ≡ b) };
}

impl ExactEq for u8 {
    ghost use Rattle.std.specs.Cmp.{unsigned_Decides};

    ghost exact = { unsigned_Decides };
}

impl ExactEq for u32 {
    ghost use Rattle.std.specs.Cmp.{unsigned_Decides};

    ghost exact = { unsigned_Decides };
}

impl ExactEq for u64 {
    ghost use Rattle.std.specs.Cmp.{unsigned_Decides};

    ghost exact = { unsigned_Decides };
}

impl ExactEq for i64 {
    ghost use Rattle.std.specs.Cmp.{signed_Decides};

    ghost exact = { signed_Decides };
}

impl ExactEq for bool {
    ghost use Rattle.std.specs.Cmp.{booleans_Decides};

    ghost exact = { booleans_Decides };
}

impl ExactEq for Value {
    ghost use Rattle.rows_core.specs.Equality.{same_value-Decides};

    ghost exact = { same_value-Decides };
}

impl ExactEq for Row {
    ghost use Rattle.rows_core.specs.Equality.{same_row-Decides};

    ghost exact = { same_row-Decides };
}
