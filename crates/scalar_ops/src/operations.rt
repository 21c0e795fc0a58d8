//! What each operation gives.
ghost use Rattle.std.specs.Prelude.{◌≡◌, ◌<◌, ◌≤◌, length, map, List, [], ◌∷◌, Ok, IsTrue, IsErr, IfOk};
ghost use Rattle.scalar_ops.specs.declared.cell.Cell.TheVariants.{Bool};
ghost use Rattle.scalar_ops.specs.Cells.{kind_of_cell};
ghost use Rattle.scalar_ops.specs.Meaning.{meaning, checked_cell, op_at, kinds_at, result_at, overflows_at};
ghost use Rattle.scalar_ops.specs.Meaning.{Divides};

use crate::cell::Cell;
use crate::division::{floor_div, floor_mod};
use crate::table::OPS;
use rows_core::Overflow;

/// The first row of two truth values; behind it are no others.
const FIRST_OF_TRUTHS: usize = 24;

/// The arms of the rows: for each its number, the cells of its kinds and its value.
macro_rules! arms {
    ($row:ident $cells:ident $($number:literal [$($cell:pat),*] => $value:expr,)*) => {
        match ($row, $cells) {
            $(($number, [$($cell),*]) => $value,)*
            _ => unreachable!(),
        }
    };
}

/// The value of a row of `OPS` at cells of its kinds: `Overflow` exactly where the exact value is outside of
/// i64, and only where the row says so. It takes no memory.
#[tactic(auto, using(crate::proofs::TruthRows::truth_row, crate::proofs::TruthRows::two_truths))]
pub fn apply(row: usize, cells: &[Cell]) -> Result<Cell, Overflow>
    requires row { row < length OPS.rows }
    requires kinds { map kind_of_cell cells.now ≡ kinds_at row }
    requires divisor { Divides (op_at row) cells.now }
    ensures meaning { result ≡ meaning row cells.now }
    ensures kind { IfOk result (λ cell. kind_of_cell cell ≡ result_at row) }
    ensures overflow { IsErr result → IsTrue (overflows_at row) }
{
    if row < FIRST_OF_TRUTHS {
        return of_all_kinds(row, cells);
    }
    match cells {
        [Cell::Bool(a), Cell::Bool(b)] => Ok(Cell::Bool(of_truths(row, *a, *b))),
        _ => unreachable!(),
    }
}

fn of_all_kinds(row: usize, cells: &[Cell]) -> Result<Cell, Overflow>
    requires row { row < 24 }
    requires kinds { map kind_of_cell cells.now ≡ kinds_at row }
    requires divisor { Divides (op_at row) cells.now }
    ensures meaning { result ≡ meaning row cells.now }
    ensures kind { IfOk result (λ cell. kind_of_cell cell ≡ result_at row) }
    ensures overflow { IsErr result → IsTrue (overflows_at row) }
{
    use Cell::{Bool, Int, Text};
    arms!(row cells
        0 [Int(a), Int(b)] => whole(a.checked_add(*b)),
        1 [Int(a), Int(b)] => whole(a.checked_sub(*b)),
        2 [Int(a), Int(b)] => whole(a.checked_mul(*b)),
        3 [Int(a)] => whole(a.checked_neg()),
        4 [Int(a)] => whole(a.checked_abs()),
        5 [Int(a), Int(b)] => whole(floor_div(*a, *b)),
        6 [Int(a), Int(b)] => Ok(Int(floor_mod(*a, *b))),
        7 [Int(a), Int(b)] => Ok(Int(*a.min(b))),
        8 [Int(a), Int(b)] => Ok(Int(*a.max(b))),
        9 [Int(a), Int(b)] => Ok(Bool(a == b)),
        10 [Text(a), Text(b)] => Ok(Bool(a.bytes() == b.bytes())),
        11 [Int(a), Int(b)] => Ok(Bool(a != b)),
        12 [Text(a), Text(b)] => Ok(Bool(a.bytes() != b.bytes())),
        13 [Int(a), Int(b)] => Ok(Bool(a.cmp(b).is_lt())),
        14 [Text(a), Text(b)] => Ok(Bool(a.cmp(b).is_lt())),
        15 [Int(a), Int(b)] => Ok(Bool(a.cmp(b).is_le())),
        16 [Text(a), Text(b)] => Ok(Bool(a.cmp(b).is_le())),
        17 [Int(a), Int(b)] => Ok(Bool(a.cmp(b).is_gt())),
        18 [Text(a), Text(b)] => Ok(Bool(a.cmp(b).is_gt())),
        19 [Int(a), Int(b)] => Ok(Bool(a.cmp(b).is_ge())),
        20 [Text(a), Text(b)] => Ok(Bool(a.cmp(b).is_ge())),
        21 [Text(a)] => Ok(Int(a.bytes().len() as i64)),
        22 [Text(a), Text(b)] => Ok(Bool(a.bytes().starts_with(b.bytes()))),
        23 [Bool(a)] => Ok(Bool(!*a)),
    )
}

fn of_truths(row: usize, a: bool, b: bool) -> bool
    requires behind { 24 ≤ row }
    requires row { row < 32 }
    ensures { Ok (Bool result) ≡ meaning row (Bool a ∷ Bool b ∷ []) }
{
    match row {
        24 => a == b,
        25 => a != b,
        26 => a.cmp(&b).is_lt(),
        27 => a.cmp(&b).is_le(),
        28 => a.cmp(&b).is_gt(),
        29 => a.cmp(&b).is_ge(),
        30 => a && b,
        _ => a || b,
    }
}

fn whole(number: Option<i64>) -> Result<Cell, Overflow>
    ensures { result ≡ checked_cell number }
{
    match number {
        Some(number) => Ok(Cell::Int(number)),
        None => Err(Overflow),
    }
}
