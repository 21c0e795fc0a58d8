//! Columns over columns.
ghost use Rattle.std.specs.Prelude.{◌≡◌, ◌+◌, ◌<◌, ◌^◌, false, length, map, min, not, IfOk, slice_get};
ghost use Rattle.std.specs.Prelude.{unwrap_or};
ghost use Rattle.std.specs.List.{list_all};
ghost use Rattle.std.specs.Option.{option_map};
ghost use Rattle.scalar_ops.specs.Meaning.{overflows_at};
ghost use Rattle.plan_core.specs.PlainExpr.{expr_of, Column};
ghost use Rattle.plan_canon.specs.PlanRules.{may_overflow, uses, uses_in, is_plain, none_repeats, may_fuse};
ghost use Rattle.plan_canon.specs.PlanRules.{put_in, is_column, are_columns_from};

use plan_core::Expr;
use rows_core::Memory;
use scalar_ops::{OPS, Operations};
use std::alloc::Global;

/// Whether columns over these columns may be made columns: none of these may overflow, and each of them that
/// is neither a column nor a literal is used at most once.
pub fn may_fuse(es: &[Expr], fs: &[Expr]) -> bool
    ensures { result ≡ may_fuse (map expr_of es.now) (map expr_of fs.now) }
{
    none_may_overflow(es) && none_repeats(0, es, fs)
}

fn none_may_overflow(es: &[Expr]) -> bool
    ensures { result ≡ list_all (λ e. not (may_overflow e)) (map expr_of es.now) }
{
    match es {
        [] => true,
        [e, es @ ..] => !may_overflow(e) && none_may_overflow(es),
    }
}

fn may_overflow(e: &Expr) -> bool
    ensures { result ≡ may_overflow (expr_of e.now) }
{
    match e {
        Expr::Column(_) | Expr::Literal(_) => false,
        Expr::Call1 { row, arg } => overflows(*row) || may_overflow(arg),
        Expr::Call2 { row, left, right } => {
            overflows(*row) || may_overflow(left) || may_overflow(right)
        }
        Expr::And(left, right) | Expr::Or(left, right) => may_overflow(left) || may_overflow(right),
        Expr::If(test, then, other) => {
            may_overflow(test) || may_overflow(then) || may_overflow(other)
        }
    }
}

fn overflows(row: u32) -> bool
    ensures { result ≡ overflows_at row }
{
    let table = OPS;
    overflows_in(&table, row)
}

fn overflows_in(table: &Operations, row: u32) -> bool
    ensures { result ≡ unwrap_or (option_map (λ r. r.overflows) (slice_get table.now.rows row)) false }
{
    match table.rows.get(row as usize) {
        Some(row) => row.overflows,
        None => false,
    }
}

fn none_repeats(column: usize, es: &[Expr], fs: &[Expr]) -> bool
    requires { column + length es.now < 2 ^ 64 }
    ensures { result ≡ none_repeats column (map expr_of es.now) (map expr_of fs.now) }
{
    match es {
        [] => true,
        [e, es @ ..] => {
            (is_plain(e) || uses_in(column, fs) < 2) && none_repeats(column + 1, es, fs)
        }
    }
}

fn is_plain(e: &Expr) -> bool
    ensures { result ≡ is_plain (expr_of e.now) }
{
    matches!(e, Expr::Column(_) | Expr::Literal(_))
}

/// How often a column stands in the expressions; 2 where it is more often.
fn uses_in(column: usize, fs: &[Expr]) -> u8
    ensures { result ≡ min 2 (uses_in column (map expr_of fs.now)) }
{
    match fs {
        [] => 0,
        [f, fs @ ..] => (uses(column, f) + uses_in(column, fs)).min(2),
    }
}

fn uses(column: usize, f: &Expr) -> u8
    ensures { result ≡ min 2 (uses column (expr_of f.now)) }
{
    match f {
        Expr::Column(own) => if column == *own as usize { 1 } else { 0 },
        Expr::Literal(_) => 0,
        Expr::Call1 { row: _, arg } => uses(column, arg),
        Expr::Call2 {
            row: _,
            left,
            right,
        }
        | Expr::And(left, right)
        | Expr::Or(left, right) => { (uses(column, left) + uses(column, right)).min(2) }
        Expr::If(test, then, other) => {
            (uses(column, test) + uses(column, then) + uses(column, other)).min(2)
        }
    }
}

/// The expression with each column replaced.
pub fn put_in(alloc: Global, es: &[Expr], f: &Expr) -> Result<Expr, Memory>
    ensures { IfOk result (λ e. expr_of e ≡ put_in (map expr_of es.now) (expr_of f.now)) }
{
    match f {
        Expr::Column(column) => column_at(alloc, es, *column),
        Expr::Literal(cell) => Ok(Expr::Literal(cell.try_copy(alloc)?)),
        Expr::Call1 { row, arg } => Ok(Expr::Call1 {
            row: *row,
            arg: Box::new(alloc, put_in(alloc, es, arg)?)?,
        }),
        Expr::Call2 { row, left, right } => Ok(Expr::Call2 {
            row: *row,
            left: Box::new(alloc, put_in(alloc, es, left)?)?,
            right: Box::new(alloc, put_in(alloc, es, right)?)?,
        }),
        Expr::And(left, right) => Ok(Expr::And(
            Box::new(alloc, put_in(alloc, es, left)?)?,
            Box::new(alloc, put_in(alloc, es, right)?)?,
        )),
        Expr::Or(left, right) => Ok(Expr::Or(
            Box::new(alloc, put_in(alloc, es, left)?)?,
            Box::new(alloc, put_in(alloc, es, right)?)?,
        )),
        Expr::If(test, then, other) => Ok(Expr::If(
            Box::new(alloc, put_in(alloc, es, test)?)?,
            Box::new(alloc, put_in(alloc, es, then)?)?,
            Box::new(alloc, put_in(alloc, es, other)?)?,
        )),
    }
}

fn column_at(alloc: Global, es: &[Expr], column: u32) -> Result<Expr, Memory>
    ensures { IfOk result (λ e. expr_of e ≡ put_in (map expr_of es.now) (Column column)) }
{
    match es.get(column as usize) {
        Some(e) => e.try_copy(alloc),
        None => Ok(Expr::Column(column)),
    }
}

pub fn are_columns_from(first: usize, es: &[Expr]) -> bool
    requires { first + length es.now < 2 ^ 64 }
    ensures { result ≡ are_columns_from first (map expr_of es.now) }
{
    match es {
        [] => true,
        [e, es @ ..] => is_column(first, e) && are_columns_from(first + 1, es),
    }
}

fn is_column(column: usize, e: &Expr) -> bool
    ensures { result ≡ is_column column (expr_of e.now) }
{
    match e {
        Expr::Column(own) => column == *own as usize,
        _ => false,
    }
}
