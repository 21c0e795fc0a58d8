//! The one spelling of a plan.
ghost use Rattle.std.specs.Prelude.{◌≡◌, ◌++◌, ◌∷◌, ◌<◌, IfOk, OnOk, length, map};
ghost use Rattle.std.specs.Int.{w32, to_be_bytes};
ghost use Rattle.std.specs.List.{flat_map};
ghost use Rattle.plan_core.specs.PlainExpr.{expr_of};
ghost use Rattle.plan_core.specs.PlainPlan.{plan_of};
ghost use Rattle.plan_spelling.specs.Spelling.{counted, cell_spelling, expr_spelling, agg_spelling};
ghost use Rattle.plan_spelling.specs.Spelling.{pair_spelling, key_spelling, plan_spelling, AreCounted};
ghost use Rattle.plan_spelling.specs.Spelling.{HasExprSpelling, HasPlanSpelling};

use byte_formats::{put_byte, put_flag, put_i64, put_text, put_u32};
use plan_core::{Agg, Expr, Plan};
use rows_core::{Key, Memory};
use scalar_ops::Cell;
use std::alloc::Global;

/// The bytes of a plan.
pub fn spell(alloc: Global, plan: &Plan) -> Result<Vec<u8>, Memory>
    requires { HasPlanSpelling (plan_of plan.now) }
    ensures { IfOk result (λ bytes. bytes.items ≡ plan_spelling (plan_of plan.now)) }
{
    let mut out = Vec::new(alloc);
    put_plan(&mut out, plan)?;
    Ok(out)
}

fn put_plan(out: &mut Vec<u8>, plan: &Plan) -> Result<(), Memory>
    requires { HasPlanSpelling (plan_of plan.now) }
    ensures { OnOk result (out.new.items ≡ out.old.items ++ plan_spelling (plan_of plan.now)) }
{
    match plan {
        Plan::Scan { stream } => put_numbered(out, 0x01, *stream),
        Plan::Filter { child, test } => {
            put_byte(out, 0x02)?;
            put_plan(out, child)?;
            put_expr(out, test)
        }
        Plan::Project { child, columns } => {
            put_byte(out, 0x03)?;
            put_plan(out, child)?;
            put_exprs(out, columns.items())
        }
        Plan::Distinct { child } => {
            put_byte(out, 0x04)?;
            put_plan(out, child)
        }
        Plan::Group { child, keys, aggs } => {
            put_byte(out, 0x05)?;
            put_plan(out, child)?;
            put_columns(out, keys.items())?;
            put_aggs(out, aggs.items())
        }
        Plan::Join { left, right, on } => {
            put_byte(out, 0x06)?;
            put_plan(out, left)?;
            put_plan(out, right)?;
            put_pairs(out, on.items())
        }
        Plan::Concat { left, right } => {
            put_byte(out, 0x07)?;
            put_plan(out, left)?;
            put_plan(out, right)
        }
        Plan::Order { child, keys } => {
            put_byte(out, 0x08)?;
            put_plan(out, child)?;
            put_keys(out, keys.items())
        }
    }
}

// Puts a node whose one part is a number.
fn put_numbered(out: &mut Vec<u8>, tag: u8, number: u32) -> Result<(), Memory>
    ensures { OnOk result (out.new.items ≡ out.old.items ++ (tag ∷ to_be_bytes w32 number)) }
{
    put_byte(out, tag)?;
    put_u32(out, number)
}

fn put_expr(out: &mut Vec<u8>, expr: &Expr) -> Result<(), Memory>
    requires { HasExprSpelling (expr_of expr.now) }
    ensures { OnOk result (out.new.items ≡ out.old.items ++ expr_spelling (expr_of expr.now)) }
{
    match expr {
        Expr::Column(column) => put_numbered(out, 0x11, *column)?,
        Expr::Literal(cell) => put_cell(out, cell)?,
        Expr::Call1 { row, arg } => {
            put_byte(out, 0x15)?;
            put_byte(out, *row as u8)?;
            put_expr(out, arg)?;
        }
        Expr::Call2 { row, left, right } => {
            put_byte(out, 0x15)?;
            put_byte(out, *row as u8)?;
            put_expr(out, left)?;
            put_expr(out, right)?;
        }
        Expr::And(left, right) => {
            put_byte(out, 0x16)?;
            put_expr(out, left)?;
            put_expr(out, right)?;
        }
        Expr::Or(left, right) => {
            put_byte(out, 0x17)?;
            put_expr(out, left)?;
            put_expr(out, right)?;
        }
        Expr::If(test, then, other) => {
            put_byte(out, 0x18)?;
            put_expr(out, test)?;
            put_expr(out, then)?;
            put_expr(out, other)?;
        }
    }
    Ok(())
}

fn put_cell(out: &mut Vec<u8>, cell: &Cell) -> Result<(), Memory>
    ensures { OnOk result (out.new.items ≡ out.old.items ++ cell_spelling cell.now) }
{
    match cell {
        Cell::Int(number) => {
            put_byte(out, 0x12)?;
            put_i64(out, *number)?;
        }
        Cell::Text(text) => {
            put_byte(out, 0x13)?;
            put_text(out, text)?;
        }
        Cell::Bool(truth) => {
            put_byte(out, 0x14)?;
            put_flag(out, *truth)?;
        }
    }
    Ok(())
}

fn put_exprs(out: &mut Vec<u8>, exprs: &[Expr]) -> Result<(), Memory>
    requires { AreCounted HasExprSpelling (map expr_of exprs.now) }
    ensures { OnOk result (out.new.items ≡ out.old.items ++ counted expr_spelling (map expr_of exprs.now)) }
{
    put_byte(out, exprs.len() as u8)?;
    for expr in exprs {
        put_expr(out, expr)?;
    }
    Ok(())
}

fn put_columns(out: &mut Vec<u8>, columns: &[u32]) -> Result<(), Memory>
    requires { length columns.now < 256 }
    ensures { OnOk result (out.new.items ≡ out.old.items ++ counted (to_be_bytes w32) columns.now) }
{
    put_byte(out, columns.len() as u8)?;
    for column in columns {
        put_u32(out, *column)?;
    }
    Ok(())
}

fn put_pairs(out: &mut Vec<u8>, pairs: &[(u32, u32)]) -> Result<(), Memory>
    requires { length pairs.now < 256 }
    ensures { OnOk result (out.new.items ≡ out.old.items ++ counted pair_spelling pairs.now) }
{
    put_byte(out, pairs.len() as u8)?;
    for pair in pairs {
        put_u32(out, pair.0)?;
        put_u32(out, pair.1)?;
    }
    Ok(())
}

fn put_keys(out: &mut Vec<u8>, keys: &[Key]) -> Result<(), Memory>
    requires { length keys.now < 256 }
    ensures { OnOk result (out.new.items ≡ out.old.items ++ counted key_spelling keys.now) }
{
    put_byte(out, keys.len() as u8)?;
    for key in keys {
        put_u32(out, key.column)?;
        put_flag(out, key.down)?;
    }
    Ok(())
}

fn put_aggs(out: &mut Vec<u8>, aggs: &[Agg]) -> Result<(), Memory>
    requires { length aggs.now < 256 }
    ensures { OnOk result (out.new.items ≡ out.old.items ++ counted agg_spelling aggs.now) }
{
    put_byte(out, aggs.len() as u8)?;
    for agg in aggs {
        put_agg(out, *agg)?;
    }
    Ok(())
}

fn put_agg(out: &mut Vec<u8>, agg: Agg) -> Result<(), Memory>
    ensures { OnOk result (out.new.items ≡ out.old.items ++ agg_spelling agg) }
{
    let (tag, column) = match agg {
        Agg::Count => (1, 0),
        Agg::Sum(column) => (2, column),
        Agg::Min(column) => (3, column),
        Agg::Max(column) => (4, column),
        Agg::First(column) => (5, column),
        Agg::Last(column) => (6, column),
        Agg::Avg(column) => (7, column),
    };
    put_numbered(out, tag, column)
}
