//! How the lists of a plan's stages are printed.
ghost use Rattle.std.specs.Prelude.{◌≡◌, ◌++◌, ◌∷◌, List, OnOk};
ghost use Rattle.std.specs.List.{flat_map};
ghost use Rattle.plan_text.specs.PlainNamed.{column_of};
ghost use Rattle.plan_text.specs.Canonical.{Piece, text_of, listed, name_piece, column_pieces};
ghost use Rattle.plan_text.specs.Canonical.{pair_pieces, key_pieces, argument_pieces, result_pieces};

use crate::expr_printer::{put, put_expr, put_spaced};
use crate::{EXPRESSION, NamedAgg, NamedColumn, NamedKey, NamedPair, NamedResult};
use rows_core::{Memory, Name};

/// An item of a list in a plan.
pub trait Part {
    ghost pieces: { Self → List Piece };

    fn put(&self, to: &mut Vec<u8>) -> Result<(), Memory>
        ensures { OnOk result (to.new.items ≡ to.old.items ++ text_of (pieces self.now)) };
}

impl Part for Name {
    ghost pieces = { name_piece };

    fn put(&self, to: &mut Vec<u8>) -> Result<(), Memory> {
        put(self.bytes(), to)
    }
}

impl Part for NamedColumn {
    ghost pieces = { λ column. column_pieces (column_of column) };

    fn put(&self, to: &mut Vec<u8>) -> Result<(), Memory> {
        put(self.name.bytes(), to)?;
        put_spaced(b"=", to)?;
        put_expr(EXPRESSION, &self.expr, to)
    }
}

impl Part for NamedPair {
    ghost pieces = { pair_pieces };

    fn put(&self, to: &mut Vec<u8>) -> Result<(), Memory> {
        put(self.left.bytes(), to)?;
        put_spaced(b"=", to)?;
        put(self.right.bytes(), to)
    }
}

impl Part for NamedKey {
    ghost pieces = { key_pieces };

    fn put(&self, to: &mut Vec<u8>) -> Result<(), Memory> {
        put(self.column.bytes(), to)?;
        if self.down {
            put(b" desc", to)?;
        }
        Ok(())
    }
}

impl Part for NamedResult {
    ghost pieces = { result_pieces };

    fn put(&self, to: &mut Vec<u8>) -> Result<(), Memory> {
        put(self.name.bytes(), to)?;
        put_spaced(b"=", to)?;
        put(self.agg.word(), to)?;
        put(b"(", to)?;
        put_argument(&self.agg, to)?;
        put(b")", to)
    }
}

fn put_argument(agg: &NamedAgg, to: &mut Vec<u8>) -> Result<(), Memory>
    ensures { OnOk result (to.new.items ≡ to.old.items ++ text_of (argument_pieces agg.now)) }
{
    match agg {
        NamedAgg::Count => Ok(()),
        NamedAgg::Of(_, column) => put(column.bytes(), to),
    }
}

/// Appends the items, with a comma and a space between any two.
pub fn put_parts<T: Part>(parts: &[T], to: &mut Vec<u8>) -> Result<(), Memory>
    ensures { OnOk result (to.new.items ≡ to.old.items ++ text_of (listed T.pieces parts.now)) }
{
    let [first, others @ ..] = parts else {
        return Ok(());
    };
    first.put(to)?;
    put_others(others, to)
}

fn put_others<T: Part>(parts: &[T], to: &mut Vec<u8>) -> Result<(), Memory>
    ensures { OnOk result
        (to.new.items ≡ to.old.items ++ flat_map (λ part. 44 ∷ 32 ∷ text_of (T.pieces part)) parts.now) }
{
    for part in parts {
        put_other(part, to)?;
    }
    Ok(())
}

fn put_other<T: Part>(part: &T, to: &mut Vec<u8>) -> Result<(), Memory>
    ensures { OnOk result (to.new.items ≡ to.old.items ++ 44 ∷ 32 ∷ text_of (T.pieces part.now)) }
{
    put(b", ", to)?;
    part.put(to)
}
