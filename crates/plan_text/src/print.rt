//! How a plan is printed.
ghost use Rattle.std.specs.Prelude.{◌≡◌, ◌++◌, [], ◌∷◌, map, IfOk, OnOk};
ghost use Rattle.plan_text.specs.declared.token.Token.TheVariants as token;
ghost use Rattle.plan_text.specs.declared.token.Word.TheVariants as word;
ghost use Rattle.plan_text.specs.PlainNamed.{expr_of, column_of, tree_of};
ghost use Rattle.plan_text.specs.Operators.{E};
ghost use Rattle.plan_text.specs.Spelled.{SpellsText};
ghost use Rattle.plan_text.specs.Canonical.{Space, One, text_of, in_parens, between, canonical_expr};
ghost use Rattle.plan_text.specs.Canonical.{listed, name_piece, column_pieces, pair_pieces, key_pieces};
ghost use Rattle.plan_text.specs.Canonical.{result_pieces, behind_bar, canonical, canonical_text};

use crate::expr_printer::{put, put_expr, put_spaced};
use crate::part_printer::put_parts;
use crate::print_laws::canonical_spells;
use crate::{
    EXPRESSION, NamedColumn, NamedExpr, NamedKey, NamedPair, NamedPlan, NamedResult, NamedTree,
    Word,
};
use rows_core::{Memory, Name};
use std::alloc::Global;

/// The canonical text of an expression, as it stands behind `where`. The rules are this project's own.
/// `Memory` where memory was asked for and refused.
pub fn print_expr(alloc: Global, expr: &NamedExpr) -> Result<Vec<u8>, Memory>
    ensures { IfOk result (λ text. text.items ≡ text_of (canonical_expr E (expr_of expr.now))) }
{
    let mut text = Vec::new(alloc);
    put_expr(EXPRESSION, expr, &mut text)?;
    Ok(text)
}

/// The canonical text of a plan, which spells it: single spaces, and parentheses exactly where the grammar
/// needs them. The grammar and these rules are this project's own. `Memory` where memory was asked for and
/// refused.
pub fn print_plan(alloc: Global, plan: &NamedPlan) -> Result<Vec<u8>, Memory>
    ensures text { IfOk result (λ text. text.items ≡ canonical_text plan.now) }
    ensures spells { IfOk result (λ text. SpellsText plan.now text.items) }
{
    canonical_spells();
    print_tree(alloc, plan.tree())
}

fn print_tree(alloc: Global, tree: &NamedTree) -> Result<Vec<u8>, Memory>
    ensures { IfOk result (λ text. text.items ≡ canonical_text (tree_of tree.now)) }
{
    let mut text = Vec::new(alloc);
    put_tree(tree, &mut text)?;
    Ok(text)
}

#[cycle(tree)]
fn put_tree(tree: &NamedTree, to: &mut Vec<u8>) -> Result<(), Memory>
    ensures { OnOk result (to.new.items ≡ to.old.items ++ text_of (canonical (tree_of tree.now))) }
{
    match tree {
        NamedTree::From { stream } => put_from(stream, to),
        NamedTree::Where { child, test } => {
            put_tree(child, to)?;
            put_where(test, to)
        }
        NamedTree::Select { child, columns } => {
            put_tree(child, to)?;
            put_select(columns.items(), to)
        }
        NamedTree::Distinct { child } => {
            put_tree(child, to)?;
            put_stage(Word::Distinct, to)
        }
        NamedTree::Group {
            child,
            keys,
            results,
        } => {
            put_tree(child, to)?;
            put_group(keys.items(), results.items(), to)
        }
        NamedTree::Join { left, right, on } => {
            put_tree(left, to)?;
            put_join(right, on.items(), to)
        }
        NamedTree::Concat { left, right } => {
            put_tree(left, to)?;
            put_concat(right, to)
        }
        NamedTree::Order { child, keys } => {
            put_tree(child, to)?;
            put_order(keys.items(), to)
        }
    }
}

fn put_from(stream: &Name, to: &mut Vec<u8>) -> Result<(), Memory>
    ensures { OnOk result (to.new.items ≡ to.old.items
        ++ text_of (One (token.Word word.From) ∷ Space ∷ name_piece stream.now)) }
{
    put(b"from ", to)?;
    put(stream.bytes(), to)
}

/// The bar before a stage, and the stage's word.
fn put_stage(word: Word, to: &mut Vec<u8>) -> Result<(), Memory>
    ensures { OnOk result (to.new.items ≡ to.old.items ++ text_of (behind_bar word [])) }
{
    put(b" | ", to)?;
    put(word.bytes(), to)
}

fn put_where(test: &NamedExpr, to: &mut Vec<u8>) -> Result<(), Memory>
    ensures { OnOk result (to.new.items ≡ to.old.items
        ++ text_of (behind_bar word.Where (Space ∷ canonical_expr E (expr_of test.now)))) }
{
    put_stage(Word::Where, to)?;
    put(b" ", to)?;
    put_expr(EXPRESSION, test, to)
}

fn put_select(columns: &[NamedColumn], to: &mut Vec<u8>) -> Result<(), Memory>
    ensures { OnOk result (to.new.items ≡ to.old.items
        ++ text_of (behind_bar word.Select (Space ∷ listed column_pieces (map column_of columns.now)))) }
{
    put_stage(Word::Select, to)?;
    put(b" ", to)?;
    put_columns(columns, to)
}

fn put_columns(columns: &[NamedColumn], to: &mut Vec<u8>) -> Result<(), Memory>
    ensures { OnOk result (to.new.items ≡ to.old.items
        ++ text_of (listed column_pieces (map column_of columns.now))) }
{
    put_parts(columns, to)
}

fn put_group(keys: &[Name], results: &[NamedResult], to: &mut Vec<u8>) -> Result<(), Memory>
    ensures { OnOk result (to.new.items ≡ to.old.items ++ text_of (behind_bar word.Group
        (Space ∷ between (listed name_piece keys.now) (token.Word word.With)
        (listed result_pieces results.now)))) }
{
    put_stage(Word::Group, to)?;
    put(b" ", to)?;
    put_parts(keys, to)?;
    put_spaced(b"with", to)?;
    put_parts(results, to)
}

#[cycle(tree)]
fn put_join(right: &NamedTree, on: &[NamedPair], to: &mut Vec<u8>) -> Result<(), Memory>
    ensures { OnOk result (to.new.items ≡ to.old.items ++ text_of (behind_bar word.Join
        (Space ∷ between (in_parens (canonical (tree_of right.now))) (token.Word word.On)
        (listed pair_pieces on.now)))) }
{
    put_stage(Word::Join, to)?;
    put(b" (", to)?;
    put_tree(right, to)?;
    put(b") on ", to)?;
    put_parts(on, to)
}

#[cycle(tree)]
fn put_concat(right: &NamedTree, to: &mut Vec<u8>) -> Result<(), Memory>
    ensures { OnOk result (to.new.items ≡ to.old.items
        ++ text_of (behind_bar word.Concat (Space ∷ in_parens (canonical (tree_of right.now))))) }
{
    put_stage(Word::Concat, to)?;
    put(b" (", to)?;
    put_tree(right, to)?;
    put(b")", to)
}

fn put_order(keys: &[NamedKey], to: &mut Vec<u8>) -> Result<(), Memory>
    ensures { OnOk result (to.new.items ≡ to.old.items
        ++ text_of (behind_bar word.Order (Space ∷ listed key_pieces keys.now))) }
{
    put_stage(Word::Order, to)?;
    put(b" ", to)?;
    put_parts(keys, to)
}
