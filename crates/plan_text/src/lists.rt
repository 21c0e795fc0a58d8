//! How the lists that stages have are read: a method for each rule of the grammar.
ghost use Rattle.std.specs.Prelude.{◌≡◌, ◌≤◌, ℕ, List, [], length, Some, IfOk};
ghost use Rattle.plan_text.specs.Draft.{limits};
ghost use Rattle.plan_text.specs.PlanDraft.{seen_columns, with_column};
ghost use Rattle.plan_text.specs.Reader.{ReaderOf, Reads};
ghost use Rattle.plan_text.specs.PlanReading.{items_of, item_onto, list_at, at_end, name_at, column_at};
ghost use Rattle.plan_text.specs.PlanReading.{columns_at, pair_at, key_of, key_at, function_named, agg_of};
ghost use Rattle.plan_text.specs.PlanReading.{count_of, closed_at, argument_at, agg_at, result_at};

use crate::parser::{Parser, Terminal};
use crate::plan_draft::{ColumnsDraft, no_columns, pushed, with_column};
use crate::text_refusal::TextRefusal;
use crate::{AggFunction, NamedAgg, NamedKey, NamedPair, NamedResult, Token, Word};
use rows_core::Name;

/// An item of a list in a plan.
pub trait Item: Sized + Drop {
    ghost item_at: { ℕ → ReaderOf Self };

    /// The item that must stand here, within which at most so many levels may be open.
    fn read(parser: &mut Parser, levels: u32) -> Result<Self, TextRefusal>
        ensures { Reads (λ item. item) result parser.new.rest.now (item_at levels parser.old.rest.now) };
}

impl Item for Name {
    ghost item_at = { λ levels. name_at };

    fn read(parser: &mut Parser, _levels: u32) -> Result<Name, TextRefusal> {
        parser.name()
    }
}

impl Item for NamedPair {
    ghost item_at = { λ levels. pair_at };

    fn read(parser: &mut Parser, _levels: u32) -> Result<NamedPair, TextRefusal> {
        let left = parser.named()?;
        let right = parser.name()?;
        Ok(NamedPair { left, right })
    }
}

impl Item for NamedKey {
    ghost item_at = { λ levels. key_at };

    fn read(parser: &mut Parser, _levels: u32) -> Result<NamedKey, TextRefusal> {
        let column = parser.name()?;
        let down = parser.desc();
        Ok(NamedKey { column, down })
    }
}

impl Item for NamedResult {
    ghost item_at = { result_at };

    fn read(parser: &mut Parser, levels: u32) -> Result<NamedResult, TextRefusal> {
        let name = parser.named()?;
        let agg = parser.agg(levels)?;
        Ok(NamedResult { name, agg })
    }
}

/// The function of this name.
fn function_named(name: &[u8]) -> Option<AggFunction>
    ensures { result ≡ function_named name.now }
{
    if name == b"sum".as_slice() {
        Some(AggFunction::Sum)
    } else if name == b"min".as_slice() {
        Some(AggFunction::Min)
    } else if name == b"max".as_slice() {
        Some(AggFunction::Max)
    } else if name == b"first".as_slice() {
        Some(AggFunction::First)
    } else if name == b"last".as_slice() {
        Some(AggFunction::Last)
    } else if name == b"avg".as_slice() {
        Some(AggFunction::Avg)
    } else {
        None
    }
}

/// The aggregate of this name of the column.
fn agg_of(name: &[u8], column: Name) -> Option<NamedAgg>
    ensures { result ≡ agg_of name.now column }
{
    match function_named(name) {
        Some(function) => Some(NamedAgg::Of(function, column)),
        None => None,
    }
}

fn count_of(name: &[u8]) -> Option<NamedAgg>
    ensures { result ≡ count_of name.now }
{
    if name == b"count".as_slice() {
        Some(NamedAgg::Count)
    } else {
        None
    }
}

impl Parser<'_> {
    /// One item more.
    fn item_onto<T: Item>(&mut self, levels: u32, items: Vec<T>) -> Result<Vec<T>, TextRefusal>
        ensures { Reads items_of result self.new.rest.now
            (item_onto (T.item_at levels) at_end items.items self.old.rest.now) }
    {
        let item = T::read(self, levels)?;
        Ok(pushed(items, item)?)
    }

    /// Items with commas between them.
    pub(crate) fn list<T: Item>(&mut self, levels: u32) -> Result<Vec<T>, TextRefusal>
        ensures { Reads items_of result self.new.rest.now
            (list_at (T.item_at levels) at_end [] self.old.rest.now) }
    {
        let mut items = self.item_onto(levels, Vec::new(self.alloc))?;
        let turns = self.rest.len() + 1;
        for _ in 0..turns {
            if !self.pass(Terminal::Comma) {
                return Ok(items);
            }
            items = self.item_onto(levels, items)?;
        }
        Err(TextRefusal::Syntax)
    }

    /// One column more of a projection.
    fn column_onto(
        &mut self,
        levels: u32,
        columns: ColumnsDraft,
    ) -> Result<ColumnsDraft, TextRefusal>
        ensures { Reads seen_columns result self.new.rest.now
            (item_onto (column_at limits levels) (with_column limits) (seen_columns columns)
            self.old.rest.now) }
    {
        let name = self.named()?;
        let expr = self.expr(levels)?;
        with_column(columns, name, expr)
    }

    /// The columns of a projection.
    pub(crate) fn columns(&mut self, levels: u32) -> Result<ColumnsDraft, TextRefusal>
        ensures { Reads seen_columns result self.new.rest.now (columns_at limits levels self.old.rest.now) }
    {
        let mut columns = self.column_onto(levels, no_columns(self.alloc))?;
        let turns = self.rest.len() + 1;
        for _ in 0..turns {
            if !self.pass(Terminal::Comma) {
                return Ok(columns);
            }
            columns = self.column_onto(levels, columns)?;
        }
        Err(TextRefusal::Syntax)
    }

    /// Passes the `desc` that may stand behind a key's column.
    fn desc(&mut self) -> bool
        ensures { (column : List ℕ)
            → Some (record { column = column; down = result }, self.new.rest.now)
            ≡ key_of column self.old.rest.now }
    {
        match self.rest {
            [Token::Word(Word::Desc), rest @ ..] => {
                self.rest = rest;
                true
            }
            _ => false,
        }
    }

    /// An aggregate. Its parentheses are a level.
    #[tactic(auto, using(crate::proofs::Levels::agg_with_levels))]
    fn agg(&mut self, levels: u32) -> Result<NamedAgg, TextRefusal>
        ensures { Reads (λ agg. agg) result self.new.rest.now (agg_at levels self.old.rest.now) }
    {
        if levels == 0 {
            return Err(TextRefusal::Syntax);
        }
        let name = self.name()?;
        self.need(Terminal::Open)?;
        self.agg_argument(name.bytes())
    }

    /// What stands in the parentheses of the aggregate with this name, up to the one that closes.
    fn agg_argument(&mut self, name: &[u8]) -> Result<NamedAgg, TextRefusal>
        ensures { Reads (λ agg. agg) result self.new.rest.now (argument_at name.now self.old.rest.now) }
    {
        match self.rest {
            [Token::Name(column), rest @ ..] => {
                self.rest = rest;
                self.closed(agg_of(name, column.try_copy(self.alloc)?))
            }
            _ => self.closed(count_of(name)),
        }
    }

    /// The aggregate, if there is one, up to the parenthesis that closes.
    fn closed(&mut self, agg: Option<NamedAgg>) -> Result<NamedAgg, TextRefusal>
        ensures { Reads (λ agg. agg) result self.new.rest.now (closed_at agg self.old.rest.now) }
    {
        let Some(agg) = agg else {
            return Err(TextRefusal::Syntax);
        };
        self.need(Terminal::Close)?;
        Ok(agg)
    }
}
