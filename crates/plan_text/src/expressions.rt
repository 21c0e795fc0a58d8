//! How expressions are read, by the rules of the grammar: operators between operands in one loop, each where
//! its rule may stand. Within a construct one level less may be open, and an operator's right operand is of a
//! tighter rule, so no call goes deeper than the levels and the rules; what isn't counted is read in a loop.
ghost use Rattle.std.specs.Prelude.{◌≡◌, ◌≤◌, ◌<◌, ◌∷◌, List, length, IfOk, IfSome};
ghost use Rattle.scalar_ops.specs.declared.cell.Cell.TheVariants as cell;
ghost use Rattle.plan_text.specs.PlainNamed.{Column, Literal};
ghost use Rattle.plan_text.specs.Draft.{limits, seen, kept_one};
ghost use Rattle.plan_text.specs.Reader.{Reads, Makes, ReadsSome};
ghost use Rattle.plan_text.specs.Reading.{seen_operand, number_atom, minus_atom, inner, argument};
ghost use Rattle.plan_text.specs.Reading.{call1_at, call2_at, choice_at, function_at};
ghost use Rattle.plan_text.specs.Reading.{word_atom, mark_atom, atom_at, prefixed_at, first_at};
ghost use Rattle.plan_text.specs.Reading.{operator_at, operand_onto, operands_at, below};
ghost use Rattle.plan_text.specs.Reading.{rule_at, expr_at};

use crate::draft::{ExprDraft, call1, choice, join, one, one_node};
use crate::parser::{Parser, Terminal};
use crate::text_refusal::TextRefusal;
use crate::{ATOM, EXPRESSION, Infix, Mark, NamedExpr, Operator, Prefix, Token, Word};
use rows_core::{Name, Txt};
use scalar_ops::{Cell, Op};
use std::alloc::Global;

/// The column with a copy of this name.
fn column(alloc: Global, name: &Name) -> Result<ExprDraft, TextRefusal>
    ensures { Makes seen result (kept_one limits (Column name.now)) }
{
    let name = name.try_copy(alloc)?;
    one(alloc, NamedExpr::Column(name))
}

/// A copy of this text.
fn text_literal(alloc: Global, text: &Txt) -> Result<ExprDraft, TextRefusal>
    ensures { Makes seen result (kept_one limits (Literal (cell.Text text.now))) }
{
    let text = text.try_copy(alloc)?;
    one(alloc, NamedExpr::Literal(Cell::Text(text)))
}

impl Parser<'_> {
    /// The operator of the rule, or of a tighter one, that may stand here.
    fn operator(&mut self, rule: u8) -> Option<Infix>
        ensures read { ReadsSome result self.old.rest.now self.new.rest.now
            (operator_at rule self.old.rest.now) }
        ensures right { IfSome result (λ o. o.right < rule) }
    {
        let [first, rest @ ..] = self.rest else {
            return None;
        };
        let operator = first.infix()?;
        if operator.rule > rule {
            return None;
        }
        self.rest = rest;
        Some(operator)
    }

    /// A number of i64 without a sign.
    fn number(alloc: Global, number: u64) -> Result<ExprDraft, TextRefusal>
        ensures { (rest : List Token) → Reads seen result rest (number_atom limits number rest) }
    {
        match i64::try_from(number) {
            Ok(number) => Ok(one_node(alloc, NamedExpr::Literal(Cell::Int(number)))?),
            Err(_) => Err(TextRefusal::Syntax),
        }
    }

    /// A number behind its sign.
    fn signed(&mut self) -> Result<ExprDraft, TextRefusal>
        ensures { Reads seen result self.new.rest.now (minus_atom limits self.old.rest.now) }
    {
        let [Token::Number(number), rest @ ..] = self.rest else {
            return Err(TextRefusal::Syntax);
        };
        self.rest = rest;
        match 0_i64.checked_sub_unsigned(*number) {
            Some(number) => { Ok(one_node(self.alloc, NamedExpr::Literal(Cell::Int(number)))?) }
            None => Err(TextRefusal::Syntax),
        }
    }

    /// An argument, up to this terminal.
    #[cycle(expression)]
    fn argument(&mut self, levels: u32, end: Terminal) -> Result<ExprDraft, TextRefusal>
        ensures { Reads seen result self.new.rest.now
            (argument (inner limits levels) end self.old.rest.now) }
    {
        let draft = self.within(EXPRESSION, levels)?;
        self.need(end)?;
        Ok(draft)
    }

    /// What the rule reads within a construct.
    #[cycle(expression)]
    #[tactic(auto, using(crate::proofs::Levels::inner_rule))]
    fn within(&mut self, rule: u8, levels: u32) -> Result<ExprDraft, TextRefusal>
        ensures { Reads seen result self.new.rest.now (inner limits levels rule self.old.rest.now) }
    {
        if levels == 0 {
            return Err(TextRefusal::Syntax);
        }
        self.rule(rule, levels - 1)
    }

    #[cycle(expression)]
    fn call1_at(&mut self, levels: u32, op: Op) -> Result<ExprDraft, TextRefusal>
        ensures { Reads seen result self.new.rest.now
            (call1_at limits (inner limits levels) op self.old.rest.now) }
    {
        let arg = self.argument(levels, Terminal::Close)?;
        call1(self.alloc, op, arg)
    }

    #[cycle(expression)]
    fn call2_at(&mut self, levels: u32, op: Op) -> Result<ExprDraft, TextRefusal>
        ensures { Reads seen result self.new.rest.now
            (call2_at limits (inner limits levels) op self.old.rest.now) }
    {
        let left = self.argument(levels, Terminal::Comma)?;
        let right = self.argument(levels, Terminal::Close)?;
        join(self.alloc, Operator::Call(op), left, right)
    }

    #[cycle(expression)]
    fn choice_at(&mut self, levels: u32) -> Result<ExprDraft, TextRefusal>
        ensures { Reads seen result self.new.rest.now
            (choice_at limits (inner limits levels) self.old.rest.now) }
    {
        let test = self.argument(levels, Terminal::Comma)?;
        let first = self.argument(levels, Terminal::Comma)?;
        let last = self.argument(levels, Terminal::Close)?;
        choice(self.alloc, test, first, last)
    }

    /// What stands in the parentheses of this word's function.
    #[cycle(expression)]
    fn function(&mut self, levels: u32, word: Word) -> Result<ExprDraft, TextRefusal>
        ensures { Reads seen result self.new.rest.now
            (function_at limits (inner limits levels) word self.old.rest.now) }
    {
        match word {
            Word::If => self.choice_at(levels),
            Word::Len => self.call1_at(levels, Op::Len),
            Word::Abs => self.call1_at(levels, Op::Abs),
            Word::Starts => self.call2_at(levels, Op::Starts),
            Word::Least => self.call2_at(levels, Op::Least),
            Word::Most => self.call2_at(levels, Op::Most),
            _ => Err(TextRefusal::Syntax),
        }
    }

    /// What begins with this word.
    #[cycle(expression)]
    fn word_atom(&mut self, levels: u32, word: Word) -> Result<ExprDraft, TextRefusal>
        ensures { Reads seen result self.new.rest.now
            (word_atom limits (inner limits levels) word self.old.rest.now) }
    {
        match word {
            Word::True => one(self.alloc, NamedExpr::Literal(Cell::Bool(true))),
            Word::False => one(self.alloc, NamedExpr::Literal(Cell::Bool(false))),
            _ => {
                self.need(Terminal::Open)?;
                self.function(levels, word)
            }
        }
    }

    /// What begins with this mark.
    #[cycle(expression)]
    fn mark_atom(&mut self, levels: u32, mark: Mark) -> Result<ExprDraft, TextRefusal>
        ensures { Reads seen result self.new.rest.now
            (mark_atom limits (inner limits levels) mark self.old.rest.now) }
    {
        match mark {
            Mark::Open => self.argument(levels, Terminal::Close),
            Mark::Sign => self.signed(),
            _ => Err(TextRefusal::Syntax),
        }
    }

    /// What begins with this token and no operation before it.
    #[cycle(expression)]
    fn atom(&mut self, levels: u32, first: &Token) -> Result<ExprDraft, TextRefusal>
        ensures { Reads seen result self.new.rest.now
            (atom_at limits (inner limits levels) first.now self.old.rest.now) }
    {
        match first {
            Token::Name(name) => column(self.alloc, name),
            Token::Text(text) => text_literal(self.alloc, text),
            Token::Number(number) => Self::number(self.alloc, *number),
            Token::Word(word) => self.word_atom(levels, *word),
            Token::Mark(mark) => self.mark_atom(levels, *mark),
        }
    }

    /// What stands before any operator between operands, and the rule that spells it.
    #[cycle(expression)]
    fn first(&mut self, rule: u8, levels: u32) -> Result<(ExprDraft, u8), TextRefusal>
        ensures { Reads seen_operand result self.new.rest.now
            (first_at limits (inner limits levels) rule self.old.rest.now) }
    {
        let [first, rest @ ..] = self.rest else {
            return Err(TextRefusal::Syntax);
        };
        self.rest = rest;
        match first.prefix() {
            Some(prefix) => self.prefixed(rule, prefix, levels),
            None => Ok((self.atom(levels, first)?, ATOM)),
        }
    }

    /// The operation and its operand, where the rule has them.
    #[cycle(expression)]
    fn prefixed(
        &mut self,
        rule: u8,
        prefix: Prefix,
        levels: u32,
    ) -> Result<(ExprDraft, u8), TextRefusal>
        ensures { Reads seen_operand result self.new.rest.now
            (prefixed_at limits (inner limits levels) rule prefix self.old.rest.now) }
    {
        if prefix.rule > rule {
            return Err(TextRefusal::Syntax);
        }
        let arg = self.within(prefix.rule, levels)?;
        Ok((call1(self.alloc, prefix.op, arg)?, prefix.rule))
    }

    /// What the rule reads: operands with its operators, and those of tighter rules, between them.
    #[cycle(expression)]
    pub(crate) fn rule(&mut self, rule: u8, levels: u32) -> Result<ExprDraft, TextRefusal>
        ensures { Reads seen result self.new.rest.now
            (rule_at limits (inner limits levels) rule self.old.rest.now) }
    {
        let operand = self.operands(rule, levels)?;
        Ok(operand.0)
    }

    #[cycle(expression)]
    fn operands(&mut self, rule: u8, levels: u32) -> Result<(ExprDraft, u8), TextRefusal>
        ensures { Reads seen_operand result self.new.rest.now
            (operands_at limits (inner limits levels) (below limits (inner limits levels) rule) rule
            self.old.rest.now) }
    {
        let mut operand = self.first(rule, levels)?;
        let turns = self.rest.len() + 1;
        for _ in 0..turns {
            let Some(operator) = self.operator(rule) else {
                return Ok(operand);
            };
            operand = self.operand_onto(rule, levels, operator, operand)?;
        }
        Err(TextRefusal::Syntax)
    }

    /// One operand more, to the right of what was read.
    #[cycle(expression)]
    #[tactic(auto, using(crate::proofs::Levels::below_is))]
    fn operand_onto(
        &mut self,
        rule: u8,
        levels: u32,
        operator: Infix,
        left: (ExprDraft, u8),
    ) -> Result<(ExprDraft, u8), TextRefusal>
        requires { operator.right < rule }
        ensures { Reads seen_operand result self.new.rest.now
            (operand_onto limits (below limits (inner limits levels) rule) operator (seen_operand left)
            self.old.rest.now) }
    {
        if left.1 > operator.left {
            return Err(TextRefusal::Syntax);
        }
        let right = self.rule(operator.right, levels)?;
        Ok((
            join(self.alloc, operator.operator, left.0, right)?,
            operator.rule,
        ))
    }

    /// An expression.
    pub(crate) fn expr(&mut self, levels: u32) -> Result<ExprDraft, TextRefusal>
        ensures { Reads seen result self.new.rest.now
            (expr_at limits (inner limits levels) self.old.rest.now) }
    {
        self.rule(EXPRESSION, levels)
    }
}
