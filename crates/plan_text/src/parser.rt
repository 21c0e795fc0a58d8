//! A parser over the tokens of a text, and the marks and words that a rule passes.
ghost use Rattle.std.specs.Prelude.{◌≡◌, ◌≤◌, ◌<◌, ◌↔◌, List, [], ◌∷◌, length, Some, None, if◌then◌else◌};
ghost use Rattle.std.specs.Prelude.{IsTrue, OnOk};
ghost use Rattle.plan_text.specs.Reader.{Reads, Passes, terminal_at};
ghost use Rattle.plan_text.specs.PlanReading.{name_at, named_at};

use crate::text_refusal::TextRefusal;
use crate::{Mark, Token, Word};
use rows_core::Name;
use std::alloc::Global;

/// A mark or word of the grammar that has no value of its own.
#[derive(Clone, Copy, PartialEq, Eq)]
pub enum Terminal {
    Comma,
    Open,
    Close,
    Bar,
    With,
    On,
}

impl Terminal {
    /// Whether the token is this terminal.
    fn is(self, token: &Token) -> bool
        ensures { (rest : List Token)
            → terminal_at self (token.now ∷ rest) ≡ (if result then Some (tt, rest) else None) }
    {
        matches!(
            (self, token),
            (Terminal::Comma, Token::Mark(Mark::Comma))
                | (Terminal::Open, Token::Mark(Mark::Open))
                | (Terminal::Close, Token::Mark(Mark::Close))
                | (Terminal::Bar, Token::Mark(Mark::Bar))
                | (Terminal::With, Token::Word(Word::With))
                | (Terminal::On, Token::Word(Word::On))
        )
    }
}

/// A parser. Each of its methods is a rule of the grammar and named as the rule: it reads what the rule
/// spells at the front of the tokens that are left, and leaves those behind it. After an `Err` it is at some
/// token. Where a method has `levels`, at most so many levels of nesting may be open within what it reads.
#[derive(Drop)]
pub struct Parser<'a> {
    pub(crate) rest: &'a [Token],
    pub(crate) alloc: Global,
}

impl<'a> Parser<'a> {
    pub fn new(alloc: Global, tokens: &'a [Token]) -> Parser<'a>
        ensures { result.rest.now ≡ tokens.now }
    {
        Parser {
            rest: tokens,
            alloc,
        }
    }

    /// Whether no token is left.
    pub fn is_at_end(&self) -> bool
        ensures { IsTrue result ↔ (self.now.rest.now ≡ []) }
    {
        self.rest.is_empty()
    }

    /// Passes the terminal that may stand here.
    pub(crate) fn pass(&mut self, terminal: Terminal) -> bool
        ensures { Passes result self.old.rest.now self.new.rest.now (terminal_at terminal self.old.rest.now) }
    {
        let [first, rest @ ..] = self.rest else {
            return false;
        };
        if !terminal.is(first) {
            return false;
        }
        self.rest = rest;
        true
    }

    /// Passes the terminal that must stand here.
    pub(crate) fn need(&mut self, terminal: Terminal) -> Result<(), TextRefusal>
        ensures { Reads (λ _. tt) result self.new.rest.now (terminal_at terminal self.old.rest.now) }
    {
        if self.pass(terminal) {
            Ok(())
        } else {
            Err(TextRefusal::Syntax)
        }
    }

    /// The name that must stand here.
    pub(crate) fn name(&mut self) -> Result<Name, TextRefusal>
        ensures { Reads (λ name. name) result self.new.rest.now (name_at self.old.rest.now) }
    {
        match self.rest {
            [Token::Name(name), rest @ ..] => {
                self.rest = rest;
                Ok(name.try_copy(self.alloc)?)
            }
            _ => Err(TextRefusal::Syntax),
        }
    }

    /// The name and the `=` that must stand here.
    pub(crate) fn named(&mut self) -> Result<Name, TextRefusal>
        ensures { Reads (λ name. name) result self.new.rest.now (named_at self.old.rest.now) }
    {
        match self.rest {
            [Token::Name(name), Token::Mark(Mark::Equal), rest @ ..] => {
                self.rest = rest;
                Ok(name.try_copy(self.alloc)?)
            }
            _ => Err(TextRefusal::Syntax),
        }
    }
}
