//! The kinds of values, and their words in the script.
ghost use Rattle.std.specs.Prelude.{◌≡◌, ◌≢◌, ◌↔◌, IfSome, IsNone};
ghost use Rattle.rows_core.specs.Kind.{kind_word, kind_with_word};
ghost use Rattle.rows_core.specs.declared.kind.Kind.{Kind};

use crate::exact_eq::ExactEq;

/// What a column's values are: numbers in i64, texts or truth values.
#[derive(Clone, Copy, PartialEq, Eq)]
pub enum Kind {
    Int,
    Text,
    Bool,
}

impl Kind {
    /// The kind with this word; `None` exactly where the bytes are no kind's word.
    #[tactic(auto, unfolding(crate::specs::Kind::kind_with_word))]
    pub fn of(word: &[u8]) -> Option<Kind>
        ensures read { result ≡ kind_with_word word.now }
        ensures kind { IfSome result (λ kind. kind_word kind ≡ word.now) }
        ensures none { IsNone result ↔ ((kind : Kind) → kind_word kind ≢ word.now) }
    {
        match word {
            b"int" => Some(Kind::Int),
            b"text" => Some(Kind::Text),
            b"bool" => Some(Kind::Bool),
            _ => None,
        }
    }

    /// The kind's word.
    pub fn word(&self) -> &[u8]
        ensures { result.now ≡ kind_word self.now }
    {
        match self {
            Kind::Int => b"int",
            Kind::Text => b"text",
            Kind::Bool => b"bool",
        }
    }
}

impl ExactEq for Kind {
    ghost use Rattle.std.proofs.Common.{rules};

    ghost exact = { Prim.search rules };
}
