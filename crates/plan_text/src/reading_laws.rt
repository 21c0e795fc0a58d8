//! Laws of the grammar.
ghost use Rattle.std.specs.Prelude.{◌≡◌, ℕ, List, Some};
ghost use Rattle.plan_text.specs.declared.token.Token.{Token};
ghost use Rattle.plan_text.specs.PlainNamed.{PlainExpr};
ghost use Rattle.plan_text.specs.Operators.{E};
ghost use Rattle.plan_text.specs.Grammar.{Spells, EndsExpr};
ghost use Rattle.plan_text.specs.declared.counts.Counts.{Counts};
ghost use Rattle.plan_text.specs.Draft.{PlainDraft, draft_of};
ghost use Rattle.plan_text.specs.Reading.{expr_at, inner};

/// What is read as an expression with at most so many levels is what the grammar spells, up to a rest that
/// may stand behind an expression; of one with more of anything than the most only its counts are kept, each
/// up to one above the most.
pub fn expressions_are_read()
    ensures found { (most : Counts) (levels : ℕ) (from rest : List Token) (d : PlainDraft)
        → expr_at most (inner most levels) from ≡ Some (d, rest) →
        ((e : PlainExpr) × (d ≡ draft_of most e) × Spells E levels e from rest) }
    ensures only { (most : Counts) (levels : ℕ) (e : PlainExpr) (from rest : List Token) → EndsExpr rest
        → Spells E levels e from rest →
        expr_at most (inner most levels) from ≡ Some (draft_of most e, rest) }
{}

/// Tokens spell one expression, up to one place.
pub fn one_expression()
    ensures { (levels : ℕ) (a b : PlainExpr) (from rest other : List Token) → EndsExpr rest → EndsExpr other →
        Spells E levels a from rest → Spells E levels b from other → (a ≡ b) × (rest ≡ other) }
{}
