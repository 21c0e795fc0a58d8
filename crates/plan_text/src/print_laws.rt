//! Laws of the canonical text.
ghost use Rattle.std.specs.Prelude.{◌≡◌, ◌<◌, ℕ, List, []};
ghost use Rattle.plan_text.specs.declared.token.Token.{Token};
ghost use Rattle.plan_text.specs.PlainNamed.{PlainExpr, PlainTree};
ghost use Rattle.plan_text.specs.Operators.{E, Rule};
ghost use Rattle.plan_text.specs.Grammar.{Spells, SpellsPlan};
ghost use Rattle.plan_text.specs.Spelled.{SpellsExpr, SpellsText};
ghost use Rattle.plan_text.specs.Canonical.{tokens_of, text_of, canonical_expr, canonical, canonical_text};
ghost use Rattle.plan_text.specs.Canonical.{rule_of, StandsInParens};

/// The canonical text of a plan opens no more levels than any other text of this plan: its tokens spell the
/// plan with at most so many levels as suffice for some tokens.
pub fn canonical_opens_fewest()
    ensures { (levels : ℕ) (plan : PlainTree) (tokens : List Token) →
        SpellsPlan levels plan tokens [] → SpellsPlan levels plan (tokens_of (canonical plan)) [] }
{}

/// The canonical text of a plan spells it, where any text does.
pub fn canonical_spells()
    ensures { (plan : PlainTree) (text : List ℕ) → SpellsText plan text
        → SpellsText plan (canonical_text plan) }
{}

/// The canonical text of an expression spells it, where any text does.
pub fn canonical_expr_spells()
    ensures { (e : PlainExpr) (text : List ℕ) → SpellsExpr e text
        → SpellsExpr e (text_of (canonical_expr E e)) }
{}

/// The parentheses of a canonical text are needed: where an expression's own rule is looser than the rule
/// that is to spell it, each of its texts by this rule is in parentheses.
pub fn parentheses_are_needed()
    ensures { (rule : Rule) (levels : ℕ) (e : PlainExpr) (from rest : List Token)
        → rule < rule_of e →
        Spells rule levels e from rest → StandsInParens levels e from rest }
{}
