//! Laws of the grammar of plans.
ghost use Rattle.std.specs.Prelude.{◌≡◌, ◌↔◌, ℕ, List, Some};
ghost use Rattle.plan_text.specs.declared.token.Token.{Token};
ghost use Rattle.plan_text.specs.declared.counts.Counts.{Counts};
ghost use Rattle.plan_text.specs.PlainNamed.{PlainTree};
ghost use Rattle.plan_text.specs.Grammar.{SpellsPlan, EndsPlan};
ghost use Rattle.plan_text.specs.Spelled.{SpellsText};
ghost use Rattle.plan_text.specs.declared.limit.PlanLimit.{PlanLimit};
ghost use Rattle.plan_text.specs.Counts.{IsFirstPassed, IsWithinLimits};
ghost use Rattle.plan_text.specs.Token.{AreTokens};
ghost use Rattle.plan_text.specs.TextTokens.{tokens_in};
ghost use Rattle.plan_text.specs.Answer.{AsPlan, AsTooLarge, AsNone, text_reading};
ghost use Rattle.plan_text.specs.PlanDraft.{PlanDraft, plan_draft_of};
ghost use Rattle.plan_text.specs.PlanReading.{plan_at};

/// What is read as a plan with at most so many levels is what the grammar spells, up to a rest that may stand
/// behind a plan; of a plan with more of anything than the most only its counts are kept, each up to one
/// above the most.
pub fn plans_are_read()
    ensures found { (most : Counts) (levels : ℕ) (from rest : List Token) (d : PlanDraft)
        → plan_at most levels from ≡ Some (d, rest) →
        ((p : PlainTree) × (d ≡ plan_draft_of most p) × SpellsPlan levels p from rest) }
    ensures only { (most : Counts) (levels : ℕ) (p : PlainTree) (from rest : List Token) → EndsPlan rest
        → SpellsPlan levels p from rest →
        plan_at most levels from ≡ Some (plan_draft_of most p, rest) }
{}

/// Tokens spell one plan, up to one place, and a text spells one plan.
pub fn one_plan()
    ensures tokens { (levels : ℕ) (p q : PlainTree) (from rest other : List Token) → EndsPlan rest
        → EndsPlan other →
        SpellsPlan levels p from rest → SpellsPlan levels q from other → (p ≡ q) × (rest ≡ other) }
    ensures texts { (p q : PlainTree) (text : List ℕ) → SpellsText p text → SpellsText q text → p ≡ q }
{}

/// What a text is read as is the plan that it spells within the limits, or the first limit that its plan
/// passes, or no plan.
pub fn texts_are_read()
    ensures plan { (text : List ℕ) (p : PlainTree) → text_reading text ≡ AsPlan p ↔ SpellsText p text
        × IsWithinLimits p }
    ensures large { (text : List ℕ) (what : PlanLimit) →
        text_reading text ≡ AsTooLarge what ↔ ((p : PlainTree) × SpellsText p text × IsFirstPassed what p) }
    ensures none { (text : List ℕ) → text_reading text ≡ AsNone ↔ ((p : PlainTree) → SpellsText p text → ⊥) }
{}

/// The tokens of a text are those that `tokens_in` gives.
pub fn tokens_are_given()
    ensures { (text : List ℕ) (tokens : List Token) → tokens_in text ≡ Some tokens ↔ AreTokens tokens text }
{}
