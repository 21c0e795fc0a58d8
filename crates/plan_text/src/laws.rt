//! Laws that the printer and the parser share.
ghost use Rattle.std.specs.Prelude.{◌≡◌, ℕ, List};
ghost use Rattle.plan_text.specs.PlainNamed.{PlainTree};
ghost use Rattle.plan_text.specs.Spelled.{SpellsText};
ghost use Rattle.plan_text.specs.Canonical.{canonical_text};

/// The canonical text of a plan reads back as this plan and no other.
pub fn canonical_reads_back()
    ensures { (plan other : PlainTree) (text : List ℕ) → SpellsText plan text
        → SpellsText other (canonical_text plan) → other ≡ plan }
{}
