//! Comparisons of cuts.
ghost use Rattle.std.specs.Prelude.{◌↔◌, IsTrue};
ghost use Rattle.rewrite_core.specs.IsRewriting.{IsLonger};

use rows_core::Cut;

/// Whether these are one interval each, and the new one goes on behind the old one.
pub fn is_longer(old: &[Cut], new: &[Cut]) -> bool
    ensures { IsTrue result ↔ IsLonger old.now new.now }
{
    match (old, new) {
        ([old], [new]) => old.from == new.from && old.to < new.to,
        _ => false,
    }
}
