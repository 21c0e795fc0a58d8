//! Parts of a list of extents.
ghost use Rattle.std.specs.Prelude.{◌≡◌, ◌↔◌, IsTrue};

use crate::exact_eq::ExactEq;

/// The extents from `from` on and below `to`, counted from 0.
#[derive(Clone, Copy, PartialEq, Eq, Hash)]
pub struct Cut {
    pub from: u32,
    pub to: u32,
}

impl Cut {
    /// Whether the two are equal, which is what `==` says.
    pub fn is_same(&self, other: &Cut) -> bool
        ensures { IsTrue result ↔ (self.now ≡ other.now) }
    {
        self == other
    }
}

impl ExactEq for Cut {
    ghost use Rattle.std.proofs.Common.{rules};

    ghost exact = { Prim.search rules };
}
