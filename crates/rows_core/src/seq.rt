//! A list in a field of plain data, which contracts see as the list of its items.
ghost use Rattle.std.specs.Prelude.{◌≡◌, ◌↔◌, IfOk, IsTrue};
ghost use Rattle.std.specs.Cmp.Lexicographic.{pointwise, pointwise_decides, slice_cmp, slice_partial_cmp};
ghost use Rattle.std.specs.Cmp.Lexicographic.{lists_per, lists_equiv, lists_po, lists_total, lists_agrees};
ghost use Rattle.std.specs.Cmp.Lexicographic.{lists_ties};
ghost use Rattle.std.specs.Hash as fed;
ghost use Rattle.std.specs.Hash.{items_Alike};

use crate::exact_eq::ExactEq;
use crate::memory::Memory;
use std::alloc::Global;
use std::cmp::Ordering;
use std::fmt;
use std::hash::{Hash, Hasher};
use std::marker::Model;

/// A `Vec` in a field of plain data. It is made from one and gives it back without asking for memory.
#[derive(Drop)]
pub struct Seq<T> {
    items: Vec<T>,
}

/// Bytes in a field of plain data.
pub type Text = Seq<u8>;

impl<T> Model for Seq<T> {
    ghost use Rattle.std.specs.Prelude.{List};

    ghost Value = { List T };

    ghost view = { λ s. s.items.items };
}

impl<T> Seq<T> {
    pub fn new(items: Vec<T>) -> Seq<T>
        ensures { result ≡ items.items }
    {
        Seq { items }
    }

    pub fn items(&self) -> &[T]
        ensures { result.now ≡ self.now }
    {
        self.items.as_slice()
    }

    pub fn into_vec(self) -> Vec<T>
        ensures { result.items ≡ self }
    {
        let Seq { items } = self;
        items
    }
}

impl<T: Copy> Seq<T> {
    /// A second list of the same items.
    pub fn try_copy(&self, alloc: Global) -> Result<Seq<T>, Memory>
        ensures { IfOk result (λ copy. copy ≡ self.now) }
    {
        let items = Vec::from_slice(alloc, self.items())?;
        Ok(Seq { items })
    }
}

impl<T: ExactEq> Seq<T> {
    /// Whether the two are equal, which is what `==` says.
    pub fn is_same(&self, other: &Seq<T>) -> bool
        ensures { IsTrue result ↔ (self.now ≡ other.now) }
    {
        self == other
    }
}

impl<T: PartialEq> PartialEq for Seq<T> {
    ghost eq = { pointwise T.eq };

    ghost laws = { lists_per T.laws };

    fn eq(&self, other: &Seq<T>) -> bool {
        self.items() == other.items()
    }
}

impl<T: ExactEq> ExactEq for Seq<T> {
    ghost exact = { pointwise_decides T.exact };
}

impl<T: Eq> Eq for Seq<T> {
    ghost laws = { lists_equiv T.Eq.laws };
}

impl<T: PartialOrd> PartialOrd for Seq<T> {
    ghost partial_cmp = { slice_partial_cmp T.partial_cmp };

    ghost laws = { lists_po T.PartialOrd.laws };

    fn partial_cmp(&self, other: &Seq<T>) -> Option<Ordering> {
        self.items().partial_cmp(&other.items())
    }
}

impl<T: Ord> Ord for Seq<T> {
    ghost cmp = { slice_cmp T.cmp };

    ghost total = { lists_total T.total };

    ghost matches_partial_cmp = { lists_agrees T.matches_partial_cmp };

    ghost matches_eq = { lists_ties T.cmp T.matches_eq };

    fn cmp(&self, other: &Seq<T>) -> Ordering {
        self.items().cmp(&other.items())
    }
}

impl<T: Hash> Hash for Seq<T> {
    ghost hash_input = { fed.slice T.hash_input };

    ghost respects_eq = { (items_Alike (record { fed = T.respects_eq })).fed };

    fn hash<H: Hasher>(&self, state: &mut H) {
        self.items().hash(state);
    }
}

impl<T: fmt::Debug> fmt::Debug for Seq<T> {
    fn fmt<W: fmt::Write>(&self, f: &mut fmt::Formatter<W>) -> fmt::Result {
        f.debug_list().entries(self.items()).finish()
    }
}
