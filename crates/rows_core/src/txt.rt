//! Texts.
ghost use Rattle.std.specs.Prelude.{◌≡◌, ◌<◌, ◌↔◌, length, IfOk, IsErrOf, IsTrue};
ghost use Rattle.std.specs.List.{list_all};
ghost use Rattle.rows_core.specs.Txt.{IsText, IsTxt, is_text_byte};

use crate::exact_eq::ExactEq;
use crate::memory::Memory;
use crate::seq::Seq;
use std::alloc::Global;
use std::marker::Model;
use thiserror::Error;

/// The greatest length of a text, in bytes.
const MAX_TEXT_LEN: usize = 1_000;

/// The least byte of a text.
const MIN_TEXT_BYTE: u8 = 0x20;

/// A text: UTF-8 without a byte below 0x20, of 1,000 bytes at most. The rule is this project's own. Contracts
/// see it as its bytes. Texts are ordered by their bytes.
#[derive(Debug, PartialEq, Eq, PartialOrd, Ord, Hash, Drop)]
pub struct Txt {
    bytes: Seq<u8>,
}

/// Why bytes were not taken as a text.
#[derive(Clone, Copy, Debug, PartialEq, Eq, Error)]
pub enum TxtRefusal {
    #[error("not a text")]
    NotText,
    #[error("a text is too long")]
    TooLong,
    #[error("out of memory")]
    Memory,
}

impl Model for Txt {
    ghost use Rattle.std.specs.Prelude.{List, ℕ};
    ghost use Rattle.rows_core.specs.Txt.{IsTxt};

    ghost Value = { List ℕ };

    ghost view = { λ text. text.bytes };

    ghost invariant = { λ text. IsTxt text.bytes };

    ghost inverse = { λ bytes. record { bytes = bytes } };
}

impl Txt {
    /// The text with these bytes: `NotText` exactly where they are not UTF-8 or one is below 0x20, else
    /// `TooLong` exactly where they are more than 1,000.
    pub fn new(alloc: Global, bytes: &[u8]) -> Result<Txt, TxtRefusal>
        ensures bytes { IfOk result (λ text. text ≡ bytes.now) }
        ensures text { IfOk result (λ text. IsTxt text) }
        ensures not_text { IsErrOf result TxtRefusal.NotText ↔ (IsText bytes.now → ⊥) }
        ensures too_long { IsErrOf result TxtRefusal.TooLong
            ↔ (IsText bytes.now × (1000 < length bytes.now)) }
    {
        if !is_text(bytes) {
            return Err(TxtRefusal::NotText);
        }
        if bytes.len() > MAX_TEXT_LEN {
            return Err(TxtRefusal::TooLong);
        }
        match Vec::from_slice(alloc, bytes) {
            Ok(bytes) => Ok(Txt {
                bytes: Seq::new(bytes),
            }),
            Err(_) => Err(TxtRefusal::Memory),
        }
    }

    /// The text of these bytes, as `new` takes them. It takes no memory.
    pub fn from_vec(bytes: Vec<u8>) -> Result<Txt, TxtRefusal>
        ensures bytes { IfOk result (λ text. text ≡ bytes.items) }
        ensures text { IfOk result (λ text. IsTxt text) }
        ensures not_text { IsErrOf result TxtRefusal.NotText ↔ (IsText bytes.items → ⊥) }
        ensures too_long { IsErrOf result TxtRefusal.TooLong
            ↔ (IsText bytes.items × (1000 < length bytes.items)) }
        ensures no_memory { IsErrOf result TxtRefusal.Memory → ⊥ }
    {
        if !is_text(&bytes) {
            return Err(TxtRefusal::NotText);
        }
        if bytes.len() > MAX_TEXT_LEN {
            return Err(TxtRefusal::TooLong);
        }
        Ok(Txt {
            bytes: Seq::new(bytes),
        })
    }

    pub fn bytes(&self) -> &[u8]
        ensures bytes { result.now ≡ self.now }
        ensures text { IsTxt self.now }
    {
        self.bytes.items()
    }

    /// Whether the two are equal, which is what `==` says.
    pub fn is_same(&self, other: &Txt) -> bool
        ensures { IsTrue result ↔ (self.now ≡ other.now) }
    {
        self == other
    }

    /// A second text with the same bytes.
    pub fn try_copy(&self, alloc: Global) -> Result<Txt, Memory>
        ensures { IfOk result (λ text. text ≡ self.now) }
    {
        let bytes = self.bytes.try_copy(alloc)?;
        Ok(Txt { bytes })
    }
}

/// Whether these bytes are a text of any length: UTF-8 without a byte below 0x20.
pub fn is_text(bytes: &[u8]) -> bool
    ensures { IsTrue result ↔ IsText bytes.now }
{
    std::str::from_utf8(bytes).is_ok() && has_text_bytes(bytes)
}

fn has_text_bytes(bytes: &[u8]) -> bool
    ensures { result ≡ list_all is_text_byte bytes.now }
{
    bytes.iter().all(|byte| *byte >= MIN_TEXT_BYTE)
}

impl ExactEq for Txt {
    ghost use Rattle.std.specs.Cmp.Lexicographic.{bytes_decides};

    ghost exact = { bytes_decides };
}
