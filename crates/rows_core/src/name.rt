//! The names of streams, columns, programs and jobs.
ghost use Rattle.std.specs.Prelude.{◌≡◌, ◌↔◌, IfOk, IsErrOf, IsTrue, bytes_eq};
ghost use Rattle.std.specs.List.{list_any, list_all};
ghost use Rattle.rows_core.specs.Name.{IsName, is_name, is_reserved, begins_with_letter, is_name_byte};

use crate::exact_eq::ExactEq;
use crate::memory::Memory;
use crate::seq::Seq;
use std::alloc::Global;
use std::marker::Model;
use thiserror::Error;

/// The words of the script's language, which name nothing.
const RESERVED_WORDS: [&str; 27] = [
    "and", "or", "not", "if", "true", "false", "len", "abs", "starts", "least", "most", "from",
    "where", "select", "distinct", "group", "with", "join", "on", "concat", "order", "desc", "as",
    "end", "int", "text", "bool",
];

/// The greatest length of a name, in bytes.
const MAX_NAME_LEN: usize = 64;

/// A lower-case letter followed by lower-case letters, digits and `_`, of 64 bytes at most, that is no
/// reserved word. The rule is this project's own. Contracts see it as its bytes.
#[derive(Debug, PartialEq, Eq, Hash, Drop)]
pub struct Name {
    bytes: Seq<u8>,
}

/// Why bytes were not taken as a name.
#[derive(Clone, Copy, Debug, PartialEq, Eq, Error)]
pub enum NameRefusal {
    #[error("not a name")]
    NotName,
    #[error("out of memory")]
    Memory,
}

impl Model for Name {
    ghost use Rattle.std.specs.Prelude.{List, ℕ};
    ghost use Rattle.rows_core.specs.Name.{IsName};

    ghost Value = { List ℕ };

    ghost view = { λ name. name.bytes };

    ghost invariant = { λ name. IsName name.bytes };

    ghost inverse = { λ bytes. record { bytes = bytes } };
}

impl Name {
    /// The name with these bytes: `NotName` exactly where they are no name.
    pub fn new(alloc: Global, bytes: &[u8]) -> Result<Name, NameRefusal>
        ensures bytes { IfOk result (λ name. name ≡ bytes.now) }
        ensures name { IfOk result (λ name. IsName name) }
        ensures not_name { IsErrOf result NameRefusal.NotName ↔ (IsName bytes.now → ⊥) }
    {
        if !is_name(bytes) {
            return Err(NameRefusal::NotName);
        }
        match Vec::from_slice(alloc, bytes) {
            Ok(bytes) => Ok(Name {
                bytes: Seq::new(bytes),
            }),
            Err(_) => Err(NameRefusal::Memory),
        }
    }

    pub fn bytes(&self) -> &[u8]
        ensures bytes { result.now ≡ self.now }
        ensures name { IsName self.now }
    {
        self.bytes.items()
    }

    /// Whether the two are equal, which is what `==` says.
    pub fn is_same(&self, other: &Name) -> bool
        ensures { IsTrue result ↔ (self.now ≡ other.now) }
    {
        self == other
    }

    /// A second name with the same bytes.
    pub fn try_copy(&self, alloc: Global) -> Result<Name, Memory>
        ensures { IfOk result (λ name. name ≡ self.now) }
    {
        let bytes = Vec::from_slice(alloc, self.bytes.items())?;
        Ok(Name {
            bytes: Seq::new(bytes),
        })
    }
}

/// Whether these bytes are a name.
#[tactic(auto, unfolding(crate::specs::Name::is_name))]
pub fn is_name(bytes: &[u8]) -> bool
    ensures { result ≡ is_name bytes.now }
{
    begins_with_letter(bytes)
        && has_name_bytes(bytes)
        && bytes.len() <= MAX_NAME_LEN
        && !is_reserved(bytes)
}

fn begins_with_letter(bytes: &[u8]) -> bool
    ensures { result ≡ begins_with_letter bytes.now }
{
    match bytes {
        [first, ..] => first.is_ascii_lowercase(),
        [] => false,
    }
}

fn has_name_bytes(bytes: &[u8]) -> bool
    ensures { result ≡ list_all is_name_byte bytes.now }
{
    bytes.iter().all(|byte| is_name_byte(*byte))
}

/// Whether names have this byte: a lower-case letter, a digit or `_`.
pub fn is_name_byte(byte: u8) -> bool
    ensures { result ≡ is_name_byte byte }
{
    byte.is_ascii_lowercase() || byte.is_ascii_digit() || byte == b'_'
}

#[tactic(auto, unfolding(crate::specs::Name::is_reserved))]
fn is_reserved(bytes: &[u8]) -> bool
    ensures { result ≡ is_reserved bytes.now }
{
    let words: [&str; 27] = RESERVED_WORDS;
    has_word(words.as_slice(), bytes)
}

fn has_word(words: &[&str], bytes: &[u8]) -> bool
    ensures { result ≡ list_any (λ word. bytes_eq word.now bytes.now) words.now }
{
    words.iter().any(|word| word.as_bytes() == bytes)
}

impl ExactEq for Name {
    ghost use Rattle.std.specs.Cmp.Lexicographic.{bytes_decides};

    ghost exact = { bytes_decides };
}
