//! Names.
ghost use Rattle.std.specs.Prelude.{◌≡◌, ◌<◌, ◌≤◌, IfOk};
ghost use Rattle.std.specs.Char.{is_ascii_lowercase};
ghost use Rattle.rows_core.specs.Name.{is_name_byte};
ghost use Rattle.byte_formats.specs.Reading.{Gives};
ghost use Rattle.byte_formats.specs.Format.{byte_that, is_name_len, isnt_reserved, letters, name, passing};

use crate::items::items_at;
use crate::unread::Unread;
use rows_core::{Name, NameRefusal, is_name_byte};
use std::alloc::Global;

/// A name behind its length.
pub fn name_at(alloc: Global, bytes: &[u8]) -> Result<(Name, &[u8]), Unread>
    ensures { Gives (λ x. (x.0, x.1.now)) result (name.read bytes.now) }
{
    let (len, rest) = name_len_at(bytes)?;
    let (name, rest) = name_of_len(alloc, len, rest)?;
    Ok((name, rest))
}

/// The length of a name.
fn name_len_at(bytes: &[u8]) -> Result<(u8, &[u8]), Unread>
    ensures read { Gives (λ x. (x.0, x.1.now)) result ((byte_that is_name_len).read bytes.now) }
    ensures some { IfOk result (λ x. 0 < x.0) }
    ensures few { IfOk result (λ x. x.0 ≤ 64) }
{
    let [len, rest @ ..] = bytes else {
        return Err(Unread::Left(0));
    };
    if *len == 0 || *len > 64 {
        return Err(Unread::Left(bytes.len()));
    }
    Ok((*len, rest))
}

/// A name of this length. A reserved word stops reading at its last byte.
fn name_of_len(alloc: Global, len: u8, bytes: &[u8]) -> Result<(Name, &[u8]), Unread>
    requires some { 0 < len }
    requires few { len ≤ 64 }
    ensures { Gives (λ x. (x.0, x.1.now)) result ((passing isnt_reserved (letters len)).read bytes.now) }
{
    let (letters, rest) = letters_at(alloc, len, bytes)?;
    match Name::new(alloc, &letters) {
        Ok(name) => Ok((name, rest)),
        Err(NameRefusal::NotName) => Err(Unread::Left(rest.len() + 1)),
        Err(NameRefusal::Memory) => Err(Unread::Memory),
    }
}

/// A letter, and then letters, digits and `_`.
fn letters_at(alloc: Global, len: u8, bytes: &[u8]) -> Result<(Vec<u8>, &[u8]), Unread>
    requires { 0 < len }
    ensures { Gives (λ x. (x.0.items, x.1.now)) result ((letters len).read bytes.now) }
{
    let (first, rest) = letter_at(bytes)?;
    let (mut letters, rest) = items_at(alloc, len as usize - 1, rest, |bytes| name_byte_at(bytes))?;
    letters.insert(0, first)?;
    Ok((letters, rest))
}

fn letter_at(bytes: &[u8]) -> Result<(u8, &[u8]), Unread>
    ensures { Gives (λ x. (x.0, x.1.now)) result ((byte_that is_ascii_lowercase).read bytes.now) }
{
    let [byte, rest @ ..] = bytes else {
        return Err(Unread::Left(0));
    };
    if !byte.is_ascii_lowercase() {
        return Err(Unread::Left(bytes.len()));
    }
    Ok((*byte, rest))
}

fn name_byte_at(bytes: &[u8]) -> Result<(u8, &[u8]), Unread>
    ensures { Gives (λ x. (x.0, x.1.now)) result ((byte_that is_name_byte).read bytes.now) }
{
    let [byte, rest @ ..] = bytes else {
        return Err(Unread::Left(0));
    };
    if !is_name_byte(*byte) {
        return Err(Unread::Left(bytes.len()));
    }
    Ok((*byte, rest))
}
