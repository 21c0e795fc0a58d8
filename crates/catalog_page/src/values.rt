//! What the value of a key is read as.
ghost use Rattle.std.specs.Prelude.{◌≡◌, ◌≤◌, ◌<◌, map, IfOk};
ghost use Rattle.std.specs.Option.{option_map};
ghost use Rattle.serde_json.specs.Find.{get};
ghost use Rattle.serde_json.specs.View.{view};
ghost use Rattle.catalog_page.specs.Keys.{key_word};
ghost use Rattle.catalog_page.specs.Tells.{Finds};
ghost use Rattle.catalog_page.specs.Told.{at, items, member, name, number, positive, size, small, text};

use crate::key::Key;
use crate::refusal::Unread;
use rows_core::limits::MAX_RESULT_BYTES;
use rows_core::name::is_name;
use rows_core::{Name, NameRefusal, Seq, Text};
use serde_json::Value;
use std::alloc::Global;

/// The value of this key.
#[tactic(auto, unfolding(crate::specs::Told::member))]
pub(crate) fn member(object: &Value, key: Key) -> Result<&Value, Unread>
    ensures { Finds (λ v. view v.now) result (member key (view object.now)) }
{
    match object.get(key.word()) {
        Some(value) => Ok(value),
        None => Err(Unread::Missing(key)),
    }
}

#[tactic(auto, unfolding(crate::specs::Told::number))]
pub(crate) fn number(key: Key, value: &Value) -> Result<u64, Unread>
    ensures { Finds (λ n. n) result (number key (view value.now)) }
{
    match value.as_u64() {
        Some(number) => Ok(number),
        None => Err(Unread::Missing(key)),
    }
}

/// A number in 32 bits.
#[tactic(auto, unfolding(crate::specs::Told::small))]
pub(crate) fn small(key: Key, value: &Value) -> Result<u32, Unread>
    ensures { Finds (λ n. n) result (small key (view value.now)) }
{
    let number = number(key, value)?;
    if number < 4_294_967_296 {
        Ok(number as u32)
    } else {
        Err(Unread::Missing(key))
    }
}

/// A number in 32 bits other than 0.
#[tactic(auto, unfolding(crate::specs::Told::positive))]
pub(crate) fn positive(key: Key, value: &Value) -> Result<u32, Unread>
    ensures found { Finds (λ n. n) result (positive key (view value.now)) }
    ensures positive { IfOk result (λ n. 0 < n) }
{
    let number = small(key, value)?;
    if number == 0 {
        Err(Unread::Missing(key))
    } else {
        Ok(number)
    }
}

/// No more bytes than a kept result has.
#[tactic(auto, unfolding(crate::specs::Told::size))]
pub(crate) fn size(key: Key, value: &Value) -> Result<u64, Unread>
    ensures found { Finds (λ n. n) result (size key (view value.now)) }
    ensures short { IfOk result (λ n. n ≤ 67108864) }
{
    let number = number(key, value)?;
    if number <= MAX_RESULT_BYTES {
        Ok(number)
    } else {
        Err(Unread::Missing(key))
    }
}

#[tactic(auto, unfolding(crate::specs::Told::text))]
pub(crate) fn text(key: Key, value: &Value) -> Result<&str, Unread>
    ensures { Finds (λ s. s.now) result (text key (view value.now)) }
{
    match value.as_str() {
        Some(text) => Ok(text),
        None => Err(Unread::Missing(key)),
    }
}

#[tactic(auto, unfolding(crate::specs::Told::name))]
pub(crate) fn name(alloc: Global, key: Key, value: &Value) -> Result<Name, Unread>
    ensures { Finds (λ n. n) result (name key (view value.now)) }
{
    let text = text(key, value)?;
    if !is_name(text.as_bytes()) {
        return Err(Unread::Missing(key));
    }
    match Name::new(alloc, text.as_bytes()) {
        Ok(name) => Ok(name),
        Err(NameRefusal::Memory) => Err(Unread::Memory),
        Err(NameRefusal::NotName) => unreachable!(),
    }
}

#[tactic(auto, unfolding(crate::specs::Told::items))]
pub(crate) fn items(key: Key, value: &Value) -> Result<&[Value], Unread>
    ensures { Finds (λ values. map view values.now) result (items key (view value.now)) }
{
    match value.as_array() {
        Some(values) => Ok(values.as_slice()),
        None => Err(Unread::Missing(key)),
    }
}

#[tactic(auto, unfolding(crate::specs::Told::at))]
pub(crate) fn number_at(object: &Value, key: Key) -> Result<u64, Unread>
    ensures { Finds (λ n. n) result (at key number (view object.now)) }
{
    let value = member(object, key)?;
    number(key, value)
}

#[tactic(auto, unfolding(crate::specs::Told::at))]
pub(crate) fn small_at(object: &Value, key: Key) -> Result<u32, Unread>
    ensures { Finds (λ n. n) result (at key small (view object.now)) }
{
    let value = member(object, key)?;
    small(key, value)
}

#[tactic(auto, unfolding(crate::specs::Told::at))]
pub(crate) fn positive_at(object: &Value, key: Key) -> Result<u32, Unread>
    ensures found { Finds (λ n. n) result (at key positive (view object.now)) }
    ensures positive { IfOk result (λ n. 0 < n) }
{
    let value = member(object, key)?;
    positive(key, value)
}

#[tactic(auto, unfolding(crate::specs::Told::at))]
pub(crate) fn size_at(object: &Value, key: Key) -> Result<u64, Unread>
    ensures found { Finds (λ n. n) result (at key size (view object.now)) }
    ensures short { IfOk result (λ n. n ≤ 67108864) }
{
    let value = member(object, key)?;
    size(key, value)
}

#[tactic(auto, unfolding(crate::specs::Told::at))]
pub(crate) fn name_at(alloc: Global, object: &Value, key: Key) -> Result<Name, Unread>
    ensures { Finds (λ n. n) result (at key name (view object.now)) }
{
    let value = member(object, key)?;
    name(alloc, key, value)
}

#[tactic(auto, unfolding(crate::specs::Told::at))]
pub(crate) fn text_at(alloc: Global, object: &Value, key: Key) -> Result<Text, Unread>
    ensures { Finds (λ text. text) result (at key text (view object.now)) }
{
    let value = member(object, key)?;
    let text = text(key, value)?;
    Ok(Seq::new(Vec::from_slice(alloc, text.as_bytes())?))
}

#[tactic(auto, unfolding(crate::specs::Told::at))]
pub(crate) fn items_at(object: &Value, key: Key) -> Result<&[Value], Unread>
    ensures { Finds (λ values. map view values.now) result (at key items (view object.now)) }
{
    let value = member(object, key)?;
    items(key, value)
}
