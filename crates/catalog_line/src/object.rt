//! Objects of JSON, made member by member.
ghost use Rattle.std.specs.Prelude.{◌≡◌, IfOk};
ghost use Rattle.serde_json.specs.Data.{no_members, object, put};
ghost use Rattle.serde_json.specs.View.{members_view, view};
ghost use Rattle.catalog_line.specs.CatalogData.{count};

use rows_core::Memory;
use serde_json::{Map, Value, put};
use std::alloc::Global;

/// An object that is made.
#[derive(Drop)]
pub(crate) struct Object {
    pub members: Map<String, Value>,
    alloc: Global,
}

impl Object {
    /// One without members.
    pub fn new(alloc: Global) -> Object
        ensures { members_view result.members.entries ≡ no_members }
    {
        Object {
            members: Map::new(alloc),
            alloc,
        }
    }

    /// With this member too.
    pub fn value(self, key: &str, value: Value) -> Result<Object, Memory>
        ensures { IfOk result (λ object. members_view object.members.entries
            ≡ put key.now (view value) (members_view self.members.entries)) }
    {
        let mut object = self;
        put(&mut object.members, object.alloc, key, value)?;
        Ok(object)
    }

    /// With this number too.
    pub fn count(self, key: &str, number: u64) -> Result<Object, Memory>
        ensures { IfOk result (λ object. members_view object.members.entries
            ≡ put key.now (count number) (members_view self.members.entries)) }
    {
        self.value(key, Value::from(number))
    }

    /// The object as a value.
    pub fn into_value(self) -> Value
        ensures { view result ≡ object (members_view self.members.entries) }
    {
        Value::Object(self.members)
    }
}
