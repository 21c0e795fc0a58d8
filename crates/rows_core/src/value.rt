//! Values.
ghost use Rattle.std.specs.Prelude.{◌≡◌, ◌↔◌, IfOk, IsTrue};
ghost use Rattle.rows_core.specs.Value.{kind_of};

use crate::kind::Kind;
use crate::memory::Memory;
use crate::txt::Txt;
use std::alloc::Global;

/// A number in i64, a text or a truth value. Numbers are ordered by value, texts by bytes, and `false` stands before `true`;
/// a number stands before a text, and a text before a truth value.
#[derive(PartialEq, Eq, PartialOrd, Ord, Hash, Drop)]
pub enum Value {
    Int(i64),
    Text(Txt),
    Bool(bool),
}

impl Value {
    pub fn kind(&self) -> Kind
        ensures { result ≡ kind_of self.now }
    {
        match self {
            Value::Int(_) => Kind::Int,
            Value::Text(_) => Kind::Text,
            Value::Bool(_) => Kind::Bool,
        }
    }

    /// Whether the two are equal, which is what `==` says.
    pub fn is_same(&self, other: &Value) -> bool
        ensures { IsTrue result ↔ (self.now ≡ other.now) }
    {
        self == other
    }

    /// A second value that equals this one.
    pub fn try_copy(&self, alloc: Global) -> Result<Value, Memory>
        ensures { IfOk result (λ value. value ≡ self.now) }
    {
        match self {
            Value::Int(number) => Ok(Value::Int(*number)),
            Value::Text(text) => Ok(Value::Text(text.try_copy(alloc)?)),
            Value::Bool(truth) => Ok(Value::Bool(*truth)),
        }
    }
}
