//! Names, texts, values and rows: what every other crate speaks of.
#![tactic(auto)]

pub mod cut;
pub mod exact_eq;
pub mod file_ref;
pub mod kind;
pub mod limits;
pub mod memory;
pub mod name;
pub mod order;
pub mod overflow;
pub mod row;
pub mod schema;
pub mod seq;
pub mod txt;
pub mod value;

pub use cut::Cut;
pub use exact_eq::ExactEq;
pub use file_ref::{Digest, FileRef};
pub use kind::Kind;
pub use memory::Memory;
pub use name::{Name, NameRefusal, is_name_byte};
pub use order::{Key, cmp_by, total_order};
pub use overflow::Overflow;
pub use row::{Row, copy_rows};
pub use schema::{Column, Schema, SchemaRefusal, copy_columns, has_repeat};
pub use seq::{Seq, Text};
pub use txt::{Txt, TxtRefusal, is_text};
pub use value::Value;
