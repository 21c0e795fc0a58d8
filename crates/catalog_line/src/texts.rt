//! Strings of JSON.
ghost use Rattle.std.specs.Prelude.{◌≡◌, IfOk};
ghost use Rattle.std.specs.Str.{IsUtf8};
ghost use Rattle.serde_json.specs.Data.{string};
ghost use Rattle.serde_json.specs.View.{view};
ghost use Rattle.catalog_line.specs.CatalogData.{digest_data};

use rows_core::{Digest, Memory, Name};
use serde_json::Value;
use std::alloc::Global;
use std::str;

/// The string of these bytes.
pub(crate) fn text_value(alloc: Global, bytes: &[u8]) -> Result<Value, Memory>
    requires { IsUtf8 bytes.now }
    ensures { IfOk result (λ value. view value ≡ string bytes.now) }
{
    match str::from_utf8(bytes) {
        Ok(text) => Ok(Value::try_from_str(alloc, text)?),
        Err(_) => unreachable!(),
    }
}

pub(crate) fn name_value(alloc: Global, name: &Name) -> Result<Value, Memory>
    ensures { IfOk result (λ value. view value ≡ string name.now) }
{
    text_value(alloc, name.bytes())
}

/// The digest in hexadecimal digits.
pub(crate) fn digest_value(alloc: Global, digest: &Digest) -> Result<Value, Memory>
    ensures { IfOk result (λ value. view value ≡ digest_data digest.now) }
{
    Ok(Value::String(hex::encode(alloc, digest.bytes.as_slice())?))
}
