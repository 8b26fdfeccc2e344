//! Bytes as JSON.
ghost use Rattle.std.specs.Prelude.{◌≡◌, None, Some, IfOk, IsErrOf};
ghost use Rattle.serde_json.specs.View.{view};
ghost use Rattle.scim_json.specs.Parsing as spec;
ghost use Rattle.scim_json.specs.declared.parsing.JsonFault.TheVariants.{NotJson};

use serde_json::Value;
use std::alloc::Global;

/// Why bytes can't be read as JSON.
#[derive(Clone, Copy, Drop)]
pub enum JsonFault {
    /// The bytes aren't UTF-8, aren't JSON, or are nested deeper than 127 levels.
    NotJson,
    Memory,
}

/// Reads JSON in UTF-8.
pub fn json_of(alloc: Global, bytes: &[u8]) -> Result<Value, JsonFault>
    ensures read { IfOk result (λ value. spec.json_of bytes.now ≡ Some (view value)) }
    ensures refused { IsErrOf result NotJson → spec.json_of bytes.now ≡ None }
{
    match Value::from_slice(alloc, bytes) {
        Ok(value) => Ok(value),
        Err(error) if error.is_memory() => Err(JsonFault::Memory),
        Err(_) => Err(JsonFault::NotJson),
    }
}
