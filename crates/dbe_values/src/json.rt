ghost use Rattle.std.specs.Prelude.{◌≡◌, IfOk, option_map};
ghost use Rattle.serde_json.specs.View.{view};
ghost use Rattle.dbe_values.specs.Json.{json_of, size_of};

use dbe_num::Memory;
use serde_json::Value;
use std::alloc::Global;

/// The JSON value that the bytes are, or none where they are no text or no JSON.
#[tactic(auto, using(crate::proofs::Known::json_known, crate::proofs::Known::json_none))]
pub fn json_value(alloc: Global, bytes: &[u8]) -> Result<Option<Value>, Memory>
    ensures { IfOk result (λ value. option_map view value ≡ json_of bytes.now) }
{
    match Value::from_slice(alloc, bytes) {
        Ok(value) => Ok(Some(value)),
        Err(error) => if error.is_memory() {
            Err(Memory)
        } else {
            Ok(None)
        },
    }
}

/// How many members an object has. All else has none.
#[tactic(auto, using(crate::proofs::Known::size_of_object, crate::proofs::Known::size_of_other))]
pub fn size_of(value: &Value) -> usize
    ensures { result ≡ size_of (view value.now) }
{
    match value.as_object() {
        Some(map) => map.len(),
        None => 0,
    }
}
