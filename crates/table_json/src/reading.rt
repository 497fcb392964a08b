//! The value of a text.

ghost use Rattle.std.specs.Prelude.{◌≡◌, ◌⊎◌, IfOk, IfErr, Err};
ghost use Rattle.serde_json.specs.Data.{Data};
ghost use Rattle.serde_json.specs.View.{view};
ghost use Rattle.table_json.specs.Texts.{IsJsonText};

use crate::JsonFault;
use serde_json::Value;
use std::alloc::Global;

/// The value of a text; or NotJson where the text is that of no value; or Memory where there is no
/// memory.
pub(crate) fn read(alloc: Global, text: &[u8]) -> Result<Value, JsonFault>
    ensures value { IfOk result (λ v. IsJsonText text.now (view v)) }
    ensures not_json { result ≡ Err JsonFault.NotJson → (d : Data) → IsJsonText text.now d → ⊥ }
    ensures faults { IfErr result
        (λ fault. (fault ≡ JsonFault.NotJson) ⊎ (fault ≡ JsonFault.Memory)) }
{
    match Value::from_slice(alloc, text) {
        Ok(value) => Ok(value),
        Err(error) if error.is_memory() => Err(JsonFault::Memory),
        Err(_) => Err(JsonFault::NotJson),
    }
}
