ghost use Rattle.std.specs.Prelude.{◌≡◌, ◌≢◌, IfOk, IfErr, Some, None};
ghost use Rattle.serde_json.specs.View.{view};
ghost use Rattle.ring_settings.specs.Walk.{json_of, number_member, u32_member};

use crate::faults::{Field, SettingsError};
use serde_json::Value;
use std::alloc::Global;

/// The JSON value of a document.
pub(crate) fn read_document(alloc: Global, bytes: &[u8]) -> Result<Value, SettingsError>
    ensures ok { IfOk result (λ v. json_of bytes.now ≡ Some (view v)) }
    ensures err { IfErr result (λ e. e ≢ SettingsError.OutOfMemory
        → (e ≡ SettingsError.Json) × (json_of bytes.now ≡ None)) }
{
    match Value::from_slice(alloc, bytes) {
        Ok(value) => Ok(value),
        Err(e) => {
            if e.is_memory() {
                Err(SettingsError::OutOfMemory)
            } else {
                Err(SettingsError::Json)
            }
        }
    }
}

/// A member that is a whole number.
pub(crate) fn read_number(value: &Value, name: &str, field: Field) -> Result<u64, SettingsError>
    ensures { result ≡ number_member field name.now (view value.now) }
{
    value
        .get(name)
        .and_then(Value::as_u64)
        .ok_or(SettingsError::Shape(field))
}

/// A member that is a whole number below 2 to the power 32.
pub(crate) fn read_u32(value: &Value, name: &str, field: Field) -> Result<u32, SettingsError>
    ensures { result ≡ u32_member field name.now (view value.now) }
{
    let number = read_number(value, name, field)?;
    if number > u64::from(u32::MAX) {
        return Err(SettingsError::Limit(field));
    }
    Ok(number as u32)
}
