//! What a body says, as JSON.
ghost use Rattle.std.specs.Prelude.{◌≡◌, IfOk, option_map};
ghost use Rattle.serde_json.specs.View.{view};
ghost use Rattle.ra_shake.specs.Reading as spec;

use ra_base::NoMemory;
use serde_json::Value;
use std::alloc::Global;

/// The value of a body, where it is UTF-8 and JSON.
#[tactic(auto, unfolding(crate::specs::Reading::reading))]
pub fn reading(alloc: Global, body: &[u8]) -> Result<Option<Value>, NoMemory>
    ensures { IfOk result (λ value. option_map view value ≡ spec.reading body.now) }
{
    match Value::from_slice(alloc, body) {
        Ok(value) => Ok(Some(value)),
        Err(error) => {
            if error.is_memory() {
                Err(NoMemory)
            } else {
                Ok(None)
            }
        }
    }
}

/// A member that is a text.
pub fn text_of_member<'v>(value: &'v Value, name: &str) -> Option<&'v str>
    ensures { option_map (λ text. text.now) result ≡ spec.text_of_member name.now (Some (view value.now)) }
{
    value.get(name).and_then(Value::as_str)
}

/// A member that is a whole number, below 2^64 and written without a point or an exponent.
pub fn number_of_member(value: &Value, name: &str) -> Option<u64>
    ensures { result ≡ spec.number_of_member name.now (Some (view value.now)) }
{
    value.get(name).and_then(Value::as_u64)
}

/// Whether the value is an object of that type.
pub fn has_type(value: &Value, name: &str) -> bool
    ensures { result ≡ spec.has_type name.now (Some (view value.now)) }
{
    match text_of_member(value, "type") {
        Some(text) => text == name,
        None => false,
    }
}
