//! Whether two values are equal.
ghost use Rattle.std.specs.Prelude.{◌≡◌, ◌↔◌, IsTrue};

use crate::value::{Value, Values};

#[cycle(same)]
fn same_value(one: &Value, other: &Value) -> bool
    ensures { IsTrue result ↔ (one.now ≡ other.now) }
{
    match (one, other) {
        (Value::Undefined, Value::Undefined) => true,
        (Value::Text { text }, Value::Text { text: other }) => text.as_str() == other.as_str(),
        (Value::Buffer { bytes }, Value::Buffer { bytes: other }) => bytes.as_slice()
            == other.as_slice(),
        (Value::VsBuffer { bytes }, Value::VsBuffer { bytes: other }) => bytes.as_slice()
            == other.as_slice(),
        (Value::Array { items }, Value::Array { items: other }) => same_items(items, other),
        (Value::Object { json }, Value::Object { json: other }) => json.as_str() == other.as_str(),
        (Value::Int { n }, Value::Int { n: other }) => n == other,
        _ => false,
    }
}

#[cycle(same)]
fn same_items(one: &Values, other: &Values) -> bool
    ensures { IsTrue result ↔ (one.now ≡ other.now) }
{
    let one = one.as_slice();
    let other = other.as_slice();
    if one.len() != other.len() {
        return false;
    }
    for at in 0..one.len() {
        if !same_value(&one[at], &other[at]) {
            return false;
        }
    }
    true
}

impl Value {
    /// Whether the values are equal. It takes no memory.
    pub fn same(&self, other: &Value) -> bool
        ensures { IsTrue result ↔ (self.now ≡ other.now) }
    {
        same_value(self, other)
    }
}
