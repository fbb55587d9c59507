//! Copies of values.
ghost use Rattle.std.specs.Prelude.{◌≡◌, IfOk};

use crate::bytes::Bytes;
use crate::memory::NoMemory;
use crate::text::Text;
use crate::value::{Value, Values};
use sqlite_items::Items;
use std::alloc::Global;

#[cycle(copy)]
fn copy_value(alloc: Global, value: &Value) -> Result<Value, NoMemory>
    ensures { IfOk result (λ v. v ≡ value.now) }
{
    match value {
        Value::Undefined => Ok(Value::Undefined),
        Value::Text { text } => {
            let text = Text::of(alloc, text.as_str())?;
            Ok(Value::Text { text })
        }
        Value::Buffer { bytes } => {
            let bytes = Bytes::of(alloc, bytes.as_slice())?;
            Ok(Value::Buffer { bytes })
        }
        Value::VsBuffer { bytes } => {
            let bytes = Bytes::of(alloc, bytes.as_slice())?;
            Ok(Value::VsBuffer { bytes })
        }
        Value::Array { items } => {
            let items = copy_items(alloc, items)?;
            Ok(Value::Array { items })
        }
        Value::Object { json } => {
            let json = Text::of(alloc, json.as_str())?;
            Ok(Value::Object { json })
        }
        Value::Int { n } => Ok(Value::Int { n: *n }),
    }
}

#[cycle(copy)]
fn copy_items(alloc: Global, items: &Values) -> Result<Values, NoMemory>
    ensures { IfOk result (λ v. v ≡ items.now) }
{
    let mut copies = Items::new(alloc);
    for item in items.as_slice() {
        copies.push(copy_value(alloc, item)?)?;
    }
    Ok(copies)
}

impl Value {
    /// An equal value.
    pub fn copy(&self, alloc: Global) -> Result<Value, NoMemory>
        ensures { IfOk result (λ v. v ≡ self.now) }
    {
        copy_value(alloc, self)
    }
}
