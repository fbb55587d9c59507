//! The values of one level, each with its tree.
ghost use Rattle.std.specs.Prelude.{◌≡◌};
ghost use Rattle.ra_values.specs.Tree as seen;
ghost use Rattle.ra_values.specs.View.{tree, trees};

use crate::bytes::Bytes;
use crate::text::Text;
use crate::value::{Value, Values};

pub fn undefined() -> Value
    ensures { tree result ≡ seen.undefined }
{
    Value::Undefined
}

pub fn text_value(text: Text) -> Value
    ensures { tree result ≡ seen.text text }
{
    Value::Text { text }
}

pub fn buffer(bytes: Bytes) -> Value
    ensures { tree result ≡ seen.buffer bytes }
{
    Value::Buffer { bytes }
}

pub fn vs_buffer(bytes: Bytes) -> Value
    ensures { tree result ≡ seen.vs_buffer bytes }
{
    Value::VsBuffer { bytes }
}

pub fn array(items: Values) -> Value
    ensures { tree result ≡ seen.array (trees items) }
{
    Value::Array { items }
}

pub fn object(json: Text) -> Value
    ensures { tree result ≡ seen.object json }
{
    Value::Object { json }
}

pub fn int(pattern: u32) -> Value
    ensures { tree result ≡ seen.int pattern }
{
    Value::Int {
        n: pattern.cast_signed(),
    }
}
