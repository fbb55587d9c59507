//! Whether a value has a spelling.
ghost use Rattle.std.specs.Prelude.{◌<◌, ◌^◌, ◌↔◌, length, IsTrue};
ghost use Rattle.ra_values.specs.View.{tree, trees};
ghost use Rattle.ra_values.specs.Spelling.{Fits, AllFit, levels};

use crate::LEVELS;
use crate::number::pattern;
use crate::value::Value;

/// Lengths and counts are written as numbers of 32 bits.
fn is_short(bytes: &[u8]) -> bool
    ensures { IsTrue result ↔ (length bytes.now < 2 ^ 32) }
{
    (bytes.len() as u64) < 0x1_0000_0000
}

#[cycle(fits)]
fn fits_in(left: u8, value: &Value) -> bool
    ensures { IsTrue result ↔ Fits left (tree value.now) }
{
    if left == 0 {
        return false;
    }
    match value {
        Value::Undefined => true,
        Value::Text { text } => is_short(text.as_str().as_bytes()),
        Value::Buffer { bytes } => is_short(bytes.as_slice()),
        Value::VsBuffer { bytes } => is_short(bytes.as_slice()),
        Value::Array { items } => {
            if items.len() as u64 > 0xffff_ffff {
                return false;
            }
            all_fit(left - 1, items.as_slice())
        }
        Value::Object { json } => is_short(json.as_str().as_bytes()),
        Value::Int { n } => pattern(n) <= u32::MAX,
    }
}

#[cycle(fits)]
fn all_fit(left: u8, items: &[Value]) -> bool
    ensures { IsTrue result ↔ AllFit left (trees items.now) }
{
    for item in items {
        if !fits_in(left, item) {
            return false;
        }
    }
    true
}

impl Value {
    /// Whether the value has a spelling: every text, buffer and array in it is shorter than 2^32, and none of its values stands
    /// below level 128.
    pub fn fits(&self) -> bool
        ensures { IsTrue result ↔ Fits levels (tree self.now) }
    {
        fits_in(LEVELS, self)
    }
}
