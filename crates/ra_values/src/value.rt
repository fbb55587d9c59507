//! The values that calls and events carry.
use crate::bytes::Bytes;
use crate::text::Text;
use sqlite_items::Items;

/// A list of values.
pub type Values = Items<Value>;

/// A value. Two values are equal where their trees are.
#[derive(Debug, Drop)]
pub enum Value {
    Undefined,
    Text { text: Text },
    /// A buffer of the language's runtime.
    Buffer { bytes: Bytes },
    /// A buffer of the editor.
    VsBuffer { bytes: Bytes },
    Array { items: Values },
    /// An object, as its JSON text. The text is not read.
    Object { json: Text },
    Int { n: i32 },
}
