//! The values of calls and events between two sides: one spelling in bytes for each, read and written.
//!
//! A value is undefined, a text, a buffer of either kind, an array of values, an object as its JSON text, or an integer of
//! 32 bits. What a value means to a call is not here, and the JSON text of an object is not read.
#![tactic(auto)]

pub mod bytes;
mod comparing;
mod copying;
mod fault;
mod fitting;
pub mod laws;
mod making;
mod memory;
mod number;
mod reading;
pub mod text;
pub mod value;
mod writing;

pub use bytes::Bytes;
pub use fault::{ReadFault, Wrong};
pub use memory::NoMemory;
pub use reading::read;
pub use text::Text;
pub use value::{Value, Values};
pub use writing::append;

/// The deepest level of a value: the outermost value stands at level 1, and the items of an array one level below it.
pub const LEVELS: u8 = 128;
