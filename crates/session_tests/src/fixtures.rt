//! Texts, values and frames that several of these tests begin with.
ghost use Rattle.std.specs.Prelude.{IfOk};
ghost use Rattle.ra_values.specs.Spelling.{Fits, levels};
ghost use Rattle.ra_values.specs.Tree.{text};
ghost use Rattle.ra_values.specs.View.{tree};

use ra_base::Moment;
use ra_values::{NoMemory, Text, Value};
use std::alloc::Global;

/// The context `window` and Initialize: messages 1 and 2 of a client, as frames.
pub(crate) const OPENING: &[u8] =
    b"\x01\0\0\0\x01\0\0\0\0\0\0\0\x08\x01\x06window\x01\0\0\0\x02\0\0\0\0\0\0\0\x06\x04\x01\x06\xc8\x01\0";

/// Initialize: message 1 of a server.
pub(crate) const SERVER_1: &[u8] = b"\x01\0\0\0\x01\0\0\0\x01\0\0\0\x06\x04\x01\x06\xc8\x01\0";

/// Message 3 of a client: the call `echo` of the text `hi`.
pub(crate) const CLIENT_3: &[u8] =
    b"\x01\0\0\0\x03\0\0\0\x01\0\0\0\x17\x04\x04\x06\x64\x06\0\x01\x05tools\x01\x04echo\x01\x02hi";

/// Message 1 of a client that is no context.
pub(crate) const BAD: &[u8] = b"\x01\0\0\0\x01\0\0\0\0\0\0\0\x02\x06\x80";

/// This moment, or the first one where there is none.
pub(crate) fn at(millis: u64) -> Moment {
    match Moment::of_millis(millis) {
        Some(moment) => moment,
        None => Moment::start(),
    }
}

/// A short text.
pub(crate) fn short(alloc: Global, letters: &str) -> Result<Text, NoMemory>
    ensures { IfOk result (λ found. Fits levels (text found)) }
{
    if letters.len() > 100 {
        return Err(NoMemory);
    }
    Text::of(alloc, letters)
}

/// The text `hi` as a value.
pub(crate) fn hi(alloc: Global) -> Result<Value, NoMemory>
    ensures { IfOk result (λ value. Fits levels (tree value)) }
{
    let text = short(alloc, "hi")?;
    Ok(Value::Text { text })
}
