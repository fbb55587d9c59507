//! A load for values: an array of many small values, or one large buffer, written and read again.

use ra_values::{Bytes, NoMemory, Text, Value, append, read};
use sqlite_items::Items;
use std::alloc::Global;

/// An integer, or a short text.
fn small(alloc: Global, n: u32) -> Result<Value, NoMemory> {
    if n % 2 == 0 {
        return Ok(Value::Int { n: n.cast_signed() });
    }
    let text = Text::of(alloc, "hi")?;
    Ok(Value::Text { text })
}

/// An array of so many small values.
fn array(alloc: Global, count: u32) -> Result<Value, NoMemory> {
    let mut items = Items::new(alloc);
    for n in 0..count {
        items.push(small(alloc, n)?)?;
    }
    Ok(Value::Array { items })
}

/// A buffer of so many bytes.
fn buffer(alloc: Global, count: u32) -> Result<Value, NoMemory> {
    let mut bytes = Vec::new(alloc);
    bytes.resize(count as usize, 7)?;
    Ok(Value::Buffer {
        bytes: Bytes::from_vec(bytes),
    })
}

/// Writes the value and reads it again. The number of bytes is told.
fn round(alloc: Global, value: &Value) -> Result<usize, NoMemory> {
    if !value.fits() {
        return Ok(0);
    }
    let mut written = Vec::new(alloc);
    append(value, &mut written)?;
    match read(alloc, &written) {
        Ok(found) => Ok(found.1),
        Err(_) => Err(NoMemory),
    }
}

/// So many rounds of an array and of a buffer. The number of bytes that were read last is told.
pub fn run(alloc: Global, items: u32, bytes: u32, rounds: u32) -> Result<usize, NoMemory> {
    let array = array(alloc, items)?;
    let buffer = buffer(alloc, bytes)?;
    let mut last = 0;
    for _ in 0..rounds {
        last = round(alloc, &array)?.max(round(alloc, &buffer)?);
    }
    Ok(last)
}
