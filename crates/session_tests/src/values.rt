//! Values: the first wrong place in bytes that are none, how deep arrays may lie in one another, and what is written.
use ra_values::{Bytes, NoMemory, ReadFault, Text, Value, Wrong, append, laws, read};
use sqlite_items::Items;
use std::alloc::Global;
use std::test::*;

fn is_bad(alloc: Global, bytes: &[u8], at: usize, what: Wrong) -> bool {
    match read(alloc, bytes) {
        Err(fault) => fault == ReadFault::Bad { at, what },
        Ok(_) => false,
    }
}

#[test]
fn the_first_wrong_place_is_told(rt: HostRuntime) {
    assert!(rt; is_bad(rt.alloc(), &[6, 0x80, 0], 2, Wrong::BadNumber));
    assert!(rt; is_bad(rt.alloc(), &[1, 5, 0x61], 3, Wrong::Short));
    assert!(rt; is_bad(rt.alloc(), &[1, 1, 0xff], 2, Wrong::BadText));
    assert!(rt; is_bad(rt.alloc(), &[7], 0, Wrong::BadTag));
}

#[test]
fn a_fifth_byte_has_four_bits(rt: HostRuntime) {
    let wide = [6, 0xff, 0xff, 0xff, 0xff, 0x10];
    assert!(rt; is_bad(rt.alloc(), &wide, 5, Wrong::BadNumber));
}

/// An array that states 2^32 - 1 items, of which none is there.
#[test]
fn a_stated_count_takes_no_memory(rt: HostRuntime) {
    let stated = [4, 0xff, 0xff, 0xff, 0xff, 0x0f];
    assert!(rt; is_bad(rt.alloc(), &stated, 6, Wrong::Short));
}

/// So many arrays, one in the other, around an undefined value.
fn nested(alloc: Global, arrays: usize) -> Result<Value, NoMemory> {
    let mut value = Value::Undefined;
    for _ in 0..arrays {
        let mut items = Items::new(alloc);
        items.push(value)?;
        value = Value::Array { items };
    }
    Ok(value)
}

/// Whether so many arrays, one in the other, fit.
fn nested_fit(alloc: Global, arrays: usize) -> Option<bool> {
    match nested(alloc, arrays) {
        Ok(value) => Some(value.fits()),
        Err(_) => None,
    }
}

#[test]
fn values_fit_down_to_the_last_level(rt: HostRuntime) {
    assert!(rt; nested_fit(rt.alloc(), 127) == Some(true));
    assert!(rt; nested_fit(rt.alloc(), 128) == Some(false));
}

/// The bytes of so many arrays, one in the other, around an undefined value.
fn nested_bytes(alloc: Global, arrays: usize) -> Result<Vec<u8>, NoMemory> {
    let mut bytes = Vec::new(alloc);
    for _ in 0..arrays {
        bytes.push(4)?;
        bytes.push(1)?;
    }
    bytes.push(0)?;
    Ok(bytes)
}

/// Where the value ends that begins these bytes.
fn end_of(alloc: Global, bytes: &[u8]) -> Option<usize> {
    match read(alloc, bytes) {
        Ok((_, end)) => Some(end),
        Err(_) => None,
    }
}

/// Whether so many arrays, one in the other, are read to this end.
fn nested_end_at(alloc: Global, arrays: usize, end: usize) -> bool {
    match nested_bytes(alloc, arrays) {
        Ok(bytes) => end_of(alloc, &bytes) == Some(end),
        Err(_) => false,
    }
}

/// Whether so many arrays, one in the other, are too deep at this place.
fn nested_too_deep(alloc: Global, arrays: usize, at: usize) -> bool {
    match nested_bytes(alloc, arrays) {
        Ok(bytes) => is_bad(alloc, &bytes, at, Wrong::TooDeep),
        Err(_) => false,
    }
}

#[test]
fn the_last_level_is_read_and_no_deeper_one(rt: HostRuntime) {
    assert!(rt; nested_end_at(rt.alloc(), 127, 255));
    assert!(rt; nested_too_deep(rt.alloc(), 128, 256));
}

/// The value fits, and is written.
fn write(value: &Value, to: &mut Vec<u8>) -> bool {
    value.fits() && append(value, to).is_ok()
}

fn is_written_as(alloc: Global, value: &Value, bytes: &[u8]) -> bool {
    let mut written = Vec::new(alloc);
    write(value, &mut written) && written.as_slice() == bytes
}

/// Whether a copy of the value that begins these bytes is written as they are.
fn copy_is_written_as(alloc: Global, bytes: &[u8], expected: &[u8]) -> bool {
    let Ok((value, _)) = read(alloc, bytes) else {
        return false;
    };
    match value.copy(alloc) {
        Ok(copy) => is_written_as(alloc, &copy, expected),
        Err(_) => false,
    }
}

#[test]
fn what_was_read_is_copied_and_written(rt: HostRuntime) {
    let bytes = [
        4, 3, 6, 0xff, 0xff, 0xff, 0xff, 0x0f, 1, 2, 0x68, 0x69, 4, 1, 0, 99,
    ];
    assert!(rt; end_of(rt.alloc(), &bytes) == Some(15));
    assert!(rt; copy_is_written_as(rt.alloc(), &bytes, &bytes[..15]));
}

#[test]
fn contents_are_written(rt: HostRuntime) -> Result<(), Fail> {
    let text = Text::of(rt.alloc(), "hi")?;
    assert!(rt; is_written_as(rt.alloc(), &Value::Text { text }, b"\x01\x02hi"));
    let json = Text::of(rt.alloc(), "{}")?;
    assert!(rt; is_written_as(rt.alloc(), &Value::Object { json }, b"\x05\x02{}"));
    let bytes = Bytes::of(rt.alloc(), b"hi")?;
    assert!(rt; is_written_as(rt.alloc(), &Value::Buffer { bytes }, b"\x02\x02hi"));
    let bytes = Bytes::from_vec(Vec::new(rt.alloc()));
    assert!(rt; is_written_as(rt.alloc(), &Value::VsBuffer { bytes }, &[3, 0]));
    laws::one_spelling();
    Ok(())
}
