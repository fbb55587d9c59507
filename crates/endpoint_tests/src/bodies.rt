//! A body that is long for a message.

use std::alloc::{AllocError, Global};

/// 2 MiB.
pub const LONG: u32 = 2_097_152;

/// A body of 2 MiB, in which bytes that are next to each other differ.
pub fn long_body(alloc: Global) -> Result<Vec<u8>, AllocError> {
    let mut body = Vec::new(alloc);
    for at in 0..LONG {
        body.push((at % 251) as u8)?;
    }
    Ok(body)
}
