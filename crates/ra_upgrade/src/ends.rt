//! Where a head ends. What the head says is not looked at here.
ghost use Rattle.std.specs.Prelude.{MatchOption};
ghost use Rattle.ra_upgrade.specs.Ends.{EndsAt, NeverEnds};

use memchr::memmem;

/// The most bytes of a head.
pub const MAX_HEAD: usize = 16_384;

/// The most header fields of a head.
pub const MAX_FIELDS: usize = 64;

/// The length of the head at the front of the bytes. No more than a head may have is looked at.
pub fn head_len(bytes: &[u8]) -> Option<usize>
    ensures { MatchOption result (NeverEnds bytes.now) (EndsAt bytes.now) }
{
    let front = &bytes[..bytes.len().min(MAX_HEAD)];
    match memmem::find(front, b"\r\n\r\n") {
        Some(at) => Some(at + 4),
        None => None,
    }
}
