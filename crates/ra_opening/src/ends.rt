//! What an opening comes to.
use ra_base::{Reason, Request};
use ra_upgrade::HeadFault;

/// Why an opening is over without a request.
#[derive(Clone, Copy, Debug, PartialEq, Eq)]
pub enum OpeningEnd {
    /// The head was refused, and that was written.
    BadHead { fault: HeadFault },
    /// A message of the handshake was refused, and that was written.
    Refused { reason: Reason },
    /// A header states a body of that many bytes, which is above the limit.
    TooLong { stated: u32 },
    /// The client left by a Disconnect.
    Left,
    NoMemory,
}

/// What the bytes so far come to.
#[derive(Drop)]
pub enum OpeningStep {
    /// More bytes are asked for.
    Waits,
    /// The client asks for a session. The bytes behind its message are unread.
    Ask { request: Request },
    /// The opening is over.
    End { end: OpeningEnd },
}
