//! How long a text of a handshake may be.

/// The most bytes of a text of a handshake that an end takes. A frame of a handshake whose header states more is not kept: its link
/// ends for want of memory as the header comes. Every text of a client and a server of this repository is shorter.
pub const TEXT_LIMIT: u32 = 1_048_576;
