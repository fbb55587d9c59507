//! What the two ends of a handshake are set up with.
use ra_base::Message;

/// What an end of a handshake goes by.
#[derive(Drop)]
pub struct ShakeSettings {
    /// The connection token, where one is set. It is not the reconnection token, which names a session. A server that is to keep
    /// strangers out needs one: without it anybody who reaches it may have it sign a challenge of its own, and be accepted.
    pub secret: Option<Message>,
    /// The version of the program. An empty one fits every version.
    pub commit: Message,
}
