//! How far an opening in memory is.
use ra_shake::ServerShake;

/// What an opening waits for.
#[derive(Drop)]
pub(crate) enum Phase {
    /// The head.
    Heading,
    /// The link is to be framed, and then the handshake goes on.
    Held { shake: ServerShake },
    /// A message of the handshake.
    Shaking { shake: ServerShake },
    /// Nothing.
    Over,
}
