//! What a handshake asks for, and why it is refused.
ghost use Rattle.std.specs.Prelude.{◌≡◌};
ghost use Rattle.ra_base.specs.Reasons.{reason_text};

use crate::kind::Kind;
use crate::token::Token;

/// What a client that passed the handshake asks for.
#[derive(PartialEq, Eq, Drop)]
pub struct Request {
    /// None where it asked for a connection type that the server does not know.
    pub kind: Option<Kind>,
    pub token: Token,
    /// The session is to be there already.
    pub reconnection: bool,
}

/// Why a handshake is refused: the first one that applies.
#[derive(Clone, Copy, Debug, PartialEq, Eq)]
pub enum Reason {
    /// The first message is no JSON.
    MalformedFirst,
    /// The first message is no object of the type `auth`.
    InvalidFirst,
    /// The first message has not the connection token.
    AuthMismatch,
    /// The second message is no JSON.
    MalformedSecond,
    /// The second message is no object of the type `connectionType`.
    InvalidSecond,
    /// The second message has no text as its signature.
    SecondField,
    /// The two sides are of different versions.
    Version,
    /// The signature does not count.
    Unauthorized,
    /// The connection type is unknown.
    UnknownKind,
    /// A reconnection, and no session of any kind has the token.
    NeverSeen,
    /// A reconnection, and the session of this kind is missing or over.
    SeenBefore,
    /// A new session, and one of this kind has the token.
    Duplicate,
}

impl Reason {
    /// The text that the client is sent.
    pub fn text(self) -> &'static str
        ensures { result.now ≡ reason_text self }
    {
        match self {
            Reason::MalformedFirst => "Malformed first message",
            Reason::InvalidFirst => "Invalid first message",
            Reason::AuthMismatch => "Unauthorized client refused: auth mismatch",
            Reason::MalformedSecond => "Malformed second message",
            Reason::InvalidSecond => "Invalid second message",
            Reason::SecondField => "Invalid second message field type",
            Reason::Version => "Client refused: version mismatch",
            Reason::Unauthorized => "Unauthorized client refused",
            Reason::UnknownKind => "Unknown initial data received",
            Reason::NeverSeen => "Unknown reconnection token (never seen)",
            Reason::SeenBefore => "Unknown reconnection token (seen before)",
            Reason::Duplicate => "Duplicate reconnection token",
        }
    }
}
