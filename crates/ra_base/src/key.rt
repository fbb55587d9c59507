//! The names of sessions among all kinds, and what an admitted client holds of one.
ghost use Rattle.std.specs.Prelude.{◌≡◌};

use crate::kind::Kind;
use crate::token::Token;

/// The name of a session. Keys are ordered by kind, and then by the token's bytes.
#[derive(PartialEq, Eq, PartialOrd, Ord, Drop)]
pub struct Key {
    pub kind: Kind,
    pub token: Token,
}

impl Key {
    /// The same key again. It takes no memory.
    pub fn same(&self) -> Key
        ensures { result ≡ self.now }
    {
        Key {
            kind: self.kind,
            token: self.token.same(),
        }
    }
}

/// The place of one link in a session. It can't be copied: it is spent by the report that the link is lost or closed.
#[derive(Drop)]
pub struct Seat {
    pub key: Key,
    /// The number of the link: 1 for the first one of the session.
    pub epoch: u64,
}

/// Why a session has ended.
#[derive(Clone, Copy, Debug, PartialEq, Eq)]
pub enum Cause {
    /// A Disconnect came or was sent.
    Disconnected,
    /// No link came back in time.
    GraceOver,
    /// What was heard is no packet.
    BadIpc,
    /// The server was stopped.
    Stopped,
}
