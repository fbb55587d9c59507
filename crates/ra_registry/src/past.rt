//! The entries of a registry's history.
use ra_base::{Cause, Key, Kind, Reason};

/// What happened to a session.
#[derive(Clone, Copy, Debug, PartialEq, Eq)]
pub enum Did {
    /// A client was admitted, and its link has this number.
    Admitted {
        epoch: u64,
        reconnection: bool,
    },
    /// A request was refused. Where its kind is None, the entry's key has the kind Management.
    Refused {
        kind: Option<Kind>,
        reconnection: bool,
        reason: Reason,
    },
    /// The link of that number was lost.
    Lost {
        epoch: u64,
    },
    /// The session ended on the link of that number.
    Closed {
        epoch: u64,
        cause: Cause,
    },
    /// The grace of the session was over.
    Expired,
    /// Something was told to a session that never was.
    Missed,
}

/// An entry of the history.
#[derive(PartialEq, Eq, Drop)]
pub struct Past {
    /// The moment of the call, in milliseconds.
    pub at: u64,
    pub key: Key,
    pub did: Did,
}
