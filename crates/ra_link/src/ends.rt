//! Why a link is no longer served.
use ra_base::{Cause, Message, Reason};
use ra_session::IpcFault;
use ra_upgrade::HeadFault;

/// Why a connection is no longer served.
#[derive(Debug, Drop)]
pub enum LinkEnd {
    /// Nothing more came.
    Closed,
    /// The link failed.
    LinkFault,
    /// The head was refused, and that was sent.
    BadHead { fault: HeadFault },
    /// The handshake or the hub refused the client, and that was sent.
    Refused { reason: Reason },
    /// A header states a body of that many bytes, which is above the limit.
    TooLong { stated: u32 },
    /// A message that was heard has this fault. Its session has ended.
    BadIpc { fault: IpcFault, message: Message },
    /// The session has a newer link, which has that number.
    Stale { current: u64 },
    /// The session has no link.
    NoLink,
    /// The client left, or its session had ended before.
    Ended { cause: Cause },
    /// The session has no id left for what it has to say.
    IdsSpent,
    /// The link was asked as often as was allowed, and goes on.
    TurnsSpent,
    /// The record of an acceptance was not kept.
    KeepFault,
    NoMemory,
}
