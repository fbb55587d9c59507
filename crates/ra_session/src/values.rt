//! What the calls of a session take and give.
use ra_base::{Cause, Message};
use ra_chan_server::Fire;
use ra_ipc::{Answer, PacketFault};
use ra_values::{Text, Value};

/// Which end of a session this is.
#[derive(Debug, Drop)]
pub enum Role {
    /// It answers the calls of its peer.
    Serving,
    /// It dialled. The first message that a management session says is the context.
    Dialling { context: Value },
}

/// Why a message is no good.
#[derive(Clone, Copy, Debug, PartialEq, Eq)]
pub enum IpcFault {
    /// It is no packet, or no context.
    Packet { fault: PacketFault },
    /// It is a call or a listen whose id is active.
    ActiveId { id: i32 },
}

/// Why a call of a session is refused.
#[derive(Debug, Drop)]
pub enum SessionFault {
    Ended { cause: Cause },
    /// The link is not the present one: that has the number `current`.
    Stale { current: u64 },
    NoLink,
    /// A header states a body of that many bytes, which is above the limit of 268,435,456.
    TooLong { stated: u32 },
    /// This message was heard, and ends the session.
    BadIpc { fault: IpcFault, message: Message },
    /// A message to be said has that many bytes, which is above the limit.
    TooLarge { len: u64 },
    /// Fewer ids are left than there are messages to say, or requests have no id left.
    IdsSpent,
    /// No such call was handed out and not answered (answering), or no such call or listener is open (cancelling, disposing).
    NoSuchCall { id: i32 },
    /// It is asked of a session of the other kind.
    WrongKind,
    NoMemory,
}

/// How a call ended.
#[derive(Debug, Drop)]
pub enum Outcome {
    Cancelled,
    Answered { answer: Answer },
}

/// Work for an application.
#[derive(Debug, Drop)]
pub enum Work {
    /// A call. Whether it was cancelled before it came is told.
    Call {
        id: i32,
        channel: Text,
        name: Text,
        arg: Value,
        cancelled: bool,
    },
    /// A message of an extension host.
    Host {
        body: Message,
    },
}

/// What a message that was heard means.
#[derive(Debug, Drop)]
pub enum Happened {
    /// The peer asks for something.
    Work { work: Work },
    /// A call of this end was answered.
    Settled { id: i32, outcome: Outcome },
    /// An event for a listener of this end.
    Fired { id: i32, body: Value },
}

/// What a turn answers.
#[derive(Debug, Drop)]
pub struct Turn {
    /// The bytes that are to be put on the link.
    pub out: Message,
    pub happened: Option<Happened>,
    /// A frame was applied.
    pub took: bool,
    /// A whole frame is still unread, or a header that states too long a body: another turn is due.
    pub again: bool,
    /// `Disconnected` where the peer left.
    pub ended: Option<Cause>,
}

/// What an application tells a session.
#[derive(Debug, Drop)]
pub enum Tell {
    /// The answer to a call that was handed out, and an event that is fired before it.
    Answer {
        id: i32,
        answer: Answer,
        fire: Option<Fire>,
    },
    /// A message of an extension host.
    Say {
        body: Message,
    },
}
