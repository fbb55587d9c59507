//! Where an endpoint stands, what frames hand up, and what its queue holds.
ghost use Rattle.std.specs.Prelude.{◌≡◌};
ghost use Rattle.ra_model.specs.Endpoints.{is_up, is_joining, is_linked, is_ended};

use ra_base::Message;

/// Where an endpoint stands.
#[derive(Clone, Copy, Debug, PartialEq, Eq)]
pub enum Phase {
    /// There is no link. An endpoint begins so, and is so again when its link is lost.
    Away,
    /// A later link has begun, and its reconnection has not ended. Messages that are said wait in the queue.
    Joining,
    /// Messages go out as they are said.
    Up,
    /// The endpoint was left, or a Disconnect came. It stays so.
    Ended,
}

impl Phase {
    /// Messages go out as they are said.
    pub fn is_up(self) -> bool
        ensures { result ≡ is_up self }
    {
        match self {
            Phase::Up => true,
            Phase::Away | Phase::Joining | Phase::Ended => false,
        }
    }

    /// A reconnection has begun and has not ended.
    pub fn is_joining(self) -> bool
        ensures { result ≡ is_joining self }
    {
        match self {
            Phase::Joining => true,
            Phase::Away | Phase::Up | Phase::Ended => false,
        }
    }

    /// There is a link: Joining or Up.
    pub fn is_linked(self) -> bool
        ensures { result ≡ is_linked self }
    {
        match self {
            Phase::Joining | Phase::Up => true,
            Phase::Away | Phase::Ended => false,
        }
    }

    /// The session is over at this end.
    pub fn is_ended(self) -> bool
        ensures { result ≡ is_ended self }
    {
        match self {
            Phase::Ended => true,
            Phase::Away | Phase::Joining | Phase::Up => false,
        }
    }
}

/// What a frame that was taken hands up.
#[derive(Debug, PartialEq, Eq, Drop)]
pub enum Up {
    /// The next message. Each comes once, in the order in which it was said.
    Message { id: u64, body: Message },
    /// A control of the session layer.
    Control { body: Message },
    /// Nothing: an acknowledgement, a message that came before or too early, a pause, a resume, a request for a replay,
    /// or a frame of an unknown type.
    Quiet,
    /// The peer has left.
    Ended,
}

/// A message that the peer has not acknowledged.
#[derive(Debug, PartialEq, Eq, Drop)]
pub struct Entry {
    /// Its number. The first message of an endpoint has the number after the base.
    pub id: u64,
    /// The highest id that was received when it was said. It is written with this ack each time.
    pub ack: u64,
    pub body: Message,
    /// The moment in milliseconds at which it was last written, if it was.
    pub written: Option<u64>,
}
