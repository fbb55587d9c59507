//! Why an event is refused.
use ra_session::SessionFault;

/// Why an event is refused: the first that applies.
#[derive(Debug, Drop)]
pub enum GrandFault {
    /// No link has that number.
    NoSuchLink { link: u64 },
    /// No client has that number.
    NoSuchClient { client: u64 },
    /// No waiting job has that number: so many are there.
    NoSuchJob { job: u64, there: u64 },
    /// An earlier client, with that number, has the key.
    TokenTaken { client: u64 },
    /// The client's dialer waits for no link.
    NotDialling { client: u64 },
    /// The server's end of the link has ended.
    Over { link: u64 },
    /// More bytes are asked for than can be read.
    TooMany { asked: u64, there: u64 },
    /// The client's session, or that of the job, refuses the call.
    Session { fault: SessionFault },
    NoMemory,
}

/// A run that ended early: the place of the event that was refused, from 0, and why.
#[derive(Debug, Drop)]
pub struct GrandRunFault {
    pub at: usize,
    pub fault: GrandFault,
}
