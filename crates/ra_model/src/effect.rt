//! What the events of a world of two endpoints answer.
use crate::session::Up;
use ra_base::Message;

/// What an event of a world answers that was not refused.
#[derive(Debug, PartialEq, Eq, Drop)]
pub enum Effect {
    /// A link was made, with this number. Links are numbered from 1.
    Link { link: u64 },
    /// The event was done, and there is nothing to say of it: a moment, a beginning or an end of a reconnection, a control,
    /// a pause, a resume, leaving, a loss or a cut.
    Done,
    /// A message was said, and has this id.
    Said { id: u64 },
    /// These bytes were put on the present link. They may be none. On a cut link they vanish.
    Wrote { bytes: Message },
    /// This many bytes of a link were read.
    Read { n: u64 },
    /// A frame was taken, and hands this up.
    Up { up: Up },
    /// There was no whole frame to take.
    Nothing,
    /// The alarms that were due were served. It is told whether the timeout fired: the peer was silent for 20 s.
    Ticked { timed_out: bool },
}
