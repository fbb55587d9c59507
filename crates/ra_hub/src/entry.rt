//! What is kept of a session: itself, and of one that was ended only why.
ghost use Rattle.std.specs.Prelude.{◌≡◌, IfOk, IfErr};
ghost use Rattle.ra_session.specs.Carried.{AttachCarries, TurnCarries};
ghost use Rattle.ra_session.specs.SessionCalls as calls;
ghost use Rattle.ra_session.specs.SessionRefusals.{attach_refusal};
ghost use Rattle.ra_session.specs.Saying.{serving};
ghost use Rattle.ra_session.specs.View.{told, tell_refusal, TellFits, TurnFits};
ghost use Rattle.ra_hub.specs.declared.entry.SessionEntry.TheVariants.{Going};
ghost use Rattle.ra_hub.specs.Entries.{EntryBecomes, EntryStands, cause_in};
ghost use Rattle.ra_hub.specs.Standing.{Called, Turned, Ticked};

use crate::fault::is_no_memory;
use ra_base::{Cause, Kind, Moment};
use ra_session::{Role, Session, SessionFault, Tell, Turn};
use ra_values::NoMemory;
use std::alloc::Global;

/// What is kept of a session. One that was ended gives up its queue, its requests and the buffers of its link.
#[derive(Drop)]
pub(crate) enum SessionEntry {
    /// A session that no call has ended yet.
    Going { session: Session },
    /// A session that was ended, and why it ended first.
    Over { cause: Cause },
}

impl SessionEntry {
    /// The session that a new key begins.
    pub(crate) fn begin(alloc: Global, kind: Kind, now: Moment) -> Result<SessionEntry, NoMemory>
        ensures { IfOk result (λ entry. EntryStands entry (serving kind now)) }
    {
        let session = Session::new(alloc, kind, Role::Serving, now)?;
        Ok(SessionEntry::Going { session })
    }

    /// Why the session has ended, if it has.
    pub(crate) fn cause(&self) -> Option<Cause>
        ensures { result ≡ cause_in self.now }
    {
        match self {
            SessionEntry::Going { session } => session.cause(),
            SessionEntry::Over { cause } => Some(*cause),
        }
    }

    /// A link begins.
    pub(crate) fn attach(
        &mut self,
        alloc: Global,
        epoch: u64,
        chunk: &[u8],
        now: Moment,
    ) -> Result<(), SessionFault>
        ensures called { Called (attach_refusal epoch) (calls.attach epoch chunk.now now) result self.old self.new }
        ensures carries { IfErr result AttachCarries }
    {
        match self {
            SessionEntry::Going { session } => session.attach(alloc, epoch, chunk, now),
            SessionEntry::Over { cause } => Err(SessionFault::Ended { cause: *cause }),
        }
    }

    /// Bytes come.
    pub(crate) fn turn(
        &mut self,
        alloc: Global,
        epoch: u64,
        piece: &[u8],
        now: Moment,
    ) -> Result<Turn, SessionFault>
        ensures turned { Turned epoch piece.now now result self.old self.new }
        ensures fits { IfOk result TurnFits }
        ensures carries { IfErr result TurnCarries }
    {
        match self {
            SessionEntry::Going { session } => session.turn(alloc, epoch, piece, now),
            SessionEntry::Over { cause } => Err(SessionFault::Ended { cause: *cause }),
        }
    }

    /// An application tells it something.
    pub(crate) fn tell(
        &mut self,
        alloc: Global,
        tell: Tell,
        now: Moment,
    ) -> Result<(), SessionFault>
        requires { TellFits tell }
        ensures { Called (tell_refusal tell) (told tell now) result self.old self.new }
    {
        match self {
            SessionEntry::Going { session } => session.tell(alloc, tell, now),
            SessionEntry::Over { cause } => Err(SessionFault::Ended { cause: *cause }),
        }
    }

    /// It loses its link.
    pub(crate) fn lose(&mut self, epoch: u64)
        ensures { EntryBecomes self.old self.new (calls.lose_session epoch) }
    {
        match self {
            SessionEntry::Going { session } => drop(session.lose(epoch)),
            SessionEntry::Over { cause: _ } => (),
        }
    }

    /// It ends, and all but the first cause is given up. It takes no memory.
    pub(crate) fn end(&mut self, cause: Cause)
        ensures { EntryBecomes self.old self.new (calls.end_session cause) }
    {
        let cause = self.cause().unwrap_or(cause);
        *self = SessionEntry::Over { cause };
    }

    /// It sees the moment. False where it found no memory.
    pub(crate) fn tick(&mut self, alloc: Global, now: Moment) -> bool
        ensures { Ticked now result self.old self.new }
    {
        match self {
            SessionEntry::Going { session } => tick(session, alloc, now),
            SessionEntry::Over { cause: _ } => true,
        }
    }
}

/// A session sees the moment. False where it found no memory.
fn tick(session: &mut Session, alloc: Global, now: Moment) -> bool
    ensures { Ticked now result (Going session.old) (Going session.new) }
{
    match session.tick(alloc, now) {
        Ok(_) => true,
        Err(fault) => !is_no_memory(&fault),
    }
}
