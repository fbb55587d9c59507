//! A session that threads share, behind a lock of its own.
ghost use Rattle.std.specs.Prelude.{◌≡◌, IfOk, IfErr};
ghost use Rattle.ra_hub.specs.Standing.{Ticked};
ghost use Rattle.ra_hub.specs.declared.entry.SessionEntry.TheVariants.{Going};
ghost use Rattle.ra_session.specs.Carried.{AttachCarries, TurnCarries};
ghost use Rattle.ra_session.specs.View.{TellFits, TurnFits};
ghost use Rattle.ra_shared.specs.LockedCalls.{AttachesSome, TurnsSome, TellsSome, TicksSome, IsStateOfSome};

use crate::answers::LastState;
use ra_base::{Cause, Kind, Moment, NoMemory};
use ra_hub::is_no_memory;
use ra_locked::SessionHandle;
use ra_session::{Role, Session, SessionFault, Tell, Turn};
use std::alloc::Global;
use std::sync::{Arc, Mutex, Wait};

/// A handle of a session that threads share. A call holds the session's lock, and calls the session's own method of that name once.
#[derive(Drop)]
pub struct SharedSession {
    session: Arc<Mutex<Session>>,
}

impl SessionHandle for SharedSession {
    fn begin(alloc: Global, kind: Kind, now: Moment) -> Result<SharedSession, NoMemory> {
        let Ok(session) = Session::new(alloc, kind, Role::Serving, now) else {
            return Err(NoMemory);
        };
        let session = Arc::new(alloc, Mutex::new(session))?;
        Ok(SharedSession { session })
    }

    fn again(&self) -> Result<SharedSession, NoMemory> {
        let session = Arc::try_clone(&self.session)?;
        Ok(SharedSession { session })
    }

    fn lose<R: Wait>(&self, rt: &R, epoch: u64) {
        self.session.lock(rt).lose(epoch);
    }

    fn end<R: Wait>(&self, rt: &R, cause: Cause) {
        self.session.lock(rt).end(cause);
    }
}

/// A session sees the moment. False where it found no memory.
fn tick(session: &mut Session, alloc: Global, now: Moment) -> bool
    ensures { Ticked now result (Going session.old) (Going session.new) }
{
    match session.tick(alloc, now) {
        Ok(_) => true,
        Err(fault) => !is_no_memory(&fault),
    }
}

impl SharedSession {
    /// A link begins.
    pub fn attach<R: Wait>(
        &self,
        rt: &R,
        alloc: Global,
        epoch: u64,
        chunk: &[u8],
        now: Moment,
    ) -> Result<(), SessionFault>
        ensures called { AttachesSome epoch chunk.now now result }
        ensures carries { IfErr result AttachCarries }
    {
        self.session.lock(rt).attach(alloc, epoch, chunk, now)
    }

    /// Bytes come, and one frame is applied.
    pub fn turn<R: Wait>(
        &self,
        rt: &R,
        alloc: Global,
        epoch: u64,
        piece: &[u8],
        now: Moment,
    ) -> Result<Turn, SessionFault>
        ensures called { TurnsSome epoch piece.now now result }
        ensures fits { IfOk result TurnFits }
        ensures carries { IfErr result TurnCarries }
    {
        self.session.lock(rt).turn(alloc, epoch, piece, now)
    }

    /// An application tells something.
    pub fn tell<R: Wait>(
        &self,
        rt: &R,
        alloc: Global,
        tell: Tell,
        now: Moment,
    ) -> Result<(), SessionFault>
        requires { TellFits tell }
        ensures called { TellsSome tell now result }
    {
        self.session.lock(rt).tell(alloc, tell, now)
    }

    /// A moment comes. False where there was no memory.
    pub fn tick<R: Wait>(&self, rt: &R, alloc: Global, now: Moment) -> bool
        ensures { TicksSome now result }
    {
        let mut session = self.session.lock(rt);
        tick(&mut session, alloc, now)
    }

    /// What it is like: the number of its last link, its last ids, and why it has ended.
    pub fn state<R: Wait>(&self, rt: &R) -> LastState
        ensures { IsStateOfSome result }
    {
        let session = self.session.lock(rt);
        LastState {
            epoch: session.epoch(),
            marks: session.marks(),
            cause: session.cause(),
        }
    }
}
