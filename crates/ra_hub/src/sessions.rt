//! Calls of one session of a map.
ghost use Rattle.std.specs.Prelude.{◌≡◌, IfOk, IfErr, OnErr, OnOk};
ghost use Rattle.ra_session.specs.Carried.{AttachCarries, TurnCarries};
ghost use Rattle.ra_session.specs.SessionCalls as calls;
ghost use Rattle.ra_session.specs.SessionRefusals.{attach_refusal};
ghost use Rattle.ra_hub.specs.Entries.{EntryBecomes};
ghost use Rattle.ra_session.specs.View.{told, tell_refusal, TellFits, TurnFits};
ghost use Rattle.ra_hub.specs.declared.fault.HubFault.TheVariants as faults;
ghost use Rattle.ra_hub.specs.Standing.{AtSession, Called, Turned, Ticked, AddsSession, RemovesSession, SameSessions};

use crate::entry::SessionEntry;
use crate::fault::HubFault;
use ra_base::{Cause, Key, Moment, Seat};
use ra_session::{SessionFault, Tell, Turn};
use std::alloc::Global;
use std::collections::BTreeMap;

/// What a call for a seat answers whose session is not there. There is none, since each seat is given for a session that is there.
pub(crate) const STOPPED: SessionFault = SessionFault::Ended {
    cause: Cause::Stopped,
};

/// The session of a new key begins. Where there is no memory for it, nothing has changed.
pub(crate) fn add_session(
    sessions: &mut BTreeMap<Key, SessionEntry>,
    alloc: Global,
    key: &Key,
    now: Moment,
) -> Result<(), HubFault>
    ensures added { OnOk result (AddsSession sessions.old sessions.new key.now now) }
    ensures same { OnErr result (SameSessions sessions.old sessions.new) }
    ensures fault { IfErr result (λ fault. fault ≡ faults.NoMemory) }
{
    let entry = SessionEntry::begin(alloc, key.kind, now)?;
    sessions.insert(key.same(), entry)?;
    Ok(())
}

/// Takes a session out.
pub(crate) fn remove_session(sessions: &mut BTreeMap<Key, SessionEntry>, key: &Key)
    ensures { RemovesSession sessions.old sessions.new key.now }
{
    sessions.remove(key);
}

/// A link begins at the session of this seat.
pub(crate) fn attach_at(
    sessions: &mut BTreeMap<Key, SessionEntry>,
    alloc: Global,
    seat: &Seat,
    chunk: &[u8],
    now: Moment,
) -> Result<(), SessionFault>
    ensures attached { AtSession sessions.old sessions.new seat.now.key
        (Called (attach_refusal seat.now.epoch) (calls.attach seat.now.epoch chunk.now now) result) }
    ensures carries { IfErr result AttachCarries }
{
    match sessions.get_mut(&seat.key) {
        Some(entry) => entry.attach(alloc, seat.epoch, chunk, now),
        None => Err(STOPPED),
    }
}

/// Bytes come to the session of this seat.
pub(crate) fn turn_at(
    sessions: &mut BTreeMap<Key, SessionEntry>,
    alloc: Global,
    seat: &Seat,
    piece: &[u8],
    now: Moment,
) -> Result<Turn, SessionFault>
    ensures turned { AtSession sessions.old sessions.new seat.now.key (Turned seat.now.epoch piece.now now result) }
    ensures fits { IfOk result TurnFits }
    ensures carries { IfErr result TurnCarries }
{
    match sessions.get_mut(&seat.key) {
        Some(entry) => entry.turn(alloc, seat.epoch, piece, now),
        None => Err(STOPPED),
    }
}

/// An application tells the session of this key something.
pub(crate) fn tell_at(
    sessions: &mut BTreeMap<Key, SessionEntry>,
    alloc: Global,
    key: &Key,
    tell: Tell,
    now: Moment,
) -> Result<(), SessionFault>
    requires { TellFits tell }
    ensures { AtSession sessions.old sessions.new key.now (Called (tell_refusal tell) (told tell now) result) }
{
    match sessions.get_mut(key) {
        Some(entry) => entry.tell(alloc, tell, now),
        None => Err(STOPPED),
    }
}

/// The session of this seat loses its link.
pub(crate) fn lose_at(sessions: &mut BTreeMap<Key, SessionEntry>, seat: &Seat)
    ensures { AtSession sessions.old sessions.new seat.now.key (λ x y. EntryBecomes x y (calls.lose_session seat.now.epoch)) }
{
    if let Some(entry) = sessions.get_mut(&seat.key) {
        entry.lose(seat.epoch);
    }
}

/// The session of this key ends.
pub(crate) fn end_at(sessions: &mut BTreeMap<Key, SessionEntry>, key: &Key, cause: Cause)
    ensures { AtSession sessions.old sessions.new key.now (λ x y. EntryBecomes x y (calls.end_session cause)) }
{
    if let Some(entry) = sessions.get_mut(key) {
        entry.end(cause);
    }
}

/// The session of this key sees the moment. False where it found no memory.
pub(crate) fn tick_at(
    sessions: &mut BTreeMap<Key, SessionEntry>,
    alloc: Global,
    key: &Key,
    now: Moment,
) -> bool
    ensures { AtSession sessions.old sessions.new key.now (Ticked now result) }
{
    match sessions.get_mut(key) {
        Some(entry) => entry.tick(alloc, now),
        None => true,
    }
}
