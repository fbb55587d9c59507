//! What the calls of a hub ask of its registry: the key of a request, whether a close closes the row, and what a key without a session is
//! told.
ghost use Rattle.std.specs.Prelude.{◌≡◌, ◌≤◌, true, false, length, drop};
ghost use Rattle.ra_registry.specs.Admission as admission;
ghost use Rattle.ra_registry.specs.Expiry.{Expires};
ghost use Rattle.ra_registry.specs.RowChanges as changes;
ghost use Rattle.ra_registry.specs.Rows.{row_of};
ghost use Rattle.ra_session.specs.SessionCalls as calls;
ghost use Rattle.ra_hub.specs.Entries.{EntryBecomes};
ghost use Rattle.ra_hub.specs.Hubs as hubs;
ghost use Rattle.ra_hub.specs.Standing.{AtSession};
ghost use Rattle.ra_hub.specs.Sweeping.{EndsAll};
ghost use Rattle.ra_hub.specs.Tellings.{TellsNobody};

use crate::entry::SessionEntry;
use crate::fault::HubFault;
use crate::sessions::{STOPPED, end_at};
use crate::sweeping::end_all;
use ra_base::{Cause, Key, Kind, Moment, Request, Seat};
use ra_registry::{Registry, Row, RowState};
use std::collections::BTreeMap;

/// The session that a request is about.
pub fn key_of(ask: &Request) -> Key
    ensures { result ≡ admission.key_of ask.now }
{
    Key {
        kind: ask.kind.unwrap_or(Kind::Management),
        token: ask.token.same(),
    }
}

/// Whether a row is not closed.
fn is_open(state: RowState) -> bool
    ensures { result ≡ changes.is_open_state state }
{
    match state {
        RowState::Up | RowState::Lost { .. } => true,
        RowState::Closed { .. } => false,
    }
}

/// Whether a close with this epoch closes the row.
pub fn closes(row: Option<Row>, epoch: u64) -> bool
    ensures { result ≡ hubs.closes epoch row }
{
    match row {
        Some(row) => row.epoch == epoch && is_open(row.state),
        None => false,
    }
}

/// The session of this seat ends where a close of it closes the row.
pub(crate) fn end_closed(
    registry: &Registry,
    sessions: &mut BTreeMap<Key, SessionEntry>,
    seat: &Seat,
    cause: Cause,
)
    ensures closed { hubs.closes seat.now.epoch (row_of registry.now seat.now.key) ≡ true
        → AtSession sessions.old sessions.new seat.now.key (λ x y. EntryBecomes x y (calls.end_session cause)) }
    ensures open { hubs.closes seat.now.epoch (row_of registry.now seat.now.key) ≡ false → sessions.new ≡ sessions.old }
{
    if closes(registry.row(&seat.key), seat.epoch) {
        end_at(sessions, &seat.key, cause);
    }
}

/// What is told to a key that has no session goes nowhere. Where it has no row either, that is entered.
pub(crate) fn tell_nobody(registry: &mut Registry, key: &Key, now: Moment) -> HubFault
    ensures { TellsNobody registry.old registry.new key.now now result }
{
    if registry.row(key).is_some() {
        return HubFault::Session { fault: STOPPED };
    }
    match registry.miss(key, now) {
        Ok(()) => HubFault::NoSession,
        Err(_) => HubFault::NoMemory,
    }
}

/// The rows whose grace is over expire, and their sessions end. Answers how many these are.
pub(crate) fn expire(
    registry: &mut Registry,
    sessions: &mut BTreeMap<Key, SessionEntry>,
    now: Moment,
) -> u64
    ensures rows { Expires registry.old now result registry.new }
    ensures sessions { EndsAll (drop (length registry.old.history) registry.new.history) sessions.old sessions.new }
{
    let before = registry.history().len();
    let expired = registry.expire(now);
    end_all(sessions, &registry.history()[before..]);
    expired
}
