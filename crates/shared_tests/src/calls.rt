//! Calls of a hub, of sessions that have numbers.
ghost use Rattle.std.specs.Prelude.{◌≡◌, ◌≢◌, ◌<◌, Some, IfSome};
ghost use Rattle.ra_base.specs.declared.key.Seat.{Seat};
ghost use Rattle.ra_base.specs.declared.kind.Kind.TheVariants as kinds;

use ra_base::{Cause, Key, Kind, Moment, Reason, Request, Seat, Token};
use ra_hub::{Hub, HubFault};
use ra_ipc::Answer;
use ra_session::{SessionFault, Tell};
use ra_values::Value;
use std::alloc::Global;

/// This moment, or the first one where there is none.
pub(crate) fn at(millis: u64) -> Moment {
    match Moment::of_millis(millis) {
        Some(moment) => moment,
        None => Moment::start(),
    }
}

/// The request for a session, or a reconnection.
pub(crate) fn ask(alloc: Global, number: u64, reconnection: bool) -> Option<Request>
    ensures { IfSome result (λ ask. ask.kind ≢ Some kinds.Tunnel) }
{
    let text = format!(in alloc; "t{number}").ok()?;
    let token = Token::from_text(text.as_str()).ok()?;
    Some(Request {
        kind: Some(Kind::Management),
        token,
        reconnection,
    })
}

pub(crate) fn key(alloc: Global, number: u64) -> Option<Key> {
    let ask = ask(alloc, number, false)?;
    Some(Key {
        kind: Kind::Management,
        token: ask.token,
    })
}

/// A new session, or a reconnection.
#[tactic(auto, using(ra_hub::proofs::SeatLemmas::seat_left))]
pub(crate) fn admit<H: Hub>(
    hub: &mut H,
    alloc: Global,
    number: u64,
    reconnection: bool,
    millis: u64,
) -> Option<Seat>
    ensures seat { IfSome result (λ seat. 0 < H.seats hub.new seat) }
    ensures others { IfSome result (λ seat. (s : Seat) → 0 < H.seats hub.old s → 0 < H.seats hub.new s) }
{
    let ask = ask(alloc, number, reconnection)?;
    hub.admit(alloc, ask, at(millis)).ok()
}

/// Why a request is refused.
pub(crate) fn refusal<H: Hub>(
    hub: &mut H,
    alloc: Global,
    number: u64,
    reconnection: bool,
    millis: u64,
) -> Option<Reason> {
    let ask = ask(alloc, number, reconnection)?;
    match hub.admit(alloc, ask, at(millis)) {
        Err(HubFault::Refused { reason }) => Some(reason),
        Ok(_) | Err(_) => None,
    }
}

/// Whether the record of an acceptance is not kept.
pub(crate) fn is_not_kept<H: Hub>(hub: &mut H, alloc: Global, number: u64, millis: u64) -> bool {
    match ask(alloc, number, false) {
        Some(ask) => matches!(hub.admit(alloc, ask, at(millis)), Err(HubFault::KeepFault)),
        None => false,
    }
}

/// Asks for a session, and loses its link.
pub(crate) fn come_and_go<H: Hub>(hub: &mut H, alloc: Global, number: u64) -> bool {
    match admit(hub, alloc, number, false, 0) {
        Some(seat) => {
            hub.lost(seat, at(0));
            true
        }
        None => false,
    }
}

/// The application answers the call with this id by the number 2.
pub(crate) fn answer<H: Hub>(
    hub: &mut H,
    alloc: Global,
    number: u64,
    id: i32,
    millis: u64,
) -> Result<(), HubFault>
    ensures { (s : Seat) → 0 < H.seats hub.old s → 0 < H.seats hub.new s }
{
    let Some(key) = key(alloc, number) else {
        return Err(HubFault::NoMemory);
    };
    let body = Value::Int { n: 2 };
    let answer = Answer::Success { body };
    let fire = None;
    hub.tell(alloc, &key, Tell::Answer { id, answer, fire }, at(millis))
}

/// How a session has ended, by what an answer for it is refused with.
pub(crate) fn cause<H: Hub>(hub: &mut H, alloc: Global, number: u64, millis: u64) -> Option<Cause> {
    match answer(hub, alloc, number, 0, millis) {
        Err(
            HubFault::Session {
                fault: SessionFault::Ended { cause },
            },
        ) => Some(cause),
        Ok(()) | Err(_) => None,
    }
}
