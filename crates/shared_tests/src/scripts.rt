//! A script for any hub: two sessions are called in turn, answered without a link, and hear it over their second one.
ghost use Rattle.std.specs.Prelude.{◌≡◌, ◌<◌, Some, IfSome};
ghost use Rattle.ra_base.specs.declared.key.Seat.{Seat};

use crate::calls::{admit, answer, at};
use ra_base::Seat;
use ra_hub::{Hub, HubFault};
use ra_session::Turn;
use std::alloc::Global;

/// Messages 1 and 2 of a client: its context and Initialize.
const OPENING: &[u8] =
    b"\x01\0\0\0\x01\0\0\0\0\0\0\0\x08\x01\x06window\x01\0\0\0\x02\0\0\0\0\0\0\0\x06\x04\x01\x06\xc8\x01\0";

/// Message 3 of a client: the call `echo` of the text `hi`.
const CLIENT_3: &[u8] =
    b"\x01\0\0\0\x03\0\0\0\x01\0\0\0\x17\x04\x04\x06\x64\x06\0\x01\x05tools\x01\x04echo\x01\x02hi";

/// A link begins.
#[tactic(auto, using(ra_hub::proofs::SeatLemmas::seat_stays))]
fn attach<H: Hub>(hub: &mut H, alloc: Global, seat: &Seat) -> bool
    requires { 0 < H.seats hub.old seat.now }
    ensures { (s : Seat) → 0 < H.seats hub.old s → 0 < H.seats hub.new s }
{
    hub.attach(alloc, seat, &[], at(0)).is_ok()
}

/// Bytes come, and one frame is applied.
#[tactic(auto, using(ra_hub::proofs::SeatLemmas::seat_stays))]
fn turn<H: Hub>(hub: &mut H, alloc: Global, seat: &Seat, piece: &[u8]) -> Result<Turn, HubFault>
    requires { 0 < H.seats hub.old seat.now }
    ensures { (s : Seat) → 0 < H.seats hub.old s → 0 < H.seats hub.new s }
{
    hub.turn(alloc, seat, piece, at(0))
}

/// Writes what a turn hands out. False where there is none.
fn hears(bytes: &mut Vec<u8>, turn: Result<Turn, HubFault>) -> bool {
    match turn {
        Ok(turn) => bytes.extend_from_slice(turn.out.as_slice()).is_ok(),
        Err(_) => false,
    }
}

/// The session hears the context and Initialize, and then a call.
fn is_called<H: Hub>(hub: &mut H, alloc: Global, seat: &Seat, bytes: &mut Vec<u8>) -> bool
    requires { 0 < H.seats hub.old seat.now }
    ensures { (s : Seat) → 0 < H.seats hub.old s → 0 < H.seats hub.new s }
{
    let attached = attach(hub, alloc, seat);
    let opened = hears(bytes, turn(hub, alloc, seat, OPENING));
    let ready = hears(bytes, turn(hub, alloc, seat, &[]));
    let called = hears(bytes, turn(hub, alloc, seat, CLIENT_3));
    attached && opened && ready && called
}

/// The link is lost.
fn lose<H: Hub>(hub: &mut H, seat: Seat)
    requires { 0 < H.seats hub.old seat }
{
    hub.lost(seat, at(0));
}

/// A session is called over its first link.
fn called_first<H: Hub>(hub: &mut H, alloc: Global, number: u64, bytes: &mut Vec<u8>) -> bool {
    let Some(first) = admit(hub, alloc, number, false, 0) else {
        return false;
    };
    let called = is_called(hub, alloc, &first, bytes);
    lose(hub, first);
    called
}

/// The call is answered over the second link.
fn answered_later<H: Hub>(hub: &mut H, alloc: Global, number: u64, bytes: &mut Vec<u8>) -> bool {
    let Some(second) = admit(hub, alloc, number, true, 0) else {
        return false;
    };
    let attached = attach(hub, alloc, &second);
    let answered = hears(bytes, turn(hub, alloc, &second, &[]));
    lose(hub, second);
    attached && answered
}

/// The bytes that two sessions hand out, in turn; None where a call is refused.
pub(crate) fn both_hear<H: Hub>(hub: &mut H, alloc: Global) -> Option<Vec<u8>> {
    let mut bytes = Vec::new(alloc);
    let called = called_first(hub, alloc, 1, &mut bytes) && called_first(hub, alloc, 2, &mut bytes);
    let told = answer(hub, alloc, 2, 0, 0).is_ok() && answer(hub, alloc, 1, 0, 0).is_ok();
    let heard = answered_later(hub, alloc, 1, &mut bytes)
        && answered_later(hub, alloc, 2, &mut bytes);
    if called && told && heard {
        Some(bytes)
    } else {
        None
    }
}
