//! A keeper whose disk stops: the request is answered by that, and the hub goes on serving the sessions that it has.
ghost use Rattle.std.specs.Prelude.{◌<◌, ◌≢◌, Some, IfOk};
ghost use Rattle.ra_base.specs.declared.kind.Kind.TheVariants as kinds;

use crate::fixtures::{LONG, SHORT, adopt, at, fused};
use ra_base::{Kind, Request, Seat, Token};
use ra_hub::{Hub, HubFault, PlainHub};
use ra_keep::Keeper;
use ra_session::Turn;
use std::alloc::Global;
use std::test::*;

/// The context `window` and Initialize: messages 1 and 2 of a client, as frames.
const OPENING: &[u8] =
    b"\x01\0\0\0\x01\0\0\0\0\0\0\0\x08\x01\x06window\x01\0\0\0\x02\0\0\0\0\0\0\0\x06\x04\x01\x06\xc8\x01\0";

/// Initialize: message 1 of a server.
const SERVER_1: &[u8] = b"\x01\0\0\0\x01\0\0\0\x01\0\0\0\x06\x04\x01\x06\xc8\x01\0";

/// Whether a turn writes these bytes.
fn writes(turn: Result<Turn, HubFault>, bytes: &[u8]) -> bool {
    turn.is_ok_and(|turn| turn.out.as_slice() == bytes)
}

/// A request for a session of a window.
fn window(text: &str) -> Result<Request, Fail>
    ensures { IfOk result (λ ask. ask.kind ≢ Some kinds.Tunnel) }
{
    Ok(Request {
        kind: Some(Kind::Management),
        token: Token::from_text(text)?,
        reconnection: false,
    })
}

/// Whether the session of the seat greets its window.
#[tactic(auto, using(ra_hub::proofs::SeatLemmas::seat_stays))]
fn greets<H: Hub>(hub: &mut H, alloc: Global, seat: &Seat) -> bool
    requires { 0 < H.seats hub.old seat.now }
{
    let attached = hub.attach(alloc, seat, &[], at(7)).is_ok();
    let greeted = writes(hub.turn(alloc, seat, OPENING, at(7)), SERVER_1);
    attached && greeted
}

/// Whether a request for a second session is answered by the keeper's failure. The seat that was given is still there.
#[tactic(auto, using(ra_hub::proofs::SeatLemmas::seat_left, ra_hub::proofs::SeatLemmas::seat_stays))]
fn is_not_kept<H: Hub>(hub: &mut H, alloc: Global, seat: &Seat) -> Result<bool, Fail>
    requires { 0 < H.seats hub.old seat.now }
    ensures { 0 < H.seats hub.new seat.now }
{
    let ask = window("t2")?;
    Ok(matches!(hub.admit(alloc, ask, at(5)), Err(HubFault::KeepFault)))
}

/// How a run over such a disk went: nothing of use, as the disk stopped too early or never; or whether the first session was served behind
/// the failure.
fn serves<H: Hub>(hub: &mut H, alloc: Global) -> Result<Option<bool>, Fail> {
    let ask = window("t1")?;
    let Ok(seat) = hub.admit(alloc, ask, at(0)) else {
        return Ok(None);
    };
    if !is_not_kept(hub, alloc, &seat)? {
        return Ok(None);
    }
    Ok(Some(greets(hub, alloc, &seat)))
}

fn runs<R: Keeper + Drop>(alloc: Global, keeper: R) -> Result<Option<bool>, Fail> {
    let Ok(mut hub) = PlainHub::start(alloc, keeper, LONG, SHORT) else {
        return Ok(None);
    };
    serves(&mut hub, alloc)
}

/// A hub over a disk that stops at the call behind so many.
fn stops(alloc: Global, calls: u64) -> Result<Option<bool>, Fail> {
    match adopt(alloc, fused(alloc, calls), 1_000) {
        Ok(keeper) => runs(alloc, keeper),
        Err(_) => Ok(None),
    }
}

/// How often the first session was served behind the failure, and how often not, where the disk stops behind up to so many calls.
fn counts(alloc: Global, most: u64) -> Result<(u32, u32), Fail> {
    let mut served = 0u32;
    let mut not_served = 0u32;
    for calls in 0..most {
        match stops(alloc, calls)? {
            Some(true) => served = served.saturating_add(1),
            Some(false) => not_served = not_served.saturating_add(1),
            None => {}
        }
    }
    Ok((served, not_served))
}

#[test]
fn a_disk_stops_and_sessions_go_on(rt: HostRuntime) -> Result<(), Fail> {
    let (served, not_served) = counts(rt.alloc(), 60)?;
    assert!(rt; served > 0);
    assert_eq!(rt; not_served, 0);
    Ok(())
}
